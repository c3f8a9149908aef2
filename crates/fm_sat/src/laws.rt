ghost use Rattle.fm_sat.specs.Laws.{AddingKeeps, AssertingGoesOn, DecidingKeeps, DerivationsAreChains, LevelTellsWhich, GoingBackKeeps, ImplyingKeeps, LearningGoesOn, LearningIsDetermined, UnitsAreReasons};

/// The store goes on explaining the trail when a literal is implied by a reason for it, as a unit clause is; when one
/// is decided; when the trail goes back; and when a clause is added. It is a law of the definitions and does nothing.
pub fn trails_stay_explained()
    ensures units { UnitsAreReasons }
    ensures implied { ImplyingKeeps }
    ensures decided { DecidingKeeps }
    ensures back { GoingBackKeeps }
    ensures added { AddingKeeps }
{}

/// A false clause is one to refute or one to learn from. What is learnt is added, the trail goes back to its level, and
/// its literal is implied by it: all of this can be done, and the store explains the trail then. Where no step was
/// taken, the false clause itself is the reason, and nothing is added. It is a law of the definitions and does nothing.
pub fn learning_goes_on()
    ensures which { LevelTellsWhich }
    ensures added { LearningGoesOn }
    ensures same { AssertingGoesOn }
{}

/// A derivation by the rule of the first unique implication point is a chain of resolutions, and the rule has one
/// outcome. It is a law of the definitions and does nothing.
pub fn learning_is_resolution()
    ensures chains { DerivationsAreChains }
    ensures determined { LearningIsDetermined }
{}
