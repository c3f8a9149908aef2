ghost use Rattle.fm_nnf.specs.KeepLaw.{ExpansionsInterpret, FormulasKeepTruth, NormalFormsKeepTruth};
ghost use Rattle.fm_nnf.specs.LiftLaw.{LiftingIsReady, LiftingSaysTheSame};
ghost use Rattle.fm_nnf.specs.NormalLaw.{NormalFormIsWithin, NormalFormSaysTheSame};

/// An interpretation makes a closed formula true exactly where it has an expansion by the symbols of its term `ite`s,
/// of the same sizes, that makes the lifted formula and all definitions true; and these are closed and have no term
/// `ite`. Other symbols may stand between the formula's own and the new ones, as those of formulas lifted before it. It
/// is a law of the definitions and does nothing.
pub fn lifting_says_the_same()
    ensures same { LiftingSaysTheSame }
    ensures ready { LiftingIsReady }
{}

/// An interpretation makes a closed formula without term `ite` true exactly where it has an expansion by the Skolem
/// functions, of the same sizes, that makes the normal form true; all symbols of the form are numbered below the end of
/// these, and its sorts are the signature's. It is a law of the definitions and does nothing.
pub fn normal_form_says_the_same()
    ensures same { NormalFormSaysTheSame }
    ensures within { NormalFormIsWithin }
{}

/// Expansions can be made one after another: each is an interpretation of the signature with its symbols, and a closed
/// formula over the symbols before it, or a normal form of these alone, is as true in it as it was. It is a law of the
/// definitions and does nothing.
pub fn expansions_keep_truth()
    ensures interprets { ExpansionsInterpret }
    ensures formulas { FormulasKeepTruth }
    ensures forms { NormalFormsKeepTruth }
{}
