ghost use Rattle.std.specs.Prelude.{List, ℕ};
ghost use Rattle.fm_base.specs.Interpretations.{Reading};
ghost use Rattle.fm_base.specs.Models.{BlocksReadEveryTuple, TablesInterpret, TruthByCases};

/// A quantifier block by a fold over the elements of its sorts means "for every tuple of elements", or "for
/// some". It is a law of the definitions and does nothing.
pub fn blocks_read_every_tuple()
    ensures { BlocksReadEveryTuple }
{}

/// Tables that fit a signature read as an interpretation of it. It is a law of the definitions and does
/// nothing.
pub fn tables_interpret()
    ensures { TablesInterpret }
{}

/// Truth and value at each constructor, as equations. It is a law of the definitions and does nothing.
pub fn truth_by_cases()
    ensures { (m : Reading) (env : List ℕ) → TruthByCases m env }
{}
