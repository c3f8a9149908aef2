ghost use Rattle.fm_build.specs.Named.{TuplesAreNamed};
ghost use Rattle.fm_build.specs.Parts.{ContentsAreGrounded};

/// The representatives of a tuple of elements are reached terms of the right sorts, and have the tuple's elements. It is a law
/// of the definitions and does nothing.
pub fn tuples_are_named()
    ensures { TuplesAreNamed }
{}

/// The clauses, the bank, the graph and the instances that `candidate` asks for make a content of which the laws of candidates
/// hold. It is a law of the definitions and does nothing.
pub fn contents_are_grounded()
    ensures { ContentsAreGrounded }
{}
