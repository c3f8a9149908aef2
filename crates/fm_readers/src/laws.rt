ghost use Rattle.fm_readers.specs.Agreeing.{BanksKnow, ClashesAgree, ClassesAgree, PicksAgree, TestsAgree};
ghost use Rattle.fm_readers.specs.Graphs.{GraphsStay};

/// As a bank grows, what a graph holds stays: its terms are then the first ones, and what it has read is the same. It is a
/// law of the definitions and does nothing.
pub fn graphs_stay()
    ensures stay { GraphsStay }
    ensures known { BanksKnow }
{}

/// What a graph answers is what the machine's definitions say of the literals that it has read: what is equal and what is
/// apart, the classes of a sort, whether there is a clash, and the test of a sort. It is a law of the definitions and does
/// nothing.
pub fn graphs_agree()
    ensures tests { TestsAgree }
    ensures classes { ClassesAgree }
    ensures clashes { ClashesAgree }
    ensures picks { PicksAgree }
{}
