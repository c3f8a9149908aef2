ghost use Rattle.fm_region.specs.Laws.{GrownHaveLarge, GrownHoldCliques, GrownAreClosed, RegionsAreClosed, RegionsHoldCliques};

/// All regions at k are closed at k, so any k + 1 classes that are pairwise apart lie in one of them. It is a law of the
/// definitions and does nothing.
pub fn regions_hold_cliques()
    ensures closed { RegionsAreClosed }
    ensures cliques { RegionsHoldCliques }
{}

/// The same of the grown regions; and where there are more than k classes, one of them has more than k. It is a law of the
/// definitions and does nothing.
pub fn grown_regions_hold_cliques()
    ensures closed { GrownAreClosed }
    ensures cliques { GrownHoldCliques }
    ensures large { GrownHaveLarge }
{}
