ghost use Rattle.fm_blocks.specs.Faults.{GoodTextsHold, NotBoth, OneFirstFault};
ghost use Rattle.fm_blocks.specs.ModelLines.{GoodLinesAreFit};

/// A certificate isn't both good and at fault. It is a law of the definitions and does nothing.
pub fn not_both()
    ensures { NotBoth }
{}

/// A certificate has one first fault. It is a law of the definitions and does nothing.
pub fn one_first_fault()
    ensures { OneFirstFault }
{}

/// The claims of a good certificate hold. It is a law of the definitions and does nothing.
pub fn good_texts_hold()
    ensures { GoodTextsHold }
{}

/// The lines of a model are good exactly where its tables are in their one form. It is a law of the definitions and does
/// nothing.
pub fn good_lines_are_fit()
    ensures { GoodLinesAreFit }
{}
