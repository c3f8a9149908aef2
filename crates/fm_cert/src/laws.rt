ghost use Rattle.fm_cert.specs.Blockwise.{ReadBlocksComeFirst};
ghost use Rattle.fm_cert.specs.Claims.{BlocksAreSound, GoodLinesHold};
ghost use Rattle.fm_cert.specs.Fits.{ReadBlocksPrint};
ghost use Rattle.fm_cert.specs.Outside.{NoTextIsBoth, OutsideIsOneLine, SpellingIsOfOne};

/// The claim of a good block holds. It is a law of the definitions and does nothing.
pub fn blocks_are_sound()
    ensures { BlocksAreSound }
{}

/// The clauses of good lines hold in every interpretation. It is a law of the definitions and does nothing.
pub fn good_lines_hold()
    ensures { GoodLinesHold }
{}

/// A text that blocks spell isn't outside the grammar. It is a law of the definitions and does nothing.
pub fn not_both()
    ensures { NoTextIsBoth }
{}

/// A text leaves the grammar at one line. It is a law of the definitions and does nothing.
pub fn one_line()
    ensures { OutsideIsOneLine }
{}

/// A text is spelled by one list of blocks. It is a law of the definitions and does nothing.
pub fn one_certificate()
    ensures { SpellingIsOfOne }
{}

/// A block that was read can be printed. It is a law of the definitions and does nothing.
pub fn read_blocks_print()
    ensures { ReadBlocksPrint }
{}

/// The blocks that a reader has read are the first ones of those that the whole text spells, where some do. It is a law of
/// the definitions and does nothing.
pub fn read_blocks_come_first()
    ensures { ReadBlocksComeFirst }
{}
