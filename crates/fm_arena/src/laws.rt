ghost use Rattle.std.specs.Prelude.{◌≡◌, ◌<◌, ◌++◌, ℕ, List, length, take};
ghost use Rattle.fm_arena.specs.Meanings.{Term, term_in};

/// A term stays as it is where further ones are added. It is a law of the definitions and does nothing.
pub fn growing_keeps_terms()
    ensures { (ts more : List Term) (n : ℕ) → n < length ts → term_in (ts ++ more) n ≡ term_in ts n }
{}

/// A term below a mark stays as it is where an arena is cut back to the mark. It is a law of the definitions
/// and does nothing.
pub fn cutting_keeps_earlier_terms()
    ensures { (ts : List Term) (mark n : ℕ) → n < mark → term_in (take mark ts) n ≡ term_in ts n }
{}
