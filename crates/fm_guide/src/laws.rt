ghost use Rattle.fm_guide.specs.Watches.{ExpectedIsAFront};

/// A watch that expects events agrees with those told exactly where they begin with the ones expected. It is a law of
/// the definitions and does nothing.
pub fn expected_is_a_front()
    ensures { ExpectedIsAFront }
{}
