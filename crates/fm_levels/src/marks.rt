ghost use Rattle.std.specs.Prelude.{◌≡◌};
ghost use Rattle.fm_levels.specs.Cuts.{last_of};

/// How many names stood above the first level as the newest level was opened.
pub(crate) fn newest_mark(marks: &[usize]) -> usize
    ensures { result ≡ last_of marks.now }
{
    let count = marks.len();
    if count < 1 {
        return 0;
    }
    marks[count - 1]
}
