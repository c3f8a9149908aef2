ghost use Rattle.std.specs.Prelude.{◌≡◌, ◌<◌, ◌++◌, ◌&&◌, not, false, get_or, length, OnOk};
ghost use Rattle.std.specs.List.{list_all};
ghost use Rattle.fm_build.specs.Marks.{AreBelow, AreTaken, MarksMore, class_at, is_marked, new_by};

use fm_base::Memory;

fn is_new(class: &[usize], marks: &[bool], taken: &[bool], n: usize) -> bool
    requires marks { n < length marks.now }
    requires classes { n < length class.now }
    requires taken { class_at class.now n < length taken.now }
    ensures { result ≡ (is_marked marks.now n && not (get_or taken.now (class_at class.now n) false)) }
{
    marks[n] && !taken[class[n]]
}

// Each class that is reached and has no representative gets its oldest reached term as one.
pub(crate) fn add_representatives(
    class: &[usize],
    marks: &[bool],
    taken: &mut [bool],
    reps: &mut Vec<usize>,
) -> Result<(), Memory>
    requires marks { length marks.now ≡ length class.now }
    requires classes { AreBelow class.now (length taken.old) }
    requires taken { AreTaken class.now taken.old reps.old.items }
    ensures reps { OnOk result (reps.new.items ≡ reps.old.items ++ new_by class.now marks.now reps.old.items (length class.now)) }
    ensures taken { OnOk result (AreTaken class.now taken.new reps.new.items) }
{
    for n in 0..class.len() {
        if is_new(class, marks, taken, n) {
            taken[class[n]] = true;
            reps.push(n)?;
        }
    }
    Ok(())
}

// Marks these too.
pub(crate) fn mark(marks: &mut [bool], terms: &[usize])
    requires { AreBelow terms.now (length marks.old) }
    ensures { MarksMore marks.old terms.now marks.new }
{
    for term in terms {
        marks[*term] = true;
    }
}

fn has_mark(marks: &[bool], term: usize) -> bool
    ensures { result ≡ is_marked marks.now term }
{
    marks.get(term).copied().unwrap_or(false)
}

pub(crate) fn are_marked(marks: &[bool], terms: &[usize]) -> bool
    ensures { result ≡ list_all (is_marked marks.now) terms.now }
{
    terms.iter().all(|term| has_mark(marks, *term))
}
