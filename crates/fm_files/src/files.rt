ghost use Rattle.std.specs.Prelude.{◌≡◌, ◌≢◌, ℕ, ◌≤◌, ◌<◌, IfOk, OnOk, List, length, codes};
ghost use Rattle.std.specs.Io.{ReadsAtMost};
ghost use Rattle.fm_files.specs.Seen.{Adds, AddsSurely, Begins, BeginsSurely, HasCause, NoFault, OnlyReads, ReadsInto, ReadsSurely, Seen, WritesAt};

/// A read or a write that failed; the count of the name tells it.
#[derive(Clone, Copy, Debug, PartialEq, Eq)]
pub struct Failed;

/// Files by name. The name `-` is standard input for reading and standard output for writing.
///
/// `seen` is what a state tells of each name: the bytes left to read and the bytes written, where they are
/// known, two counts of faults that never fall, whether reading is sure, and the sure room for writing. A call that
/// answers Ok raises no count of any name.
pub trait Files {
    ghost seen: { Self → Seen };

    /// Reads some of what is left of the name into the front of `into`. `Ok(0)` for a slice that isn't empty
    /// means that nothing is left. A name that isn't there fails.
    fn read_next(&mut self, name: &str, into: &mut [u8]) -> Result<usize, Failed>
        ensures bound { ReadsAtMost result into.new }
        ensures bytes { ReadsInto (seen self.old) (seen self.new) name.now result into.new }
        ensures leaves { OnlyReads (seen self.old) (seen self.new) name.now }
        ensures cause { HasCause ((seen self.old).read_faults name.now) ((seen self.new).read_faults name.now) result }
        ensures quiet { OnOk result (NoFault (seen self.old) (seen self.new)) }
        ensures never { ReadsSurely (seen self.old) (seen self.new) name.now result };

    /// Makes the name an empty file.
    fn begin(&mut self, name: &str) -> Result<(), Failed>
        requires { name.now ≢ codes "-" }
        ensures begins { Begins ((seen self.old).written name.now) ((seen self.new).written name.now) result }
        ensures leaves { WritesAt (seen self.old) (seen self.new) name.now }
        ensures cause { HasCause ((seen self.old).write_faults name.now) ((seen self.new).write_faults name.now) result }
        ensures quiet { OnOk result (NoFault (seen self.old) (seen self.new)) }
        ensures never { BeginsSurely (seen self.old) (seen self.new) name.now result };

    /// Adds a front of `piece` to the name and answers its length, which isn't 0 where the piece isn't empty.
    fn append(&mut self, name: &str, piece: &[u8]) -> Result<usize, Failed>
        ensures bound { IfOk result (λ k. k ≤ length piece.now) }
        ensures some { IfOk result (λ k. 0 < length piece.now → 0 < k) }
        ensures adds { Adds ((seen self.old).written name.now) ((seen self.new).written name.now) result piece.now }
        ensures leaves { WritesAt (seen self.old) (seen self.new) name.now }
        ensures cause { HasCause ((seen self.old).write_faults name.now) ((seen self.new).write_faults name.now) result }
        ensures quiet { OnOk result (NoFault (seen self.old) (seen self.new)) }
        ensures never { AddsSurely (seen self.old) (seen self.new) name.now result piece.now };
}
