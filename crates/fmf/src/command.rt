ghost use Rattle.std.specs.Prelude.{◌≡◌, ◌↔◌, None, map, String, string_bytes};
ghost use Rattle.fm_files.specs.Seen.{Seen};
ghost use Rattle.fmf.specs.Checked.{Checked, HasCheckCauses, LeavesAlone, Verifies};
ghost use Rattle.fmf.specs.Headline.{Claims, IsComplete, LeavesOthers};
ghost use Rattle.fmf.specs.Solved.{HasCauses, Solved, Unchanged};
ghost use Rattle.fmf.specs.Words.{IfAsked, IfInquired, command_of};

use crate::check::check;
use crate::solve::solve;
use crate::status::Status;
use crate::words::{Command, read_words};
use fm_files::Files;
use std::alloc::Global;

/// Runs the command that the words give, which are the command line without the program's name.
///
/// `solve SCRIPT` reads the script whole, then answers it: the replies go to `-` and the evidence to the file `fmf.cert`, which
/// is made anew. `check SCRIPT CERT` reads the script and judges it; a refusal is answered, and then CERT isn't read. Else it
/// reads CERT and writes what each block claims and how many there are, or the first line that isn't good with the rule that it
/// breaks.
pub fn run<F: Files>(alloc: Global, words: &[String], files: &mut F) -> Status
    ensures usage { (result ≡ Status.Usage) ↔ (command_of (map (λ w. string_bytes w) words.now) ≡ None) }
    ensures unused { result ≡ Status.Usage → Unchanged (F.seen files.old) (F.seen files.new) }
    ensures solved { IfAsked words.now (λ r. Solved r (F.seen files.old) (F.seen files.new) result) }
    ensures claims { IfAsked words.now (λ r. Claims r (F.seen files.old) (F.seen files.new) result) }
    ensures complete { IfAsked words.now (λ r. IsComplete r (F.seen files.old) (F.seen files.new) result) }
    ensures others { IfAsked words.now (λ r. LeavesOthers r (F.seen files.old) (F.seen files.new)) }
    ensures causes { IfAsked words.now (λ r. HasCauses r (F.seen files.old) (F.seen files.new) result) }
    ensures checked { IfInquired words.now (λ q. Checked q (F.seen files.old) (F.seen files.new) result) }
    ensures verifies { IfInquired words.now (λ q. Verifies q (F.seen files.old) (F.seen files.new) result) }
    ensures alone { IfInquired words.now (λ q. LeavesAlone q (F.seen files.old) (F.seen files.new)) }
    ensures faults { IfInquired words.now (λ q. HasCheckCauses q (F.seen files.old) (F.seen files.new) result) }
{
    match read_words(words) {
        Some(Command::Solve(asked)) => solve(alloc, asked, files),
        Some(Command::Check(asked)) => check(alloc, asked, files),
        None => Status::Usage,
    }
}
