ghost use Rattle.std.specs.Prelude.{◌≡◌, length, true};
ghost use Rattle.fm_elab.specs.Held.{state_of};
ghost use Rattle.fm_script.specs.Shown.{shown};
ghost use Rattle.fm_sexp.specs.Items.{spans_within};
ghost use Rattle.fm_elab.specs.Checks.{is_check, is_exit};
ghost use Rattle.fm_check.specs.Carrying.{Carries, kind_checks, kind_ends};

use fm_base::Fail;
use fm_elab::Scopes;
use fm_script::{Command, read_command};
use fm_sexp::Sexp;
use std::alloc::Global;

// What a command is to the checker.
#[derive(Clone, Copy, PartialEq, Eq)]
pub(crate) enum Kind {
    Check,
    Exit,
    Other,
}

fn kind_of(command: &Command) -> Kind
    ensures checks { is_check (shown command.now) ≡ kind_checks result }
    ensures ends { is_exit (shown command.now) ≡ kind_ends result }
{
    match command {
        Command::CheckSat { .. } => Kind::Check,
        Command::Exit { .. } => Kind::Exit,
        _ => Kind::Other,
    }
}

/// Reads an item as a command and carries it out.
pub(crate) fn carry_out<'a>(
    alloc: Global,
    scopes: &mut Scopes<'a>,
    text: &'a [u8],
    item: &'a Sexp,
) -> Result<Kind, Fail>
    requires within { spans_within (length text.now) item.now ≡ true }
    ensures { Carries text.now (state_of scopes.old) item.now result (state_of scopes.new) }
{
    let command = read_command(alloc, text, item)?;
    scopes.apply(text, &command)?;
    Ok(kind_of(&command))
}
