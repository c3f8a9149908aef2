ghost use Rattle.std.specs.Prelude.{◌≡◌, length, true};
ghost use Rattle.fm_script.specs.Commands.{name_of};
ghost use Rattle.fm_script.specs.Shown.{shown};
ghost use Rattle.fm_script.specs.Within.{parts_within};
ghost use Rattle.fm_sexp.specs.Items.{spans_within};
ghost use Rattle.fm_elab.specs.Steps.{is_true_name};
ghost use Rattle.fm_session.specs.Effects.{effect, effect_where, info_effect, is_known as is_known_of, option_effect};

use fm_base::Place;
use fm_script::{Command, name};
use fm_sexp::Sexp;

/// What a command asks of a session. `Says` has a line that is the same whatever stands, and `Changes` ends what a
/// `check-sat` left standing.
#[derive(Clone, Copy, Debug)]
pub enum Act<'a> {
    Checks { at: Place },
    Says { text: &'a [u8] },
    AsksWhy,
    AsksModel { at: Place },
    Prints { on: bool },
    Changes,
    Ends,
    Passes,
}

/// What a command asks, where the assertion stack has begun or not.
pub fn act_of<'a>(text: &[u8], command: &Command<'a>, begun: bool) -> Act<'a>
    requires { parts_within (length text.now) (shown command.now) ≡ true }
    ensures { effect result ≡ effect_where text.now begun (shown command.now) }
{
    match command {
        Command::SetOption { keyword, item, .. } => option_act(
            begun,
            keyword.bytes,
            is_true(text, item),
        ),
        Command::GetInfo { keyword, .. } => info_act(keyword.bytes),
        Command::Echo { text, .. } => Act::Says { text: text.bytes },
        Command::CheckSat { at } => Act::Checks { at: *at },
        Command::GetModel { at } | Command::GetValue { at, .. } => Act::AsksModel { at: *at },
        Command::Exit { .. } => Act::Ends,
        Command::SetLogic { .. } | Command::SetInfo { .. } => Act::Passes,
        _ => Act::Changes,
    }
}

fn is_true(text: &[u8], item: &Sexp) -> bool
    requires { spans_within (length text.now) item.now ≡ true }
    ensures { result ≡ is_true_name (name_of text.now item.now) }
{
    match name(text, item) {
        Some(name) => name.bytes == b"true".as_slice(),
        None => false,
    }
}

fn is_known(begun: bool, keyword: &[u8]) -> bool
    ensures { result ≡ is_known_of begun keyword.now }
{
    (keyword == b":global-declarations".as_slice() && !begun)
        || keyword == b":produce-models".as_slice()
        || keyword == b":finite-model-find".as_slice()
}

fn option_act<'a>(begun: bool, keyword: &[u8], on: bool) -> Act<'a>
    ensures { effect result ≡ option_effect begun keyword.now on }
{
    if keyword == b":print-success".as_slice() {
        Act::Prints { on }
    } else if is_known(begun, keyword) {
        Act::Passes
    } else {
        Act::Says {
            text: b"unsupported".as_slice(),
        }
    }
}

fn info_act<'a>(keyword: &[u8]) -> Act<'a>
    ensures { effect result ≡ info_effect keyword.now }
{
    if keyword == b":name".as_slice() {
        Act::Says {
            text: b"(:name \"fmf\")".as_slice(),
        }
    } else if keyword == b":version".as_slice() {
        Act::Says {
            text: b"(:version \"1\")".as_slice(),
        }
    } else if keyword == b":error-behavior".as_slice() {
        Act::Says {
            text: b"(:error-behavior immediate-exit)".as_slice(),
        }
    } else if keyword == b":reason-unknown".as_slice() {
        Act::AsksWhy
    } else {
        Act::Says {
            text: b"unsupported".as_slice(),
        }
    }
}
