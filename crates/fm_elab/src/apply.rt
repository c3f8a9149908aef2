ghost use Rattle.std.specs.Prelude.{◌≡◌, ◌∷◌, [], true, length, Ok};
ghost use Rattle.std.specs.Option.{option_map};
ghost use Rattle.fm_sexp.specs.Items.{spans_within};
ghost use Rattle.fm_script.specs.Shown.{name_shown, numeral_shown, shown};
ghost use Rattle.fm_script.specs.Within.{parts_within};
ghost use Rattle.fm_script.specs.Commands.{name_of};
ghost use Rattle.fm_elab.specs.Held.{state_of};
ghost use Rattle.fm_elab.specs.Steps.{Applies, count_of, is_logic as is_logic_of, is_true_name, set_option, step_of, IsLogic};

use crate::scopes::Scopes;
use fm_apply::refuse;
use fm_base::{Fail, Reason};
use fm_script::{Command, Number, Part, name};
use fm_sexp::Sexp;

fn is_logic(name: &[u8]) -> bool
    ensures { result ≡ is_logic_of name.now }
{
    name == b"UF".as_slice() || (name == b"QF_UF".as_slice() || name == b"ALL".as_slice())
}

// Whether an item is the name `true`.
fn is_true(text: &[u8], item: &Sexp) -> bool
    requires { spans_within (length text.now) item.now ≡ true }
    ensures { result ≡ is_true_name (name_of text.now item.now) }
{
    match name(text, item) {
        None => false,
        Some(part) => part.bytes == b"true".as_slice(),
    }
}

// How many levels a command opens or closes.
fn levels(count: Option<Number>) -> u64
    ensures { result ≡ count_of (option_map numeral_shown count) }
{
    match count {
        None => 1,
        Some(number) => number.value,
    }
}

// `set-logic`.
fn logic(name: Part<'_>) -> Result<(), Fail>
    ensures { IsLogic (name_shown name.entry) result }
{
    if !is_logic(name.bytes) {
        return Err(refuse(Reason::LogicRefused, name.at));
    }
    Ok(())
}

impl<'a> Scopes<'a> {
    // `set-option`.
    fn option(&mut self, text: &[u8], keyword: Part<'_>, item: &Sexp)
        requires { spans_within (length text.now) item.now ≡ true }
        ensures { state_of self.new ≡ set_option text.now (state_of self.old) (name_shown keyword.entry) item.now }
    {
        if keyword.bytes == b":global-declarations".as_slice() && !self.begun {
            self.global = is_true(text, item);
        }
    }

    /// Carries out a command that changes the assertion stack, and leaves it alone for all others; `set-logic` is tested.
    /// After a refusal and after want of memory it is as it was.
    ///
    /// Refused are, the first that is met: a logic other than `UF`, `QF_UF` and `ALL` (`LogicRefused`); a name that is
    /// taken in its kind, is one of Core, or begins with `@` or `.` (`Redeclared`); sorts and terms as `elaborate` of
    /// fm_terms has them; a term of another sort than its command asks for (`SortMismatch`); more than 65,536 levels above
    /// the first (`TooLarge`); and a `pop` of more levels than are open above the first (`PopTooMany`).
    pub fn apply(&mut self, text: &'a [u8], command: &Command<'a>) -> Result<(), Fail>
        requires within { parts_within (length text.now) (shown command.now) ≡ true }
        ensures { Applies result (state_of self.old) (step_of text.now (state_of self.old) (shown command.now))
            (state_of self.new) }
    {
        match command {
            Command::SetLogic { at: _, name } => logic(*name),
            Command::SetOption {
                at: _,
                keyword,
                item,
            } => {
                self.option(text, *keyword, item);
                Ok(())
            }
            Command::DeclareSort { at: _, name, arity } => self.declare_sort(*name, *arity),
            Command::DefineSort {
                at: _,
                name,
                params,
                sort,
            } => self.define_sort(text, *name, params, sort),
            Command::DeclareConst { at: _, name, sort } => {
                self.declare_function(text, *name, &[], sort)
            }
            Command::DeclareFun {
                at: _,
                name,
                args,
                sort,
            } => self.declare_function(text, *name, args.as_slice(), sort),
            Command::DefineFun {
                at,
                name,
                params,
                sort,
                body,
            } => self.define_function(text, *at, *name, params.as_slice(), sort, body),
            Command::Assert { at, term } => self.assert(text, *at, term),
            Command::Push { at, levels: count } => self.push(*at, levels(*count)),
            Command::Pop { at, levels: count } => self.pop(*at, levels(*count)),
            Command::SetInfo { .. }
            | Command::GetInfo { .. }
            | Command::CheckSat { .. }
            | Command::GetModel { .. }
            | Command::Exit { .. }
            | Command::GetValue { .. }
            | Command::Echo { .. } => Ok(()),
        }
    }
}
