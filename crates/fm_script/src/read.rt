ghost use Rattle.std.specs.Prelude.{◌≡◌, ℕ, ◌++◌, true, length, map, IfOk, IfSome, MatchOption, Some, None};
ghost use Rattle.std.specs.Option.{option_map};
ghost use Rattle.fm_base.specs.declared.refusal.Fail.TheVariants as fail;
ghost use Rattle.fm_sexp.specs.Items.{spans_within, all_within};
ghost use Rattle.fm_script.specs.Commands.{bad_shape, unknown_command, too_wide, AreLevels, IsAnswer, command_of, list_command, by_head as by_head_of, by_later_head as by_later_head_of, set_logic_of, set_option_of, set_info_of, get_info_of, declare_sort_of, define_sort_of, declare_const_of, declare_fun_of, define_fun_of, assert_of, levels_of, push_of, pop_of, get_value_of, echo_of, alone as alone_of, parameter_of, parameters_of};
ghost use Rattle.fm_script.specs.Shown.{IsShownBy, name_shown, pair_shown, shown};
ghost use Rattle.fm_script.specs.Within.{AreWithinBy, parts_within};

use crate::command::{Command, Number, Part};
use crate::words::{
    are_sorts, digits, is_sort, is_switch, is_truth_name, keyword, literal, members, name, numeral,
    place, references, symbol,
};
use fm_base::{Fail, Place, Reason, Refusal};
use fm_sexp::Sexp;
use std::alloc::{AllocError, Global};

/// Reads an item of a text as a command. Refused are a list whose head is no command (`UnknownCommand` at the list),
/// an item that hasn't the shape of a command or of its row (`BadShape` at the item; for an option with the wrong
/// item at that item), and a numeral of 2^64 or more (`NumberTooWide` at it).
pub fn read_command<'a>(alloc: Global, text: &'a [u8], sexp: &'a Sexp) -> Result<Command<'a>, Fail>
    requires { spans_within (length text.now) sexp.now ≡ true }
    ensures answer { IsAnswer result (command_of text.now sexp.now) }
    ensures within { IfOk result (λ c. parts_within (length text.now) (shown c) ≡ true) }
{
    match sexp {
        Sexp::Word { at, .. } => Err(shape_at(*at)),
        Sexp::List { items, at, .. } => command_in(alloc, text, *at, items.as_slice()),
    }
}

fn shape_at(at: Place) -> Fail
    ensures { result ≡ fail.Refused (bad_shape at) }
{
    let reason = Reason::BadShape;
    Fail::Refused(Refusal { reason, at })
}

fn unknown_at(at: Place) -> Fail
    ensures { result ≡ fail.Refused (unknown_command at) }
{
    let reason = Reason::UnknownCommand;
    Fail::Refused(Refusal { reason, at })
}

fn wide_at(at: Place) -> Fail
    ensures { result ≡ fail.Refused (too_wide at) }
{
    let reason = Reason::NumberTooWide;
    Fail::Refused(Refusal { reason, at })
}

fn command_in<'a>(
    alloc: Global,
    text: &'a [u8],
    at: Place,
    items: &'a [Sexp],
) -> Result<Command<'a>, Fail>
    requires { all_within (length text.now) items.now ≡ true }
    ensures answer { IsAnswer result (list_command text.now at items.now) }
    ensures within { IfOk result (λ c. parts_within (length text.now) (shown c) ≡ true) }
{
    let Some((first, parts)) = items.split_first() else {
        return Err(shape_at(at));
    };
    match symbol(text, first) {
        Some(head) => by_head(alloc, text, at, head, parts),
        None => Err(shape_at(at)),
    }
}

fn by_head<'a>(
    alloc: Global,
    text: &'a [u8],
    at: Place,
    head: &[u8],
    parts: &'a [Sexp],
) -> Result<Command<'a>, Fail>
    requires { all_within (length text.now) parts.now ≡ true }
    ensures answer { IsAnswer result (by_head_of text.now at head.now parts.now) }
    ensures within { IfOk result (λ c. parts_within (length text.now) (shown c) ≡ true) }
{
    if head == b"set-logic".as_slice() {
        set_logic(text, at, parts)
    } else if head == b"set-option".as_slice() {
        set_option(text, at, parts)
    } else if head == b"set-info".as_slice() {
        set_info(text, at, parts)
    } else if head == b"get-info".as_slice() {
        get_info(text, at, parts)
    } else if head == b"declare-sort".as_slice() {
        declare_sort(text, at, parts)
    } else if head == b"define-sort".as_slice() {
        define_sort(text, at, parts)
    } else if head == b"declare-const".as_slice() {
        declare_const(text, at, parts)
    } else if head == b"declare-fun".as_slice() {
        declare_fun(alloc, text, at, parts)
    } else if head == b"define-fun".as_slice() {
        define_fun(alloc, text, at, parts)
    } else {
        by_later_head(alloc, text, at, head, parts)
    }
}

fn by_later_head<'a>(
    alloc: Global,
    text: &'a [u8],
    at: Place,
    head: &[u8],
    parts: &'a [Sexp],
) -> Result<Command<'a>, Fail>
    requires { all_within (length text.now) parts.now ≡ true }
    ensures answer { IsAnswer result (by_later_head_of text.now at head.now parts.now) }
    ensures within { IfOk result (λ c. parts_within (length text.now) (shown c) ≡ true) }
{
    if head == b"assert".as_slice() {
        assertion(at, parts)
    } else if head == b"push".as_slice() {
        push(text, at, parts)
    } else if head == b"pop".as_slice() {
        pop(text, at, parts)
    } else if head == b"check-sat".as_slice() {
        alone(at, Command::CheckSat { at }, parts)
    } else if head == b"get-model".as_slice() {
        alone(at, Command::GetModel { at }, parts)
    } else if head == b"exit".as_slice() {
        alone(at, Command::Exit { at }, parts)
    } else if head == b"get-value".as_slice() {
        get_value(alloc, at, parts)
    } else if head == b"echo".as_slice() {
        echo(text, at, parts)
    } else {
        Err(unknown_at(at))
    }
}

fn set_logic<'a>(text: &'a [u8], at: Place, parts: &[Sexp]) -> Result<Command<'a>, Fail>
    requires { all_within (length text.now) parts.now ≡ true }
    ensures answer { IsAnswer result (set_logic_of text.now at parts.now) }
    ensures within { IfOk result (λ c. parts_within (length text.now) (shown c) ≡ true) }
{
    let [first] = parts else {
        return Err(shape_at(at));
    };
    match name(text, first) {
        Some(name) => Ok(Command::SetLogic { at, name }),
        None => Err(shape_at(at)),
    }
}

fn set_option<'a>(text: &'a [u8], at: Place, parts: &'a [Sexp]) -> Result<Command<'a>, Fail>
    requires { all_within (length text.now) parts.now ≡ true }
    ensures answer { IsAnswer result (set_option_of text.now at parts.now) }
    ensures within { IfOk result (λ c. parts_within (length text.now) (shown c) ≡ true) }
{
    let [first, item] = parts else {
        return Err(shape_at(at));
    };
    match keyword(text, first) {
        Some(keyword) => {
            if is_switch(keyword.bytes) && !is_truth_name(text, item) {
                return Err(shape_at(place(item)));
            }
            Ok(Command::SetOption { at, keyword, item })
        }
        None => Err(shape_at(at)),
    }
}

fn set_info<'a>(text: &'a [u8], at: Place, parts: &'a [Sexp]) -> Result<Command<'a>, Fail>
    requires { all_within (length text.now) parts.now ≡ true }
    ensures answer { IsAnswer result (set_info_of text.now at parts.now) }
    ensures within { IfOk result (λ c. parts_within (length text.now) (shown c) ≡ true) }
{
    let (first, item) = match parts {
        [first] => (first, None),
        [first, item] => (first, Some(item)),
        _ => return Err(shape_at(at)),
    };
    match keyword(text, first) {
        Some(keyword) => Ok(Command::SetInfo { at, keyword, item }),
        None => Err(shape_at(at)),
    }
}

fn get_info<'a>(text: &'a [u8], at: Place, parts: &[Sexp]) -> Result<Command<'a>, Fail>
    requires { all_within (length text.now) parts.now ≡ true }
    ensures answer { IsAnswer result (get_info_of text.now at parts.now) }
    ensures within { IfOk result (λ c. parts_within (length text.now) (shown c) ≡ true) }
{
    let [first] = parts else {
        return Err(shape_at(at));
    };
    match keyword(text, first) {
        Some(keyword) => Ok(Command::GetInfo { at, keyword }),
        None => Err(shape_at(at)),
    }
}

fn declare_sort<'a>(text: &'a [u8], at: Place, parts: &[Sexp]) -> Result<Command<'a>, Fail>
    requires { all_within (length text.now) parts.now ≡ true }
    ensures answer { IsAnswer result (declare_sort_of text.now at parts.now) }
    ensures within { IfOk result (λ c. parts_within (length text.now) (shown c) ≡ true) }
{
    let [first, second] = parts else {
        return Err(shape_at(at));
    };
    match (name(text, first), digits(text, second)) {
        (Some(name), Some(digits)) => match numeral(digits) {
            Some(arity) => Ok(Command::DeclareSort { at, name, arity }),
            None => Err(wide_at(digits.at)),
        },
        _ => Err(shape_at(at)),
    }
}

fn define_sort<'a>(text: &'a [u8], at: Place, parts: &'a [Sexp]) -> Result<Command<'a>, Fail>
    requires { all_within (length text.now) parts.now ≡ true }
    ensures answer { IsAnswer result (define_sort_of text.now at parts.now) }
    ensures within { IfOk result (λ c. parts_within (length text.now) (shown c) ≡ true) }
{
    let [first, params, sort] = parts else {
        return Err(shape_at(at));
    };
    match name(text, first) {
        Some(name) if members(params).is_some() && is_sort(text, sort) => {
            Ok(Command::DefineSort {
                at,
                name,
                params,
                sort,
            })
        }
        _ => Err(shape_at(at)),
    }
}

fn declare_const<'a>(text: &'a [u8], at: Place, parts: &'a [Sexp]) -> Result<Command<'a>, Fail>
    requires { all_within (length text.now) parts.now ≡ true }
    ensures answer { IsAnswer result (declare_const_of text.now at parts.now) }
    ensures within { IfOk result (λ c. parts_within (length text.now) (shown c) ≡ true) }
{
    let [first, sort] = parts else {
        return Err(shape_at(at));
    };
    match name(text, first) {
        Some(name) if is_sort(text, sort) => Ok(Command::DeclareConst { at, name, sort }),
        _ => Err(shape_at(at)),
    }
}

fn declare_fun<'a>(
    alloc: Global,
    text: &'a [u8],
    at: Place,
    parts: &'a [Sexp],
) -> Result<Command<'a>, Fail>
    requires { all_within (length text.now) parts.now ≡ true }
    ensures answer { IsAnswer result (declare_fun_of text.now at parts.now) }
    ensures within { IfOk result (λ c. parts_within (length text.now) (shown c) ≡ true) }
{
    let [first, list, sort] = parts else {
        return Err(shape_at(at));
    };
    match (name(text, first), list) {
        (Some(name), Sexp::List { items, .. })
            if are_sorts(text, items.as_slice()) && is_sort(text, sort) => {
            let args = references(alloc, items.as_slice())?;
            Ok(Command::DeclareFun {
                at,
                name,
                args,
                sort,
            })
        }
        _ => Err(shape_at(at)),
    }
}

/// A parameter: a name and a sort.
fn parameter<'a>(text: &'a [u8], item: &'a Sexp) -> Option<(Part<'a>, &'a Sexp)>
    requires { spans_within (length text.now) item.now ≡ true }
    ensures value { option_map (λ p. (name_shown p.0, p.1.now)) result ≡ parameter_of text.now item.now }
    ensures within { IfSome result (λ p. spans_within (length text.now) p.1.now ≡ true) }
{
    let Sexp::List { items, .. } = item else {
        return None;
    };
    let [first, sort] = items.as_slice() else {
        return None;
    };
    match name(text, first) {
        Some(name) if is_sort(text, sort) => Some((name, sort)),
        _ => None,
    }
}

/// The names with their sorts that a list of parameters, or of quantified variables, has; None where an item is no such
/// pair.
pub fn parameters<'a>(
    alloc: Global,
    text: &'a [u8],
    items: &'a [Sexp],
) -> Result<Option<Vec<(Part<'a>, &'a Sexp)>>, AllocError>
    requires { all_within (length text.now) items.now ≡ true }
    ensures value { IfOk result (λ o. IsShownBy (parameters_of text.now items.now) (λ v. map pair_shown v.items) o) }
    ensures within { IfOk result (λ o. AreWithinBy (length text.now) (λ v. map pair_shown v.items) o) }
{
    let mut list = Vec::new(alloc);
    for item in items {
        match parameter(text, item) {
            Some(pair) => list.push(pair)?,
            None => return Ok(None),
        }
    }
    Ok(Some(list))
}

fn define_fun<'a>(
    alloc: Global,
    text: &'a [u8],
    at: Place,
    parts: &'a [Sexp],
) -> Result<Command<'a>, Fail>
    requires { all_within (length text.now) parts.now ≡ true }
    ensures answer { IsAnswer result (define_fun_of text.now at parts.now) }
    ensures within { IfOk result (λ c. parts_within (length text.now) (shown c) ≡ true) }
{
    let [first, list, sort, body] = parts else {
        return Err(shape_at(at));
    };
    let (Some(name), Sexp::List { items, .. }) = (name(text, first), list) else {
        return Err(shape_at(at));
    };
    match parameters(alloc, text, items.as_slice())? {
        Some(params) if is_sort(text, sort) => Ok(Command::DefineFun {
            at,
            name,
            params,
            sort,
            body,
        }),
        _ => Err(shape_at(at)),
    }
}

fn assertion<'a>(at: Place, parts: &'a [Sexp]) -> Result<Command<'a>, Fail>
    ensures answer { IsAnswer result (assert_of at parts.now) }
    ensures within { (n : ℕ) → all_within n parts.now ≡ true → IfOk result (λ c. parts_within n (shown c) ≡ true) }
{
    let [term] = parts else {
        return Err(shape_at(at));
    };
    Ok(Command::Assert { at, term })
}

// The levels of a `push` or a `pop`, if a numeral stands there.
fn levels(text: &[u8], at: Place, parts: &[Sexp]) -> Result<Option<Number>, Fail>
    requires { all_within (length text.now) parts.now ≡ true }
    ensures { AreLevels result (levels_of text.now at parts.now) }
{
    let first = match parts {
        [] => return Ok(None),
        [first] => first,
        _ => return Err(shape_at(at)),
    };
    match digits(text, first) {
        Some(digits) => match numeral(digits) {
            Some(levels) => Ok(Some(levels)),
            None => Err(wide_at(digits.at)),
        },
        None => Err(shape_at(at)),
    }
}

fn push<'a>(text: &'a [u8], at: Place, parts: &[Sexp]) -> Result<Command<'a>, Fail>
    requires { all_within (length text.now) parts.now ≡ true }
    ensures answer { IsAnswer result (push_of text.now at parts.now) }
    ensures within { IfOk result (λ c. parts_within (length text.now) (shown c) ≡ true) }
{
    match levels(text, at, parts) {
        Ok(levels) => Ok(Command::Push { at, levels }),
        Err(fail) => Err(fail),
    }
}

fn pop<'a>(text: &'a [u8], at: Place, parts: &[Sexp]) -> Result<Command<'a>, Fail>
    requires { all_within (length text.now) parts.now ≡ true }
    ensures answer { IsAnswer result (pop_of text.now at parts.now) }
    ensures within { IfOk result (λ c. parts_within (length text.now) (shown c) ≡ true) }
{
    match levels(text, at, parts) {
        Ok(levels) => Ok(Command::Pop { at, levels }),
        Err(fail) => Err(fail),
    }
}

// A command without parts.
fn alone<'a>(at: Place, command: Command<'a>, parts: &[Sexp]) -> Result<Command<'a>, Fail>
    ensures answer { IsAnswer result (alone_of at (shown command.entry) parts.now) }
    ensures within { (n : ℕ) → parts_within n (shown command.entry) ≡ true →
        IfOk result (λ c. parts_within n (shown c) ≡ true) }
{
    if parts.is_empty() {
        Ok(command)
    } else {
        Err(shape_at(at))
    }
}

fn get_value<'a>(alloc: Global, at: Place, parts: &'a [Sexp]) -> Result<Command<'a>, Fail>
    ensures answer { IsAnswer result (get_value_of at parts.now) }
    ensures within { (n : ℕ) → all_within n parts.now ≡ true → IfOk result (λ c. parts_within n (shown c) ≡ true) }
{
    let [Sexp::List { items, .. }] = parts else {
        return Err(shape_at(at));
    };
    if items.is_empty() {
        return Err(shape_at(at));
    }
    let terms = references(alloc, items.as_slice())?;
    Ok(Command::GetValue { at, terms })
}

fn echo<'a>(text: &'a [u8], at: Place, parts: &[Sexp]) -> Result<Command<'a>, Fail>
    requires { all_within (length text.now) parts.now ≡ true }
    ensures answer { IsAnswer result (echo_of text.now at parts.now) }
    ensures within { IfOk result (λ c. parts_within (length text.now) (shown c) ≡ true) }
{
    let [first] = parts else {
        return Err(shape_at(at));
    };
    match literal(text, first) {
        Some(text) => Ok(Command::Echo { at, text }),
        None => Err(shape_at(at)),
    }
}
