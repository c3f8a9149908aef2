ghost use Rattle.std.specs.Prelude.{◌≡◌, ◌||◌};
ghost use Rattle.std.specs.Option.{option_map};
ghost use Rattle.fm_apply.specs.Applied.{is_core as is_core_of, is_kept_for_solvers as is_kept_of};
ghost use Rattle.fm_apply.specs.Applied.{is_operator as is_operator_of, is_own as is_own_of, is_truth as is_truth_of};
ghost use Rattle.fm_apply.specs.Scoped.{IsInForceByName, TakesName};

use crate::scope::Scope;
use fm_levels::Table;

/// A name of Core that takes arguments.
pub(crate) fn is_operator(name: &[u8]) -> bool
    ensures { result ≡ is_operator_of name.now }
{
    (name == b"not".as_slice()
        || name == b"and".as_slice()
        || name == b"or".as_slice()
        || name == b"ite".as_slice())
        || (name == b"=>".as_slice()
            || name == b"xor".as_slice()
            || name == b"=".as_slice()
            || name == b"distinct".as_slice())
}

/// The name of a truth value.
pub(crate) fn is_truth(name: &[u8]) -> bool
    ensures { result ≡ is_truth_of name.now }
{
    name == b"true".as_slice() || name == b"false".as_slice()
}

/// A name of the Core theory, which no script declares.
pub fn is_core(name: &[u8]) -> bool
    ensures { result ≡ is_core_of name.now }
{
    name == b"Bool".as_slice() || (is_truth(name) || is_operator(name))
}

/// A name that begins with `@` or `.`, which no script declares.
pub fn is_kept_for_solvers(name: &[u8]) -> bool
    ensures { result ≡ is_kept_of name.now }
{
    match name.split_first() {
        None => false,
        Some((first, _)) => *first == b'@' || *first == b'.',
    }
}

// The name that the command defines.
fn is_own(own: Option<&[u8]>, name: &[u8]) -> bool
    ensures { result ≡ is_own_of (option_map (λ n. n.now) own.entry) name.now }
{
    match own {
        None => false,
        Some(own) => own == name,
    }
}

// Whether no script may declare a name.
fn is_barred(name: &[u8]) -> bool
    ensures { result ≡ (is_core_of name.now || is_kept_of name.now) }
{
    is_core(name) || is_kept_for_solvers(name)
}

// Whether a function or a term that was given a name has this name.
fn is_in_force(scope: &Scope<'_, '_>, given: &Table<'_, usize>, name: &[u8]) -> bool
    ensures { IsInForceByName scope.now given.now name.now result }
{
    scope.functions.has(name) || given.has(name)
}

/// Whether a name is taken among functions, or may not be given.
pub fn is_taken(scope: &Scope<'_, '_>, given: &Table<'_, usize>, name: &[u8]) -> bool
    ensures { TakesName scope.now given.now name.now result }
{
    is_barred(name) || (is_own(scope.own, name) || is_in_force(scope, given, name))
}
