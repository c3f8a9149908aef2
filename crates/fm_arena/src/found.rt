ghost use Rattle.std.specs.Prelude.{◌≡◌, ◌≤◌, [], length, IfOk, IfSome};
ghost use Rattle.fm_arena.specs.Weights.{AreWeighedAfter, FindsForm, HasForm, IsForm, weighed_of};

use crate::forms::Form;
use crate::node::{Entry, Node};
use crate::passes::form_of;
use fm_base::Memory;
use sqlite_items::Items;
use std::alloc::Global;

fn copied(alloc: Global, form: &Form) -> Result<Form, Memory>
    ensures { IfOk result (λ f. f ≡ form.now) }
{
    let params = Items::from_slice(alloc, form.params.as_slice())?;
    Ok(Form {
        own: form.own,
        params,
    })
}

// The form that a definition keeps, where it has so many parameters.
fn node_form(
    alloc: Global,
    before: &[Entry],
    node: &Node,
    params: usize,
) -> Result<Option<Form>, Memory>
    requires { HasForm (weighed_of before.now) node.now }
    ensures form { FindsForm (weighed_of before.now) node.now result }
    ensures params { IfOk result (λ o. IfSome o (λ f. params ≤ length f.params)) }
{
    let _ = before;
    match node {
        Node::Defined { body: _, form } => {
            if form.params.as_slice().len() < params {
                return Ok(None);
            }
            Ok(Some(copied(alloc, form)?))
        }
        _ => Ok(None),
    }
}

/// What a term weighs, whatever stands for at least so many names: as its definition keeps it, or found anew.
pub(crate) fn found_form(
    alloc: Global,
    entries: &[Entry],
    number: usize,
    params: usize,
) -> Result<Form, Memory>
    requires { AreWeighedAfter [] [] entries.now }
    ensures form { IfOk result (λ f. IsForm (weighed_of entries.now) number f) }
    ensures params { IfOk result (λ f. params ≤ length f.params) }
{
    if number >= entries.len() {
        return form_of(alloc, entries, number, params);
    }
    let (before, rest) = entries.split_at(number);
    let Some((entry, _)) = rest.split_first() else {
        return form_of(alloc, entries, number, params);
    };
    match node_form(alloc, before, &entry.node, params)? {
        None => form_of(alloc, entries, number, params),
        Some(form) => Ok(form),
    }
}
