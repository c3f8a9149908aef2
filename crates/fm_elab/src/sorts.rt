ghost use Rattle.std.specs.Prelude.{◌≡◌, true, length};
ghost use Rattle.std.specs.Option.{option_copied};
ghost use Rattle.fm_sexp.specs.Items.{all_within, spans_within};
ghost use Rattle.fm_script.specs.Commands.{name_of, place_of_item};
ghost use Rattle.fm_apply.specs.Scoped.{IsMade};
ghost use Rattle.fm_terms.specs.Elaborate.{items_in};
ghost use Rattle.fm_terms.specs.Scoped.{ArePairsWithin, shown_pairs};
ghost use Rattle.fm_elab.specs.Held.{state_of};
ghost use Rattle.fm_elab.specs.Shown.{items_shown};
ghost use Rattle.fm_elab.specs.Steps.{argument_sort, each_sort, found_sort, sort_at};

use crate::scopes::Scopes;
use fm_apply::refuse;
use fm_base::{Fail, Place, Reason, Ty};
use fm_script::{Part, name, place};
use fm_sexp::Sexp;
use sqlite_items::Items;

// The type of a sort's name, of what stands for it.
fn found(sort: Option<&Ty>, at: Place) -> Result<Ty, Fail>
    ensures { IsMade result (found_sort at (option_copied sort.entry)) }
{
    match sort {
        None => Err(refuse(Reason::UnknownSort, at)),
        Some(ty) => Ok(*ty),
    }
}

impl<'a> Scopes<'a> {
    /// The type that an item names as a sort. Refused are a list (`SortArity`) and a name that is no sort in force
    /// (`UnknownSort`).
    pub(crate) fn sort(&self, text: &[u8], item: &Sexp) -> Result<Ty, Fail>
        requires { spans_within (length text.now) item.now ≡ true }
        ensures { IsMade result (sort_at text.now (state_of self.now) item.now) }
    {
        match name(text, item) {
            None => Err(refuse(Reason::SortArity, place(item))),
            Some(part) => {
                if part.bytes == b"Bool".as_slice() {
                    return Ok(Ty::Bool);
                }
                found(self.sorts.get(part.bytes), part.at)
            }
        }
    }

    /// The same of an argument, where Bool is refused too (`BoolArgument`).
    fn argument(&self, text: &[u8], item: &Sexp) -> Result<Ty, Fail>
        requires { spans_within (length text.now) item.now ≡ true }
        ensures { IsMade result (argument_sort text.now (state_of self.now) item.now) }
    {
        match self.sort(text, item) {
            Err(fail) => Err(fail),
            Ok(ty) => {
                if ty.is_bool() {
                    return Err(refuse(Reason::BoolArgument, place(item)));
                }
                Ok(ty)
            }
        }
    }

    /// The types of a function's arguments, from left to right.
    pub(crate) fn arguments(&self, text: &[u8], items: &[&Sexp]) -> Result<Items<Ty>, Fail>
        requires { all_within (length text.now) (items_shown items.now) ≡ true }
        ensures { IsMade result (each_sort (argument_sort text.now (state_of self.now)) (items_shown items.now)) }
    {
        let mut types = Vec::new(self.alloc);
        for item in items {
            match self.argument(text, item) {
                Err(fail) => return Err(fail),
                Ok(ty) => types.push(ty)?,
            }
        }
        Ok(Items::from_vec(types))
    }

    /// The types of parameters, from left to right.
    pub(crate) fn parameters(
        &self,
        text: &[u8],
        pairs: &[(Part<'a>, &'a Sexp)],
    ) -> Result<Items<Ty>, Fail>
        requires { ArePairsWithin text.now (shown_pairs pairs.now) }
        ensures { IsMade result
            (each_sort (sort_at text.now (state_of self.now)) (items_in (shown_pairs pairs.now))) }
    {
        let mut types = Vec::new(self.alloc);
        for pair in pairs {
            match self.sort(text, pair.1) {
                Err(fail) => return Err(fail),
                Ok(ty) => types.push(ty)?,
            }
        }
        Ok(Items::from_vec(types))
    }
}
