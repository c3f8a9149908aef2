ghost use Rattle.std.specs.Prelude.{◌≡◌, false, true, length, map, Ok};
ghost use Rattle.fm_base.specs.Truth.{is_bool};
ghost use Rattle.fm_sexp.specs.Items.{all_within, spans_within};
ghost use Rattle.fm_script.specs.Commands.{members_of};
ghost use Rattle.fm_script.specs.Shown.{name_shown, numeral_shown};
ghost use Rattle.fm_arena.specs.Trees.{all_things};
ghost use Rattle.fm_elab.specs.Held.{state_of};
ghost use Rattle.fm_elab.specs.Shown.{items_shown};
ghost use Rattle.fm_elab.specs.Stacks.{is_function_taken, with_symbol};
ghost use Rattle.fm_elab.specs.Steps.{Applies, declare_function, declare_sort, define_sort, has_members as has_members_of};

use crate::both::insert_both;
use crate::scopes::Scopes;
use fm_apply::{Function, Stands, refuse};
use fm_base::{Fail, Memory, Rank, Reason, SortId, SymId, Ty};
use fm_script::{Number, Part, members, place};
use fm_sexp::Sexp;
use sqlite_items::Items;

// Whether an item is a list that isn't empty.
fn has_members(item: &Sexp) -> bool
    ensures { result ≡ has_members_of (members_of item.now) }
{
    match members(item) {
        None => false,
        Some(items) => !items.is_empty(),
    }
}

impl<'a> Scopes<'a> {
    /// `declare-sort`.
    pub(crate) fn declare_sort(&mut self, name: Part<'a>, arity: Number) -> Result<(), Fail>
        ensures { Applies result (state_of self.old)
            (declare_sort (state_of self.old) (name_shown name.entry) (numeral_shown arity)) (state_of self.new) }
    {
        if arity.value != 0 {
            return Err(refuse(Reason::SortArity, arity.at));
        }
        if self.is_sort_taken(name.bytes) {
            return Err(refuse(Reason::Redeclared, name.at));
        }
        let Some(number) = self.declared_sorts.count() else {
            return Err(Fail::Memory);
        };
        let ty = Ty::Of(SortId(number));
        match insert_both(
            &mut self.declared_sorts,
            &mut self.sorts,
            self.global,
            name.bytes,
            ty,
            ty,
        ) {
            Err(_) => Err(Fail::Memory),
            Ok(()) => {
                self.begun = true;
                Ok(())
            }
        }
    }

    /// `define-sort`.
    pub(crate) fn define_sort(
        &mut self,
        text: &[u8],
        name: Part<'a>,
        params: &Sexp,
        sort: &Sexp,
    ) -> Result<(), Fail>
        requires { spans_within (length text.now) sort.now ≡ true }
        ensures { Applies result (state_of self.old)
            (define_sort text.now (state_of self.old) (name_shown name.entry) params.now sort.now) (state_of self.new) }
    {
        if has_members(params) {
            return Err(refuse(Reason::SortArity, place(params)));
        }
        if self.is_sort_taken(name.bytes) {
            return Err(refuse(Reason::Redeclared, name.at));
        }
        let ty = match self.sort(text, sort) {
            Err(fail) => return Err(fail),
            Ok(ty) => ty,
        };
        match self.sorts.insert(self.global, name.bytes, ty) {
            Err(_) => Err(Fail::Memory),
            Ok(_) => {
                self.begun = true;
                Ok(())
            }
        }
    }

    /// `declare-const`, and `declare-fun`.
    pub(crate) fn declare_function(
        &mut self,
        text: &[u8],
        name: Part<'a>,
        args: &[&Sexp],
        sort: &Sexp,
    ) -> Result<(), Fail>
        requires args { all_within (length text.now) (items_shown args.now) ≡ true }
        requires sort { spans_within (length text.now) sort.now ≡ true }
        ensures { Applies result (state_of self.old)
            (declare_function text.now (state_of self.old) (name_shown name.entry) (items_shown args.now) sort.now)
            (state_of self.new) }
    {
        if self.is_function_taken(name.bytes) {
            return Err(refuse(Reason::Redeclared, name.at));
        }
        let types = match self.arguments(text, args) {
            Err(fail) => return Err(fail),
            Ok(types) => types,
        };
        match self.sort(text, sort) {
            Err(fail) => Err(fail),
            Ok(ty) => self.add_symbol(name.bytes, types, ty),
        }
    }

    // Adds a declared function, whose name is free.
    fn add_symbol(&mut self, name: &'a [u8], args: Items<Ty>, ty: Ty) -> Result<(), Fail>
        requires things { all_things (map is_bool args) ≡ true }
        requires free { is_function_taken (state_of self.old) name.now ≡ false }
        ensures { Applies result (state_of self.old) (Ok (with_symbol (state_of self.old) name.now args ty))
            (state_of self.new) }
    {
        let Some(number) = self.symbols.count() else {
            return Err(Fail::Memory);
        };
        let copy = Items::from_slice(self.alloc, args.as_slice())?;
        let rank = Rank {
            args: copy,
            result: ty,
        };
        let stands = Stands::Declared(SymId(number));
        let function = Function {
            args,
            result: ty,
            stands,
        };
        match insert_both(
            &mut self.symbols,
            &mut self.functions,
            self.global,
            name,
            rank,
            function,
        ) {
            Err(_) => Err(Fail::Memory),
            Ok(()) => {
                self.begun = true;
                Ok(())
            }
        }
    }
}
