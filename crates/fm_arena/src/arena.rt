ghost use Rattle.std.specs.Prelude.{◌≡◌, [], map, length, take, true, IfOk, IfSome, IfNone, OnErr, OnOk, slice_get};
ghost use Rattle.fm_base.specs.Truth.{is_bool};
ghost use Rattle.fm_arena.specs.Trees.{makes_truth, takes};
ghost use Rattle.fm_arena.specs.Measures.{is_fit};
ghost use Rattle.fm_arena.specs.Meanings.{block_made, definition_made, kind_at, meaning_at, measure_of, name_made};
ghost use Rattle.fm_arena.specs.Meanings.{term_made, terms_of, type_at, use_made};
ghost use Rattle.fm_arena.specs.Weights.{IsUse, weighed_of};
ghost use Rattle.fm_arena.specs.Kept.{Adds, AreKept, IsAdded, IsSomeIfFit, MayFollow, entry_type, terms_with};

use crate::forms::{Form, measure_use};
use crate::found::found_form;
use crate::node::{Entry, Node, Op};
use crate::passes::form_of;
use crate::sizes::{Measure, kept, measure_over, measure_under, type_of};
use fm_base::{Memory, SortId, Ty};
use sqlite_items::Items;
use std::alloc::Global;
use std::marker::Model;

/// Elaborated terms with their types, which share what is equal: a term has its parts by their numbers,
/// those of earlier terms. No term of it has more than 1,000,000 nodes or a depth above 400 as a tree. A
/// number that is none stands for the formula `true`.
#[derive(Drop)]
pub struct Arena {
    pub(crate) entries: Vec<Entry>,
}

impl Model for Arena {
    ghost use Rattle.std.specs.Prelude.{List};
    ghost use Rattle.fm_arena.specs.Kept.{AreKept};
    ghost use Rattle.fm_arena.specs.declared.node.Entry.{Entry as TheEntry};

    ghost Value = { List TheEntry };

    ghost view = { λ a. a.entries.items };

    ghost invariant = { λ a. AreKept a.entries.items };
}

#[tactic(auto, using(crate::proofs::Growing::length_terms))]
fn count(entries: &[Entry]) -> usize
    ensures { result ≡ length (terms_of entries.now) }
{
    entries.len()
}

#[tactic(auto, using(crate::proofs::Growing::pushed_terms, crate::proofs::Weighing::pushed_kept))]
fn add(entries: &mut Vec<Entry>, entry: Entry) -> Result<usize, Memory>
    ensures number { IfOk result (λ n. n ≡ length (terms_of entries.old.items)) }
    ensures terms { OnOk result (terms_of entries.new.items ≡ terms_with entries.old.items entry) }
    ensures kept { AreKept entries.old.items → MayFollow entries.old.items entry → OnOk result (AreKept entries.new.items) }
    ensures err { OnErr result (entries.new.items ≡ entries.old.items) }
{
    let number = count(entries.as_slice());
    entries.push(entry)?;
    Ok(number)
}

impl Arena {
    /// An arena without terms.
    pub fn new(alloc: Global) -> Arena
        ensures { result ≡ [] }
    {
        Arena {
            entries: Vec::new(alloc),
        }
    }

    /// How many terms there are: the number that the next one gets, and a mark to cut back to.
    pub fn mark(&self) -> usize
        ensures { result ≡ length (terms_of self.now) }
    {
        count(self.entries.as_slice())
    }

    /// Takes all terms from the mark on out again. It takes no memory, and nothing changes where the mark
    /// is past the end.
    pub fn cut_back(&mut self, mark: usize)
        ensures { terms_of self.new ≡ take mark (terms_of self.old) }
    {
        self.entries.truncate(mark);
    }

    /// The type of a term, Bool where the number is none.
    pub fn ty(&self, number: usize) -> Ty
        ensures { result ≡ type_at (terms_of self.now) number }
    {
        type_of(self.entries.as_slice(), number)
    }

    /// The size and the depth of a term as a tree, in which each name counts as one node.
    pub fn measure(&self, number: usize) -> Measure
        ensures value { result ≡ measure_of (meaning_at (terms_of self.now) number) }
        ensures fit { is_fit result ≡ true }
    {
        kept(self.entries.as_slice(), number)
    }

    /// Adds what an operator makes of terms of the kinds that it takes, and answers its number; None where
    /// it is too large.
    pub fn make(&mut self, op: Op, ty: Ty, parts: Items<usize>) -> Result<Option<usize>, Memory>
        requires kinds { takes op (map (kind_at (terms_of self.old)) parts) ≡ true }
        requires result { is_bool ty ≡ makes_truth op }
        ensures number { IfOk result (λ o. IfSome o (λ n. n ≡ length (terms_of self.old))) }
        ensures added { Adds self.old self.new (term_made op ty parts) result }
        ensures fit { IsSomeIfFit self.old (term_made op ty parts) result }
        ensures none { IfOk result (λ o. IfNone o (self.new ≡ self.old)) }
        ensures err { OnErr result (self.new ≡ self.old) }
    {
        let Some(measure) = measure_under(self.entries.as_slice(), op, parts.as_slice()) else {
            return Ok(None);
        };
        let node = Node::Made { op, parts };
        let number = add(&mut self.entries, Entry { node, ty, measure })?;
        Ok(Some(number))
    }

    /// Adds the name at a place in scope, and answers its number.
    pub fn name(&mut self, place: usize, ty: Ty) -> Result<usize, Memory>
        ensures number { IfOk result (λ n. n ≡ length (terms_of self.old)) }
        ensures added { OnOk result (IsAdded self.old self.new (name_made place ty)) }
        ensures err { OnErr result (self.new ≡ self.old) }
    {
        let truth = ty.is_bool();
        let node = Node::Name { place, truth };
        let measure = Measure { size: 1, depth: 1 };
        let number = add(&mut self.entries, Entry { node, ty, measure })?;
        Ok(number)
    }

    /// Adds a block of quantifiers over a formula, universal where `all` is true, where `base` names are in
    /// scope around it: its variables are the names from there on. Answers its number; None where it is too
    /// large.
    pub fn quantify(
        &mut self,
        all: bool,
        vars: Items<SortId>,
        base: usize,
        body: usize,
    ) -> Result<Option<usize>, Memory>
        requires kind { kind_at (terms_of self.old) body ≡ true }
        ensures number { IfOk result (λ o. IfSome o (λ n. n ≡ length (terms_of self.old))) }
        ensures added { Adds self.old self.new (block_made all vars base body) result }
        ensures fit { IsSomeIfFit self.old (block_made all vars base body) result }
        ensures none { IfOk result (λ o. IfNone o (self.new ≡ self.old)) }
        ensures err { OnErr result (self.new ≡ self.old) }
    {
        let Some(measure) = measure_over(self.entries.as_slice(), &[body]) else {
            return Ok(None);
        };
        let node = Node::Quant {
            all,
            vars,
            base,
            body,
        };
        let ty = Ty::Bool;
        let number = add(&mut self.entries, Entry { node, ty, measure })?;
        Ok(Some(number))
    }

    /// Adds an earlier term as the body of a definition, whose parameters are the names from 0 on, and answers
    /// its number. It reads as its body; its uses are told their measures by what is kept with it.
    pub fn define(&mut self, alloc: Global, body: usize, params: usize) -> Result<usize, Memory>
        ensures number { IfOk result (λ n. n ≡ length (terms_of self.old)) }
        ensures added { OnOk result (IsAdded self.old self.new (definition_made body)) }
        ensures err { OnErr result (self.new ≡ self.old) }
    {
        let form = form_of(alloc, self.entries.as_slice(), body, params)?;
        let ty = type_of(self.entries.as_slice(), body);
        let measure = kept(self.entries.as_slice(), body);
        let node = Node::Defined { body, form };
        let number = add(&mut self.entries, Entry { node, ty, measure })?;
        Ok(number)
    }

    /// Adds a term where its names stand for arguments, the name 0 for the first, and answers its number; None
    /// where it is too large. Names past the arguments stand for `true`. A term that isn't a definition is gone
    /// over anew at each use.
    pub fn apply(
        &mut self,
        alloc: Global,
        body: usize,
        args: Items<usize>,
    ) -> Result<Option<usize>, Memory>
        ensures number { IfOk result (λ o. IfSome o (λ n. n ≡ length (terms_of self.old))) }
        ensures added { Adds self.old self.new (use_made body args) result }
        ensures fit { IsSomeIfFit self.old (use_made body args) result }
        ensures none { IfOk result (λ o. IfNone o (self.new ≡ self.old)) }
        ensures err { OnErr result (self.new ≡ self.old) }
    {
        let form = found_form(alloc, self.entries.as_slice(), body, args.len())?;
        self.apply_form(body, args, form)
    }

    // Adds the use of a definition that has a form, and answers its number; None where it is too large.
    fn apply_form(
        &mut self,
        body: usize,
        args: Items<usize>,
        form: Form,
    ) -> Result<Option<usize>, Memory>
        requires { IsUse (weighed_of self.old) body args form }
        ensures number { IfOk result (λ o. IfSome o (λ n. n ≡ length (terms_of self.old))) }
        ensures added { Adds self.old self.new (use_made body args) result }
        ensures fit { IsSomeIfFit self.old (use_made body args) result }
        ensures none { IfOk result (λ o. IfNone o (self.new ≡ self.old)) }
        ensures err { OnErr result (self.new ≡ self.old) }
    {
        let ty = type_of(self.entries.as_slice(), body);
        let Some(measure) = measure_use(self.entries.as_slice(), &form, args.as_slice()) else {
            return Ok(None);
        };
        let node = Node::Use { body, args, form };
        let number = add(&mut self.entries, Entry { node, ty, measure })?;
        Ok(Some(number))
    }
}
