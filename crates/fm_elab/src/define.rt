ghost use Rattle.std.specs.Prelude.{◌≡◌, ◌<◌, ℕ, true, length, OnErr, OnOk};
ghost use Rattle.std.specs.Option.{option_map};
ghost use Rattle.fm_sexp.specs.Items.{spans_within};
ghost use Rattle.fm_script.specs.Shown.{name_shown};
ghost use Rattle.fm_arena.specs.Meanings.{terms_of};
ghost use Rattle.fm_apply.specs.Scoped.{AreBelow, Grows};
ghost use Rattle.fm_terms.specs.Elaborate.{elaborated};
ghost use Rattle.fm_terms.specs.Scoped.{ArePairsWithin, IsElaborated, LeavesGiven, shown_pairs};
ghost use Rattle.fm_elab.specs.Givens.{definitions_at, new_defined, read_in, with_new_definitions};
ghost use Rattle.fm_elab.specs.Held.{state_of};
ghost use Rattle.fm_elab.specs.Steps.{Applies, context_at, define_function};

use crate::given::add_definition;
use crate::scopes::Scopes;
use fm_apply::{Scope, refuse, same_type};
use fm_base::{Fail, Memory, Place, Reason, Ty};
use fm_levels::{NameSet, Table};
use fm_script::{Part, place};
use fm_sexp::Sexp;
use fm_terms::{Elaborated, distinct_names, elaborate};
use sqlite_items::Items;

impl<'a> Scopes<'a> {
    /// Elaborates a term of a command under parameters, as `elaborate` of fm_terms does. The assertion stack stays as it is.
    pub(crate) fn elaborate(
        &mut self,
        text: &'a [u8],
        command: Place,
        own: Option<&'a [u8]>,
        naming: bool,
        names: NameSet<'a>,
        types: &[Ty],
        item: &'a Sexp,
    ) -> Result<Elaborated<'a>, Fail>
        requires within { spans_within (length text.now) item.now ≡ true }
        requires types { length names ≡ length types.now }
        ensures answer { let c = context_at text.now (state_of self.old) command
            (option_map (λ n. n.now) own.entry) naming names.entry types.now in
            IsElaborated self.new.entries result (elaborated c item.now) }
        ensures same { state_of self.new ≡ state_of self.old }
        ensures below { LeavesGiven self.new.entries result }
        ensures functions { self.new.functions ≡ self.old.functions }
        ensures grows { Grows self.old.entries self.new.entries }
    {
        let scope = Scope {
            text,
            sorts: &self.sorts,
            functions: &self.functions,
            command,
            own,
            naming,
        };
        elaborate(self.alloc, &scope, &mut self.arena, names, types, item)
    }

    // Adds a definition and the names that were given in it, or nothing.
    fn add_definition(
        &mut self,
        name: &'a [u8],
        args: Items<Ty>,
        body: usize,
        given: Table<'a, usize>,
    ) -> Result<(), Memory>
        requires body { body < length (terms_of self.old.entries) }
        requires given { AreBelow (length (terms_of self.old.entries)) given }
        ensures added { OnOk result (state_of self.new ≡ with_new_definitions (state_of self.old)
            (definitions_at self.old.entries given.entry name.now args body)) }
        ensures err { OnErr result (state_of self.new ≡ state_of self.old) }
    {
        let count = self.functions.count_in(self.global);
        match add_definition(
            self.alloc,
            &mut self.arena,
            &mut self.functions,
            self.global,
            &given,
            name,
            args,
            body,
        ) {
            Ok(()) => {
                self.begun = true;
                Ok(())
            }
            Err(fail) => {
                self.functions.cut_back(self.global, count);
                Err(fail)
            }
        }
    }

    // Adds a definition whose term was elaborated, where the term is of its type.
    fn defined(
        &mut self,
        name: Part<'a>,
        args: Items<Ty>,
        ty: Ty,
        body: &Sexp,
        term: Elaborated<'a>,
    ) -> Result<(), Fail>
        requires number { term.number < length (terms_of self.old.entries) }
        requires given { AreBelow (length (terms_of self.old.entries)) term.given }
        ensures { (low : ℕ) → Applies result (state_of self.old)
            (new_defined (state_of self.old) (name_shown name.entry) args ty body.now (read_in self.old.entries low term.entry))
            (state_of self.new) }
    {
        let Elaborated { number, given } = term;
        if !same_type(self.arena.ty(number), ty) {
            return Err(refuse(Reason::SortMismatch, place(body)));
        }
        match self.add_definition(name.bytes, args, number, given) {
            Err(_) => Err(Fail::Memory),
            Ok(()) => Ok(()),
        }
    }

    /// `define-fun`.
    pub(crate) fn define_function(
        &mut self,
        text: &'a [u8],
        at: Place,
        name: Part<'a>,
        params: &[(Part<'a>, &'a Sexp)],
        sort: &Sexp,
        body: &'a Sexp,
    ) -> Result<(), Fail>
        requires params { ArePairsWithin text.now (shown_pairs params.now) }
        requires sort { spans_within (length text.now) sort.now ≡ true }
        requires body { spans_within (length text.now) body.now ≡ true }
        ensures { Applies result (state_of self.old)
            (define_function text.now (state_of self.old) at (name_shown name.entry) (shown_pairs params.now)
            sort.now body.now)
            (state_of self.new) }
    {
        if self.is_function_taken(name.bytes) {
            return Err(refuse(Reason::Redeclared, name.at));
        }
        let types = match self.parameters(text, params) {
            Err(fail) => return Err(fail),
            Ok(types) => types,
        };
        let names = match distinct_names(self.alloc, params) {
            Err(fail) => return Err(fail),
            Ok(names) => names,
        };
        let ty = match self.sort(text, sort) {
            Err(fail) => return Err(fail),
            Ok(ty) => ty,
        };
        let own = Some(name.bytes);
        match self.elaborate(text, at, own, true, names, types.as_slice(), body) {
            Err(fail) => Err(fail),
            Ok(term) => self.defined(name, types, ty, body, term),
        }
    }
}
