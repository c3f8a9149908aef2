ghost use Rattle.std.specs.Prelude.{◌≡◌, ◌<◌, ◌↔◌, ◌++◌, ◌∷◌, [], List, IsTrue, length, map, option_map, slice_get, take, false, true, Some, IfNone, IfOk, IfSome, OnOk, OnErr};
ghost use Rattle.std.specs.List.{All};
ghost use Rattle.fm_bank.specs.Closure.{object};
ghost use Rattle.fm_cong.specs.Held.{AreEqual, AreUnequal, HasArguments, IsReadable, IsRegistered, IsSettled, IsTruth};
ghost use Rattle.fm_cong.specs.Clashes.{HasNoClash, IsClash};
ghost use Rattle.fm_cong.specs.Explained.{IsExplained};
ghost use Rattle.fm_cong.specs.Held.{AreSidesRegistered, HasSameTerms, ReadsLiteral, Registers};
ghost use Rattle.fm_cong.specs.Held.{NotesType, all_entered, is_registered, link_held, nothing};
ghost use Rattle.fm_cong.specs.Facts.{numbers_of_pair, unequal_of};
ghost use Rattle.fm_cong.specs.Links.{edge_of, node_of};
ghost use Rattle.fm_cong.specs.Tests.{HasTests};
ghost use Rattle.fm_cong.specs.Types.{AreOldest, IsOldestOf};
ghost use Rattle.fm_cong.specs.declared.fact.Fact.{Fact as TheFact};

use crate::additions::{make_room, put_member};
use crate::clash::Clash;
use crate::finding::clash_of;
use crate::levels::{are_same, mark_of, settle, undo};
use crate::link::{Link, Node, link_in};
use crate::literals::{fact_of, read_literal};
use crate::mark::Mark;
use crate::member::Member;
use crate::nodes::empty_state;
use crate::pairs::note_pair;
use crate::queries::{is_apart, truth_of};
use crate::registry::{has_flag, member_of};
use crate::state::State;
use crate::track::{put_cut, track};
use crate::types::{announce_type, note_type};
use fm_bank::Bank;
use fm_base::{AtomId, Memory, SortId, TermId, Ty, Undo};
use fm_cells::{Apart, Cut, Edge, Places, Sorts, first_terms};
use std::alloc::Global;
use std::marker::Model;

/// Congruence closure over registered terms, with undo (Nelson and Oppen; Downey, Sethi and Tarjan; undo by a log as in
/// Nieuwenhuis and Oliveras). It reads literals on equalities and on predicate terms. Registered terms stay when a level
/// is undone, and the facts read since go. The bank handed in with a call holds each registered term as it was when it was
/// registered, and the atom of each literal read as it was when it was read.
#[derive(Drop)]
pub struct Egraph {
    alloc: Global,
    members: Vec<Member>,
    types: Vec<(TermId, Ty)>,
    flags: Vec<bool>,
    uses: Vec<Places>,
    state: State,
    apart: Apart,
    sorts: Sorts,
    marks: Vec<Mark>,
    cuts: Vec<Cut>,
}

impl Model for Egraph {
    ghost use Rattle.fm_cong.specs.Held.{Held};

    ghost Value = { Held };

    ghost use Rattle.fm_cong.specs.Faithful.{IsWhole, held_in};

    ghost view = { held_in };

    ghost invariant = { IsWhole };
}

impl Egraph {
    /// No registered terms, nothing read, and no open level.
    pub fn new(alloc: Global) -> Result<Egraph, Memory>
        ensures { IfOk result (λ g. g ≡ nothing) }
    {
        let state = empty_state(alloc)?;
        Ok(Egraph {
            alloc,
            members: Vec::new(alloc),
            types: Vec::new(alloc),
            flags: Vec::new(alloc),
            uses: Vec::new(alloc),
            state,
            apart: Apart::new(alloc),
            sorts: Sorts::new(alloc),
            marks: Vec::new(alloc),
            cuts: Vec::new(alloc),
        })
    }

    /// Registers a term of the bank whose arguments are registered; one that is registered already changes nothing. A
    /// settled graph stays settled.
    pub fn add_term(&mut self, bank: &Bank, term: TermId) -> Result<(), Memory>
        requires term { term.0 < length bank.now.terms }
        requires args { HasArguments self.old.shapes bank.now.terms term.0 }
        ensures registered { OnOk result (Registers self.old self.new bank.now.terms term.0) }
        ensures types { OnOk result (NotesType self.old self.new bank.now.sig bank.now.terms term.0) }
        ensures err { OnErr result (self.new ≡ self.old) }
    {
        if has_flag(self.flags.as_slice(), term.0) {
            return Ok(());
        }
        let ty = bank.ty(term);
        let member = member_of(self.alloc, bank, term)?;
        let place = self.members.len();
        announce_type(self.alloc, &mut self.types, &mut self.sorts, ty)?;
        make_room(
            self.alloc,
            &mut self.state,
            &mut self.flags,
            &mut self.uses,
            &member,
            place,
        )?;
        let from = mark_of(&self.state);
        put_member(
            self.alloc,
            &mut self.state,
            &mut self.members,
            self.uses.as_slice(),
            member,
        )?;
        self.flags[term.0] = true;
        note_type(&mut self.types, &mut self.sorts, term, ty);
        track(&self.state, &mut self.apart, from);
        Ok(())
    }

    /// Whether a term is registered.
    pub fn is_registered(&self, term: TermId) -> bool
        ensures { result ≡ is_registered self.now.shapes term.0 }
    {
        has_flag(self.flags.as_slice(), term.0)
    }

    /// Whether all registered terms are entered, so that no call waits for `settle`.
    pub fn is_settled(&self) -> bool
        ensures { IsTrue result ↔ IsSettled self.now }
    {
        self.state.entered == self.members.len()
    }

    /// Enters the terms that were registered late, and joins all that is congruent. Then two registered terms are of one
    /// class exactly where they are equal in the closure of the facts read over all registered terms.
    pub fn settle(&mut self, _bank: &Bank) -> Result<(), Memory>
        ensures settled { OnOk result (self.new ≡ all_entered self.old self.new.links) }
        ensures err { OnErr result (self.new ≡ self.old) }
    {
        let from = mark_of(&self.state);
        let members = self.members.as_slice();
        settle(self.alloc, &mut self.state, members, self.uses.as_slice())?;
        track(&self.state, &mut self.apart, from);
        Ok(())
    }

    /// Reads a true literal on an equality or a predicate atom whose terms are registered. A settled graph stays settled.
    pub fn merge(&mut self, bank: &Bank, atom: AtomId) -> Result<(), Memory>
        requires atom { atom.0 < length bank.now.atoms }
        requires registered { IsReadable self.old.shapes bank.now.atoms atom }
        ensures read { OnOk result (ReadsLiteral self.old self.new bank.now.atoms atom true) }
        ensures err { OnErr result (self.new ≡ self.old) }
    {
        let fact = fact_of(bank, atom, true);
        let from = mark_of(&self.state);
        let members = self.members.as_slice();
        read_literal(
            self.alloc,
            &mut self.state,
            members,
            self.uses.as_slice(),
            fact,
        )?;
        track(&self.state, &mut self.apart, from);
        Ok(())
    }

    /// Reads a false literal on an equality or a predicate atom whose terms are registered. A false equality says that its
    /// sides are unequal, and joins nothing; a false predicate term is joined with no. A settled graph stays settled.
    pub fn unequal(&mut self, bank: &Bank, atom: AtomId) -> Result<(), Memory>
        requires atom { atom.0 < length bank.now.atoms }
        requires registered { IsReadable self.old.shapes bank.now.atoms atom }
        ensures read { OnOk result (ReadsLiteral self.old self.new bank.now.atoms atom false) }
        ensures err { OnErr result (self.new ≡ self.old) }
    {
        self.apart.reserve()?;
        let fact = fact_of(bank, atom, false);
        let from = mark_of(&self.state);
        let members = self.members.as_slice();
        read_literal(
            self.alloc,
            &mut self.state,
            members,
            self.uses.as_slice(),
            fact,
        )?;
        track(&self.state, &mut self.apart, from);
        let class = &self.state.classes.class;
        note_pair(self.alloc, &mut self.apart, class, fact);
        Ok(())
    }

    /// The sides of the false equalities read, in the order in which they were read. Two terms are apart exactly where one of
    /// these pairs has a side that is equal to each.
    pub fn unequal_pairs(&self) -> &[(TermId, TermId)]
        ensures pairs { map numbers_of_pair result.now ≡ unequal_of self.now.facts }
        ensures registered { All (AreSidesRegistered self.now.shapes) result.now }
    {
        self.apart.pairs.as_slice()
    }

    /// Whether two registered terms of a settled graph are equal in the closure of the facts read over all registered
    /// terms. It takes no memory.
    pub fn same(&self, a: TermId, b: TermId) -> bool
        requires settled { IsSettled self.now }
        requires a { IsRegistered self.now.shapes a.0 }
        requires b { IsRegistered self.now.shapes b.0 }
        ensures { IsTrue result ↔ AreEqual self.now (object a.0) (object b.0) }
    {
        are_same(&self.state, self.members.as_slice(), a.0 + 2, b.0 + 2)
    }

    /// Whether a false equality read has a side that is equal to each of two registered terms of a settled graph. It takes
    /// no memory.
    pub fn apart(&self, a: TermId, b: TermId) -> bool
        requires settled { IsSettled self.now }
        requires a { IsRegistered self.now.shapes a.0 }
        requires b { IsRegistered self.now.shapes b.0 }
        ensures { IsTrue result ↔ AreUnequal self.now a.0 b.0 }
    {
        is_apart(&self.state, &self.apart, a.0 + 2, b.0 + 2)
    }

    /// A clash of the literals that a settled graph has read: None exactly where there is none. It takes no memory.
    pub fn clash(&self) -> Option<Clash>
        requires settled { IsSettled self.now }
        ensures some { IfSome result (IsClash self.now) }
        ensures none { IfNone result (HasNoClash self.now) }
    {
        clash_of(&self.state, &self.apart)
    }

    /// Whether a registered predicate term of a settled graph is true or false: true where the closure joins it with yes,
    /// false where it joins it with no and not with yes. It takes no memory.
    pub fn truth(&self, term: TermId) -> Option<bool>
        requires settled { IsSettled self.now }
        requires term { IsRegistered self.now.shapes term.0 }
        ensures truth { IsTruth self.now term.0 result }
    {
        truth_of(&self.state, term.0 + 2)
    }

    /// The oldest term of each class of a sort of a settled graph, in ascending order: a term is older than another where its
    /// number is smaller. The list is made anew, by one pass over the registered terms of the sort.
    pub fn classes(&self, sort: SortId) -> Result<Vec<TermId>, Memory>
        requires settled { IsSettled self.now }
        ensures oldest { IfOk result (λ v. AreOldest self.now sort v.items) }
    {
        let terms = self.sorts.terms(sort);
        let oldest = first_terms(self.alloc, &self.state.classes, terms)?;
        Ok(oldest)
    }

    /// The oldest term of the class of a registered term of a settled graph. It takes no memory.
    pub fn oldest_of(&self, term: TermId) -> TermId
        requires settled { IsSettled self.now }
        requires term { IsRegistered self.now.shapes term.0 }
        ensures { IsOldestOf self.now term result }
    {
        let least = self.state.classes.least(term.0 + 2);
        TermId(least.saturating_sub(2))
    }

    /// The explanation forest of a settled graph: the link of each node, where 0 is yes, 1 is no and the term n is n + 2; a
    /// node that has none is the end of its tree. It takes no memory.
    pub fn links(&self) -> &[Option<Edge>]
        requires settled { IsSettled self.now }
        ensures explained { IsExplained self.now result.now }
    {
        self.state.links.cells.as_slice()
    }

    /// The link of a node in the explanation forest, as `links` lends it; None where it is the end of its tree. It takes no
    /// memory.
    pub fn link(&self, node: Node) -> Option<Link>
        ensures { option_map edge_of result ≡ link_held self.now (node_of node) }
    {
        link_in(self.state.links.cells.as_slice(), node)
    }

    /// A settled graph has the two tests of what it holds: whether two nodes are equal, and whether two terms are apart. So
    /// what is defined over such tests can be said of the graph. It does nothing.
    pub fn has_tests(&self)
        requires settled { IsSettled self.now }
        ensures { HasTests self.now }
    {
        let _ = &self.state;
    }
}

impl Undo for Egraph {
    ghost Content = { List TheFact };

    ghost content = { λ g. g.facts };

    ghost levels = { λ g. g.levels };

    /// Opens a level; registered terms and what was read stay as they are.
    fn mark(&mut self) -> Result<usize, Memory>
        ensures number { IfOk result (λ n. n ≡ length self.old.levels) }
        ensures opened { OnOk result (self.new.levels ≡ self.old.levels ++ self.old.facts ∷ []) }
        ensures same { self.new.facts ≡ self.old.facts }
        ensures err { OnErr result (self.new.levels ≡ self.old.levels) }
        ensures terms { HasSameTerms self.old self.new }
        ensures entered { self.new.entered ≡ self.old.entered }
        ensures links { self.new.links ≡ self.old.links }
    {
        let level = self.marks.len();
        let mark = mark_of(&self.state);
        self.cuts.reserve(1)?;
        self.marks.push(mark)?;
        put_cut(&mut self.cuts, self.apart.cut());
        Ok(level)
    }

    /// Takes the literals read since the level was opened back. Registered terms stay, and the graph may be unsettled then.
    fn undo_to(&mut self, level: usize)
        requires { level < length self.old.levels }
        ensures levels { self.new.levels ≡ take level self.old.levels }
        ensures content { slice_get self.old.levels level ≡ Some self.new.facts }
        ensures terms { HasSameTerms self.old self.new }
    {
        let mark = self.marks[level];
        let cut = self.cuts[level];
        undo(&mut self.state, self.members.as_slice(), mark);
        self.apart.rewind(cut);
        self.marks.truncate(level);
        self.cuts.truncate(level);
    }
}
