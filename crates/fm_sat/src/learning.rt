ghost use Rattle.std.specs.Prelude.{◌≡◌, ◌<◌, ◌≤◌, ◌+◌, [], true, false, length, IfOk, OnOk};
ghost use Rattle.fm_base.specs.Resolution.{AreDistinct};
ghost use Rattle.fm_trail.specs.Trail.{are_false, is_decided, level_on};
ghost use Rattle.fm_trail.specs.declared.entry.Why.{Why as TheWhy};
ghost use Rattle.fm_sat.specs.Learning.{Explains, IsConflict, IsHighest, IsChainFrom, IsDerivation, IsHighestBeside, IsRefuted, IsTopLevel, IsWalkable, IsZeroEntry, LearntBy, StandsAlone};
ghost use Rattle.fm_sat.specs.Marks.{AreBelow, IsCounted, IsLastOf, IsStepBetween, IsWalk};

use crate::marks::Marks;
use crate::store::Store;
use fm_base::{Lit, Memory};
use fm_trail::{Trail, Why};

/// Resolutions one after the other: the first clause, and for each step the literal of the clause so far that is
/// resolved with the clause beside it. A chain without steps gives its first clause.
#[derive(Drop)]
pub struct Chain {
    pub start: usize,
    pub steps: Vec<(Lit, usize)>,
}

/// A learnt clause and the chain that gives it. `lit` alone is of the highest level, and `level` is the highest of the
/// others, or 0: there the clause is unit. A chain without steps gives the false clause itself.
#[derive(Drop)]
pub struct Learnt {
    pub lits: Vec<Lit>,
    pub chain: Chain,
    pub level: usize,
    pub lit: Lit,
}

// The steps of a walk back along the trail, and an end below which all marks are.
#[derive(Drop)]
struct Walk {
    steps: Vec<(Lit, usize)>,
    end: usize,
}

fn level_of(trail: &Trail, lit: Lit) -> usize
    ensures { result ≡ level_on trail.now.entries lit }
{
    match trail.place(lit.atom) {
        Some(place) => trail.entry(place).level,
        None => 0,
    }
}

// The highest level of the literals, or 0.
fn highest_level(trail: &Trail, lits: &[Lit]) -> usize
    ensures { IsHighest trail.now.entries lits.now result }
{
    let mut highest = 0;
    for lit in lits {
        highest = level_of(trail, *lit).max(highest);
    }
    highest
}

fn reason_of(why: Why) -> usize
    requires { is_decided why ≡ false }
    ensures { why ≡ TheWhy.Clause result }
{
    match why {
        Why::Clause(clause) => clause,
        Why::Decision => unreachable!(),
    }
}

impl Store {
    /// The highest level of the clause's literals, or 0. A false clause is one to learn from where this is above 0, and
    /// one to refute where it is 0.
    pub fn top_level(&self, trail: &Trail, clause: usize) -> usize
        requires { clause < length self.now.clauses }
        ensures { IsTopLevel self.now.clauses trail.now.entries clause result }
    {
        highest_level(trail, self.clause(clause))
    }

    /// Learns from a clause that is false on the trail and has a literal above level 0, by the first unique implication
    /// point: while more than one literal of the clause so far has its highest level, the one whose entry is the latest
    /// is resolved with the reason of that entry. Nothing else is resolved. The store is to explain the trail. Its time
    /// is linear in the literals of the clauses that it resolves and in the part of the trail that it goes back, but for
    /// a byte that is cleared for each entry. The order of the learnt literals is free.
    pub fn learn(&self, trail: &Trail, clause: usize) -> Result<Learnt, Memory>
        requires conflict { IsConflict self.now.clauses trail.now.entries clause }
        requires explained { Explains self.now.clauses trail.now.entries }
        ensures start { IfOk result (λ v. v.chain.start ≡ clause) }
        ensures chain { IfOk result (λ v. LearntBy self.now.clauses trail.now.entries clause v.chain.steps.items v.lits.items) }
        ensures once { IfOk result (λ v. AreDistinct v.lits.items) }
        ensures falsified { IfOk result (λ v. are_false trail.now.entries v.lits.items ≡ true) }
        ensures alone { IfOk result (λ v. StandsAlone trail.now.entries v.lits.items v.lit) }
        ensures level { IfOk result (λ v. IsHighestBeside trail.now.entries v.lits.items v.lit v.level) }
        ensures lower { IfOk result (λ v. v.level < level_on trail.now.entries v.lit) }
    {
        trail.entries_are_levelled();
        let start = self.clause(clause);
        let top = highest_level(trail, start);
        let mut marks = Marks::none(self.alloc, trail.len())?;
        marks.mark_clause(trail, start, trail.len(), top)?;
        let walk = self.walk_back(trail, &mut marks, top, 1)?;
        let entry = trail.entry(marks.last_below(walk.end));
        let level = highest_level(trail, marks.lower.as_slice());
        let lit = entry.lit.opposite();
        let mut lits = marks.lower;
        lits.push(lit)?;
        let chain = Chain {
            start: clause,
            steps: walk.steps,
        };
        Ok(Learnt {
            lits,
            chain,
            level,
            lit,
        })
    }

    /// The chain from a clause whose literals are all false at level 0 to the empty clause. The trail may be at a
    /// higher level. The store is to explain the trail.
    pub fn refute(&self, trail: &Trail, clause: usize) -> Result<Chain, Memory>
        requires refuted { IsRefuted self.now.clauses trail.now.entries clause }
        requires explained { Explains self.now.clauses trail.now.entries }
        ensures start { IfOk result (λ v. v.start ≡ clause) }
        ensures chain { IfOk result (λ v. IsChainFrom self.now.clauses v.start v.steps.items []) }
    {
        trail.entries_are_levelled();
        let mut marks = Marks::none(self.alloc, trail.len())?;
        marks.mark_clause(trail, self.clause(clause), trail.len(), 0)?;
        let walk = self.walk_back(trail, &mut marks, 0, 0)?;
        Ok(Chain {
            start: clause,
            steps: walk.steps,
        })
    }

    /// The chain from the reason of an entry of level 0 to the clause of its literal alone. The store is to explain the
    /// trail.
    pub fn derive(&self, trail: &Trail, place: usize) -> Result<Chain, Memory>
        requires entry { IsZeroEntry trail.now.entries place }
        requires explained { Explains self.now.clauses trail.now.entries }
        ensures { IfOk result (λ v. IsDerivation self.now.clauses trail.now.entries place v.start v.steps.items) }
    {
        trail.entries_are_levelled();
        let reason = reason_of(trail.entry(place).why);
        let mut marks = Marks::none(self.alloc, trail.len())?;
        marks.mark_clause(trail, self.clause(reason), place, 0)?;
        let walk = self.walk_back(trail, &mut marks, 0, 0)?;
        Ok(Chain {
            start: reason,
            steps: walk.steps,
        })
    }

    // Resolves the literal of the last marked entry with the reason of the entry.
    fn resolve_last(
        &self,
        trail: &Trail,
        marks: &mut Marks,
        place: usize,
        top: usize,
        keep: usize,
    ) -> Result<(Lit, usize), Memory>
        requires walk { IsWalkable self.now.clauses trail.now.entries top keep }
        requires counted { IsCounted trail.now.entries top marks.old }
        requires more { keep < marks.old.count }
        requires last { IsLastOf marks.old.marks.items place }
        ensures step { IfOk result (λ s. IsStepBetween keep self.now.clauses trail.now.entries marks.old s marks.new) }
        ensures counted { OnOk result (IsCounted trail.now.entries top marks.new) }
        ensures below { OnOk result (AreBelow marks.new.marks.items place) }
        ensures fewer { OnOk result (marks.old.count ≤ marks.new.count + 1) }
    {
        let entry = trail.entry(place);
        let clause = reason_of(entry.why);
        marks.unmark(trail, place, top);
        marks.mark_clause(trail, self.clause(clause), place, top)?;
        Ok((entry.lit.opposite(), clause))
    }

    // Resolves backward along the trail until no more than `keep` literals of the highest level are left.
    fn walk_back(
        &self,
        trail: &Trail,
        marks: &mut Marks,
        top: usize,
        keep: usize,
    ) -> Result<Walk, Memory>
        requires walk { IsWalkable self.now.clauses trail.now.entries top keep }
        requires counted { IsCounted trail.now.entries top marks.old }
        requires some { keep ≤ marks.old.count }
        ensures derived { IfOk result (λ w. IsWalk keep self.now.clauses trail.now.entries marks.old w marks.new) }
        ensures counted { OnOk result (IsCounted trail.now.entries top marks.new) }
        ensures kept { OnOk result (marks.new.count ≡ keep) }
        ensures below { IfOk result (λ w. AreBelow marks.new.marks.items w.end) }
        ensures within { IfOk result (λ w. w.end ≤ length trail.now.entries) }
    {
        let mut steps = Vec::new(self.alloc);
        let mut end = trail.len();
        while marks.count > keep {
            end = marks.last_below(end);
            let step = self.resolve_last(trail, marks, end, top, keep)?;
            steps.push(step)?;
        }
        Ok(Walk { steps, end })
    }
}
