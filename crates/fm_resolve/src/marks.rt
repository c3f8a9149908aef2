ghost use Rattle.std.specs.Prelude.{◌≡◌, ◌↔◌, ◌||◌, ◌&&◌, slice_index_or, ◌==◌, ℕ, length, ◌∷◌, ◌++◌, ◌+◌, [], true, false, not, cond, IfOk, OnOk, ⊤};
ghost use Rattle.std.specs.List.{AllByRecursion};
ghost use Rattle.fm_base.specs.declared.ids.Lit.{Lit as TheLit};
ghost use Rattle.fm_resolve.specs.Chains.{Has, Resolves, opposite};
ghost use Rattle.fm_resolve.specs.Marks.{Covers, HasMark, IsClean, SameMarks, is_in, is_member, is_member_but, is_never, is_same, mark_of, members, never_marked};

use fm_base::Lit;
use std::alloc::{AllocError, Global};

// Whether a literal is in a set: never was, is, or was taken out.
#[derive(Clone, Copy, Debug, PartialEq, Eq)]
pub(crate) enum Mark {
    Never,
    On,
    Off,
}

// A set of literals by marks, and the literals that were ever marked, each once.
#[derive(Drop)]
pub(crate) struct Marks {
    positive: Vec<Mark>,
    negative: Vec<Mark>,
    touched: Vec<Lit>,
}

pub(crate) fn same(k: Lit, l: Lit) -> bool
    ensures { result ≡ is_same k l }
{
    k.atom.0 == l.atom.0 && k.positive == l.positive
}

fn either(a: bool, b: bool) -> bool
    ensures { result ≡ (a || b) }
{
    a || b
}

fn opposite(lit: Lit) -> Lit
    ensures { result ≡ opposite lit }
{
    Lit {
        atom: lit.atom,
        positive: !lit.positive,
    }
}

fn mark_at(marks: &[Mark], place: usize) -> Mark
    ensures { result ≡ slice_index_or marks.now place never_marked }
{
    marks.get(place).copied().unwrap_or(Mark::Never)
}

fn forget_at(marks: &mut [Mark], place: usize)
    ensures here { (k : ℕ) → is_never (slice_index_or marks.new k never_marked) ≡ (is_never (slice_index_or marks.old k never_marked) || (place == k)) }
    ensures size { length marks.new ≡ length marks.old }
{
    if place < marks.len() {
        marks[place] = Mark::Never;
    }
}

impl Marks {
    /// No marks.
    pub fn new(alloc: Global) -> Marks
        ensures positive { result.positive.items ≡ [] }
        ensures negative { result.negative.items ≡ [] }
        ensures clean { IsClean result }
    {
        Marks {
            positive: Vec::new(alloc),
            negative: Vec::new(alloc),
            touched: Vec::new(alloc),
        }
    }

    /// Marks for one more atom.
    pub fn grow(&mut self) -> Result<(), AllocError>
        requires clean { IsClean self.old }
        ensures positive { OnOk result (length self.new.positive.items ≡ length self.old.positive.items + 1) }
        ensures negative { OnOk result (length self.new.negative.items ≡ length self.old.negative.items + 1) }
        ensures clean { OnOk result (IsClean self.new) }
    {
        self.positive.push(Mark::Never)?;
        self.negative.push(Mark::Never)?;
        Ok(())
    }

    fn get(&self, lit: Lit) -> Mark
        ensures { result ≡ mark_of self.now lit }
    {
        if lit.positive {
            mark_at(self.positive.as_slice(), lit.atom.0)
        } else {
            mark_at(self.negative.as_slice(), lit.atom.0)
        }
    }

    fn set(&mut self, lit: Lit, mark: Mark)
        requires { HasMark self.old lit }
        ensures here { (k : TheLit) → mark_of self.new k ≡ cond (is_same lit k) mark (mark_of self.old k) }
        ensures touched { self.new.touched.items ≡ self.old.touched.items }
        ensures size { SameMarks self.old self.new }
    {
        if lit.positive {
            self.positive[lit.atom.0] = mark;
        } else {
            self.negative[lit.atom.0] = mark;
        }
    }

    fn forget(&mut self, lit: Lit)
        ensures here { (k : TheLit) → is_never (mark_of self.new k) ≡ (is_never (mark_of self.old k) || is_same lit k) }
        ensures touched { self.new.touched.items ≡ self.old.touched.items }
        ensures size { SameMarks self.old self.new }
    {
        if lit.positive {
            forget_at(self.positive.as_mut_slice(), lit.atom.0);
        } else {
            forget_at(self.negative.as_mut_slice(), lit.atom.0);
        }
    }

    // Whether the literal is in the set.
    fn is_on(&self, lit: Lit) -> bool
        ensures { result ≡ is_in self.now lit }
    {
        match self.get(lit) {
            Mark::On => true,
            _ => false,
        }
    }

    fn is_new(&self, lit: Lit) -> bool
        ensures { result ≡ is_never (mark_of self.now lit) }
    {
        match self.get(lit) {
            Mark::Never => true,
            _ => false,
        }
    }

    // Lists a literal that was never marked.
    fn touch(&mut self, lit: Lit) -> Result<(), AllocError>
        requires covers { Covers self.old }
        ensures there { OnOk result (Has self.new.touched.items lit) }
        ensures kept { (k : TheLit) → Has self.old.touched.items k → Has self.new.touched.items k }
        ensures marks { (k : TheLit) → mark_of self.new k ≡ mark_of self.old k }
        ensures size { SameMarks self.old self.new }
    {
        if self.is_new(lit) {
            self.touched.push(lit)?;
        }
        Ok(())
    }

    // Puts a literal into the set.
    fn mark(&mut self, lit: Lit) -> Result<(), AllocError>
        requires mark { HasMark self.old lit }
        requires covers { Covers self.old }
        ensures now { OnOk result ((k : TheLit) → is_in self.new k ≡ (is_in self.old k || is_same lit k)) }
        ensures covers { OnOk result (Covers self.new) }
        ensures size { SameMarks self.old self.new }
    {
        self.touch(lit)?;
        self.set(lit, Mark::On);
        Ok(())
    }

    // Puts a literal into the set, unless it is the other one; whether it is.
    fn mark_but(&mut self, lit: Lit, but: Lit) -> Result<bool, AllocError>
        requires mark { HasMark self.old lit }
        requires covers { Covers self.old }
        ensures now { OnOk result ((k : TheLit) → is_in self.new k ≡ (is_in self.old k || (is_same lit k && not (is_same lit but)))) }
        ensures is_but { IfOk result (λ b. b ≡ is_same lit but) }
        ensures covers { OnOk result (Covers self.new) }
        ensures size { SameMarks self.old self.new }
    {
        if same(lit, but) {
            return Ok(true);
        }
        self.mark(lit)?;
        Ok(false)
    }

    // Takes a literal out of the set.
    fn unmark(&mut self, lit: Lit)
        requires mark { HasMark self.old lit }
        requires on { is_in self.old lit ≡ true }
        requires covers { Covers self.old }
        ensures now { (k : TheLit) → is_in self.new k ≡ (is_in self.old k && not (is_same lit k)) }
        ensures covers { Covers self.new }
        ensures size { SameMarks self.old self.new }
    {
        self.set(lit, Mark::Off);
    }

    // Puts the literals of a clause into the set, but one; whether that one is among them.
    fn mark_rest(&mut self, lits: &[Lit], but: Lit) -> Result<bool, AllocError>
        requires marks { AllByRecursion (HasMark self.old) lits.now }
        requires covers { Covers self.old }
        ensures now { OnOk result ((k : TheLit) → is_in self.new k ≡ (is_in self.old k || is_member_but lits.now but k)) }
        ensures found { IfOk result (λ b. b ≡ is_member lits.now but) }
        ensures covers { OnOk result (Covers self.new) }
        ensures size { SameMarks self.old self.new }
    {
        let mut found = false;
        for lit in lits {
            let is_but = self.mark_but(*lit, but)?;
            found = either(found, is_but);
        }
        Ok(found)
    }

    /// Puts the literals of a clause into the set.
    pub fn mark_all(&mut self, lits: &[Lit]) -> Result<(), AllocError>
        requires marks { AllByRecursion (HasMark self.old) lits.now }
        requires covers { Covers self.old }
        ensures now { OnOk result ((k : TheLit) → is_in self.new k ≡ (is_in self.old k || is_member lits.now k)) }
        ensures covers { OnOk result (Covers self.new) }
        ensures size { SameMarks self.old self.new }
    {
        for lit in lits {
            self.mark(*lit)?;
        }
        Ok(())
    }

    /// Resolves the set with a clause on a literal, where the literal is in the set and its opposite in the clause.
    pub fn resolve(&mut self, lit: Lit, other: &[Lit]) -> Result<bool, AllocError>
        requires mark { HasMark self.old lit }
        requires marks { AllByRecursion (HasMark self.old) other.now }
        requires covers { Covers self.old }
        ensures yes { IfOk result (λ b. b ≡ true → Resolves (members self.old) lit other.now (members self.new)) }
        ensures no { IfOk result (λ b. b ≡ false → Has (members self.old) lit → Has other.now (opposite lit) → ⊥) }
        ensures covers { OnOk result (Covers self.new) }
        ensures size { SameMarks self.old self.new }
    {
        if !self.is_on(lit) {
            return Ok(false);
        }
        self.unmark(lit);
        let found = self.mark_rest(other, opposite(lit))?;
        Ok(found)
    }

    /// The literals of the set.
    pub fn members(&self, alloc: Global) -> Result<Vec<Lit>, AllocError>
        ensures { IfOk result (λ v. v.items ≡ members self.now) }
    {
        let mut lits = Vec::new(alloc);
        for lit in &self.touched {
            if self.is_on(*lit) {
                lits.push(*lit)?;
            }
        }
        Ok(lits)
    }

    /// Takes everything out of the set, in the time of what was put in.
    pub fn clear(&mut self)
        requires covers { Covers self.old }
        ensures clean { IsClean self.new }
        ensures size { SameMarks self.old self.new }
    {
        for i in 0..self.touched.len() {
            let lit = self.touched[i];
            self.forget(lit);
        }
        self.touched.clear();
    }
}
