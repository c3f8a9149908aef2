ghost use Rattle.std.specs.Prelude.{◌≡◌, ◌≤◌, ◌<◌, ◌+◌, length, OnErr, OnOk};
ghost use Rattle.fm_elab.specs.Held.{state_of};
ghost use Rattle.fm_elab.specs.Stacks.{closed, level_count, opened};
ghost use Rattle.fm_elab.specs.Steps.{Applies, pop, push};

use crate::both::{pop_both, push_both};
use crate::scopes::Scopes;
use fm_apply::refuse;
use fm_base::{Fail, Memory, Place, Reason};

// The most levels that may be open, the first one counted.
const MOST_LEVELS: usize = 65_537;

impl<'a> Scopes<'a> {
    // Opens so many levels, or none.
    fn open(&mut self, count: usize) -> Result<(), Memory>
        requires { level_count (state_of self.old) + count ≤ 65537 }
        ensures opened { OnOk result (state_of self.new ≡ opened (state_of self.old) count) }
        ensures err { OnErr result (state_of self.new ≡ state_of self.old) }
    {
        push_both(&mut self.declared_sorts, &mut self.sorts, count)?;
        match push_both(&mut self.symbols, &mut self.functions, count) {
            Err(fail) => {
                pop_both(&mut self.declared_sorts, &mut self.sorts, count);
                Err(fail)
            }
            Ok(()) => match self.assertions.push(count) {
                Err(fail) => {
                    pop_both(&mut self.declared_sorts, &mut self.sorts, count);
                    pop_both(&mut self.symbols, &mut self.functions, count);
                    Err(fail)
                }
                Ok(()) => {
                    self.begun = true;
                    Ok(())
                }
            },
        }
    }

    // Closes the newest levels, which are fewer than there are.
    fn close(&mut self, count: usize)
        requires { count < level_count (state_of self.old) }
        ensures { state_of self.new ≡ closed (state_of self.old) count }
    {
        pop_both(&mut self.declared_sorts, &mut self.sorts, count);
        pop_both(&mut self.symbols, &mut self.functions, count);
        self.assertions.pop(count);
        self.begun = true;
    }

    /// `push`.
    pub(crate) fn push(&mut self, at: Place, count: u64) -> Result<(), Fail>
        ensures { Applies result (state_of self.old) (push (state_of self.old) at count) (state_of self.new) }
    {
        let most = MOST_LEVELS as u64 - self.functions.len() as u64;
        if most < count {
            return Err(refuse(Reason::TooLarge, at));
        }
        match self.open(count as usize) {
            Err(_) => Err(Fail::Memory),
            Ok(()) => Ok(()),
        }
    }

    /// `pop`.
    pub(crate) fn pop(&mut self, at: Place, count: u64) -> Result<(), Fail>
        ensures { Applies result (state_of self.old) (pop (state_of self.old) at count) (state_of self.new) }
    {
        if self.functions.len() as u64 <= count {
            return Err(refuse(Reason::PopTooMany, at));
        }
        self.close(count as usize);
        Ok(())
    }
}
