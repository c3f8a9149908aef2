ghost use Rattle.std.specs.Prelude.{◌≡◌, ◌+◌, ◌<◌, ◌^◌, IfOk, true, length, None, Some, []};
ghost use Rattle.fm_elab.specs.Stacks.{assertions_in_force, signature};
ghost use Rattle.fm_sexp.specs.Items.{spans_within};
ghost use Rattle.fm_session.specs.Effects.{Effect, effect};
ghost use Rattle.fm_session.specs.Kept.{past_of};
ghost use Rattle.fm_session.specs.Making.{IsCertified, Responds, blocks_in};
ghost use Rattle.fm_session.specs.Replies.{claim_in, model_refusal, start};
ghost use Rattle.fm_session.specs.Steps.{Steps, after, forgotten};
ghost use Rattle.fm_thin.specs.Thin.{are_thin as are_thin_of};

use crate::budget::Budget;
use crate::effect::{Act, act_of};
use crate::replies::{line, reason, success, word_of};
use fm_base::{Fail, Formula, Place, Reason, Refusal, Sig};
use fm_cert::{Block, Claim, print};
use fm_elab::Scopes;
use fm_script::read_command;
use fm_sexp::Sexp;
use fm_thin::{answer, are_thin};
use std::alloc::{AllocError, Global};
use std::marker::Model;

/// The answer to one command, whole: its block in the certificate's form, its reply, and whether it is `exit`.
#[derive(Drop)]
pub struct Step {
    pub block: Vec<u8>,
    pub reply: Vec<u8>,
    pub ended: bool,
}

// The answer to a command, with its block.
#[derive(Drop)]
struct Answer {
    made: Option<Block>,
    block: Vec<u8>,
    reply: Vec<u8>,
}

/// What the commands of a script so far leave: the assertion stack, whether `success` is printed, what the last
/// `check-sat` left standing, and how many were answered.
#[derive(Drop)]
pub struct Session<'a> {
    budget: Budget,
    scopes: Scopes<'a>,
    success: bool,
    standing: Option<Claim>,
    checks: u64,
    ended: bool,
}

impl<'a> Model for Session<'a> {
    ghost use Rattle.fm_session.specs.Kept.{Kept, kept_in};
    ghost use Rattle.fm_base.specs.contracts.formula.Formula as formula;
    ghost use Rattle.std.specs.Coded.{codes};

    ghost coded = { Prim.hlevel (codes, formula.the_row.coded) };

    ghost Value = { Kept };

    ghost view = { λ s. kept_in s.budget s.scopes s.success s.standing s.checks s.ended };
}

impl<'a> Session<'a> {
    /// Nothing is declared, and `success` isn't printed.
    pub fn new(alloc: Global, budget: Budget) -> Session<'a>
        ensures { past_of result ≡ start budget }
    {
        Session {
            budget,
            scopes: Scopes::new(alloc),
            success: false,
            standing: None,
            checks: 0,
            ended: false,
        }
    }

    /// Reads one command, carries it out and answers it. After a refusal the session is as before. After want of memory
    /// the assertion stack is as before, and no reply stands.
    ///
    /// Refused are an item that is no command, as `read_command` of fm_script refuses it; `get-model` and `get-value` where
    /// no `sat` stands (`NoModel`), and else, until models are printed, as `NotYet`; `check-sat` where an assertion in force
    /// is neither a truth value nor an equation of two constants of one sort, until a search stands, as `NotYet`; all three
    /// at the command; and what `apply` of fm_elab refuses.
    pub fn step(&mut self, alloc: Global, text: &'a [u8], item: &'a Sexp) -> Result<Step, Fail>
        requires within { spans_within (length text.now) item.now ≡ true }
        requires checks { self.old.checks + 1 < 2 ^ 64 }
        ensures { Steps text.now (past_of self.old) item.now result (forgotten (past_of self.old)) (past_of self.new) }
    {
        match self.carry_out(alloc, text, item) {
            Err(Fail::Memory) => {
                self.standing = None;
                Err(Fail::Memory)
            }
            other => other,
        }
    }

    // The same, but want of memory leaves all as before.
    fn carry_out(&mut self, alloc: Global, text: &'a [u8], item: &'a Sexp) -> Result<Step, Fail>
        requires within { spans_within (length text.now) item.now ≡ true }
        requires checks { self.old.checks + 1 < 2 ^ 64 }
        ensures { Steps text.now (past_of self.old) item.now result (past_of self.old) (past_of self.new) }
    {
        let command = read_command(alloc, text, item)?;
        let act = act_of(text, &command, self.scopes.has_begun());
        let answer = self.answer_to(alloc, act)?;
        self.scopes.apply(text, &command)?;
        self.note(act, answer.made);
        Ok(Step {
            block: answer.block,
            reply: answer.reply,
            ended: self.ended,
        })
    }

    fn model_refused(&self, at: Place) -> Refusal
        ensures { result ≡ model_refusal at self.now.standing }
    {
        let reason = match &self.standing {
            Some(Claim::Sat { .. }) => Reason::NotYet,
            _ => Reason::NoModel,
        };
        Refusal { reason, at }
    }

    // The whole answer, before anything changes, or the refusal that what stands decides.
    fn answer_to(&self, alloc: Global, act: Act) -> Result<Answer, Fail>
        ensures { Responds (past_of self.now) (effect act.entry) result }
    {
        match act {
            Act::Checks { at } => self.answer_check(alloc, at),
            Act::AsksModel { at } => Err(Fail::Refused(self.model_refused(at))),
            Act::Says { text } => match line(alloc, text) {
                Ok(reply) => Ok(only(alloc, reply)),
                Err(_) => Err(Fail::Memory),
            },
            Act::AsksWhy => match reason(alloc, self.budget, &self.standing) {
                Ok(reply) => Ok(only(alloc, reply)),
                Err(_) => Err(Fail::Memory),
            },
            Act::Prints { on } => match success(alloc, on) {
                Ok(reply) => Ok(only(alloc, reply)),
                Err(_) => Err(Fail::Memory),
            },
            Act::Changes | Act::Ends | Act::Passes => match success(alloc, self.success) {
                Ok(reply) => Ok(only(alloc, reply)),
                Err(_) => Err(Fail::Memory),
            },
        }
    }

    // The answer to a `check-sat`.
    fn answer_check(&self, alloc: Global, at: Place) -> Result<Answer, Fail>
        ensures { Responds (past_of self.now) (Effect.Checks at) result }
    {
        let Ok(problem) = self.scopes.problem() else {
            return Err(Fail::Memory);
        };
        if !are_thin(&problem.sig, problem.assertions) {
            let reason = Reason::NotYet;
            return Err(Fail::Refused(Refusal { reason, at }));
        }
        match certified(alloc, self.checks, &problem.sig, problem.assertions) {
            Ok(answer) => Ok(answer),
            Err(_) => Err(Fail::Memory),
        }
    }

    // Keeps what the answered command leaves, apart from the assertion stack.
    fn note(&mut self, act: Act, made: Option<Block>)
        requires { self.old.checks + length (blocks_in made) < 2 ^ 64 }
        ensures { past_of self.new ≡ after (past_of self.old) (record { effect = effect act.entry; stack = (past_of self.old).stack }) (blocks_in made) }
    {
        self.ended = matches!(act, Act::Ends);
        if let Some(_) = &made {
            self.checks += 1;
        }
        match act {
            Act::Checks { .. } => self.standing = claim_of(made),
            Act::Changes => self.standing = None,
            Act::Prints { on } => self.success = on,
            _ => {}
        }
    }
}

// The block that answers a `check-sat` of thin assertions, with its text and its word.
fn certified(
    alloc: Global,
    number: u64,
    sig: &Sig,
    assertions: &[Formula],
) -> Result<Answer, AllocError>
    requires { are_thin_of sig.now assertions.now ≡ true }
    ensures { IfOk result (IsCertified number sig.now assertions.now) }
{
    let block = answer(alloc, number, sig, assertions)?;
    let spelled = print(alloc, &block)?;
    let reply = Vec::from_slice(alloc, word_of(&block.claim))?;
    Ok(Answer {
        made: Some(block),
        block: spelled,
        reply,
    })
}

fn claim_of(made: Option<Block>) -> Option<Claim>
    ensures { result ≡ claim_in (blocks_in made) }
{
    match made {
        Some(block) => Some(block.claim),
        None => None,
    }
}

// A reply without a block.
fn only(alloc: Global, reply: Vec<u8>) -> Answer
    ensures made { result.made ≡ None }
    ensures block { result.block.items ≡ [] }
    ensures reply { result.reply ≡ reply }
{
    let block = Vec::new(alloc);
    Answer {
        made: None,
        block,
        reply,
    }
}
