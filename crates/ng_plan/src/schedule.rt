ghost use Rattle.std.specs.Prelude.{◌≡◌, ◌<◌, ◌≤◌, ℕ, List, length, map, slice_get, slice_index, is_some, All, IfOk, OnOk, Some};
ghost use Rattle.ng_plan.specs.Schedules.{AreTurns, handed_over};
ghost use Rattle.ng_plan.specs.Tables.{IsNumbered, Rises, name_at, named};
ghost use Rattle.ng_plan.specs.Turns.{Turns, earliest, finish, start, try_claim, turn};

use crate::queues::Queues;
use crate::step::{Place, Step};
use std::alloc::{AllocError, Global};

/// The turns so far.
#[derive(Drop)]
pub struct Schedule {
    /// How many ops of each log are done.
    done: Vec<u32>,
    queues: Queues,
    /// Of each hand-off the op that made the block.
    pub makers: Vec<Place>,
    /// Of each hand-off the op that took the block.
    pub takers: Vec<Place>,
    /// The log of each turn.
    pub order: Vec<u32>,
}

impl Schedule {
    /// No turn yet.
    pub fn new(alloc: Global, names: usize, logs: usize, ops: usize) -> Result<Schedule, AllocError>
        ensures logs { IfOk result (λ schedule. length schedule.done.items ≡ logs) }
        ensures names { IfOk result (λ schedule. length schedule.queues.each.items ≡ names) }
        ensures start { IfOk result (λ schedule. (names : List ℕ) (steps : List (List Step))
            → Rises names
            → length names ≡ length schedule.queues.each.items → length steps ≡ logs
            → AreTurns names schedule (start steps)) }
    {
        Ok(Schedule {
            done: vec![in alloc; 0u32; logs]?,
            queues: Queues::new(alloc, names)?,
            makers: Vec::new(alloc),
            takers: Vec::new(alloc),
            order: Vec::with_capacity(alloc, ops)?,
        })
    }

    /// A log's place in a round.
    pub fn turn(&mut self, log: u32, steps: &[Step]) -> Result<(), AllocError>
        requires log { log < length self.old.done.items }
        requires short { length steps.now ≤ 1000000 }
        requires numbers { All (IsNumbered (length self.old.queues.each.items)) steps.now }
        ensures logs { OnOk result (length self.new.done.items ≡ length self.old.done.items) }
        ensures queues { OnOk result
            (length self.new.queues.each.items ≡ length self.old.queues.each.items) }
        ensures turns { OnOk result ((names : List ℕ) (turns : Turns)
            → AreTurns names self.old turns
            → AreTurns names self.new (turn turns log (map (named names) steps.now))) }
    {
        match self.next(log as usize, steps) {
            Some(step) => self.try_step(log, step),
            None => Ok(()),
        }
    }

    /// The next op of a log, if one is left.
    pub fn next(&self, log: usize, steps: &[Step]) -> Option<Step>
        requires { log < length self.now.done.items }
        ensures { result ≡ slice_get steps.now (slice_index self.now.done.items log) }
    {
        steps.get(self.done[log] as usize).copied()
    }

    /// The next op of a log, unless it claims a name of which no block is posted.
    fn try_step(&mut self, log: u32, step: Step) -> Result<(), AllocError>
        requires log { log < length self.old.done.items }
        requires few { slice_index self.old.done.items log < 1000000 }
        requires numbers { IsNumbered (length self.old.queues.each.items) step }
        ensures logs { OnOk result (length self.new.done.items ≡ length self.old.done.items) }
        ensures queues { OnOk result
            (length self.new.queues.each.items ≡ length self.old.queues.each.items) }
        ensures turns { OnOk result ((names : List ℕ) (turns : Turns)
            → AreTurns names self.old turns
            → AreTurns names self.new (try_claim turns log (named names step)
            (name_at names step.claims))) }
    {
        match step.claims {
            None => self.finish(log, step.posts),
            Some(name) => {
                if self.claim(log, name)? {
                    self.finish(log, step.posts)
                } else {
                    Ok(())
                }
            }
        }
    }

    /// The next op of a log claims the earliest block of a name. `false`: none is posted.
    fn claim(&mut self, log: u32, name: u32) -> Result<bool, AllocError>
        requires log { log < length self.old.done.items }
        requires name { name < length self.old.queues.each.items }
        ensures done { OnOk result (self.new.done.items ≡ self.old.done.items) }
        ensures queues { OnOk result
            (length self.new.queues.each.items ≡ length self.old.queues.each.items) }
        ensures found { IfOk result (λ found. (names : List ℕ) (turns : Turns)
            → AreTurns names self.old turns
            → found ≡ is_some (earliest (slice_index names name) turns.posted)) }
        ensures turns { OnOk result ((names : List ℕ) (turns : Turns)
            → AreTurns names self.old turns
            → AreTurns names self.new (handed_over turns log (earliest
            (slice_index names name) turns.posted))) }
    {
        let Some(maker) = self.queues.take(name as usize) else {
            return Ok(false);
        };
        let op = self.done[log as usize];
        self.makers.push(maker)?;
        self.takers.push(Place { log, op })?;
        Ok(true)
    }

    /// The next op of a log is done: what it hands is posted.
    #[inline(always)]
    pub fn finish(&mut self, log: u32, posts: Option<u32>) -> Result<(), AllocError>
        requires log { log < length self.old.done.items }
        requires few { slice_index self.old.done.items log < 1000000 }
        requires posts { (at : ℕ) → posts ≡ Some at → at < length self.old.queues.each.items }
        ensures logs { OnOk result (length self.new.done.items ≡ length self.old.done.items) }
        ensures queues { OnOk result
            (length self.new.queues.each.items ≡ length self.old.queues.each.items) }
        ensures turns { OnOk result ((names : List ℕ) (turns : Turns)
            → AreTurns names self.old turns
            → AreTurns names self.new (finish turns log (name_at names posts))) }
    {
        let op = self.done[log as usize];
        self.queues.post(posts, Place { log, op })?;
        self.done[log as usize] = op + 1;
        self.order.push(log)?;
        Ok(())
    }

    /// The log of each turn.
    pub fn into_order(self) -> Vec<u32>
        ensures { result.items ≡ self.order.items }
    {
        self.order
    }
}
