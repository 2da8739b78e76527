ghost use Rattle.std.specs.Prelude.{◌≡◌, ◌≢◌, ◌<◌, [], List, length, map, slice_index, slice_set, IfOk, OnOk};
ghost use Rattle.std.specs.List.{remove};
ghost use Rattle.ng_generator.specs.Lists.{items_in};
ghost use Rattle.ng_generator.specs.Generated.{State, start, next, drawn, list_at, put_at, end_step, make_step, log_step, step};

use ng_mtrace::{Line, Log, Logs};
use ng_terms::Items;
use std::alloc::{AllocError, Global};
use std::marker::Model;

/// How many logs are made.
const LOGS: usize = 4;

/// A generator of logs: the state of its draws, and the lines and the live names of each log.
#[derive(Drop)]
pub(crate) struct Generator {
    x: u64,
    lines: [Vec<Line>; LOGS],
    live: [Vec<u64>; LOGS],
}

impl Model for Generator {
    ghost Value = { State };

    ghost view = { λ s. record { x = s.x; lines = items_in s.lines; live = items_in s.live } };
}

impl Generator {
    /// The generator at its start.
    pub(crate) fn new(alloc: Global, seed: u64) -> Generator
        ensures { result ≡ start seed }
    {
        Generator {
            x: seed,
            lines: [
                Vec::new(alloc),
                Vec::new(alloc),
                Vec::new(alloc),
                Vec::new(alloc),
            ],
            live: [
                Vec::new(alloc),
                Vec::new(alloc),
                Vec::new(alloc),
                Vec::new(alloc),
            ],
        }
    }

    /// Draws a number below 2^31.
    #[tactic(auto, using(crate::proofs::DrawLemmas::next_is))]
    fn draw(&mut self) -> u64
        ensures value { result ≡ drawn self.old.x }
        ensures next { self.new ≡ record self.old { x = next self.old.x } }
    {
        self.x = self
            .x
            .wrapping_mul(6_364_136_223_846_793_005)
            .wrapping_add(1_442_695_040_888_963_407);
        self.x >> 33
    }

    /// Does the step of this number.
    #[tactic(auto, unfolding(crate::specs::Generated::step))]
    pub(crate) fn step(&mut self, number: u64) -> Result<(), AllocError>
        requires { number < 8000 }
        ensures { OnOk result (self.new ≡ step self.old number) }
    {
        self.log_step((number % 4) as usize, 16 * (number + 1))
    }

    /// Ends a name of a log, or makes this one.
    fn log_step(&mut self, log: usize, name: u64) -> Result<(), AllocError>
        requires { log < 4 }
        ensures { OnOk result (self.new ≡ log_step self.old log name) }
    {
        let choice = self.draw();
        if !self.live[log].is_empty() && choice % 3 == 0 {
            self.end(log)
        } else {
            self.make(log, name)
        }
    }

    /// Ends a live name of a log.
    fn end(&mut self, log: usize) -> Result<(), AllocError>
        requires log { log < 4 }
        requires live { list_at self.old.live log ≢ [] }
        ensures { OnOk result (self.new ≡ end_step self.old log) }
    {
        let place = self.draw() as usize % self.live[log].len();
        let name = take(&mut self.live, log, place);
        put(&mut self.lines, log, Line::End { name })
    }

    /// Makes a name in a log, which that log or the next one keeps.
    fn make(&mut self, log: usize, name: u64) -> Result<(), AllocError>
        requires { log < 4 }
        ensures { OnOk result (self.new ≡ make_step self.old log name) }
    {
        let size = self.draw() % 1024;
        let share = self.draw();
        put(&mut self.lines, log, Line::Make { name, size })?;
        let keeper = if share % 8 == 0 {
            (log + 1) % LOGS
        } else {
            log
        };
        put(&mut self.live, keeper, name)
    }

    /// The logs so far.
    pub(crate) fn into_logs(self, alloc: Global) -> Result<Logs, AllocError>
        ensures { IfOk result (λ logs. map (λ log. log.lines) logs.logs ≡ self.lines) }
    {
        let Generator {
            x: _,
            lines,
            live: _,
        } = self;
        let mut logs = Vec::with_capacity(alloc, LOGS)?;
        for lines in Vec::from_array(alloc, lines)? {
            logs.push(Log {
                lines: Items::from_vec(lines),
            })?;
        }
        Ok(Logs {
            logs: Items::from_vec(logs),
        })
    }
}

/// Puts an item at the end of one of the lists.
fn put<T: Drop>(lists: &mut [Vec<T>; LOGS], at: usize, item: T) -> Result<(), AllocError>
    requires { at < 4 }
    ensures { OnOk result (items_in lists.new ≡ put_at (items_in lists.old) at item) }
{
    lists[at].push(item)?;
    Ok(())
}

/// Takes the name at a place out of one of the lists.
fn take(lists: &mut [Vec<u64>; LOGS], at: usize, place: usize) -> u64
    requires at { at < 4 }
    requires place { place < length (list_at (items_in lists.old) at) }
    ensures name { result ≡ slice_index (list_at (items_in lists.old) at) place }
    ensures rest { items_in lists.new ≡ slice_set (items_in lists.old) at
        (remove (list_at (items_in lists.old) at) place) }
{
    lists[at].remove(place)
}
