ghost use Rattle.std.specs.Prelude.{◌≡◌, ◌⊎◌, ◌≤◌, ◌<◌, ◌^◌, []};
ghost use Rattle.ng_policy.specs.Policy.{Counts, Keeps};
ghost use Rattle.ng_replay.specs.Serving.{counts_of};
ghost use Rattle.ng_terms.specs.Causes.{Rose};
ghost use Rattle.ng_tool.specs.Causes.{IsDue, IsServed};
ghost use Rattle.ng_tool.specs.Statuses.{IsEarly};
ghost use Rattle.ng_tool.specs.Tool.{WritesAnswer, WritesBeginning};
ghost use Rattle.ng_tool.specs.declared.call.Call.TheVariants as Call;
ghost use Rattle.ng_words.specs.Words.{texts_of};

use crate::asked::asked;
use crate::beside::run_beside;
use crate::call::Call;
use crate::closed::Closed;
use crate::fresh::Fresh;
use crate::prepare::prepare_logs;
use ng_mapper::Mapper;
use ng_mtrace::{Sink, Source};
use ng_policy::{Ask, Policy, Spare};
use ng_replay::Gate;
use ng_terms::Host;
use ng_words::Status;
use std::alloc::Global;
use std::marker::Brand;
use std::sync::Wait;
use std::thread::Threads;

/// Does what the words of `replay` ask: it replays the logs of the input beside each other, each by a worker of its own, on a
/// heap over the mapper that builds its groups by the policy, and writes the report. The gate is told before each op and after
/// its reply. It answers how that ended, and hands the mapper back, with the heap as it was closed where the report or a
/// beginning of it was written.
///
/// The mapper is the caller's: `--pages`, `--refuse` and `--quota` are for whoever makes it (`ng_words::setup`).
///
/// It waits for the heap's lock, for blocks that a log hands to another, for its workers and for the gate: what it promises
/// holds if it returns. `Host` may come whenever the host has no memory left, but only before the first call of the heap.
pub fn replay<
    R: Threads + Wait + Sync,
    I: Source,
    O: Sink,
    M: Mapper + Send,
    C: Fn(Ask) -> u32 + Send + Drop,
    K: Fn(Spare) -> bool + Send + Drop,
    G: Gate + Sync,
>(
    rt: &R,
    alloc: Global,
    words: &[String],
    input: &mut I,
    out: &mut O,
    mapper: M,
    policy: Policy<C, K>,
    gate: &G,
) -> (Status, M, Vec<Closed>)
    requires no_runs { M.runs mapper ≡ [] }
    requires least { 16 ≤ (M.span mapper).size }
    requires most { (M.span mapper).size ≤ 16384 }
    requires refusals { (M.refused mapper).count < 2 ^ 62 }
    requires counts { Counts C.pre C.post policy.count }
    requires keeps { Keeps K.pre policy.keep }

    // All was written: the answer to a command that the words ask for.
    ensures done { result.0 ≡ Status.Done → WritesAnswer Call.Beside (texts_of words.now)
        (I.left input.old) (I.left input.new) (M.span mapper)
        (counts_of (M.refused mapper)) (counts_of (M.refused result.1)) (M.runs result.1) result.2.items
        (O.written out.old) (O.written out.new) }

    // A write failed, and a beginning of such an answer was written.
    ensures write_fault { result.0 ≡ Status.WriteFault → Rose (O.faults out.old) (O.faults out.new) }
    ensures beginning { result.0 ≡ Status.WriteFault → WritesBeginning Call.Beside (texts_of words.now)
        (I.left input.old) (I.left input.new) (M.span mapper)
        (counts_of (M.refused mapper)) (counts_of (M.refused result.1)) (M.runs result.1) result.2.items
        (O.written out.old) (O.written out.new) }

    // The other statuses but `Host`, with their causes.
    ensures due { IsDue Call.Beside (texts_of words.now) I.left I.faults I.exact input.old input.new result.0 }

    // Words and an input in their languages are served, where no read, no write and no memory fails.
    ensures complete { IsServed Call.Beside (texts_of words.now) (I.left input.old)
        → ¬ Rose (I.faults input.old) (I.faults input.new) → ¬ Rose (O.faults out.old) (O.faults out.new)
        → (result.0 ≡ Status.Done) ⊎ (result.0 ≡ Status.Host) }

    // The mapper that comes back is of the same space, with every status.
    ensures span { M.span result.1 ≡ M.span mapper }

    // With the statuses before the first heap call nothing was written, and the mapper is as it was.
    ensures nothing { IsEarly result.0 → O.written out.new ≡ O.written out.old }
    ensures handed_back { IsEarly result.0 → result.1 ≡ mapper }
    ensures unopened { IsEarly result.0 → result.2.items ≡ [] }
{
    let command = match asked(alloc, words, Call::Beside) {
        Ok(command) => command,
        Err(status) => return (status, mapper, Vec::new(alloc)),
    };
    let prepared = match prepare_logs(alloc, input, command.mode, command.calls_shown) {
        Ok(prepared) => prepared,
        Err(status) => return (status, mapper, Vec::new(alloc)),
    };
    match Fresh::for_plan(alloc, &prepared.plan, prepared.mode, &mapper) {
        Ok(fresh) => run_beside::<_, Brand, _, _, _, _>(
            rt, alloc, prepared, fresh, mapper, policy, out, gate,
        ),
        Err(Host) => (Status::Host, mapper, Vec::new(alloc)),
    }
}
