ghost use Rattle.std.specs.Prelude.{◌≡◌, ◌⊎◌, ◌≤◌, ◌<◌, ◌^◌, []};
ghost use Rattle.ng_policy.specs.Policy.{Counts, Keeps};
ghost use Rattle.ng_replay.specs.Serving.{counts_of};
ghost use Rattle.ng_terms.specs.Causes.{Rose};
ghost use Rattle.ng_tool.specs.Causes.{IsDue, IsServed};
ghost use Rattle.ng_tool.specs.Statuses.{IsEarly};
ghost use Rattle.ng_tool.specs.Tool.{WritesAnswer, WritesBeginning};
ghost use Rattle.ng_tool.specs.declared.call.Call.TheVariants as Call;
ghost use Rattle.ng_words.specs.Words.{texts_of, InLanguage};

use crate::asked::asked;
use crate::call::Call;
use crate::closed::Closed;
use crate::performing::perform;
use crate::prepare::prepare;
use ng_mapper::Mapper;
use ng_mtrace::{Sink, Source};
use ng_policy::{Ask, Policy, Spare};
use ng_words::{Status, Verb};
use std::alloc::Global;

/// Does what the words ask, on a heap over the mapper that builds its groups by the policy. `serial` replays the logs of the
/// input in the order of their plan, and writes the report; `make` does so with logs that are made of a number; `drill` does
/// the script of the input, and writes the transcript; `check` writes the census of the logs' plan, without a heap. It answers
/// how that ended, and hands the mapper back, with the heap as it was closed where a command that has one wrote all or a
/// beginning.
///
/// The mapper is the caller's: `--pages`, `--refuse` and `--quota` are for whoever makes it (`ng_words::setup`).
///
/// `Host` may come whenever the host has no memory left, but only before the first call of the heap.
pub fn tool<I: Source, O: Sink, M: Mapper, C: Fn(Ask) -> u32 + Drop, K: Fn(Spare) -> bool + Drop>(
    alloc: Global,
    words: &[String],
    input: &mut I,
    out: &mut O,
    mapper: M,
    policy: Policy<C, K>,
) -> (Status, M, Vec<Closed>)
    requires no_runs { M.runs mapper ≡ [] }
    requires least { 16 ≤ (M.span mapper).size }
    requires most { (M.span mapper).size ≤ 16384 }
    requires refusals { (M.refused mapper).count < 2 ^ 62 }
    requires counts { Counts C.pre C.post policy.count }
    requires keeps { Keeps K.pre policy.keep }

    // All was written: the answer to a command that the words ask for.
    ensures done { result.0 ≡ Status.Done → WritesAnswer Call.Tool (texts_of words.now)
        (I.left input.old) (I.left input.new) (M.span mapper)
        (counts_of (M.refused mapper)) (counts_of (M.refused result.1)) (M.runs result.1) result.2.items
        (O.written out.old) (O.written out.new) }

    // A write failed, and a beginning of such an answer was written.
    ensures write_fault { result.0 ≡ Status.WriteFault → Rose (O.faults out.old) (O.faults out.new) }
    ensures beginning { result.0 ≡ Status.WriteFault → WritesBeginning Call.Tool (texts_of words.now)
        (I.left input.old) (I.left input.new) (M.span mapper)
        (counts_of (M.refused mapper)) (counts_of (M.refused result.1)) (M.runs result.1) result.2.items
        (O.written out.old) (O.written out.new) }

    // The other statuses but `Host`, with their causes.
    ensures due { IsDue Call.Tool (texts_of words.now) I.left I.faults I.exact input.old input.new result.0 }

    // Words and an input in their languages are served, where no read, no write and no memory fails.
    ensures complete { IsServed Call.Tool (texts_of words.now) (I.left input.old)
        → ¬ Rose (I.faults input.old) (I.faults input.new) → ¬ Rose (O.faults out.old) (O.faults out.new)
        → (result.0 ≡ Status.Done) ⊎ (result.0 ≡ Status.Host) }

    // `check` leaves the mapper alone.
    ensures heapless { InLanguage Verb.Check (texts_of words.now) → result.1 ≡ mapper }

    // The mapper that comes back is of the same space, with every status.
    ensures span { M.span result.1 ≡ M.span mapper }

    // With the statuses before the first heap call nothing was written, and the mapper is as it was.
    ensures nothing { IsEarly result.0 → O.written out.new ≡ O.written out.old }
    ensures handed_back { IsEarly result.0 → result.1 ≡ mapper }
    ensures unopened { IsEarly result.0 → result.2.items ≡ [] }
{
    let command = match asked(alloc, words, Call::Tool) {
        Ok(command) => command,
        Err(status) => return (status, mapper, Vec::new(alloc)),
    };
    match prepare(alloc, input, &command) {
        Ok(job) => perform(alloc, job, out, mapper, policy),
        Err(status) => (status, mapper, Vec::new(alloc)),
    }
}
