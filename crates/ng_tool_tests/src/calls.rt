// Calls of `tool` over memory.
ghost use Rattle.std.specs.Prelude.{◌≡◌, ◌≤◌, ◌<◌, ◌^◌, []};

use crate::choices::{count, keep};
use ng_mapper::{FirstFit, Mapper};
use ng_mtrace::{BytesIn, BytesOut};
use ng_policy::Policy;
use ng_tool::{Closed, tool};
use ng_words::Status;
use std::alloc::{AllocError, Global};
use std::test::Fail;

/// What `tool` answers and writes over a space of 4096 pages, where these reads and writes fail.
pub(crate) fn replayed(
    alloc: Global,
    words: &[&str],
    input: &[u8],
    reads: &[u64],
    writes: &[u64],
) -> Result<(Status, BytesOut), Fail> {
    let sink = BytesOut::new(alloc, 1000, writes.to_vec(alloc)?)?;
    let (status, sink, closed) = replayed_into(alloc, words, input, reads, sink)?;
    drop(closed);
    Ok((status, sink))
}

/// The same into a sink of one's own, with the heaps that were closed.
pub(crate) fn replayed_into(
    alloc: Global,
    words: &[&str],
    input: &[u8],
    reads: &[u64],
    mut sink: BytesOut,
) -> Result<(Status, BytesOut, Vec<Closed>), Fail> {
    let mut source = BytesIn::new(input.to_vec(alloc)?, 4, reads.to_vec(alloc)?);
    let mapper = FirstFit::new(alloc, 4096, Vec::new(alloc))?;
    let (status, closed) = replayed_over(alloc, words, &mut source, &mut sink, mapper)?;
    Ok((status, sink, closed))
}

/// What `tool` answers over a space of 16 pages, where these reads fail.
pub(crate) fn replayed_small(
    alloc: Global,
    words: &[&str],
    input: &[u8],
    reads: &[u64],
    sink: &mut BytesOut,
) -> Result<Status, Fail> {
    let mut source = BytesIn::new(input.to_vec(alloc)?, 4, reads.to_vec(alloc)?);
    let mapper = FirstFit::new(alloc, 16, Vec::new(alloc))?;
    let (status, closed) = replayed_over(alloc, words, &mut source, sink, mapper)?;
    drop(closed);
    Ok(status)
}

/// What `tool` answers over a mapper, with the heaps that were closed.
pub(crate) fn replayed_over<M: Mapper + Drop>(
    alloc: Global,
    words: &[&str],
    source: &mut BytesIn,
    sink: &mut BytesOut,
    mapper: M,
) -> Result<(Status, Vec<Closed>), AllocError>
    requires no_runs { M.runs mapper ≡ [] }
    requires least { 16 ≤ (M.span mapper).size }
    requires most { (M.span mapper).size ≤ 16384 }
    requires refusals { (M.refused mapper).count < 2 ^ 62 }
{
    let mut texts = Vec::new(alloc);
    for word in words {
        texts.push(String::from_str(alloc, word)?)?;
    }
    let policy = Policy::new(count, keep);
    let (status, mapper, closed) = tool(alloc, texts.as_slice(), source, sink, mapper, policy);
    drop(mapper);
    Ok((status, closed))
}
