ghost use Rattle.std.specs.Prelude.{◌≡◌, [], All, IfOk, None, length, replicate};
ghost use Rattle.ng_replay.specs.Room.{HasRoom, HaveRoom};

use ng_heap::Parcel;
use ng_space::{Block, Name};
use ng_terms::{Host, Items, Op, Plan, Reply};
use std::alloc::{AllocError, Global};

/// Room for the replies to a plan's ops, for the blocks that stand for them, and for the blocks on their
/// way between logs, all taken before the first heap call.
pub struct Room<N: Name> {
    /// Room for the replies to the ops of each log.
    pub(crate) rows: Vec<Vec<Reply>>,
    /// Room for the blocks that stand for the ops of each log, in the log's hand.
    pub(crate) blocks: Vec<Vec<Option<Block<N>>>>,
    /// Room for the rows of replies, once they are full.
    pub(crate) replies: Vec<Items<Reply>>,
    /// The block that was handed off under each number, from 1, until it is claimed.
    pub(crate) parcels: Vec<Option<Parcel<N>>>,
}

impl<N: Name> Room<N> {
    /// Takes the room for a plan.
    pub fn for_plan(alloc: Global, plan: &Plan) -> Result<Room<N>, Host>
        ensures fits { IfOk result (λ room. HasRoom room plan.now) }
    {
        match room_for(alloc, plan) {
            Ok(room) => Ok(room),
            Err(_) => Err(Host),
        }
    }
}

/// The room for a plan.
fn room_for<N: Name>(alloc: Global, plan: &Plan) -> Result<Room<N>, AllocError>
    ensures { IfOk result (λ room. HasRoom room plan.now) }
{
    let logs = plan.logs.as_slice();
    let rows = rows_for(alloc, logs)?;
    let replies = Vec::with_capacity(alloc, logs.len())?;
    let parcels = parcels_for(alloc, plan.receivers.len())?;
    match blocks_for(alloc, logs) {
        Ok(blocks) => Ok(Room {
            rows,
            blocks,
            replies,
            parcels,
        }),
        Err(error) => {
            end_parcels(parcels);
            Err(error)
        }
    }
}

/// An empty row of replies for each log.
pub(crate) fn rows_for(alloc: Global, logs: &[Items<Op>]) -> Result<Vec<Vec<Reply>>, AllocError>
    ensures logs { IfOk result (λ rows. length rows.items ≡ length logs.now) }
    ensures empty { IfOk result (λ rows. All (λ row. row.items ≡ []) rows.items) }
    ensures room { IfOk result (λ rows. HaveRoom logs.now rows.items) }
{
    let mut rows = Vec::with_capacity(alloc, logs.len())?;
    for ops in logs {
        let row = Vec::with_capacity(alloc, ops.len())?;
        rows.push(row)?;
    }
    Ok(rows)
}

/// An empty row of blocks for each log.
pub(crate) fn blocks_for<N: Name>(
    alloc: Global,
    logs: &[Items<Op>],
) -> Result<Vec<Vec<Option<Block<N>>>>, AllocError>
    ensures logs { IfOk result (λ rows. length rows.items ≡ length logs.now) }
    ensures empty { IfOk result (λ rows. All (λ row. row.items ≡ []) rows.items) }
    ensures room { IfOk result (λ rows. HaveRoom logs.now rows.items) }
{
    let mut rows = Vec::with_capacity(alloc, logs.len())?;
    for ops in logs {
        match Vec::with_capacity(alloc, ops.len()) {
            Ok(row) => rows.push_reserved(row),
            Err(error) => {
                end_rows(rows);
                return Err(error);
            }
        }
    }
    Ok(rows)
}

/// Ends rows without blocks.
pub(crate) fn end_rows<N: Name>(mut rows: Vec<Vec<Option<Block<N>>>>)
    requires empty { All (λ row. row.items ≡ []) rows.items }
{
    while let Some(row) = rows.pop() {
        row.destroy_empty();
    }
    rows.destroy_empty();
}

/// No block under each of so many numbers.
fn parcels_for<N: Name>(alloc: Global, count: usize) -> Result<Vec<Option<Parcel<N>>>, AllocError>
    ensures { IfOk result (λ parcels. parcels.items ≡ replicate count None) }
{
    let mut parcels = Vec::with_capacity(alloc, count)?;
    for _number in 0..count {
        parcels.push_reserved(None);
    }
    Ok(parcels)
}

/// Ends the places of the numbers, where no block is under any.
pub(crate) fn end_parcels<N: Name>(mut parcels: Vec<Option<Parcel<N>>>)
    requires none { All (λ parcel. parcel ≡ None) parcels.items }
{
    while let Some(parcel) = parcels.pop() {
        match parcel {
            None => {}
            Some(_) => unreachable!(),
        }
    }
    parcels.destroy_empty();
}
