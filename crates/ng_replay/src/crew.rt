ghost use Rattle.std.specs.Prelude.{◌≡◌, All, [], ◌≤◌, IfErr, IfOk, length, map, vec_capacity};
ghost use Rattle.ng_replay.specs.Crews.{HavePlaces, IsCrewFor, doors_of, hands_of};

use crate::room::{blocks_for, end_rows, rows_for};
use crate::worker::Worker;
use ng_post::Door;
use ng_space::{Block, Hand, Name};
use ng_terms::{Host, Items, Plan, Reply};
use std::alloc::{AllocError, Global};

/// A worker for each log of a plan, and room for what the workers leave: all memory of a replay beside
/// each other.
pub struct Crew<N: Name> {
    pub(crate) workers: Vec<Worker<N>>,
    /// Where the hands and the doors come to lie again.
    pub(crate) hands: Vec<Hand<N>>,
    pub(crate) doors: Vec<Door<N>>,
    /// Where the rows of replies come to lie.
    pub(crate) replies: Vec<Items<Reply>>,
}

/// Room for the workers of a plan.
struct Places<N: Name> {
    workers: Vec<Worker<N>>,
    /// Room for the blocks that stand for the ops of each log.
    blocks: Vec<Vec<Option<Block<N>>>>,
    /// Room for the replies to the ops of each log.
    rows: Vec<Vec<Reply>>,
    replies: Vec<Items<Reply>>,
}

impl<N: Name> Crew<N> {
    /// Makes the crew of a plan, of one hand and one door for each log. Where the host has too little
    /// memory, the hands come back.
    pub fn open(
        alloc: Global,
        plan: &Plan,
        hands: Vec<Hand<N>>,
        doors: Vec<Door<N>>,
    ) -> Result<Crew<N>, (Vec<Hand<N>>, Host)>
        requires hands { length hands.items ≡ length plan.now.logs }
        requires doors { length doors.items ≡ length plan.now.logs }
        ensures crew { IfOk result (λ crew. IsCrewFor crew plan.now) }
        ensures hands { IfOk result (λ crew. hands_of crew ≡ hands.items) }
        ensures doors { IfOk result (λ crew. doors_of crew ≡ doors.items) }
        ensures handed_back { IfErr result (λ error. error.0.items ≡ hands.items) }
    {
        match places_for(alloc, plan) {
            Ok(places) => Ok(crew_of(places, hands, doors)),
            Err(_) => Err((hands, Host)),
        }
    }
}

/// The room for the workers of a plan.
fn places_for<N: Name>(alloc: Global, plan: &Plan) -> Result<Places<N>, AllocError>
    ensures { IfOk result (λ places. HavePlaces places plan.now) }
{
    let logs = plan.logs.as_slice();
    let rows = rows_for(alloc, logs)?;
    let replies = Vec::with_capacity(alloc, logs.len())?;
    let blocks = blocks_for(alloc, logs)?;
    match Vec::with_capacity(alloc, logs.len()) {
        Ok(workers) => Ok(Places {
            workers,
            blocks,
            rows,
            replies,
        }),
        Err(error) => {
            end_rows(blocks);
            Err(error)
        }
    }
}

/// The crew in this room, of these hands and doors.
fn crew_of<N: Name>(places: Places<N>, mut hands: Vec<Hand<N>>, mut doors: Vec<Door<N>>) -> Crew<N>
    requires workers { places.workers.items ≡ [] }
    requires room { length hands.items ≤ vec_capacity places.workers }
    requires doors { length doors.items ≡ length hands.items }
    requires blocks { length places.blocks.items ≡ length hands.items }
    requires rows { length places.rows.items ≡ length hands.items }
    ensures hands { hands_of result ≡ hands.items }
    ensures doors { doors_of result ≡ doors.items }
    ensures blocks { map (λ worker. worker.row) result.workers.items ≡ places.blocks.items }
    ensures rows { map (λ worker. worker.replies) result.workers.items ≡ places.rows.items }
    ensures no_hands { result.hands.items ≡ [] }
    ensures no_doors { result.doors.items ≡ [] }
    ensures room_for_hands { length hands.items ≤ vec_capacity result.hands }
    ensures room_for_doors { length doors.items ≤ vec_capacity result.doors }
    ensures replies { result.replies ≡ places.replies }
{
    let Places {
        mut workers,
        mut blocks,
        mut rows,
        replies,
    } = places;
    while hands.len() > 0 {
        let worker = Worker {
            hand: hands.remove(0),
            door: doors.remove(0),
            row: blocks.remove(0),
            replies: rows.remove(0),
        };
        workers.push_reserved(worker);
    }
    blocks.destroy_empty();
    Crew {
        workers,
        hands,
        doors,
        replies,
    }
}
