// What a seat knows. No value of these types is made: they are the plain data of contracts.

use ng_terms::{Entry, Extent};
use std::collections::LinkedList;

/// A group as its meta tells it: the tag is its class and 1, the slots have the indices 0 to last, and maplen is the
/// number of pages of its own run, or 0.
#[derive(Drop)]
pub struct Group {
    pub meta: u64,
    pub base: u64,
    pub tag: u64,
    pub last: u64,
    pub maplen: u64,
}

/// A slot of a group.
#[derive(Drop)]
pub struct Place {
    pub group: Group,
    pub index: u64,
}

/// A slot that a seat holds, with its live block if there is one, and the cells (address, value) that are known of it.
#[derive(Drop)]
pub struct Held {
    pub place: Place,
    pub block: Option<Extent>,
    pub cells: LinkedList<(u64, u64)>,
}

/// A slot of the lock's seat that carries a nested group, whose meta is `child`.
#[derive(Drop)]
pub struct Nest {
    pub place: Place,
    pub child: u64,
}

/// A run of pages, and whether it is an area of metas.
#[derive(Drop)]
pub struct Run {
    pub addr: u64,
    pub pages: u64,
    pub area: bool,
}

/// The number of a refused map call, with that of the refused call before its trim.
#[derive(Drop)]
pub struct Excuse {
    pub first: u64,
    pub number: u64,
}

/// The runs that are noted, and the slots that carry a group.
#[derive(Drop)]
pub struct Layout {
    pub runs: LinkedList<Run>,
    pub nests: LinkedList<Nest>,
}

/// What the lock's seat knows besides its slots: the live groups, the cells (address, value) that it builds or clears,
/// the metas that are listed in a ring, the metas whose avail and whose freed mask is 0, the freed bits (meta, index)
/// that are set, the 49 numbers of page 0, the last refusal number noted, and the number of the next hand.
#[derive(Drop)]
pub struct Desk {
    pub layout: Layout,
    pub groups: LinkedList<Group>,
    pub cells: LinkedList<(u64, u64)>,
    pub listed: LinkedList<u64>,
    pub zero_avail: LinkedList<u64>,
    pub zero_freed: LinkedList<u64>,
    pub set_freed: LinkedList<(u64, u64)>,
    pub active: LinkedList<u64>,
    pub counter: u64,
    pub refusals: u64,
    pub next: u64,
}

/// The entries of one caller, in order.
#[derive(Drop)]
pub struct Book {
    pub number: u64,
    pub entries: LinkedList<Entry>,
}

/// A store in a cell of a slot: the address of the cell, the value, and how many words the seat had read before it.
#[derive(Drop)]
pub struct Store {
    pub at: u64,
    pub value: u64,
    pub behind: u64,
}

/// The view of a seat. A hand has one book and `leads` is false; the lock's seat leads and has the desk; a parcel has
/// one slot with a block. The counts are of the parcels that were split off and joined. The readings are the pairs
/// (address, word) that the seat's steps found, in order. The stores are those in cells of its slots, in order: to the
/// lock's seat, of its slots in motion.
#[derive(Drop)]
pub struct View {
    pub leads: bool,
    pub desk: Desk,
    pub held: LinkedList<Held>,
    pub books: LinkedList<Book>,
    pub excuses: LinkedList<Excuse>,
    pub sent: u64,
    pub taken: u64,
    pub parcel: bool,
    pub readings: LinkedList<(u64, u64)>,
    pub stores: LinkedList<Store>,
}

/// What a heap begins with: the pages, bounds and refusals of its mapper, the secret, and the cap.
#[derive(Drop)]
pub struct Start {
    pub pages: u64,
    pub lower: u64,
    pub upper: u64,
    pub secret: u64,
    pub refusals: u64,
    pub cap: u64,
}
