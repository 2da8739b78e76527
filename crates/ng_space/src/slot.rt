ghost use Rattle.std.specs.Prelude.{◌≡◌, ◌<◌, ◌≤◌, ◌+◌, ◌*◌};
ghost use Rattle.ng_meta.specs.Place.{IsMetaPlace};
ghost use Rattle.ng_space.specs.Placed.{IsRead, LiesIn};
ghost use Rattle.ng_space.specs.Tokens.{LiesAt};
ghost use Rattle.ng_view.specs.declared.view.Place.{Place};

use crate::name::Name;
use ng_class::{room, slot_end, slot_start, stride};
use ng_meta::{GROUP_HEAD, fields_of};
use std::marker::{Model, PhantomData};

/// A slot in a hand, without a live block. It is spent by the call that it is moved into.
pub struct Slot<N: Name> {
    pub(crate) meta: u64,
    pub(crate) index: u32,
    // Where the first slot of its group begins.
    pub(crate) storage: u64,
    pub(crate) start: u64,
    pub(crate) end: u64,
    pub(crate) room: u64,
    // The number of the hand that has the slot.
    pub(crate) hand: u32,
    pub(crate) of: PhantomData<N>,
}

impl<N: Name> Model for Slot<N> {
    ghost use Rattle.ng_space.specs.Tokens.{Token};

    ghost Value = { Token };

    ghost use Rattle.ng_space.specs.Tokens.{IsToken};

    ghost view = { λ slot. record {
      meta = slot.meta;
      index = slot.index;
      storage = slot.storage;
      start = slot.start;
      end = slot.end;
      room = slot.room;
      hand = slot.hand;
    } };

    ghost invariant = { λ slot. IsToken N.facts.start (record {
      meta = slot.meta;
      index = slot.index;
      storage = slot.storage;
      start = slot.start;
      end = slot.end;
      room = slot.room;
      hand = slot.hand;
    }) };
}

impl<N: Name> Slot<N> {
    /// The address of the meta of the slot's group.
    pub fn meta(&self) -> u64
        ensures meta { result ≡ self.now.meta }
        ensures place { IsMetaPlace result N.facts.start.pages }
    {
        self.meta
    }

    /// The slot's place in its group.
    pub fn index(&self) -> u32
        ensures index { result ≡ self.now.index }
        ensures few { result < 32 }
    {
        self.index
    }

    /// The address of the slot's first byte. The slot's own cells begin 4 bytes before it.
    pub fn start(&self) -> u64
        ensures { result ≡ self.now.start }
    {
        self.start
    }

    /// The address behind the slot's last byte, where the next slot's header cell is.
    pub fn end(&self) -> u64
        ensures end { result ≡ self.now.end }
        ensures below { result + 4 ≤ 4096 * N.facts.start.pages }
    {
        self.end
    }

    /// Spends the token alone.
    pub(crate) fn leave(self) {
        let Slot {
            meta: _,
            index: _,
            storage: _,
            start: _,
            end: _,
            room: _,
            hand: _,
            of: _,
        } = self;
    }

    /// The same slot, in the hand of another number.
    pub(crate) fn in_hand(self, hand: u32) -> Slot<N>
        ensures { result ≡ record self { hand = hand } }
    {
        let Slot {
            meta,
            index,
            storage,
            start,
            end,
            room,
            hand: _,
            of,
        } = self;
        Slot {
            meta,
            index,
            storage,
            start,
            end,
            room,
            hand,
            of,
        }
    }

    /// The slot of an index, by what its meta says.
    pub(crate) fn new(meta: u64, index: u32, base: u64, flags: u32, hand: u32) -> Slot<N>
        requires place { (p : Place) × IsRead p meta index base flags × LiesIn N.facts.start p }
        requires pages { N.facts.start.pages ≤ 16384 }
        ensures meta { result.meta ≡ meta }
        ensures index { result.index ≡ index }
        ensures hand { result.hand ≡ hand }
        ensures stands { (p : Place) → IsRead p meta index base flags → LiesAt p result }
    {
        let fields = fields_of(flags, 0);
        let stride = stride(fields.class, fields.last, fields.maplen);
        Slot {
            meta,
            index,
            storage: base + GROUP_HEAD,
            start: slot_start(base + GROUP_HEAD, stride, index),
            end: slot_end(base + GROUP_HEAD, stride, index),
            room: room(fields.class, fields.last, fields.maplen),
            hand,
            of: PhantomData,
        }
    }

    /// How many bytes from the start on a block may begin in.
    pub fn room(&self) -> u64
        ensures { result ≡ self.now.room }
    {
        self.room
    }
}
