// Blocks that go from hand to hand.
ghost use Rattle.std.specs.Prelude.{◌≡◌};
ghost use Rattle.ng_space.specs.Leaving.{KeepsBook, KeepsSlots, Leaves};
ghost use Rattle.ng_heap.specs.Keeps.{IsFresh, sent_one, took_one};
ghost use Rattle.ng_space.specs.Blocks.{HasFramed};
ghost use Rattle.ng_space.specs.Parcels.{taken_by};
ghost use Rattle.ng_view.specs.Steps.{split_off};

use crate::heap::Heap;
use ng_space::{Block, Hand, Name, Parcel};

impl<N: Name> Heap<N> {
    /// Sends a framed block off, which is out of the hand then.
    pub fn send(&self, hand: &mut Hand<N>, block: Block<N>) -> Parcel<N>
        requires block { HasFramed hand.old block }
        ensures block { result.block ≡ block }
        ensures view { hand.new.view ≡ split_off hand.old.view block.slot.meta block.slot.index }
        ensures leaves { Leaves block.slot (sent_one hand.old.view) hand.new.view }
        ensures book { KeepsBook hand.old hand.new }
    {
        self.space.split_parcel(hand, block)
    }

    /// Takes a block in that another hand sent. It is framed, and in a slot apart from those that the
    /// hand had.
    pub fn receive(&self, hand: &mut Hand<N>, parcel: Parcel<N>) -> Block<N>
        ensures block { result ≡ taken_by parcel.block hand.old.number }
        ensures framed { HasFramed hand.new result }
        ensures fresh { IsFresh hand.old result.slot }
        ensures leaves { Leaves result.slot (took_one hand.old.view) hand.new.view }
        ensures slots { KeepsSlots hand.old.view hand.new.view }
        ensures book { KeepsBook hand.old hand.new }
    {
        let block = self.space.join_parcel(hand, parcel);
        // A load tells that no slot is twice in the hand.
        self.space.load(hand, 0);
        block
    }
}
