ghost use Rattle.std.specs.Prelude.{◌≡◌, ◌*◌, ◌%◌, ◌<◌};
ghost use Rattle.std.specs.Mem.Slots.{slots_items, slots_len, IsFull};
ghost use Rattle.ng_view.specs.Cells.{cell};

use atomic_table::Closed;
use std::alloc::Global;
use std::marker::Model;

/// The cells of a closed heap, which nothing changes any more.
pub struct Image {
    closed: Closed<(), Global>,
    pages: u32,
}

impl Model for Image {
    ghost use Rattle.std.specs.Mem.Slots.{slots_items};
    ghost use Rattle.ng_space.specs.Closings.{ImageCells};

    ghost Value = { ImageCells };

    ghost use Rattle.ng_space.specs.Images.{IsImage};

    ghost view = { λ image. record { pages = image.pages; words = slots_items image.closed.words } };

    ghost invariant = { IsImage };
}

impl Image {
    pub(crate) fn new(closed: Closed<(), Global>, pages: u32) -> Image
        requires words { slots_len closed.words ≡ 1024 * pages }
        requires slots { slots_len closed.slots ≡ 0 }
        requires full { IsFull closed.words }
        ensures { result ≡ record { pages = pages; words = slots_items closed.words } }
    {
        Image { closed, pages }
    }

    /// The word at an address, whose low half is the cell there.
    pub fn word(&self, addr: u64) -> u64
        requires cell { addr % 4 ≡ 0 }
        requires inside { addr < 4096 * self.now.pages }
        ensures { result ≡ cell self.now.words addr }
    {
        self.closed.word((addr / 4) as usize)
    }

    /// How many pages of 4096 bytes the space has.
    pub fn pages(&self) -> u32
        ensures { result ≡ self.now.pages }
    {
        self.pages
    }
}

impl Drop for Image {
    fn drop(self) {
        let Image { closed, pages: _ } = self;
        closed.free();
    }
}
