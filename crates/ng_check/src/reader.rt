// What a check is asked, with the cells that its loads found.
ghost use Rattle.std.specs.Prelude.{◌≡◌, ◌*◌, ◌%◌, ◌+◌, ◌<◌, ◌≤◌, ◌^◌, [], length, Some};
ghost use Rattle.ng_view.specs.Layouts.{InRange};
ghost use Rattle.ng_header.specs.Bytes.{byte_of};
ghost use Rattle.ng_meta.specs.Cells.{joined};
ghost use Rattle.ng_check.specs.Queries.{byte, cell, number};
ghost use Rattle.ng_check.specs.Readings.{Goes};

use arrayvec::ArrayVec;
use ng_space::{Hand, Name, Space};
use std::marker::{Model, PhantomData};

/// The most cells that a check loads.
const ROOM: usize = 16;

/// A pointer to be checked, and the cells that were loaded for that, each once.
#[derive(Drop)]
pub(crate) struct Reader<N: Name> {
    pages: u32,
    secret: u64,
    addr: u64,
    cells: ArrayVec<(u64, u64), ROOM>,
    of: PhantomData<N>,
}

impl<N: Name> Model for Reader<N> {
    ghost use Rattle.std.specs.Prelude.{◌≡◌, ◌≤◌};
    ghost use Rattle.ng_check.specs.Queries.{Query};

    ghost Value = { Query };

    ghost view = { λ reader. record {
      pages = reader.pages;
      secret = reader.secret;
      addr = reader.addr;
      cells = reader.cells.items;
    } };

    ghost invariant = { λ reader. (reader.pages ≡ N.facts.start.pages) × (reader.pages ≤ 16384) };
}

impl<N: Name> Reader<N> {
    pub(crate) fn new(space: &Space<N>, secret: u64, addr: u64) -> Reader<N>
        ensures query { result ≡ record { pages = N.facts.start.pages; secret = secret; addr = addr; cells = [] } }
        ensures range { InRange N.facts.start }
    {
        Reader {
            pages: space.pages(),
            secret,
            addr,
            cells: ArrayVec::new(),
            of: PhantomData,
        }
    }

    pub(crate) fn addr(&self) -> u64
        ensures { result ≡ self.now.addr }
    {
        self.addr
    }

    pub(crate) fn secret(&self) -> u64
        ensures { result ≡ self.now.secret }
    {
        self.secret
    }

    pub(crate) fn pages(&self) -> u32
        ensures pages { result ≡ self.now.pages }
        ensures few { result ≤ 16384 }
    {
        self.pages
    }

    /// The number in a cell that was loaded.
    pub(crate) fn cell(&self, addr: u64) -> Option<u32>
        ensures { result ≡ cell self.now addr }
    {
        let pair = self.cells.as_slice().iter().find(|pair| pair.0 == addr)?;
        Some((pair.1 % (1 << 32)) as u32)
    }

    /// The number in two cells that were loaded, the low one first.
    #[tactic(auto, unfolding(crate::specs::Queries::number))]
    pub(crate) fn number(&self, addr: u64) -> Option<u64>
        requires { addr + 4 < 2 ^ 64 }
        ensures { result ≡ number self.now addr }
    {
        let low = self.cell(addr)?;
        let high = self.cell(addr + 4)?;
        Some(join(low, high))
    }

    /// The byte at an address whose cell was loaded.
    #[tactic(auto, unfolding(crate::specs::Queries::byte))]
    pub(crate) fn byte(&self, addr: u64) -> Option<u8>
        ensures { result ≡ byte self.now addr }
    {
        let cell = self.cell(4 * (addr / 4))?;
        Some(byte_in(cell, addr % 4))
    }

    /// The number in a cell, which is loaded where it wasn't before.
    pub(crate) fn load(&mut self, space: &Space<N>, hand: &mut Hand<N>, addr: u64) -> u32
        requires whole { addr % 4 ≡ 0 }
        requires inside { addr < 4096 * self.old.pages }
        requires room { length self.old.cells < 16 }
        ensures cell { cell self.new addr ≡ Some result }
        ensures goes { Goes N.facts.start 1 self.old hand.old self.new hand.new }
    {
        if let Some(cell) = self.cell(addr) {
            return cell;
        }
        let word = space.load(hand, addr);
        self.cells.push((addr, word));
        (word % (1 << 32)) as u32
    }

    /// The number in two cells, the low one first, which are loaded where they weren't before.
    pub(crate) fn load_number(&mut self, space: &Space<N>, hand: &mut Hand<N>, addr: u64) -> u64
        requires whole { addr % 4 ≡ 0 }
        requires inside { addr + 4 < 4096 * self.old.pages }
        requires room { length self.old.cells < 15 }
        ensures number { number self.new addr ≡ Some result }
        ensures goes { Goes N.facts.start 2 self.old hand.old self.new hand.new }
    {
        // A space has at most 16384 pages, so the next address is one of 64 bits.
        let _pages = self.pages();
        let low = self.load(space, hand, addr);
        let high = self.load(space, hand, addr + 4);
        join(low, high)
    }

    /// A byte, whose cell is loaded where it wasn't before.
    pub(crate) fn load_byte(&mut self, space: &Space<N>, hand: &mut Hand<N>, addr: u64) -> u8
        requires inside { addr < 4096 * self.old.pages }
        requires room { length self.old.cells < 16 }
        ensures byte { byte self.new addr ≡ Some result }
        ensures goes { Goes N.facts.start 1 self.old hand.old self.new hand.new }
    {
        let cell = self.load(space, hand, 4 * (addr / 4));
        byte_in(cell, addr % 4)
    }
}

// The number in two cells.
fn join(low: u32, high: u32) -> u64
    ensures { result ≡ joined low high }
{
    u64::from(high) << 32 | u64::from(low)
}

// One byte of a cell.
fn byte_in(cell: u32, place: u64) -> u8
    requires { place < 4 }
    ensures { result ≡ byte_of cell place }
{
    (cell >> (8 * place) & 0xff) as u8
}
