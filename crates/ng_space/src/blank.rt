ghost use Rattle.std.specs.Prelude.{◌≡◌, ◌*◌, ◌≤◌, IfOk, length, replicate, vec_capacity, []};
ghost use Rattle.ng_view.specs.Layouts.{InRange};
ghost use Rattle.ng_space.specs.Blanks.{fresh_books};

use crate::rule::Law;
use atomic_table::{Seat, Table};
use ng_history::{Book, Host};
use ng_view::view::{Start, View};
use std::alloc::Global;
use std::marker::Model;

/// The most callers that a heap is opened for.
pub(crate) const MOST_BOOKS: usize = 16;

/// The memory of a heap that has no name yet: its cells, and a book for each caller.
#[derive(Drop)]
pub struct Blank {
    pub(crate) table: Table<(), View, Start, Law, Global>,
    pub(crate) seat: Seat<(), View>,
    pub(crate) start: Start,
    pub(crate) books: Vec<Book>,
    pub(crate) shelf: Vec<Book>,
}

impl Model for Blank {
    ghost use Rattle.ng_space.specs.Blanks.{BlankHeap, rooms_of};

    ghost Value = { BlankHeap };

    ghost use Rattle.ng_space.specs.Insides.{IsBlank};

    ghost view = { λ blank. record {
      table = blank.table.shared.table_id;
      start = blank.start;
      rooms = rooms_of blank.books.items;
    } };

    ghost invariant = { IsBlank };
}

impl Blank {
    /// A heap that starts with these numbers, for as many callers as there are rooms: caller k, from
    /// 1, has a book with room for that many entries. All memory that the heap, the books and
    /// [`Space::close`](crate::Space::close) need is taken here.
    pub fn new(alloc: Global, start: Start, rooms: &[u64]) -> Result<Blank, Host>
        requires start { InRange start }
        requires few { length rooms.now ≤ 16 }
        ensures start { IfOk result (λ blank. blank.start ≡ start) }
        ensures rooms { IfOk result (λ blank. blank.rooms ≡ rooms.now) }
    {
        let books = open_books(alloc, rooms)?;
        let shelf = shelf(alloc)?;
        let words = zeros(alloc, start.pages)?;
        match Table::of_words(alloc, words.as_slice(), &start) {
            Ok((table, seat)) => Ok(Blank {
                table,
                seat,
                start,
                books,
                shelf,
            }),
            Err(_) => Err(Host),
        }
    }

    /// What the heap starts with.
    pub fn start(&self) -> &Start
        ensures { result.now ≡ self.now.start }
    {
        &self.start
    }
}

// The cells of so many pages, each 0. A page at a time is copied by wide stores, which takes fewer
// instructions than a fill.
fn zeros(alloc: Global, pages: u64) -> Result<Vec<u64>, Host>
    ensures { IfOk result (λ words. words.items ≡ replicate (1024 * pages) 0) }
{
    let page = [0u64; 1024];
    match page.as_slice().repeat(alloc, pages as usize) {
        Ok(words) => Ok(words),
        Err(_) => Err(Host),
    }
}

// The place where `close` puts the books.
fn shelf(alloc: Global) -> Result<Vec<Book>, Host>
    ensures empty { IfOk result (λ shelf. shelf.items ≡ []) }
    ensures room { IfOk result (λ shelf. MOST_BOOKS ≤ vec_capacity shelf) }
{
    match Vec::with_capacity(alloc, MOST_BOOKS) {
        Ok(shelf) => Ok(shelf),
        Err(_) => Err(Host),
    }
}

// An empty book for each room, numbered from 1 on.
fn open_books(alloc: Global, rooms: &[u64]) -> Result<Vec<Book>, Host>
    requires few { length rooms.now ≤ 16 }
    ensures { IfOk result (λ books. books.items ≡ fresh_books 1 rooms.now) }
{
    let mut books = shelf(alloc)?;
    for (i, room) in rooms.iter().enumerate() {
        books.push_reserved(Book::open(alloc, i as u32 + 1, *room)?);
    }
    Ok(books)
}
