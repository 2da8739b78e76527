ghost use Rattle.std.specs.Prelude.{◌≡◌, ◌+◌, ◌-◌, ◌^◌, ◌<◌, ◌≤◌, [], ◌∷◌, ◌++◌, IfOk, vec_len, vec_capacity};

use ng_terms::{Entry, Host};
use std::alloc::Global;
use std::marker::Model;

/// The entries of one caller, in order. The memory for all of them is taken when the book is opened.
#[derive(Drop)]
pub struct Book {
    number: u32,
    spare: u64,
    entries: Vec<Entry>,
}

impl Model for Book {
    ghost use Rattle.std.specs.Prelude.{◌≤◌, ◌+◌, vec_len, vec_capacity};
    ghost use Rattle.ng_history.specs.Book.{Shown};

    ghost Value = { Shown };

    ghost view = { λ book. record { number = book.number; spare = book.spare; entries = book.entries.items } };

    ghost invariant = { λ book. vec_len book.entries + book.spare ≤ vec_capacity book.entries };
}

impl Book {
    /// An empty book of the caller with this number, with room for so many entries.
    pub fn open(alloc: Global, number: u32, room: u64) -> Result<Book, Host>
        ensures number { IfOk result (λ book. book.number ≡ number) }
        ensures spare { IfOk result (λ book. book.spare ≡ room) }
        ensures entries { IfOk result (λ book. book.entries ≡ []) }
    {
        let Ok(entries) = Vec::with_capacity(alloc, room as usize) else {
            return Err(Host);
        };
        Ok(Book {
            number,
            spare: room,
            entries,
        })
    }

    /// The number of the book's caller.
    pub fn number(&self) -> u32
        ensures { result ≡ self.now.number }
    {
        self.number
    }

    /// How many entries there is still room for.
    pub fn spare(&self) -> u64
        ensures { result ≡ self.now.spare }
    {
        self.spare
    }

    /// The entries so far.
    pub fn entries(&self) -> &[Entry]
        ensures { result.now ≡ self.now.entries }
    {
        self.entries.as_slice()
    }

    /// Adds an entry. It takes no memory.
    pub fn push(&mut self, entry: Entry)
        requires { 1 ≤ self.old.spare }
        ensures entries { self.new.entries ≡ self.old.entries ++ entry ∷ [] }
        ensures spare { self.new.spare + 1 ≡ self.old.spare }
        ensures number { self.new.number ≡ self.old.number }
    {
        self.entries.push_reserved(entry);
        self.spare -= 1;
    }
}
