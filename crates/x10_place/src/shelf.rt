//! Books by the numbers of their finishes.
ghost use Rattle.std.specs.Prelude.{◌≡◌, ◌<◌, ℕ, [], None, Some, Err, OnOk, OnErr, MatchOption, length};
ghost use Rattle.x10_finish.specs.Books.{Kept};
ghost use Rattle.x10_place.specs.OpenBooks.{IsMergedAt, Writes};
ghost use Rattle.x10_place.specs.Stays.{book_at};

use std::alloc::Global;
use std::collections::BTreeMap;
use std::marker::Model;
use x10_finish::Book;

/// Books by the numbers of their finishes. A finish with a greater number than any that was entered isn't searched for: finishes
/// are numbered one after another, so the one that opened last mostly has the greatest number.
#[derive(Drop)]
pub(crate) struct Shelf {
    highest: u32,
    books: BTreeMap<u32, Book>,
}

impl Model for Shelf {
    ghost use Rattle.std.specs.Prelude.{ℕ, List};
    ghost use Rattle.x10_finish.specs.Books.{Kept};
    ghost use Rattle.x10_place.specs.OpenBooks.{NoneAbove};

    ghost Value = { List (ℕ × Kept) };

    ghost view = { λ s. s.books.entries };

    ghost invariant = { λ s. NoneAbove s.highest s.books.entries };
}

impl Shelf {
    /// No books. Takes no memory.
    pub(crate) fn new(alloc: Global) -> Shelf
        ensures { result ≡ [] }
    {
        Shelf {
            highest: 0,
            books: BTreeMap::new(alloc),
        }
    }

    /// The book of the finish with a number, if it is there.
    #[inline(always)]
    pub(crate) fn get(&self, number: u32) -> Option<&Book>
        ensures { MatchOption result (book_at self.now number ≡ None)
            (λ book. book_at self.now number ≡ Some book.now) }
    {
        if number > self.highest {
            return None;
        }
        self.books.get(&number)
    }

    /// The book with a number, if it is there, takes in what a place reports. Takes no memory.
    pub(crate) fn merge(&mut self, number: u32, from: u16, sent: &[u32], received: &[u32])
        requires { (b : Kept) → book_at self.old number ≡ Some b → (from < b.places)
            × (length sent.now ≡ b.places) × (length received.now ≡ b.places) }
        ensures { IsMergedAt self.old number from sent.now received.now self.new }
    {
        let Some(book) = self.books.get_mut(&number) else {
            return;
        };
        book.merge_counts(from, sent, received);
    }

    /// Enters a book, in place of one with its number. Where memory is refused, nothing has changed, and the book comes back.
    pub(crate) fn insert(&mut self, number: u32, book: Book) -> Result<(), Book>
        ensures ok { OnOk result (Writes self.old number (Some book) self.new) }
        ensures err { OnErr result ((result ≡ Err book) × (self.new ≡ self.old)) }
    {
        match self.books.insert(number, book) {
            Ok(_) => {
                self.highest = self.highest.max(number);
                Ok(())
            }
            Err(failed) => Err(failed.value.1),
        }
    }

    /// Takes the book with a number away, if it is there.
    #[inline(always)]
    pub(crate) fn remove(&mut self, number: u32) -> Option<Book>
        ensures { Writes self.old number None self.new }
    {
        if number > self.highest {
            return None;
        }
        self.books.remove(&number)
    }
}
