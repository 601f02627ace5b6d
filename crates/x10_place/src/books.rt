//! The books of the finishes that are open at their home.
ghost use Rattle.std.specs.Prelude.{◌≡◌, ◌<◌, ℕ, [], None, Some, OnOk, IfOk, IfErr, MatchOption, length};
ghost use Rattle.x10_kinds.specs.declared.stop.Stop.TheVariants as stop;
ghost use Rattle.x10_finish.specs.Books.{Kept, IsOpened};
ghost use Rattle.x10_place.specs.OpenBooks.{Enters, IsMergedAt, Writes, if_open, listed, without};
ghost use Rattle.x10_place.specs.Stays.{book_at};

use crate::shelf::Shelf;
use std::alloc::Global;
use std::marker::Model;
use x10_finish::Book;
use x10_kinds::Stop;
use x10_model::Finish;

/// A book under the number of its finish.
#[derive(Drop)]
pub(crate) struct Numbered {
    pub(crate) number: u32,
    pub(crate) book: Book,
}

/// The books of finishes that are open, by number. The one that was entered last lies beside the others until the next one
/// comes: so a finish that ends before another one opens costs no search, and its book stays where it lies.
#[derive(Drop)]
pub(crate) struct Books {
    alloc: Global,
    /// Whether the finish of the latest book is open. Else the next finish takes that book.
    is_open: bool,
    latest: Option<Numbered>,
    others: Shelf,
    /// Books of finishes that ended: one that opens takes one of these, so that finishes in a loop ask for no more memory.
    ended: Vec<Book>,
}

impl Model for Books {
    ghost use Rattle.std.specs.Prelude.{ℕ, List};
    ghost use Rattle.x10_finish.specs.Books.{Kept};
    ghost use Rattle.x10_place.specs.OpenBooks.{if_open, listed};

    ghost Value = { List (ℕ × Kept) };

    ghost view = { λ b. listed (if_open b.is_open b.latest) b.others };
}

/// The book of a finish that opens: one of those that ended, where there is one. Else there is room for one afterwards.
fn opened(alloc: Global, ended: &mut Vec<Book>, finish: Finish, places: u16) -> Result<Book, Stop>
    requires { finish.home < places }
    ensures ok { IfOk result (IsOpened finish places) }
    ensures err { IfErr result (λ why. why ≡ stop.Memory) }
{
    if let Some(mut book) = ended.pop() {
        book.reopen(finish, places)?;
        return Ok(book);
    }
    if ended.reserve(1).is_err() {
        return Err(Stop::Memory);
    }
    Book::open(alloc, finish, places)
}

/// Puts the latest book among the others. Where memory is refused, nothing has changed.
fn set_aside(latest: &mut Option<Numbered>, others: &mut Shelf) -> Result<(), Stop>
    ensures ok { OnOk result ((n : ℕ) → book_at others.new n
        ≡ book_at (listed latest.old others.old) n) }
    ensures err { IfErr result (λ why. (why ≡ stop.Memory) × (latest.new ≡ latest.old)
        × (others.new ≡ others.old)) }
{
    let Some(Numbered { number, book }) = latest.take() else {
        return Ok(());
    };
    match others.insert(number, book) {
        Ok(()) => Ok(()),
        Err(book) => {
            *latest = Some(Numbered { number, book });
            Err(Stop::Memory)
        }
    }
}

/// The finish of the latest book isn't open any more, if it has a number.
#[inline(always)]
fn end(is_open: &mut bool, latest: &Option<Numbered>, number: u32)
    ensures { if_open is_open.new latest.now ≡ without (if_open is_open.old latest.now) number }
{
    match latest {
        Some(latest) if latest.number == number => *is_open = false,
        _ => {}
    }
}

/// Takes the book of a finish that ended. Asks for no memory: where there is no room for it, it is dropped.
fn keep(ended: &mut Vec<Book>, book: Book) {
    if ended.len() < ended.capacity() {
        ended.push_reserved(book);
    }
}

impl Books {
    /// No books. Takes no memory.
    pub(crate) fn new(alloc: Global) -> Books
        ensures { result ≡ [] }
    {
        Books {
            alloc,
            is_open: false,
            latest: None,
            others: Shelf::new(alloc),
            ended: Vec::new(alloc),
        }
    }

    /// The book of the finish with a number. Constant time where it came last, else logarithmic in the number of books.
    #[inline(always)]
    pub(crate) fn get(&self, number: u32) -> Option<&Book>
        ensures { MatchOption result (book_at self.now number ≡ None)
            (λ book. book_at self.now number ≡ Some book.now) }
    {
        match &self.latest {
            Some(latest) if self.is_open && latest.number == number => Some(&latest.book),
            _ => self.others.get(number),
        }
    }

    /// Enters the book of a finish that opens, one of `places` places. Where memory is refused, nothing has changed. Constant time
    /// where the latest finish has ended, else logarithmic in the number of books.
    pub(crate) fn open(&mut self, finish: Finish, places: u16) -> Result<(), Stop>
        requires { finish.home < places }
        ensures ok { OnOk result (Enters self.old finish places self.new) }
        ensures err { IfErr result (λ why. (self.new ≡ self.old) × (why ≡ stop.Memory)) }
    {
        if !self.is_open {
            if let Some(latest) = &mut self.latest {
                latest.book.reopen(finish, places)?;
                latest.number = finish.number;
                self.is_open = true;
                return Ok(());
            }
        }
        let book = opened(self.alloc, &mut self.ended, finish, places)?;
        set_aside(&mut self.latest, &mut self.others)?;
        self.latest = Some(Numbered {
            number: finish.number,
            book,
        });
        self.is_open = true;
        Ok(())
    }

    /// The book with a number, if there is one, takes in what a place reports. Takes no memory.
    pub(crate) fn merge(&mut self, number: u32, from: u16, sent: &[u32], received: &[u32])
        requires { (b : Kept) → book_at self.old number ≡ Some b → (from < b.places)
            × (length sent.now ≡ b.places) × (length received.now ≡ b.places) }
        ensures { IsMergedAt self.old number from sent.now received.now self.new }
    {
        if self.is_open {
            if let Some(latest) = &mut self.latest {
                if latest.number == number {
                    latest.book.merge_counts(from, sent, received);
                    return;
                }
            }
        }
        self.others.merge(number, from, sent, received);
    }

    /// Takes the book of a finish that has ended away. Asks for no memory: where there is no room to keep it for the next finish,
    /// it is dropped.
    pub(crate) fn close(&mut self, number: u32)
        ensures { Writes self.old number None self.new }
    {
        end(&mut self.is_open, &self.latest, number);
        if let Some(book) = self.others.remove(number) {
            keep(&mut self.ended, book);
        }
    }
}
