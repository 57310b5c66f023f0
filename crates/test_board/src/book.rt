//! A history of numbers, with who added each, and the snapshots of it that are mailed.
ghost use Rattle.std.specs.Prelude.{◌≡◌, ◌+◌, ◌<◌, ◌≤◌, [], ◌∷◌, ◌++◌, length, None, IfOk, IfErr};
ghost use Rattle.std.specs.List.{All};

use board_rule::{Mailed, Named};
use fb_memory::Memory;
use std::alloc::Global;

/// Adding was stopped: the place of the entry that was not added, and the seat that stopped it.
#[derive(Clone, Copy)]
pub struct Halt {
    pub at: u32,
    pub author: u32,
}

/// The numbers so far, of which the first has no author.
#[derive(Drop)]
pub struct Book {
    /// The number that the book got when it was begun.
    pub serial: u32,
    pub entries: Vec<u32>,
    pub authors: Vec<u32>,
    pub halt: Option<Halt>,
    ghost begun: { 0 < length entries.items },
    ghost narrow: { length entries.items ≤ 4294967296 },
}

impl Named for Book {
    ghost use Rattle.test_board.specs.Books.{marks_of_book, IsSoundBook};

    type Entry = u32;

    type Origin = u32;

    ghost entries = { λ b. b.entries.items };

    ghost authors = { λ b. b.authors.items };

    ghost marks = { λ b. marks_of_book b.halt };

    ghost follows = { λ l e. e < 1000000 };

    ghost sound = { λ b. IsSoundBook b.entries.items b.halt };

    ghost origin = { λ b. b.serial };

    fn basis(&self) -> u32 {
        (self.entries.len() - 1) as u32
    }
}

/// A snapshot of a book.
#[derive(Drop)]
pub struct Page {
    pub alloc: Global,
    pub entries: Vec<u32>,
    ghost begun: { 0 < length entries.items },
    ghost narrow: { length entries.items ≤ 4294967296 },
}

impl Named for Page {
    ghost use Rattle.test_board.specs.Books.{marks_of_book};

    type Entry = u32;

    type Origin = ();

    ghost entries = { λ p. p.entries.items };

    ghost authors = { λ p. [] };

    ghost marks = { λ p. marks_of_book None };

    ghost follows = { λ l e. e < 1000000 };

    ghost sound = { λ p. Unit {0} };

    ghost origin = { λ p. tt };

    fn basis(&self) -> u32 {
        (self.entries.len() - 1) as u32
    }
}

impl Mailed for Page {
    fn share(&self) -> Result<Page, Memory> {
        Ok(Page {
            alloc: self.alloc,
            entries: Vec::from_slice(self.alloc, self.entries.as_slice())?,
        })
    }
}

impl Book {
    pub fn new(alloc: Global, serial: u32, first: u32) -> Result<Book, Memory>
        ensures { IfOk result (λ b. (b.serial ≡ serial)
            × (b.entries.items ≡ first ∷ [])
            × (b.authors.items ≡ [])
            × (b.halt ≡ None)) }
    {
        let mut entries = Vec::new(alloc);
        entries.push(first)?;
        Ok(Book {
            serial,
            entries,
            authors: Vec::new(alloc),
            halt: None,
        })
    }

    /// Adds a number of this author. Where memory is short the book is as it was.
    pub fn add(&mut self, value: u32, author: u32) -> Result<(), Memory>
        requires room { length self.old.entries.items < 4294967296 }
        ensures added { IfOk result (λ _. (self.new.entries.items
            ≡ self.old.entries.items ++ value ∷ [])
            × (self.new.authors.items ≡ self.old.authors.items ++ author ∷ [])) }
        ensures same { IfErr result (λ _. (self.new.entries.items ≡ self.old.entries.items)
            × (self.new.authors.items ≡ self.old.authors.items)) }
        ensures rest { (self.new.halt ≡ self.old.halt) × (self.new.serial ≡ self.old.serial) }
    {
        let before = self.entries.len();
        self.entries.push(value)?;
        if self.authors.push(author).is_err() {
            self.entries.truncate(before);
            return Err(Memory);
        }
        Ok(())
    }
}

impl Page {
    /// A page of these numbers.
    pub fn of(alloc: Global, entries: &[u32]) -> Result<Page, Memory>
        requires { (0 < length entries.now) × (length entries.now ≤ 4294967296) }
        ensures { IfOk result (λ p. p.entries.items ≡ entries.now) }
    {
        Ok(Page {
            alloc,
            entries: Vec::from_slice(alloc, entries)?,
        })
    }

    /// That many pages of these numbers.
    pub fn copies(alloc: Global, count: usize, entries: &[u32]) -> Result<Vec<Page>, Memory>
        requires { (0 < length entries.now) × (length entries.now ≤ 4294967296) }
        ensures { IfOk result
            (λ ps. (length ps.items ≡ count) × All (λ p. p.entries.items ≡ entries.now) ps.items) }
    {
        let mut pages = Vec::new(alloc);
        for _ in 0..count {
            pages.push(Page::of(alloc, entries)?)?;
        }
        Ok(pages)
    }

    /// That many pages of these numbers and one more.
    pub fn copies_with(
        alloc: Global,
        count: usize,
        entries: &[u32],
        more: u32,
    ) -> Result<Vec<Page>, Memory>
        requires { length entries.now < 4294967296 }
        ensures { IfOk result (λ ps. (length ps.items ≡ count)
            × All (λ p. p.entries.items ≡ entries.now ++ more ∷ []) ps.items) }
    {
        let mut all = Vec::from_slice(alloc, entries)?;
        all.push(more)?;
        Page::copies(alloc, count, all.as_slice())
    }
}
