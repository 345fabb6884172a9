ghost use Rattle.std.specs.Prelude.{◌≡◌, [], MatchOption};
ghost use Rattle.entries.specs.Entries.{movement_at, movement_of, pair_at};
ghost use Rattle.books.specs.InMemory.{entries_in};

use super::Book;
use entries::memory::{Listed, Memory, Route, Step};

// A book with its memory, both lent for reading. Only a book makes one.
#[derive(Clone, Copy)]
pub struct BookInMemory<'b, 'm> {
    book: &'b Book,
    memory: &'m Memory,
}

impl Book {
    // The book with a memory that is lent to it.
    pub fn in_memory<'b, 'm>(&'b self, memory: &'m Memory) -> BookInMemory<'b, 'm>
        ensures book { result.book.now ≡ self.now }
        ensures memory { result.memory.now ≡ memory.now }
    {
        BookInMemory { book: self, memory }
    }
}

impl<'b, 'm> BookInMemory<'b, 'm> {
    // How many movements the book has, 1 to 64.
    pub fn movements(self) -> u8
        ensures { result ≡ self.entry.book.now.counts.movements }
    {
        self.book.movements()
    }

    // The steps of a movement; none for a number that no movement has.
    pub fn steps(self, movement: u8) -> &'m [Step]
        ensures { result.now ≡ (movement_at (entries_in self.entry) movement).steps }
    {
        match self.route(movement) {
            Some(route) => route.steps(),
            None => &[],
        }
    }

    // The priority of a movement; 0 for a number that no movement has.
    pub fn priority(self, movement: u8) -> u8
        ensures { result ≡ (movement_at (entries_in self.entry) movement).priority }
    {
        match self.route(movement) {
            Some(route) => route.priority,
            None => 0,
        }
    }

    // What the table lists for an ordered pair, if it lists it. Both numbers are tested before the table is looked at: with a
    // `?` on each, a gap by table costs a third more.
    pub fn listed(self, first: u8, second: u8) -> Option<Listed>
        ensures { result ≡ pair_at (entries_in self.entry) first second }
    {
        let counts = self.book.counts;
        match (counts.index_of(first), counts.index_of(second)) {
            (Some(row), Some(column)) => self.memory.table[row][column],
            _ => None,
        }
    }

    // A movement as memory has it, if one has the number.
    fn route(self, movement: u8) -> Option<&'m Route>
        ensures { MatchOption result (movement_at (entries_in self.entry) movement ≡ record { priority = 0; steps = [] }) (λ route. movement_at (entries_in self.entry) movement ≡ movement_of route.now) }
    {
        let index = self.book.counts.index_of(movement)?;
        Some(&self.memory.routes[index])
    }
}
