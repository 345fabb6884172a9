ghost use Rattle.std.specs.Prelude.{◌≡◌, ◌&&◌};
ghost use Rattle.traces.specs.Clashes.{within, clash_by};
ghost use Rattle.traces.proofs.Lawfuls.{mutual_test_is_lawful};
ghost use Rattle.books.specs.InMemory.{entries_in};
ghost use Rattle.headways.specs.Rules.{count_of, listed_gap};

use crate::basis::Basis;
use books::state::in_memory::BookInMemory;
use entries::movements::is_within;
use rules::clash::Clash;
use rules::headway::Headway;
use std::marker::PhantomData;
use times::time::Time;

// The rule of a book by one basis, in one kind of time: two movements clash when the basis relates them, and each clashes
// with itself. Only a book makes such a rule, which holds the book with its memory, both lent for reading.
#[derive(Clone, Copy)]
pub struct RuleBy<'a, B, K> {
    book: BookInMemory<'a, 'a>,
    basis: PhantomData<B>,
    kind: PhantomData<K>,
}

impl<'a, B: Basis, K: Time> RuleBy<'a, B, K> {
    // The rule of a book with its memory.
    pub fn of(book: BookInMemory<'a, 'a>) -> RuleBy<'a, B, K>
        ensures { result.book ≡ book.entry }
    {
        RuleBy {
            book,
            basis: PhantomData,
            kind: PhantomData,
        }
    }
}

impl<'a, B: Basis, K: Time> Clash for RuleBy<'a, B, K> {
    ghost count = { λ r. count_of r.book.book.now };

    ghost clash = { λ r. clash_by (count_of r.book.book.now) (B.relates (entries_in r.book)) };

    ghost laws = { λ r. mutual_test_is_lawful (count_of r.book.book.now) (B.relates (entries_in r.book)) r.book.book.now.some r.book.book.now.counts.few (B.symmetric (entries_in r.book)) };

    fn movements(&self) -> u8 {
        self.book.movements()
    }

    fn clashes(&self, a: u8, b: u8) -> bool
        ensures rule { result ≡ clash_by (count_of self.now.book.book.now) (B.relates (entries_in self.now.book)) a b }
        ensures related { B.complete (entries_in self.now.book) → result ≡ (within (count_of self.now.book.book.now) a && (within (count_of self.now.book.book.now) b && B.relates (entries_in self.now.book) a b)) }
    {
        let count = usize::from(self.book.movements());
        if !is_within(count, a) || !is_within(count, b) {
            return false;
        }
        a == b || B::relates(self.book, a, b)
    }
}

impl<'a, B: Basis, K: Time> Headway for RuleBy<'a, B, K> {
    type Kind = K;

    ghost headway = { λ r a b. listed_gap K.Time.origin K.Time.made (B.gap (entries_in r.book) a b) };

    fn gap(&self, a: u8, b: u8) -> K {
        if !self.clashes(a, b) {
            return K::zero();
        }
        match B::gap(self.book, a, b) {
            Some(gap) => K::make(u32::from(gap.gap), u16::from(gap.weight)),
            None => K::zero(),
        }
    }
}
