ghost use Rattle.std.specs.Prelude.{◌≡◌, ℕ, Bool, true, length, Option};
ghost use Rattle.traces.specs.Clashes.{within};
ghost use Rattle.entries.specs.declared.memory.Listed.{Listed};
ghost use Rattle.entries.specs.Entries.{Entries};
ghost use Rattle.books.specs.InMemory.{entries_in};

use books::state::in_memory::BookInMemory;
use entries::memory::Listed;

// What a book's rule goes by: which pairs of movements it relates, and what gap it gives an ordered pair, if any. The
// relation is mutual. Neither question refuses a number.
pub trait Basis {
    // The pairs that are related.
    ghost relates: { Entries → ℕ → ℕ → Bool };

    // The gap of an ordered pair.
    ghost gap: { Entries → ℕ → ℕ → Option Listed };

    // Where this holds of a book, each of its movements is related to itself.
    ghost complete: { Entries → Type 0 };

    ghost symmetric: { (e : Entries) (a b : ℕ) → relates e a b ≡ relates e b a };

    ghost itself: { (e : Entries) → complete e → (a : ℕ) → within (length e.movements) a ≡ true → relates e a a ≡ true };

    // Whether two movements are related.
    fn relates(book: BookInMemory<'_, '_>, a: u8, b: u8) -> bool
        ensures { result ≡ relates (entries_in book.entry) a b };

    // The gap of an ordered pair, in seconds and with a weight.
    fn gap(book: BookInMemory<'_, '_>, a: u8, b: u8) -> Option<Listed>
        ensures { result ≡ gap (entries_in book.entry) a b };
}
