ghost use Rattle.traces.specs.Clashes.{either_way};
ghost use Rattle.entries.specs.Entries.{pair_at};
ghost use Rattle.headways.specs.Rules.{listing, ListsThemselves};
ghost use Rattle.headways.specs.Related.{listing_is_mutual, lists_itself};

use crate::basis::Basis;
use crate::rule::RuleBy;
use books::state::in_memory::BookInMemory;
use entries::memory::Listed;

// A table: a pair that is listed is related both ways, and keeps its gap in the listed direction.
#[derive(Clone, Copy)]
pub struct Table;

// Headways by a table, in one kind of time.
pub type ByTable<'a, K> = RuleBy<'a, Table, K>;

impl Basis for Table {
    ghost relates = { λ e. either_way (listing e) };

    ghost gap = { pair_at };

    ghost complete = { ListsThemselves };

    ghost symmetric = { listing_is_mutual };

    ghost itself = { lists_itself };

    fn relates(book: BookInMemory<'_, '_>, a: u8, b: u8) -> bool {
        book.listed(a, b).is_some() || book.listed(b, a).is_some()
    }

    fn gap(book: BookInMemory<'_, '_>, a: u8, b: u8) -> Option<Listed> {
        book.listed(a, b)
    }
}
