ghost use Rattle.std.specs.Prelude.{◌≡◌};

use crate::by_sections::BySections;
use crate::by_table::ByTable;
use books::state::in_memory::BookInMemory;
use rules::union::Union;
use times::time::Time;

// The rule of a book: its sections joined with its table.
pub fn book_rule<'a, K: Time>(
    book: BookInMemory<'a, 'a>,
) -> Union<BySections<'a, K>, ByTable<'a, K>>
    ensures sections { result.first.book ≡ book.entry }
    ensures table { result.second.book ≡ book.entry }
{
    Union {
        first: BySections::of(book),
        second: ByTable::of(book),
    }
}
