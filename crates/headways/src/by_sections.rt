ghost use Rattle.headways.specs.Rules.{sharing, sections_listed, HasSteps};
ghost use Rattle.headways.specs.Related.{sharing_is_mutual, shares_itself};

use crate::basis::Basis;
use crate::rule::RuleBy;
use crate::steps::{section_gap, share_section};
use books::state::in_memory::BookInMemory;
use entries::memory::Listed;

// Blocking sections: two movements are related when they share a section, and the gap is what their steps ask for, with
// the first's priority for a weight.
#[derive(Clone, Copy)]
pub struct Sections;

// Headways by blocking sections, in one kind of time.
pub type BySections<'a, K> = RuleBy<'a, Sections, K>;

impl Basis for Sections {
    ghost relates = { sharing };

    ghost gap = { sections_listed };

    ghost complete = { HasSteps };

    ghost symmetric = { sharing_is_mutual };

    ghost itself = { shares_itself };

    fn relates(book: BookInMemory<'_, '_>, a: u8, b: u8) -> bool {
        share_section(book.steps(a), book.steps(b))
    }

    fn gap(book: BookInMemory<'_, '_>, a: u8, b: u8) -> Option<Listed> {
        Some(Listed {
            gap: section_gap(book.steps(a), book.steps(b)),
            weight: book.priority(a),
        })
    }
}
