// The report: what is printed of the text of a book.
#![tactic(auto)]

ghost use Rattle.std.specs.Prelude.{◌≡◌, Some};
ghost use Rattle.reports.specs.Report.{reading_of, answer_of, printed};

use books::reading::read_book;
use entries::memory::Memory;
use faults::BookFault;
use headways::book_rule::book_rule;
use std::fmt;
use times::ranked::Ranked;

// What the report answers: how many lines the book has that was taken, or the first fault.
#[derive(Clone, Copy)]
pub struct Answer(pub Result<usize, BookFault>);

impl fmt::Display for Answer {
    ghost output = { λ a. Some (printed a) };

    fn fmt<W: fmt::Write>(&self, f: &mut fmt::Formatter<W>) -> fmt::Result {
        match self.0 {
            Ok(lines) => write!(f, "taken {lines}\n"),
            Err(fault) => write!(f, "{fault}\n"),
        }
    }
}

// Reads a book and makes its rule; answers how many lines the book has.
fn taken_lines(text: &[u8]) -> Result<usize, BookFault>
    ensures { result ≡ reading_of text.now }
{
    let mut memory = Memory::new();
    let book = read_book(text, &mut memory).map_err(|(draft, fault)| {
        let _lines = draft.give_up();
        fault
    })?;
    let _rule = book_rule::<Ranked>(book.in_memory(&memory));
    Ok(book.lines())
}

// The report of a text.
pub fn report(text: &[u8]) -> Answer
    ensures { result ≡ answer_of text.now }
{
    Answer(taken_lines(text))
}
