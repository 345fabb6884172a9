use books::reading::read_book;
use books::state::Book;
use entries::memory::Memory;
use headways::book_rule::book_rule;
use headways::by_sections::BySections;
use headways::by_table::ByTable;
use rules::clash::Clash;
use rules::headway::Headway;
use rules::union::Union;
use times::plain::Plain;
use times::ranked::Ranked;

// A rule in both kinds of time.
#[derive(Clone, Copy)]
struct InBothKinds<P, R> {
    plain: P,
    ranked: R,
}

impl<P: Headway<Kind = Plain>, R: Headway<Kind = Ranked>> InBothKinds<P, R> {
    // One question: `-` where the movements do not clash and no gap is kept, the gap where they clash, and `!` where the
    // answers do not go together.
    fn print_entry(&self, rt: &HostRuntime, a: u8, b: u8) -> anyhow::Result<()> {
        let seconds = self.plain.gap(a, b).seconds();
        let gap = self.ranked.gap(a, b);
        let ranked_seconds = gap.seconds();
        let weight = gap.weight();
        let none = seconds == 0 && ranked_seconds == 0 && weight == 0;
        match (self.plain.clashes(a, b), self.ranked.clashes(a, b)) {
            (true, true) => print!(rt; " {seconds}/{ranked_seconds}.{weight}")?,
            (false, false) if none => print!(rt; " -")?,
            _ => print!(rt; " !")?,
        }
        Ok(())
    }

    // All questions of one movement, and of numbers one past both ends of the rule's count.
    fn print_row(&self, rt: &HostRuntime, name: &str, a: u8) -> anyhow::Result<()> {
        print!(rt; "{name} {a}")?;
        for b in 0..self.ranked.movements().saturating_add(2) {
            self.print_entry(rt, a, b)?;
        }
        println!(rt)?;
        Ok(())
    }

    // All questions that the rule answers.
    fn print_table(&self, rt: &HostRuntime, name: &str) -> anyhow::Result<()> {
        for a in 0..self.ranked.movements().saturating_add(2) {
            self.print_row(rt, name, a)?;
        }
        Ok(())
    }
}

// The book of a text; a stop is printed.
fn book_of(rt: &HostRuntime, text: &[u8], memory: &mut Memory) -> anyhow::Result<Option<Book>> {
    match read_book(text, memory) {
        Ok(book) => Ok(Some(book)),
        Err((draft, fault)) => {
            let _lines = draft.give_up();
            println!(rt; "{fault}")?;
            Ok(None)
        }
    }
}

// Asks the rules of one book.
pub(crate) fn ask_book(rt: &HostRuntime, text: &[u8]) -> anyhow::Result<()> {
    let mut memory = Memory::new();
    let Some(book) = book_of(rt, text, &mut memory)? else {
        return Ok(());
    };
    let book = book.in_memory(&memory);
    let sections = InBothKinds {
        plain: BySections::<Plain>::of(book),
        ranked: BySections::<Ranked>::of(book),
    };
    let table = InBothKinds {
        plain: ByTable::<Plain>::of(book),
        ranked: ByTable::<Ranked>::of(book),
    };
    let union = InBothKinds {
        plain: book_rule::<Plain>(book),
        ranked: book_rule::<Ranked>(book),
    };
    sections.print_table(rt, "sections")?;
    table.print_table(rt, "table")?;
    union.print_table(rt, "union")
}

// Asks the union of the rules of two books.
pub(crate) fn ask_both(rt: &HostRuntime, first: &[u8], second: &[u8]) -> anyhow::Result<()> {
    let mut memory = Memory::new();
    let mut other_memory = Memory::new();
    let Some(book) = book_of(rt, first, &mut memory)? else {
        return Ok(());
    };
    let Some(other) = book_of(rt, second, &mut other_memory)? else {
        return Ok(());
    };
    let book = book.in_memory(&memory);
    let other = other.in_memory(&other_memory);
    let joined = InBothKinds {
        plain: Union {
            first: book_rule::<Plain>(book),
            second: book_rule::<Plain>(other),
        },
        ranked: Union {
            first: book_rule::<Ranked>(book),
            second: book_rule::<Ranked>(other),
        },
    };
    joined.print_table(rt, "joined")
}
