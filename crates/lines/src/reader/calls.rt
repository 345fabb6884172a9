ghost use Rattle.std.specs.Prelude.{◌≡◌, ◌≤◌, ◌==◌, length};
ghost use Rattle.std.specs.List.{position_or_len};
ghost use Rattle.lines.specs.Texts.{line_end};
ghost use Rattle.std.specs.Iterator.{item_count};
ghost use Rattle.lines.specs.Reading.{Measured, Begins, lines_left, Yielded};

use super::{LONGEST_TEXT, Line, Reader};
use crate::fault::TextFault;
use stops::Stop;

const LINE_END: u8 = b'\n';

// How many characters stand before the first line end, or before the end of the text.
fn line_len(text: &[u8]) -> usize
    ensures value { result ≡ position_or_len (λ c. c == line_end) text.now }
    ensures within { result ≤ length text.now }
{
    text.iter()
        .position(|c| *c == LINE_END)
        .unwrap_or(text.len())
}

// Refuses a text that is too long, before any line of it is read.
pub fn check_length(text: &[u8]) -> Result<(), TextFault>
    ensures { Measured text.now result }
{
    if text.len() > LONGEST_TEXT {
        return Err(TextFault::at(Stop::TooLong, 0, 0));
    }
    Ok(())
}

impl<'a> Reader<'a> {
    // A reader at the front of the text.
    pub fn new(text: &'a [u8]) -> Reader<'a>
        ensures { Begins text.now result }
    {
        Reader {
            text,
            at: 0,
            lines: 0,
        }
    }

    // The next line, or none where the text is read to its end.
    pub fn next_line(&mut self) -> Option<Line<'a>>
        ensures { Yielded self.old result self.new }
    {
        if self.at >= self.text.len() {
            return None;
        }
        let rest = &self.text[self.at..];
        let part = &rest[..line_len(rest)];
        self.at = self.text.len().min(self.at + part.len() + 1);
        self.lines += 1;
        Some(Line {
            number: self.lines,
            part,
        })
    }
}

impl<'a> Iterator for Reader<'a> {
    type Item = Line<'a>;

    ghost next_gives = { Yielded };

    ghost remaining = { item_count lines_left };

    fn next(&mut self) -> Option<Line<'a>> {
        self.next_line()
    }
}
