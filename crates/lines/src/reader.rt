ghost use Rattle.std.specs.Prelude.{◌≤◌, length};

pub mod calls;

// A text has at most this many characters, line ends counted.
pub const LONGEST_TEXT: usize = 65_536;

// A line of the text: its number, counted from 1, and its part of the text, without the line end.
#[derive(Clone, Copy)]
pub struct Line<'a> {
    pub number: usize,
    pub part: &'a [u8],
}

// Holds the text and how far it is read, and yields a line at a time.
#[derive(Drop)]
pub struct Reader<'a> {
    text: &'a [u8],
    at: usize,
    lines: usize,
    ghost inside: { at ≤ length text.now },
    ghost counted: { lines ≤ at },
}
