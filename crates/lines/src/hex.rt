ghost use Rattle.std.specs.Prelude.{◌≡◌, ◌<◌, ◌≤◌, true, length};
ghost use Rattle.std.specs.List.{list_all};
ghost use Rattle.lines.specs.Hex.{is_hex, nibble_of, bad_place, bytes_of, Decoded, Spelt};

use crate::fault::TextFault;
use crate::reader::Line;
use stops::Stop;

// A line has at most this many characters, its line end not counted.
pub const LONGEST_LINE: usize = 246;

// The longest line spells this many bytes.
pub const MOST_BYTES: usize = LONGEST_LINE / 2;

fn is_hex(c: u8) -> bool
    ensures { result ≡ is_hex c }
{
    matches!(c, b'0'..=b'9' | b'A'..=b'F')
}

// What a digit stands for; 0 for any other character. Worked out by numbers, which costs less than by cases.
fn nibble(c: u8) -> u8
    ensures value { result ≡ nibble_of c }
    ensures small { result < 16 }
{
    let decimal = c.wrapping_sub(b'0');
    let letter = c.wrapping_sub(b'A');
    if decimal < 10 {
        decimal
    } else if letter < 6 {
        letter + 10
    } else {
        0
    }
}

// Whether every character is a digit. A fold never stops early, and so is compiled to wide instructions.
fn all_hex(line: &[u8]) -> bool
    ensures { result ≡ list_all is_hex line.now }
{
    line.iter().fold(true, |all, c| all & is_hex(*c))
}

// The place, from 1, of the first character that is no digit.
fn bad_place(line: &[u8]) -> Option<usize>
    ensures { result ≡ bad_place line.now }
{
    if all_hex(line) {
        return None;
    }
    line.iter().position(|c| !is_hex(*c)).map(|i| i + 1)
}

// Writes the line's bytes to the buffer's front and answers how many they are: two digits make a byte, the high one first.
fn write_bytes(line: &[u8], buffer: &mut [u8; MOST_BYTES]) -> usize
    requires { length (bytes_of line.now) ≤ 123 }
    ensures count { result ≡ length (bytes_of line.now) }
    ensures spelt { Spelt line.now buffer.old buffer.new }
{
    let (pairs, _) = line.as_chunks::<2>();
    for (i, &[high, low]) in pairs.iter().enumerate() {
        buffer[i] = nibble(high) * 16 + nibble(low);
    }
    pairs.len()
}

impl Line<'_> {
    // Writes the line's bytes to the front of the buffer and answers how many they are. The buffer is written only
    // after the whole line was checked. Of a lent buffer that a result borrowed, a contract could not say what it holds.
    pub fn decode(self, buffer: &mut [u8; MOST_BYTES]) -> Result<usize, TextFault>
        ensures { Decoded self.entry.number self.entry.part.now buffer.old result buffer.new }
    {
        let line = self.number;
        let digits = self.part;
        if digits.len() > LONGEST_LINE {
            return Err(TextFault::at(Stop::TooLong, line, LONGEST_LINE + 1));
        }
        if let Some(place) = bad_place(digits) {
            return Err(TextFault::at(Stop::NotADigit, line, place));
        }
        if digits.len() % 2 != 0 {
            return Err(TextFault::at(Stop::OddDigits, line, digits.len()));
        }
        Ok(write_bytes(digits, buffer))
    }
}
