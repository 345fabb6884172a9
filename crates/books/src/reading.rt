ghost use Rattle.std.specs.Prelude.{◌≡◌, ◌≤◌, IfOk};
ghost use Rattle.lines.specs.Hex.{line_bytes};
ghost use Rattle.books.specs.Held.{draft_of};
ghost use Rattle.books.specs.Adding.{next_line};
ghost use Rattle.books.specs.Taking.{Taken};
ghost use Rattle.books.specs.TextBook.{after_line, Buffered, Answered, frame_in, known};
ghost use Rattle.books.specs.Says.{Faithful};

use crate::state::{Book, Draft};
use entries::memory::Memory;
use faults::BookFault;
use frames::frame::Frame;
use lines::fault::TextFault;
use lines::hex::MOST_BYTES;
use lines::reader::calls::check_length;
use lines::reader::{Line, Reader};

// The frame of a line that was decoded into the buffer; a fault of a lower layer is passed on whole.
fn decoded_frame<'b>(
    line: usize,
    decoded: Result<usize, TextFault>,
    buffer: &'b [u8; MOST_BYTES],
) -> Result<Frame<'b>, BookFault>
    requires { IfOk decoded (λ n. n ≤ 123) }
    ensures { known result ≡ frame_in line decoded buffer.now }
{
    let count = decoded?;
    let frame = Frame::read(line, &buffer[0..count])?;
    Ok(frame)
}

impl Draft {
    // Takes a line by its characters: its digits are read into the buffer, its bytes are named as a frame, and the frame
    // is taken. A refusal gives the draft back as it was, and the memory too.
    pub fn take_line(
        self,
        memory: &mut Memory,
        characters: &[u8],
        buffer: &mut [u8; MOST_BYTES],
    ) -> Result<Draft, (Draft, BookFault)>
        ensures taken { Taken (after_line (draft_of self memory.old) characters.now) self memory.old result memory.new }
        ensures buffer { Buffered (line_bytes (next_line self.counts.lines) characters.now) buffer.old buffer.new }
    {
        let number = self.next_line();
        let line = Line {
            number,
            part: characters,
        };
        let decoded = line.decode(buffer);
        // A `?` could not give the draft back.
        match decoded_frame(number, decoded, buffer) {
            Ok(frame) => self.take(memory, frame),
            Err(fault) => Err((self, fault)),
        }
    }
}

// Reads a whole text into a book; or answers the first fault, with the draft of the lines before it.
pub fn read_book(text: &[u8], memory: &mut Memory) -> Result<Book, (Draft, BookFault)>
    ensures answer { Answered text.now result memory.new }
    ensures faithful { Faithful text.now result memory.new }
{
    let mut draft = Draft::begin(memory);

    // With the draft begun in a closure of `map_err`, nothing is known of the memory that the closure wrote to.
    if let Err(fault) = check_length(text) {
        return Err((draft, BookFault::from(fault)));
    }
    let mut buffer = [0; MOST_BYTES];
    for line in Reader::new(text) {
        draft = draft.take_line(memory, line.part, &mut buffer)?;
    }
    draft.close(memory)
}
