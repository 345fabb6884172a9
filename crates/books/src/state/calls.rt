ghost use Rattle.std.specs.Prelude.{◌≡◌};
ghost use Rattle.frames.specs.Frames.{content};
ghost use Rattle.books.specs.Held.{draft_of, empty};
ghost use Rattle.books.specs.Taking.{after_frame, Taken, Shut};

use super::{Book, Counts, Draft};
use entries::memory::{MOST_MOVEMENTS, Memory};
use faults::BookFault;
use frames::frame::Frame;
use stops::{Fault, Stop};

impl Draft {
    // A draft that has taken no line, whatever the memory held before.
    pub fn begin(memory: &mut Memory) -> Draft
        ensures { draft_of result memory.new ≡ empty }
    {
        memory.table = [[None; MOST_MOVEMENTS]; MOST_MOVEMENTS];
        memory.openings = [None; MOST_MOVEMENTS];
        Draft {
            counts: Counts {
                lines: 0,
                movements: 0,
                runs_a: 0,
                runs_b: 0,
            },
            last_kind: None,
            closing: None,
        }
    }

    // The draft with a line more; or the draft as it was, with the fault that refuses the line, and the memory as it was.
    pub fn take(
        mut self,
        memory: &mut Memory,
        frame: Frame<'_>,
    ) -> Result<Draft, (Draft, BookFault)>
        ensures { Taken (after_frame (draft_of self memory.old) (content frame.entry)) self memory.old result memory.new }
    {
        // A `?` could not give the draft back.
        match self.take_frame(memory, frame) {
            Ok(()) => Ok(self),
            Err(fault) => Err((self, BookFault::Found(fault))),
        }
    }

    // The book of a draft with a movement and a closing line; else the draft as it was, with the fault.
    pub fn close(self, memory: &Memory) -> Result<Book, (Draft, BookFault)>
        ensures { Shut self memory.now result }
    {
        match self.closing {
            Some(closing) if self.counts.movements > 0 => {
                let Draft {
                    counts,
                    last_kind: _,
                    closing: _,
                } = self;
                Ok(Book { counts, closing })
            }
            _ => {
                let unfinished = Fault::at(Stop::Unfinished, self.counts.lines, 0);
                Err((self, BookFault::Found(unfinished)))
            }
        }
    }

    // Lets a draft go, and answers how many lines it had taken.
    pub fn give_up(self) -> usize
        ensures { result ≡ self.counts.lines }
    {
        let Draft {
            counts,
            last_kind: _,
            closing: _,
        } = self;
        counts.lines
    }
}

impl Book {
    // How many lines the book has.
    pub fn lines(&self) -> usize
        ensures { result ≡ self.now.counts.lines }
    {
        self.counts.lines
    }

    // How many movements the book has, 1 to 64.
    pub fn movements(&self) -> u8
        ensures { result ≡ self.now.counts.movements }
    {
        self.counts.movements as u8
    }
}
