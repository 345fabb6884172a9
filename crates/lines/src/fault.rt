ghost use Rattle.std.specs.Prelude.{◌≡◌};
ghost use Rattle.lines.specs.Reading.{text_fault};

use stops::{Fault, Stop};

// What the text layer finds: a text or a line that is too long, a character that is no digit, an odd number of digits.
#[derive(Clone, Copy, PartialEq, Eq, Debug)]
pub struct TextFault {
    pub found: Fault,
}

impl TextFault {
    // A fault in this line, at this place.
    pub(crate) fn at(stop: Stop, line: usize, place: usize) -> TextFault
        ensures { result ≡ text_fault stop line place }
    {
        TextFault {
            found: Fault::at(stop, line, place),
        }
    }
}
