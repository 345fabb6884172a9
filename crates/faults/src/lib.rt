// What a reading answers where it stops: a fault of one of its layers.
#![tactic(auto)]

ghost use Rattle.std.specs.Prelude.{◌≡◌, Some};
ghost use Rattle.frames.specs.declared.fault.FrameFault.TheVariants.{Text};
ghost use Rattle.faults.specs.declared.BookFault.TheVariants.{Frame as InFrame};
ghost use Rattle.faults.specs.Faults.{layer_of, found_of, stop_words};

use frames::fault::FrameFault;
use lines::fault::TextFault;
use std::error::Error;
use std::fmt;
use stops::{Fault, Layer};

// A fault of the frame layer, passed on whole, or what the book layer finds.
#[derive(Clone, Copy, PartialEq, Eq, Debug)]
pub enum BookFault {
    Frame(FrameFault),
    Found(Fault),
}

// Both are written out: a derived `From` has no contract.
impl From<FrameFault> for BookFault {
    ghost from_gives = { λ e r. r ≡ InFrame e };

    fn from(fault: FrameFault) -> BookFault {
        BookFault::Frame(fault)
    }
}

impl From<TextFault> for BookFault {
    ghost from_gives = { λ e r. r ≡ InFrame (Text e) };

    fn from(fault: TextFault) -> BookFault {
        BookFault::Frame(FrameFault::from(fault))
    }
}

impl BookFault {
    // The layer that found the fault.
    pub fn layer(self) -> Layer
        ensures { result ≡ layer_of self }
    {
        match self {
            BookFault::Frame(FrameFault::Text(_)) => Layer::Text,
            BookFault::Frame(FrameFault::Found(_)) => Layer::Frame,
            BookFault::Found(_) => Layer::Book,
        }
    }

    // The stop, the line and the place.
    pub fn found(self) -> Fault
        ensures { result ≡ found_of self }
    {
        match self {
            BookFault::Frame(FrameFault::Text(fault)) => fault.found,
            BookFault::Frame(FrameFault::Found(fault)) => fault,
            BookFault::Found(fault) => fault,
        }
    }
}

impl fmt::Display for BookFault {
    ghost output = { λ f. Some (stop_words f) };

    fn fmt<W: fmt::Write>(&self, f: &mut fmt::Formatter<W>) -> fmt::Result {
        let Fault { stop, line, place } = self.found();
        let number = stop.number();
        let layer = self.layer();
        write!(f, "stop {number} {line} {place} {layer}")
    }
}

impl Error for BookFault {}
