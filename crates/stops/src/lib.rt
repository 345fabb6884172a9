// Why a reading is refused, and where: the stops with their numbers, and the layers that find them.
#![tactic(auto)]

ghost use Rattle.std.specs.Prelude.{◌≡◌, Some};
ghost use Rattle.stops.specs.Stops.{number_of, fault, layer_name};

use std::fmt;

// One case for each rule that a line, a text or a book can break, with the number by which planners know it.
#[derive(Clone, Copy, PartialEq, Eq, Debug)]
pub enum Stop {
    OddDigits = 1,
    NotADigit = 2,
    TooLong = 3,
    UnknownKind = 4,
    WrongLength = 5,
    OutOfSequence = 6,
    OutOfRange = 7,
    GivenBefore = 8,
    NoSuchMovement = 9,
    Full = 10,
    Unfinished = 11,
}

// The part of the reading that found a fault.
#[derive(Clone, Copy, PartialEq, Eq, Debug)]
pub enum Layer {
    Text,
    Frame,
    Book,
}

// A stop with the line where it was found and the place in that line, both counted from 1. A text that is too long has
// line 0 and place 0; a draft that does not close has the count of its lines and place 0.
#[derive(Clone, Copy, PartialEq, Eq, Debug)]
pub struct Fault {
    pub stop: Stop,
    pub line: usize,
    pub place: usize,
}

impl Stop {
    // The number of the stop.
    pub fn number(self) -> u8
        ensures { result ≡ number_of self }
    {
        self as u8
    }
}

impl Fault {
    // The fault of a stop at a place of a line.
    pub fn at(stop: Stop, line: usize, place: usize) -> Fault
        ensures { result ≡ fault stop line place }
    {
        Fault { stop, line, place }
    }
}

impl fmt::Display for Layer {
    ghost output = { λ l. Some (layer_name l) };

    fn fmt<W: fmt::Write>(&self, f: &mut fmt::Formatter<W>) -> fmt::Result {
        let name = match self {
            Layer::Text => "text",
            Layer::Frame => "frame",
            Layer::Book => "book",
        };
        f.write_str(name)
    }
}
