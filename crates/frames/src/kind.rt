ghost use Rattle.std.specs.Prelude.{◌≡◌};
ghost use Rattle.frames.specs.Kinds.{kind_number, NamesKind};

// The kinds of line, in the order in which a book has them. The first byte of a line is the number of its kind.
#[derive(Clone, Copy, PartialEq, Eq, PartialOrd, Ord, Debug)]
pub enum Kind {
    Movement = 1,
    Pair = 2,
    Opening = 3,
    OrderA = 4,
    OrderB = 5,
    Closing = 6,
}

// A byte that is the number of no kind.
#[derive(Clone, Copy, PartialEq, Eq, Debug)]
pub struct UnknownKind(pub u8);

impl Kind {
    // The number of the kind.
    pub fn number(self) -> u8
        ensures { result ≡ kind_number self }
    {
        self as u8
    }
}

impl TryFrom<u8> for Kind {
    type Error = UnknownKind;

    ghost try_from_gives = { NamesKind };

    fn try_from(byte: u8) -> Result<Kind, UnknownKind> {
        match byte {
            1 => Ok(Kind::Movement),
            2 => Ok(Kind::Pair),
            3 => Ok(Kind::Opening),
            4 => Ok(Kind::OrderA),
            5 => Ok(Kind::OrderB),
            6 => Ok(Kind::Closing),
            _ => Err(UnknownKind(byte)),
        }
    }
}
