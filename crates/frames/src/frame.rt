ghost use Rattle.std.specs.Prelude.{◌≡◌};
ghost use Rattle.frames.specs.Kinds.{kind_number, steps_length};
ghost use Rattle.frames.specs.Frames.{content, kind_in, meant, by_kind, frame_of, unknown_fault, length_fault};

use crate::fault::FrameFault;
use crate::fields::{three, two};
use crate::kind::Kind;
use stops::{Fault, Stop};

// A step takes this many bytes: a section, two for its set time, two for its release time.
pub const STEP_BYTES: usize = 5;

// A movement has at most this many steps.
pub const MOST_STEPS: usize = 24;

// The place in a line of its kind, of its first step, and of its first run.
pub const KIND_PLACE: usize = 1;

const STEPS_PLACE: u8 = 4;

const RUNS_PLACE: u8 = 2;

// A part of a line's bytes, with the place in the line where it begins.
#[derive(Clone, Copy)]
pub struct Part<'a> {
    pub place: u8,
    pub bytes: &'a [u8],
}

impl<'a> Part<'a> {
    // The part that begins at the place.
    fn at(place: u8, bytes: &'a [u8]) -> Part<'a>
        ensures place { result.place ≡ place }
        ensures bytes { result.bytes.now ≡ bytes.now }
    {
        Part { place, bytes }
    }
}

// What a line says, by its kind. Steps and runs are a part of the line's bytes.
#[derive(Clone, Copy)]
pub enum Frame<'a> {
    Movement {
        number: u8,
        priority: u8,
        steps: Part<'a>,
    },
    Pair {
        first: u8,
        second: u8,
        gap: u16,
        weight: u8,
    },
    Opening {
        movement: u8,
        seconds: u32,
    },
    OrderA(Part<'a>),
    OrderB(Part<'a>),
    Closing {
        movement: u8,
        window: u32,
    },
}

// So many bytes are 1 to 24 whole steps.
pub fn are_whole_steps(bytes: usize) -> bool
    ensures { result ≡ steps_length bytes }
{
    bytes % STEP_BYTES == 0 && STEP_BYTES <= bytes && bytes <= STEP_BYTES * MOST_STEPS
}

// A line of no kind; the place is that of its kind.
fn unknown_kind(line: usize) -> FrameFault
    ensures { result ≡ unknown_fault line }
{
    FrameFault::Found(Fault::at(Stop::UnknownKind, line, KIND_PLACE))
}

// A line whose length is not one of its kind; the place is its last byte.
fn wrong_length(line: usize, bytes: &[u8]) -> FrameFault
    ensures { result ≡ length_fault line bytes.now }
{
    FrameFault::Found(Fault::at(Stop::WrongLength, line, bytes.len()))
}

impl<'a> Frame<'a> {
    // The kind of line that the frame is of.
    pub fn kind(self) -> Kind
        ensures { result ≡ kind_in (content self.entry) }
    {
        match self {
            Frame::Movement { .. } => Kind::Movement,
            Frame::Pair { .. } => Kind::Pair,
            Frame::Opening { .. } => Kind::Opening,
            Frame::OrderA(_) => Kind::OrderA,
            Frame::OrderB(_) => Kind::OrderB,
            Frame::Closing { .. } => Kind::Closing,
        }
    }

    // The frame of a line of the kind; a fault where its length is not one of the kind. Each kind returns by itself: where
    // the arms of the match meet, the frame is moved once more, which costs half as much again.
    fn of_kind(line: usize, kind: Kind, bytes: &'a [u8]) -> Result<Frame<'a>, FrameFault>
        ensures { meant result ≡ by_kind line bytes.now (kind_number kind) }
    {
        match (kind, bytes) {
            (Kind::Movement, &[_, number, priority, ref steps @ ..])
                if are_whole_steps(steps.len()) => {
                let steps = Part::at(STEPS_PLACE, steps);
                return Ok(Frame::Movement {
                    number,
                    priority,
                    steps,
                });
            }
            (Kind::Pair, &[_, first, second, g1, g0, weight]) => {
                let gap = two(g1, g0);
                return Ok(Frame::Pair {
                    first,
                    second,
                    gap,
                    weight,
                });
            }
            (Kind::Opening, &[_, movement, s2, s1, s0]) => {
                let seconds = three(s2, s1, s0);
                return Ok(Frame::Opening { movement, seconds });
            }
            (Kind::OrderA, [_, runs @ ..]) if !runs.is_empty() => {
                return Ok(Frame::OrderA(Part::at(RUNS_PLACE, runs)));
            }
            (Kind::OrderB, [_, runs @ ..]) if !runs.is_empty() => {
                return Ok(Frame::OrderB(Part::at(RUNS_PLACE, runs)));
            }
            (Kind::Closing, &[_, movement, w2, w1, w0]) => {
                let window = three(w2, w1, w0);
                return Ok(Frame::Closing { movement, window });
            }
            _ => {}
        }
        Err(wrong_length(line, bytes))
    }

    // The frame of a line's bytes.
    pub fn read(line: usize, bytes: &'a [u8]) -> Result<Frame<'a>, FrameFault>
        ensures { meant result ≡ frame_of line bytes.now }
    {
        let [first, ..] = bytes else {
            return Err(unknown_kind(line));
        };
        let kind = Kind::try_from(*first).map_err(|_| unknown_kind(line))?;
        Frame::of_kind(line, kind, bytes)
    }
}
