ghost use Rattle.std.specs.Prelude.{◌≡◌};
ghost use Rattle.frames.specs.Frames.{content};
ghost use Rattle.entries.specs.Checks.{part_fits, part_place};

use frames::frame::{Frame, KIND_PLACE, are_whole_steps};

// Whether a line's steps are 1 to 24 whole ones, or its runs 1 or more: so they are in a frame of the frame layer.
pub fn part_fits(frame: Frame<'_>) -> bool
    ensures { result ≡ part_fits (content frame.entry) }
{
    match frame {
        Frame::Movement { steps, .. } => are_whole_steps(steps.bytes.len()),
        Frame::OrderA(runs) | Frame::OrderB(runs) => !runs.bytes.is_empty(),
        Frame::Pair { .. } | Frame::Opening { .. } | Frame::Closing { .. } => true,
    }
}

// The place where a line's steps or runs begin, else that of its kind.
pub fn part_place(frame: Frame<'_>) -> usize
    ensures { result ≡ part_place (content frame.entry) }
{
    match frame {
        Frame::Movement { steps: part, .. } | Frame::OrderA(part) | Frame::OrderB(part) =>
            usize::from(part.place),
        Frame::Pair { .. } | Frame::Opening { .. } | Frame::Closing { .. } => KIND_PLACE,
    }
}
