ghost use Rattle.std.specs.Prelude.{◌≡◌, ◌+◌, ◌≤◌, true, [], length, OnOk};
ghost use Rattle.frames.specs.Frames.{content};
ghost use Rattle.entries.specs.Checks.{part_fits, uses, steps_check, runs_check};
ghost use Rattle.books.specs.Held.{last_number};
ghost use Rattle.books.specs.Adding.{next_line};
ghost use Rattle.books.specs.Taking.{index_check, kind_check};

use super::Draft;
use entries::memory::{MOST_RUNS, Step};
use entries::movements::is_within;
use entries::parts::{part_fits, part_place};
use frames::frame::{Frame, KIND_PLACE, Part, STEP_BYTES};
use frames::kind::Kind;
use lines::reader::LONGEST_TEXT;
use stops::{Fault, Stop};

// One of the steps is over the section.
fn uses_section(steps: &[Step], section: u8) -> bool
    ensures { result ≡ uses steps.now section }
{
    steps.iter().any(|step| step.section == section)
}

// Each step is set before it is released, and no section comes twice. The first step stands at `place` of the line.
pub(super) fn check_steps(line: usize, place: u8, steps: &[Step]) -> Result<(), Fault>
    requires { length steps.now ≤ 24 }
    ensures { result ≡ steps_check line place [] steps.now }
{
    for (i, step) in steps.iter().enumerate() {
        let at = usize::from(place) + STEP_BYTES * i;
        if step.set >= step.release {
            return Err(Fault::at(Stop::OutOfRange, line, at));
        }
        if uses_section(&steps[0..i], step.section) {
            return Err(Fault::at(Stop::GivenBefore, line, at));
        }
    }
    Ok(())
}

// There is room for each run behind those held, and its movement is one of the count.
pub(super) fn check_runs(
    line: usize,
    count: usize,
    held: usize,
    runs: Part<'_>,
) -> Result<(), Fault>
    requires { held ≤ 512 }
    ensures value { result ≡ runs_check line count held runs.entry.place runs.entry.bytes.now }
    ensures room { OnOk result (held + length runs.entry.bytes.now ≤ 512) }
{
    for (i, movement) in runs.bytes.iter().enumerate() {
        let at = usize::from(runs.place) + i;
        if held + i >= MOST_RUNS {
            return Err(Fault::at(Stop::Full, line, at));
        }
        if !is_within(count, *movement) {
            return Err(Fault::at(Stop::NoSuchMovement, line, at));
        }
    }
    Ok(())
}

impl Draft {
    // The number of the line that comes next.
    pub(crate) fn next_line(&self) -> usize
        ensures { result ≡ next_line self.now.counts.lines }
    {
        (self.counts.lines + 1).min(LONGEST_TEXT)
    }

    // The index of a movement of the draft; or the fault of the line that names another number at the place.
    pub(super) fn find_movement(&self, movement: u8, place: usize) -> Result<usize, Fault>
        ensures { result ≡ index_check (next_line self.now.counts.lines) self.now.counts.movements movement place }
    {
        self.counts.index_of(movement).ok_or_else(|| Fault::at(
            Stop::NoSuchMovement,
            self.next_line(),
            place,
        ))
    }

    // The line's length, then its kind: not below that of the last line, and not a second closing.
    pub(super) fn check_kind(&self, frame: Frame<'_>) -> Result<(), Fault>
        ensures value { result ≡ kind_check (next_line self.now.counts.lines) (last_number self.now.last_kind) (content frame.entry) }
        ensures fits { OnOk result (part_fits (content frame.entry) ≡ true) }
    {
        let line = self.next_line();
        if !part_fits(frame) {
            return Err(Fault::at(Stop::WrongLength, line, part_place(frame)));
        }
        let kind = frame.kind();
        match self.last_kind {
            Some(last) if kind < last || (kind == Kind::Closing && last == Kind::Closing) => Err(
                Fault::at(Stop::OutOfSequence, line, KIND_PLACE),
            ),
            _ => Ok(()),
        }
    }
}
