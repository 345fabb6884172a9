ghost use Rattle.std.specs.Prelude.{◌≡◌, ◌≤◌, true, length};
ghost use Rattle.frames.specs.Frames.{content, movement, pair, opening, closing};
ghost use Rattle.entries.specs.Checks.{part_fits};
ghost use Rattle.books.specs.Taking.{RunsTaken, FieldsTaken, FrameTaken};

use super::Draft;
use super::checks::{check_runs, check_steps};
use super::parts::{read_route, write_runs};
use entries::memory::{Closing, Listed, MOST_MOVEMENTS, Memory, Run};
use frames::frame::{Frame, Part};
use stops::{Fault, Stop};

// The places of a line's fields: of the movement (or the first of a pair), the second of a pair, the priority, the
// window, and a pair's weight.
const MOVEMENT_PLACE: usize = 2;

const SECOND_PLACE: usize = 3;

const PRIORITY_PLACE: usize = 3;

const WINDOW_PLACE: usize = 3;

const WEIGHT_PLACE: usize = 6;

// The greatest priority, and the greatest weight.
const HIGHEST_WEIGHT: u8 = 9;

// The longest window, in seconds.
const LONGEST_WINDOW: u32 = 86_400;

// Taking a line: its fields are tested, and only then is anything written.
impl Draft {
    // A movement: there is room for it, its number is the next, its priority is in bounds, and its steps are.
    fn take_movement(
        &mut self,
        memory: &mut Memory,
        number: u8,
        priority: u8,
        steps: Part<'_>,
    ) -> Result<(), Fault>
        requires { length steps.bytes.now ≤ 120 }
        ensures { FieldsTaken (movement number priority steps.entry.place steps.entry.bytes.now) self.old memory.old result self.new memory.new }
    {
        let line = self.next_line();
        if self.counts.movements >= MOST_MOVEMENTS {
            return Err(Fault::at(Stop::Full, line, MOVEMENT_PLACE));
        }
        if usize::from(number) != self.counts.movements + 1 {
            return Err(Fault::at(Stop::OutOfSequence, line, MOVEMENT_PLACE));
        }
        if priority > HIGHEST_WEIGHT {
            return Err(Fault::at(Stop::OutOfRange, line, PRIORITY_PLACE));
        }
        let route = read_route(priority, steps.bytes);
        check_steps(line, steps.place, route.steps())?;
        memory.routes[self.counts.movements] = route;
        self.counts.movements += 1;
        Ok(())
    }

    // A pair: both movements are there, no line listed the pair before, and its weight is in bounds.
    fn take_pair(
        &mut self,
        memory: &mut Memory,
        first: u8,
        second: u8,
        listed: Listed,
    ) -> Result<(), Fault>
        ensures { FieldsTaken (pair first second listed.gap listed.weight) self.old memory.old result self.new memory.new }
    {
        let line = self.next_line();
        let row = self.find_movement(first, MOVEMENT_PLACE)?;
        let column = self.find_movement(second, SECOND_PLACE)?;
        if memory.table[row][column].is_some() {
            return Err(Fault::at(Stop::GivenBefore, line, SECOND_PLACE));
        }
        if listed.weight > HIGHEST_WEIGHT {
            return Err(Fault::at(Stop::OutOfRange, line, WEIGHT_PLACE));
        }
        memory.table[row][column] = Some(listed);
        Ok(())
    }

    // An opening: its movement is there, and no line gave it an opening before.
    fn take_opening(&mut self, memory: &mut Memory, movement: u8, seconds: u32) -> Result<(), Fault>
        ensures { FieldsTaken (opening movement seconds) self.old memory.old result self.new memory.new }
    {
        let index = self.find_movement(movement, MOVEMENT_PLACE)?;
        if memory.openings[index].is_some() {
            return Err(Fault::at(Stop::GivenBefore, self.next_line(), MOVEMENT_PLACE));
        }
        memory.openings[index] = Some(seconds);
        Ok(())
    }

    // Runs of an order, behind those that its row holds; answers how many it then holds.
    fn take_runs(&self, row: &mut [Run], held: usize, runs: Part<'_>) -> Result<usize, Fault>
        requires held { held ≤ 512 }
        requires row { 512 ≤ length row.old }
        ensures { RunsTaken self.now held runs.entry.place runs.entry.bytes.now row.old result row.new }
    {
        check_runs(self.next_line(), self.counts.movements, held, runs)?;
        write_runs(row, held, runs.bytes);
        Ok(held + runs.bytes.len())
    }

    // A closing: its movement is there, and its window is in bounds.
    fn take_closing(&mut self, line: Closing) -> Result<(), Fault>
        ensures { (memory : Memory) → FieldsTaken (closing line.movement line.window) self.old memory result self.new memory }
    {
        self.find_movement(line.movement, MOVEMENT_PLACE)?;
        if line.window < 1 || line.window > LONGEST_WINDOW {
            return Err(Fault::at(Stop::OutOfRange, self.next_line(), WINDOW_PLACE));
        }
        self.closing = Some(line);
        Ok(())
    }

    // The fields of a frame, by its kind.
    fn take_fields(&mut self, memory: &mut Memory, frame: Frame<'_>) -> Result<(), Fault>
        requires { part_fits (content frame) ≡ true }
        ensures { FieldsTaken (content frame.entry) self.old memory.old result self.new memory.new }
    {
        match frame {
            Frame::Movement {
                number,
                priority,
                steps,
            } => self.take_movement(memory, number, priority, steps),
            Frame::Pair {
                first,
                second,
                gap,
                weight,
            } => self.take_pair(memory, first, second, Listed { gap, weight }),
            Frame::Opening { movement, seconds } => self.take_opening(memory, movement, seconds),
            Frame::OrderA(runs) => {
                self.counts.runs_a = self.take_runs(&mut memory.order_a, self.counts.runs_a, runs)?;
                Ok(())
            }
            Frame::OrderB(runs) => {
                self.counts.runs_b = self.take_runs(&mut memory.order_b, self.counts.runs_b, runs)?;
                Ok(())
            }
            Frame::Closing { movement, window } => self.take_closing(Closing { movement, window }),
        }
    }

    // A line: its length and its kind are tested, then its fields; a fault leaves draft and memory as they were.
    pub(super) fn take_frame(&mut self, memory: &mut Memory, frame: Frame<'_>) -> Result<(), Fault>
        ensures { FrameTaken (content frame.entry) self.old memory.old result self.new memory.new }
    {
        self.check_kind(frame)?;
        self.take_fields(memory, frame)?;
        self.counts.lines = self.next_line();
        self.last_kind = Some(frame.kind());
        Ok(())
    }
}
