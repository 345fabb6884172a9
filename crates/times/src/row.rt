ghost use Rattle.std.specs.Prelude.{◌≡◌, length, nat_lt};
ghost use Rattle.times.specs.Rows.{time_at, written};

use crate::time::Time;

// A row of times, over a slice that is lent to it: one time for each movement, or one for each run.
#[derive(Drop)]
pub struct Row<'a, T> {
    pub times: &'a mut [T],
}

impl<'a, T: Time> Row<'a, T> {
    // A row over the slice.
    pub fn new(times: &'a mut [T]) -> Row<'a, T>
        ensures held { result.times.now ≡ times.old }
        ensures lent { result.times.ghost_name ≡ times.entry.ghost_name }
    {
        Row { times }
    }

    // How many times the row has.
    pub fn len(&self) -> usize
        ensures { result ≡ length self.now.times.now }
    {
        self.times.len()
    }

    // The time at an index from 0; none outside of the row.
    pub fn get(&self, index: usize) -> Option<T>
        ensures { result ≡ time_at self.now.times.now index }
    {
        self.times.get(index).copied()
    }

    // Writes a time at an index from 0 and answers yes; outside of the row, answers no and leaves the row. By index: of what
    // is written through `get_mut` a contract cannot say the values.
    pub fn set(&mut self, index: usize, time: T) -> bool
        ensures done { result ≡ nat_lt index (length self.old.times.now) }
        ensures row { self.new.times.now ≡ written self.old.times.now index time }
        ensures lent { self.new.times.ghost_name ≡ self.old.times.ghost_name }
    {
        if index >= self.times.len() {
            return false;
        }
        self.times[index] = time;
        true
    }
}
