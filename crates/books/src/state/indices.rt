ghost use Rattle.std.specs.Prelude.{◌≡◌};
ghost use Rattle.books.specs.Numbers.{index_in};

use super::Counts;
use entries::movements::is_within;

impl Counts {
    // The index of a movement, from 0; none for a number that no movement has.
    pub(super) fn index_of(self, movement: u8) -> Option<usize>
        ensures { result ≡ index_in self.movements movement }
    {
        is_within(self.movements, movement).then(|| usize::from(movement) - 1)
    }
}
