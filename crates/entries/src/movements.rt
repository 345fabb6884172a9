ghost use Rattle.std.specs.Prelude.{◌≡◌};
ghost use Rattle.traces.specs.Clashes.{within};

// The number is that of one of so many movements.
pub fn is_within(count: usize, movement: u8) -> bool
    ensures { result ≡ within count movement }
{
    1 <= movement && usize::from(movement) <= count
}
