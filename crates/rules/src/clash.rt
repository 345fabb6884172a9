ghost use Rattle.std.specs.Prelude.{◌≡◌, Bool, ℕ};
ghost use Rattle.traces.specs.Clashes.{Lawful};

// A rule of clash covers the movements 1 to a count, and says which pairs of them clash: the starts of their runs keep a
// gap, and their order counts. The laws: only those movements clash, each clashes with itself, and clashing is mutual. A
// question alters nothing and never refuses.
pub trait Clash {
    // How many movements the rule covers.
    ghost count: { Self → ℕ };

    // The pairs that clash.
    ghost clash: { Self → ℕ → ℕ → Bool };

    ghost laws: { (r : Self) → Lawful (count r) (clash r) };

    // How many movements the rule covers, 1 to 64.
    fn movements(&self) -> u8
        ensures { result ≡ count self.now };

    // Whether two movements clash. A number that is none of the rule's clashes with nothing.
    fn clashes(&self, a: u8, b: u8) -> bool
        ensures { result ≡ clash self.now a b };
}
