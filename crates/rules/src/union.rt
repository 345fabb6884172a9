ghost use Rattle.std.specs.Prelude.{max};
ghost use Rattle.traces.specs.Clashes.{either};
ghost use Rattle.rules.specs.Unions.{union_laws, union_gap};

use crate::clash::Clash;
use crate::headway::Headway;
use times::time::Time;

// Two rules as one: a pair clashes if it clashes in either, and keeps the later of the gaps from those in which it does.
#[derive(Clone, Copy, Drop)]
pub struct Union<A, B> {
    pub first: A,
    pub second: B,
}

impl<A: Clash, B: Clash> Clash for Union<A, B> {
    ghost count = { λ u. max (A.Clash.count u.first) (B.Clash.count u.second) };

    ghost clash = { λ u. either (A.Clash.clash u.first) (B.Clash.clash u.second) };

    ghost laws = { λ u. union_laws (A.Clash.laws u.first) (B.Clash.laws u.second) };

    fn movements(&self) -> u8 {
        self.first.movements().max(self.second.movements())
    }

    fn clashes(&self, a: u8, b: u8) -> bool {
        self.first.clashes(a, b) || self.second.clashes(a, b)
    }
}

impl<A: Headway, B: Headway<Kind = A::Kind>> Headway for Union<A, B> {
    type Kind = A::Kind;

    ghost headway = { λ u a b. union_gap A.Kind.Time.not_after (A.Clash.clash u.first a b) (B.Clash.clash u.second a b) (A.Headway.headway u.first a b) (B.Headway.headway u.second a b) };

    fn gap(&self, a: u8, b: u8) -> A::Kind {
        match (self.first.clashes(a, b), self.second.clashes(a, b)) {
            (true, true) => self.first.gap(a, b).later(self.second.gap(a, b)),
            (true, false) => self.first.gap(a, b),
            (false, _) => self.second.gap(a, b),
        }
    }
}
