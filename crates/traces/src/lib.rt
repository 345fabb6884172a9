// The laws of clash relations and of kinds of time, and what keeps them. Each function's contract is a theorem.
#![tactic(auto)]

ghost use Rattle.traces.specs.Kinds.{LaterIsLatest};
ghost use Rattle.traces.specs.Clashes.{MutualTestIsLawful, EitherWayIsMutual, MeetingInWords, MeetingIsMutual, UnionIsLawful};

// The later of two times is one of them, and neither is after it, in every kind of time.
#[tactic(auto, unfolding(crate::specs::Kinds::later_of))]
pub fn later_is_latest<T>()
    ensures { LaterIsLatest T }
{}

// A test on pairs that does not depend on their order, with each movement's clash with itself, is a lawful relation.
pub fn mutual_test_is_lawful()
    ensures { MutualTestIsLawful }
{}

// Being listed in one direction or the other does not depend on the order of the pair.
pub fn either_way_is_mutual()
    ensures { EitherWayIsMutual }
{}

// Two lists meet exactly when some number stands in both.
#[tactic(auto, using(crate::proofs::Meeting::meeting_in_words))]
pub fn meeting_in_words()
    ensures { MeetingInWords }
{}

// Whether two lists meet does not depend on their order.
#[tactic(auto, using(crate::proofs::Meeting::meeting_is_mutual))]
pub fn meeting_is_mutual()
    ensures { MeetingIsMutual }
{}

// The union of two lawful relations is lawful.
pub fn union_is_lawful()
    ensures { UnionIsLawful }
{}
