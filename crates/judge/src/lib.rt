// Judging an addition, over the store of live clauses and an assignment as marks: the parts of rules 1 to 4 of document 01
// that go through clauses and hints. What is here leaves marks and a tape behind that the caller takes back; the order of the
// rules and the ground of a refusal are the caller's.
#![tactic(auto)]

pub mod falsifying;
pub mod hints;
