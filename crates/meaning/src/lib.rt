// What a formula says and what it is to have no solution: definitions alone, in `specs/Meaning.antt`.
//
// The theorems of `proofs/` say that the definitions mean what a reader takes them to mean. There is no code here, and
// nothing here knows of proofs, of bytes or of the checker.
#![tactic(auto)]
