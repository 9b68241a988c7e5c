// Document 01 as definitions: what a file says, when a step is accepted, and the verdict on two byte strings.
//
// `specs/` has a file for each section of the document, in its words; `proofs/` has the laws and the theorems over them,
// and the document's vectors, computed. There is no code here: the crates above are proved against these definitions.
#![tactic(auto)]
