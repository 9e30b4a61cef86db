// Document 01's cases marked (T): one table of questions and answers, with one claim over it (specs/Cases.antt).
// There is no code here: the claim is about the rules as written, and proofs/Hold.antt proves it by computation.
#![tactic(auto)]
