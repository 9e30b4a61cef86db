// Document 01's plain book and demand 3, the one claim over every list of state calls: definitions and proofs only.
#![tactic(auto)]
