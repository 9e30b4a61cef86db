// Request No. 13, two editors side by side: definitions and proofs only.
#![tactic(auto)]
