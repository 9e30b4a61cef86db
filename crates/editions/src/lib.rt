// Request No. 12: the rules before it beside those after it. Definitions and proofs only.
#![tactic(auto)]
