// The figure of the present table: each window that its index lists is followed from the mark through the journal's orders.
// Definitions and laws; `present_count` counts.
#![tactic(auto)]
