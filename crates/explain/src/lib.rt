// Why an order would be refused: the conditions of each number, the byte offset of the field at fault, and what is told of a state
// and an order. Types, definitions and laws; `explain_call` tells it.
#![tactic(auto)]

#[derive(Clone, Copy)]
pub struct Explanation {
    pub number: u8,
    pub at: u32,
}
