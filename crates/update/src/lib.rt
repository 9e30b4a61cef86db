// A whole update, what it delivers and what it reports: types, definitions and laws. `update_call` delivers it.
#![tactic(auto)]

// The last number, the orders granted by this call and their bytes, and the orders that stand after the mark and theirs.
#[derive(Clone, Copy)]
pub struct Report {
    pub number: u8,
    pub orders: u32,
    pub granted: u32,
    pub count: u32,
    pub bytes: u32,
}
