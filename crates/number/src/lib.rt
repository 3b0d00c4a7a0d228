// The ground floor: numbers of up to 128 bits in two halves, addresses, and the refusals of document 01.
#![tactic(auto)]

pub mod address;
pub mod halves;
pub mod kept;
pub mod refusal;
pub mod shape;
