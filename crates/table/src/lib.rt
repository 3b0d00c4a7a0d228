// Rows in a lent run of numbers, the spaces, and what a table may be (document 01, "The table").
#![tactic(auto)]

pub mod kinds;
pub mod rows;
pub mod spaces;
pub mod tables;
