// The path check (document 01, "The path"): what a certificate holds against what its issuer holds.
#![tactic(auto)]

pub mod bundles;
pub mod certificates;
pub mod inherits;
pub mod paths;
pub mod replies;
pub mod walks;
