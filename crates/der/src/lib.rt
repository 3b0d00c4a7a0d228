// DER as ITU-T X.690 has it: element heads, a reader that holds a value and its place, and the contents of INTEGER, BIT STRING, OCTET STRING and NULL. It knows nothing of RFC 3779.
#![tactic(auto)]

pub mod bits;
pub mod heads;
pub mod integers;
pub mod readers;
pub mod strings;
pub mod tags;
pub mod writing;
