// Tags, extensions and sizes of RFC 3779 and document 01 by name.

// asnum and rdi of ASIdentifiers: [0] and [1], constructed (RFC 3779, section 3.2.3).
pub const ASNUM: u8 = 0xa0;

pub const RDI: u8 = 0xa1;

// The two extensions by number.
pub const IP_EXTENSION: u64 = 1;

pub const AS_EXTENSION: u64 = 2;

// "extension value: 1 to 32,768 octets".
pub const MAX_OCTETS: usize = 32768;
