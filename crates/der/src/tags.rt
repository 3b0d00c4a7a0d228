// The tags of X.690 that the readers allow.
pub const INTEGER: u8 = 0x02;

pub const BIT_STRING: u8 = 0x03;

pub const OCTET_STRING: u8 = 0x04;

pub const NULL: u8 = 0x05;

pub const SEQUENCE: u8 = 0x30;
