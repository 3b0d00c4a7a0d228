// The spaces of document 01: "AFI × 1024, plus 1 + SAFI if a SAFI is present; AS numbers are 4096, routing domain identifiers 5120".
ghost use Rattle.std.specs.Prelude.{◌≡◌};
ghost use Rattle.table.specs.Spaces as spec;

use crate::kinds::Kind;
use number::halves::Width;

pub const IPV4: u64 = 1024;

pub const IPV4_LAST: u64 = 1280;

pub const IPV6: u64 = 2048;

pub const IPV6_LAST: u64 = 2304;

pub const AS_NUMBERS: u64 = 4096;

pub const ROUTING_DOMAINS: u64 = 5120;

// The numbers of the kinds of a table, as the writer takes them; MIXED takes rows of both.
pub const MIXED: u64 = 0;

pub const IP: u64 = 1;

pub const AS: u64 = 2;

// Whether a space lies from the first of a family to its last.
fn between(first: u64, last: u64, space: u64) -> bool
    ensures { result ≡ spec.between first last space }
{
    (first..=last).contains(&space)
}

// Returns the kind of a space, or None where there is no such space.
pub fn kind(space: u64) -> Option<Kind>
    ensures { spec.kind_paper result ≡ spec.kind_of space }
{
    if between(IPV4, IPV4_LAST, space) || between(IPV6, IPV6_LAST, space) {
        Some(Kind::Ip)
    } else if space == AS_NUMBERS || space == ROUTING_DOMAINS {
        Some(Kind::As)
    } else {
        None
    }
}

// Returns how many bits the numbers of a space have: 128 in the spaces of AFI 0002, else 32.
pub fn width(space: u64) -> Width
    ensures { result ≡ spec.width_of space }
{
    if between(IPV6, IPV6_LAST, space) {
        Width::Bits128
    } else {
        Width::Bits32
    }
}
