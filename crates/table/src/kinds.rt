// The kinds of a space and their numbers: "kind 1 (IP) or 2 (AS)".
ghost use Rattle.std.specs.Prelude.{◌≡◌};
ghost use Rattle.table.specs.Spaces as spec;

use crate::spaces;

// The kind of a space, and of a table with rows of that kind alone.
#[derive(Clone, Copy, PartialEq, Eq)]
pub enum Kind {
    Ip,
    As,
}

// A number that is no kind's.
#[derive(Clone, Copy, PartialEq, Eq)]
pub struct UnknownKind(pub u64);

// The kind's number.
impl From<Kind> for u64 {
    ghost from_gives = { λ kind number. number ≡ spec.kind_number kind };

    fn from(kind: Kind) -> u64 {
        match kind {
            Kind::Ip => spaces::IP,
            Kind::As => spaces::AS,
        }
    }
}

// The kind of a number.
impl TryFrom<u64> for Kind {
    type Error = UnknownKind;

    ghost try_from_gives = { λ number kind. kind ≡ spec.kind_told number };

    fn try_from(number: u64) -> Result<Kind, UnknownKind> {
        match number {
            spaces::IP => Ok(Kind::Ip),
            spaces::AS => Ok(Kind::As),
            _ => Err(UnknownKind(number)),
        }
    }
}
