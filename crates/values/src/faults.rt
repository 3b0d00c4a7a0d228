// What a reader of a part answers: what it read, or a refusal and its place.
ghost use Rattle.std.specs.Prelude.{◌≡◌};
ghost use Rattle.values.specs.Faults.{at};
ghost use Rattle.number.specs.declared.refusal.Refusal.TheVariants as variants;

use der::integers::BadInteger;
use number::refusal::Refusal;

// A refusal and its place, in octets from the start of what was read.
#[derive(Clone, Copy)]
pub struct Fault {
    pub refusal: Refusal,
    pub place: usize,
}

// What was read of some octets; or a refusal and its place in them.
pub type Read<T> = Result<T, Fault>;

// What some octets begin with, and how many of them it took; or a refusal and its place in them.
pub type Taken<T> = Result<(T, usize), Fault>;

// A refusal at the first octet, an element's tag.
impl From<Refusal> for Fault {
    ghost from_gives = { λ refusal fault. fault ≡ at 0 refusal };

    fn from(refusal: Refusal) -> Fault {
        Fault::at(0, refusal)
    }
}

// An INTEGER that is none is refused at its tag, whatever the cause.
impl From<BadInteger> for Fault {
    ghost from_gives = { λ _ fault. fault ≡ at 0 variants.Contents };

    fn from(_cause: BadInteger) -> Fault {
        Fault::at(0, Refusal::Contents)
    }
}

impl Fault {
    // A refusal at a place.
    pub(crate) fn at(place: usize, refusal: Refusal) -> Fault
        ensures { result ≡ at place refusal }
    {
        Fault { refusal, place }
    }
}
