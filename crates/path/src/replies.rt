// The reply of the path check: the rows of the last certificate and the pairs looked at, or a refusal.
ghost use Rattle.std.specs.Prelude.{◌≡◌};
ghost use Rattle.path.specs.Replies as spec;

use number::halves::Halves;
use number::refusal::Refusal;
use table::spaces;
use values::limits;
use values::readings::Refused;

// "The reply carries the number of row pairs looked at"; "a refusal carries 0".
#[derive(Clone, Copy)]
pub struct Accepted {
    pub rows: usize,
    pub pairs: usize,
}

pub type Reply = Result<Accepted, Refused>;

// Returns the refusal 14 or 15 in a space: "their extension follows from the space".
pub fn fault_in(refusal: Refusal, certificate: u64, space: u64, value: Halves) -> Refused
    ensures { result ≡ record { refusal = refusal; certificate = certificate; extension = spec.extension_of space; place = 0; space = space; value = value } }
{
    let extension = if space < spaces::AS_NUMBERS {
        limits::IP_EXTENSION
    } else {
        limits::AS_EXTENSION
    };
    Refused {
        refusal,
        certificate,
        extension,
        place: 0,
        space,
        value,
    }
}

// Returns a reader's refusal, as the certificate that has the value gives it.
pub fn named(fault: Refused, certificate: u64) -> Refused
    ensures { result ≡ spec.named certificate fault }
{
    Refused {
        certificate,
        ..fault
    }
}
