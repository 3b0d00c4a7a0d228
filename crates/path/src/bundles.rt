// The bundle: "`RCH` in ASCII, 16-bit version 0001, one octet count, then for each certificate from the anchor down: 16-bit length, IPAddrBlocks,
// 16-bit length, ASIdentifiers. High octet first; length 0 means absent."
ghost use Rattle.std.specs.Prelude.{◌≡◌, ◌<◌};
ghost use Rattle.path.specs.Bundle as spec;

use number::refusal::Refusal;

// "bundle: 6 to 65,536 octets"; "certificates in a path: 1 to 8".
pub const LEAST_OCTETS: usize = 6;

pub const MOST_OCTETS: usize = 65536;

pub const MOST_CERTIFICATES: usize = 8;

// "`RCH` in ASCII, 16-bit version 0001"
const MARK: [u8; 5] = [0x52, 0x43, 0x48, 0, 1];

// The octets before the first certificate: mark, version and count.
pub const HEAD: usize = 6;

// Returns the 16-bit length that s begins with, high octet first; 0 where it is not there.
pub fn length(s: &[u8]) -> usize
    ensures { (result ≡ spec.length_in s.now) × (result < 65536) }
{
    if s.len() < 2 {
        return 0;
    }
    usize::from(s[0]) * 256 + usize::from(s[1])
}

// Returns where the value ends that s begins with, with its length before it; none if it is cut short.
pub fn value_end(s: &[u8]) -> Option<usize>
    ensures { result ≡ spec.end_of s.now }
{
    if s.len() < 2 {
        return None;
    }
    let end = 2 + length(s);
    if s.len() < end {
        return None;
    }
    Some(end)
}

// Whether s is so many values, one after another, and nothing after them.
fn is_values(s: &[u8], count: usize) -> bool
    ensures { result ≡ spec.is_values count s.now }
{
    let mut rest = s;
    for _ in 0..count {
        let Some(end) = value_end(rest) else {
            return false;
        };
        rest = &rest[end..];
    }
    rest.is_empty()
}

// Whether the bundle begins with RCH and version 0001.
fn is_marked(bundle: &[u8]) -> bool
    ensures { result ≡ spec.is_marked bundle.now }
{
    bundle.starts_with(&MARK)
}

// Returns how many certificates a bundle has, or the refusal: "length 18, 17, 12, framing 18", in this order.
pub fn frame(bundle: &[u8]) -> Result<usize, Refusal>
    ensures { result ≡ spec.frame_of bundle.now }
{
    if bundle.len() < LEAST_OCTETS || MOST_OCTETS < bundle.len() {
        return Err(Refusal::Framing);
    }
    if !is_marked(bundle) {
        return Err(Refusal::Mark);
    }
    let count = usize::from(bundle[5]);
    if count == 0 || MOST_CERTIFICATES < count {
        return Err(Refusal::CertificateCount);
    }
    if !is_values(&bundle[HEAD..], 2 * count) {
        return Err(Refusal::Framing);
    }
    Ok(count)
}
