// The head of an element: its tag, then its definite and minimal length (X.690, sections 8.1.3 and 10.1).
ghost use Rattle.std.specs.Prelude.{◌≡◌, ◌≤◌, ◌<◌};
ghost use Rattle.der.specs.Opening.{fitted, length_of, opening_of};
ghost use Rattle.der.specs.Head.{head_size};
ghost use Rattle.der.specs.Written.{head_written};

use number::refusal::Refusal;

// Where the contents of an element start and where they end, in octets from its tag.
pub type Opening = Result<(usize, usize), Refusal>;

// Contents of n octets that start at k, in `len` octets.
fn fit(len: usize, k: usize, n: usize) -> Opening
    requires { k ≤ len }
    ensures { result ≡ fitted len k n }
{
    if len - k < n {
        return Err(Refusal::Element);
    }
    Ok((k, k + n))
}

// "Lengths are definite and minimal: 0 to 127 in one octet, then 81, then 82." The tag is passed over.
fn length_of(s: &[u8]) -> Opening
    ensures { result ≡ length_of s.now }
{
    if s.len() < 2 {
        return Err(Refusal::Element);
    }
    let a = usize::from(s[1]);
    if a < 0x80 {
        return fit(s.len(), 2, a);
    }
    if a == 0x81 {
        if s.len() < 3 {
            return Err(Refusal::Element);
        }
        let b = usize::from(s[2]);
        if b < 0x80 {
            return Err(Refusal::Element);
        }
        return fit(s.len(), 3, b);
    }
    if a == 0x82 {
        if s.len() < 4 {
            return Err(Refusal::Element);
        }
        let n = usize::from(s[2]) * 256 + usize::from(s[3]);
        if n < 256 {
            return Err(Refusal::Element);
        }
        return fit(s.len(), 4, n);
    }
    Err(Refusal::Element)
}

// Returns where the contents of the element at the start of s begin and end, if its tag is `tag`.
// The tag is judged before the length (refusal 3 before 2); a missing tag is 2.
pub fn open(tag: u8, s: &[u8]) -> Opening
    ensures { result ≡ opening_of tag s.now }
{
    if s.len() == 0 {
        return Err(Refusal::Element);
    }
    if s[0] == tag {
        return length_of(s);
    }
    Err(Refusal::Tag)
}

// Returns how many octets the head of contents of n octets has.
pub fn head_size(n: usize) -> usize
    ensures { result ≡ head_size n }
{
    if n < 128 {
        return 2;
    }
    if n < 256 {
        return 3;
    }
    4
}

fn octet(x: usize) -> u8
    requires { x < 256 }
    ensures { result ≡ x }
{
    x as u8
}

// Writes the head of contents of n octets at a place of `out`; nothing where it does not fit, or n is above 65,535.
pub fn put_head(out: &mut [u8], at: usize, tag: u8, n: usize)
    ensures { out.new ≡ head_written out.old at tag n }
{
    if 65535 < n {
        return;
    }
    let k = head_size(n);
    if out.len() < k {
        return;
    }
    if out.len() - k < at {
        return;
    }
    out[at] = tag;
    if n < 128 {
        out[at + 1] = octet(n);
        return;
    }
    if n < 256 {
        out[at + 1] = 0x81;
        out[at + 2] = octet(n);
        return;
    }
    out[at + 1] = 0x82;
    out[at + 2] = octet(n / 256);
    out[at + 3] = octet(n % 256);
}
