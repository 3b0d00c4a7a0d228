// The two extension values of RFC 3779: IPAddrBlocks and ASIdentifiers, read into the rows of a table.
// What several modules make their readers of asks for something first, so it is private; it stands here, where they see it.
#![tactic(auto)]

ghost use Rattle.std.specs.Prelude.{◌≡◌, ◌+◌, ◌<◌, ◌^◌, IfErr, length};
ghost use Rattle.std.specs.Fn.{FnReturnsAt};
ghost use Rattle.values.specs.Faults.{read_after};
ghost use Rattle.values.specs.Pairs.{Bounded, PairOf, PairAt};
ghost use Rattle.values.specs.Seen.{Within, PlaceWithin};

use der::{heads, tags};
use faults::{Fault, Read, Taken};
use number::refusal::Refusal;

mod addresses;
mod blocks;
mod brief_addresses;
mod briefs;
mod choices;
mod counted;
mod elements;
pub mod faults;
mod identifiers;
pub mod ids;
pub mod limits;
pub mod parts;
pub mod readings;

// What was read of octets that stand after `n` others: "Place counts octets from the start of the value read." Each caller shows that the sum fits; where it did not, it would wrap.
fn after<T>(n: usize, read: Read<T>) -> Read<T>
    ensures { IfErr read (λ fault. n + fault.place < 2 ^ 64) → result ≡ read_after n read }
{
    match read {
        Ok(x) => Ok(x),
        Err(fault) => Err(Fault::at(n.wrapping_add(fault.place), fault.refusal)),
    }
}

// The contents of a range: min, then max, then nothing. `one` reads what octets begin with: a BIT STRING or an INTEGER, by the list that the range is in.
fn pair_of<T: Copy, F: Fn(&[u8]) -> Taken<T>>(one: &F, s: &[u8]) -> Read<(T, T)>
    requires callable { F.IsAlwaysCallable one.now }
    requires bounded { Bounded (FnReturnsAt F.Fn one.now) }
    ensures read { PairOf (FnReturnsAt F.Fn one.now) s.now result }
    ensures inside { PlaceWithin (length s.now) result }
{
    let (min, k) = one(s)?;
    let rest = &s[k..];
    let (max, j) = after(k, one(rest))?;
    if j < rest.len() {
        return Err(Fault::at(k + j, Refusal::OctetsLeft));
    }
    Ok((min, max))
}

// The range that s begins with, by its head and its contents.
fn pair_at<T: Copy, F: Fn(&[u8]) -> Taken<T>>(one: F, s: &[u8]) -> Taken<(T, T)>
    requires callable { F.IsAlwaysCallable one }
    requires bounded { Bounded (FnReturnsAt F.Fn one) }
    ensures read { PairAt (FnReturnsAt F.Fn one) s.now result }
    ensures inside { Within (length s.now) result }
{
    let (k, end) = heads::open(tags::SEQUENCE, s)?;
    let pair = after(k, pair_of(&one, &s[k..end]))?;
    Ok((pair, end))
}
