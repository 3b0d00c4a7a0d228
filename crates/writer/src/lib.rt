// The writer: the rows of a table as the one encoding of its value, for both kinds.
// Lengths are computed first; then the octets are written once, from the last row to the first, each element in its place.
// The pieces ask something of their caller, so they are private; they stand here, where `families`, which has the entry, sees them.
#![tactic(auto)]

mod families;

ghost use Rattle.std.specs.Prelude.{◌≡◌, ◌+◌, ◌^◌, ◌<◌, ◌≤◌, ◌++◌, length};
ghost use Rattle.number.specs.Halves.{whole, bits as bits_of};
ghost use Rattle.table.specs.Rows.{seen};
ghost use Rattle.table.specs.Spaces.{ip_kind, kind_number, kind_of, width_of};
ghost use Rattle.der.specs.Tags.{BIT_STRING, INTEGER, OCTET_STRING, SEQUENCE};
ghost use Rattle.der.specs.Head.{element};
ghost use Rattle.der.specs.Bits.{bits_of as bit_octets};
ghost use Rattle.der.specs.Integer.{integer_octets};
ghost use Rattle.der.specs.Written.{written};
ghost use Rattle.values.specs.Forms.{form_of};
ghost use Rattle.values.specs.Encode.{address_octets, id_octets, space_octets, row_octets, group_heads};
ghost use Rattle.writer.specs.Writer as spec;

use der::{bits, heads, integers, tags};
pub use families::write;
use number::halves::{Halves, Width};
use number::refusal::Refusal;
use number::{address, kept, shape};
use table::kinds::Kind;
use table::rows::Row;
use table::spaces;
use values::readings::Refused;
use values::{limits, readings};

// How many octets were written, or a refusal.
pub type Writing = Result<usize, Refused>;

// A refusal of the writer: "Numbers 12 and 16 to 20 name certificate 0 and extension 0"; "The writer's 8 has extension 2 and place 0".
fn refuse(refusal: Refusal, extension: u64) -> Writing
    ensures { result ≡ spec.refused_as refusal extension }
{
    Err(readings::naming(refusal, 0, extension, 0))
}

// How many octets an element with so many octets of contents has.
fn element_size(n: usize) -> usize
    requires { n ≤ 65535 }
    ensures { result ≡ spec.element_size n }
{
    heads::head_size(n) + n
}

// The bits that an element keeps: a prefix's, or min's and max's.
#[derive(Clone, Copy)]
pub enum Form {
    Prefix(u32),
    Range(u32, u32),
}

// The first bits of an address, as many as are kept of its width's.
#[derive(Clone, Copy)]
struct Bits {
    width: Width,
    count: u32,
    address: Halves,
    ghost kept: { count ≤ bits_of width },
    ghost fits: { whole address < 2 ^ bits_of width },
}

impl Bits {
    // Writes their BIT STRING at a place.
    #[inline]
    fn put(self, out: &mut [u8], at: usize)
        requires { at + length (element BIT_STRING (bit_octets (bits_of self.width) self.count (whole self.address))) ≤ length out.old }
        ensures { out.new ≡ written out.old at (element BIT_STRING (bit_octets (bits_of self.width) self.count (whole self.address))) }
    {
        let size = bits::octets(self.count);
        heads::put_head(out, at, tags::BIT_STRING, size);
        bits::put(
            out,
            at + heads::head_size(size),
            self.count,
            address::from_halves(self.width, self.address),
        );
    }
}

// Writes a range at a place: min and max with the bits that they keep.
fn put_range(out: &mut [u8], at: usize, min: Bits, max: Bits)
    requires { at + length (element SEQUENCE (element BIT_STRING (bit_octets (bits_of min.width) min.count (whole min.address)) ++ element BIT_STRING (bit_octets (bits_of max.width) max.count (whole max.address)))) ≤ length out.old }
    ensures { out.new ≡ written out.old at (element SEQUENCE (element BIT_STRING (bit_octets (bits_of min.width) min.count (whole min.address)) ++ element BIT_STRING (bit_octets (bits_of max.width) max.count (whole max.address)))) }
{
    let first = element_size(bits::octets(min.count));
    let both = first + element_size(bits::octets(max.count));
    heads::put_head(out, at, tags::SEQUENCE, both);
    let inner = at + heads::head_size(both);
    min.put(out, inner);
    max.put(out, inner + first);
}

// The addresses of a row, from its lowest to its highest: they have the width's bits.
#[derive(Clone, Copy)]
struct Span {
    width: Width,
    low: Halves,
    high: Halves,
    ghost order: { whole low ≤ whole high },
    ghost fits: { whole high < 2 ^ bits_of width },
}

impl Span {
    // Those of a row that lists addresses.
    #[inline]
    fn of(row: Row) -> Span
        requires { spec.Lists ip_kind (seen row) }
        ensures { (result.width ≡ width_of row.space) × (result.low ≡ row.low) × (result.high ≡ row.high) }
    {
        Span {
            width: spaces::width(row.space),
            low: row.low,
            high: row.high,
        }
    }

    // The bits that its element keeps.
    #[inline]
    fn form(self) -> Form
        ensures { result ≡ spec.form_seen (form_of (bits_of self.width) (whole self.low) (whole self.high)) }
    {
        match shape::tell(
            address::from_halves(self.width, self.low),
            address::from_halves(self.width, self.high),
        ) {
            Some(n) => Form::Prefix(n),
            None => Form::Range(
                kept::kept_min(self.width, self.low),
                kept::kept_max(self.width, self.high),
            ),
        }
    }

    // The first n bits of the lowest address.
    #[inline]
    fn low_bits(self, n: u32) -> Bits
        requires { n ≤ bits_of self.width }
        ensures { (result.width ≡ self.width) × (result.count ≡ n) × (result.address ≡ self.low) }
    {
        Bits {
            width: self.width,
            count: n,
            address: self.low,
        }
    }

    // How many octets its element has.
    #[inline]
    fn size(self) -> usize
        ensures { (result ≡ length (address_octets (bits_of self.width) (whole self.low, whole self.high))) × (result ≤ spec.row_most) }
    {
        match self.form() {
            Form::Prefix(n) => element_size(bits::octets(n)),
            Form::Range(n, m) => element_size(
                element_size(bits::octets(n)) + element_size(bits::octets(m)),
            ),
        }
    }

    // Writes its element at a place.
    #[inline]
    fn put(self, out: &mut [u8], at: usize)
        requires { at + length (address_octets (bits_of self.width) (whole self.low, whole self.high)) ≤ length out.old }
        ensures { out.new ≡ written out.old at (address_octets (bits_of self.width) (whole self.low, whole self.high)) }
    {
        match self.form() {
            Form::Prefix(n) => self.low_bits(n).put(out, at),
            Form::Range(n, m) => {
                let max = Bits {
                    width: self.width,
                    count: m,
                    address: kept::zero_filled(self.width, m, self.high),
                };
                put_range(out, at, self.low_bits(n), max);
            }
        }
    }
}

// Writes an INTEGER at a place.
fn put_integer(out: &mut [u8], at: usize, x: u32)
    requires { at + length (element INTEGER (integer_octets x)) ≤ length out.old }
    ensures { out.new ≡ written out.old at (element INTEGER (integer_octets x)) }
{
    let size = integers::octets(x);
    heads::put_head(out, at, tags::INTEGER, size);
    integers::put(out, at + heads::head_size(size), x);
}

// The identifiers of a row, from its lowest to its highest.
#[derive(Clone, Copy)]
struct Ids {
    low: u32,
    high: u32,
}

impl Ids {
    // Those of a row that lists numbers of 32 bits.
    #[inline(always)]
    fn of(row: Row) -> Ids
        requires { (whole row.low ≤ whole row.high) × (whole row.high < 2 ^ 32) }
        ensures { (result.low ≡ whole row.low) × (result.high ≡ whole row.high) }
    {
        Ids {
            low: row.low.lower as u32,
            high: row.high.lower as u32,
        }
    }

    // How many octets their element has.
    #[inline(always)]
    fn size(self) -> usize
        ensures { (result ≡ length (id_octets (self.low, self.high))) × (result ≤ spec.row_most) }
    {
        let min = element_size(integers::octets(self.low));
        if self.low == self.high {
            return min;
        }
        element_size(min + element_size(integers::octets(self.high)))
    }

    // Writes their element at a place.
    #[inline(always)]
    fn put(self, out: &mut [u8], at: usize)
        requires { at + length (id_octets (self.low, self.high)) ≤ length out.old }
        ensures { out.new ≡ written out.old at (id_octets (self.low, self.high)) }
    {
        if self.low == self.high {
            put_integer(out, at, self.low);
            return;
        }
        let min = element_size(integers::octets(self.low));
        let both = min + element_size(integers::octets(self.high));
        heads::put_head(out, at, tags::SEQUENCE, both);
        let inner = at + heads::head_size(both);
        put_integer(out, inner, self.low);
        put_integer(out, inner + min, self.high);
    }
}

// A row that lists numbers of its space's width, in a table of the kind.
#[derive(Clone, Copy)]
struct Listed {
    kind: Kind,
    row: Row,
    ghost lists: { spec.Lists (kind_number kind) (seen row) },
}

impl Listed {
    // How many octets its element has.
    #[inline(always)]
    fn size(self) -> usize
        ensures { (result ≡ length (row_octets (kind_number self.kind) (seen self.row))) × (result ≤ spec.row_most) }
    {
        match self.kind {
            Kind::Ip => Span::of(self.row).size(),
            Kind::As => Ids::of(self.row).size(),
        }
    }

    // Writes its element at a place.
    #[inline(always)]
    fn put(self, out: &mut [u8], at: usize)
        requires { at + length (row_octets (kind_number self.kind) (seen self.row)) ≤ length out.old }
        ensures { out.new ≡ written out.old at (row_octets (kind_number self.kind) (seen self.row)) }
    {
        match self.kind {
            Kind::Ip => Span::of(self.row).put(out, at),
            Kind::As => Ids::of(self.row).put(out, at),
        }
    }
}

// How many octets an addressFamily has: an AFI, and a SAFI or none.
fn space_size(space: u64) -> usize
    ensures { (result ≡ length (space_octets space)) × (result ≤ 3) }
{
    if space % 1024 == 0 {
        return 2;
    }
    3
}

fn octet(x: u64) -> u8
    requires { x < 256 }
    ensures { result ≡ x }
{
    x as u8
}

// Writes an addressFamily at a place.
fn put_space(out: &mut [u8], at: usize, space: u64)
    requires { (kind_of space ≡ ip_kind) × (at + length (element OCTET_STRING (space_octets space)) ≤ length out.old) }
    ensures { out.new ≡ written out.old at (element OCTET_STRING (space_octets space)) }
{
    let afi = octet(space / 1024);
    heads::put_head(out, at, tags::OCTET_STRING, space_size(space));
    if space % 1024 == 0 {
        der::writing::put(out, at + 2, &[0, afi]);
        return;
    }
    der::writing::put(out, at + 2, &[0, afi, octet(space % 1024 - 1)]);
}

// A family, or a member, by its kind, its space, and how many octets its choice has.
#[derive(Clone, Copy)]
struct Group {
    kind: Kind,
    space: u64,
    choice: usize,
    ghost few: { choice ≤ spec.choice_most },
}

impl Group {
    // How many octets stand before the choice.
    #[inline]
    fn heads_size(self) -> usize
        ensures { (result ≡ length (group_heads (kind_number self.kind) self.space self.choice)) × (result ≤ spec.group_most) }
    {
        match self.kind {
            Kind::Ip => {
                let first = element_size(space_size(self.space));
                heads::head_size(first + self.choice) + first
            }
            Kind::As => heads::head_size(self.choice),
        }
    }

    // Writes what stands before the choice, at a place.
    #[inline]
    fn put_heads(self, out: &mut [u8], at: usize)
        requires { (kind_of self.space ≡ kind_number self.kind) × (at + length (group_heads (kind_number self.kind) self.space self.choice) ≤ length out.old) }
        ensures { out.new ≡ written out.old at (group_heads (kind_number self.kind) self.space self.choice) }
    {
        match self.kind {
            Kind::Ip => {
                let all = element_size(space_size(self.space)) + self.choice;
                heads::put_head(out, at, tags::SEQUENCE, all);
                put_space(out, at + heads::head_size(all), self.space);
            }
            Kind::As if self.space == spaces::AS_NUMBERS => {
                heads::put_head(out, at, limits::ASNUM, self.choice);
            }
            Kind::As => heads::put_head(out, at, limits::RDI, self.choice),
        }
    }
}
