// "A reader holds the value and its place in it and goes on element by element, left to right, outer before inner."
ghost use Rattle.std.specs.Prelude.{◌≡◌};
ghost use Rattle.der.specs.Opening.{opening_of};
ghost use Rattle.der.specs.Reader.{element_at, left_at};

use crate::heads;
use crate::heads::Opening;
use number::refusal::Refusal;

// A value, and a place in it: octets from its start.
#[derive(Clone, Copy)]
pub struct Reader<'a> {
    pub value: &'a [u8],
    pub at: usize,
}

// Returns where the contents of the element of a tag at a place of the value begin and end, in octets from its tag.
// Past the end of the value no tag is there (refusal 2).
pub fn element_at(value: &[u8], at: usize, tag: u8) -> Opening
    ensures { result ≡ element_at value.now at tag }
{
    if value.len() < at {
        return Err(Refusal::Element);
    }
    heads::open(tag, &value[at..])
}

// Returns how many octets of the value are left at a place: 0 past its end.
pub fn left_at(value: &[u8], at: usize) -> usize
    ensures { result ≡ left_at value.now at }
{
    value.len().saturating_sub(at)
}

impl<'a> Reader<'a> {
    // Returns the reader at the start of a value.
    pub fn new(value: &'a [u8]) -> Reader<'a>
        ensures { (result.value ≡ value.entry) × (result.at ≡ 0) }
    {
        Reader { value, at: 0 }
    }

    // Returns what the element of a tag at the reader's place is.
    pub fn element(self, tag: u8) -> Opening
        ensures { result ≡ element_at self.entry.value.now self.entry.at tag }
    {
        element_at(self.value, self.at, tag)
    }

    // Returns the reader at another place of the same value.
    pub fn moved(self, at: usize) -> Reader<'a>
        ensures { (result.value ≡ self.entry.value) × (result.at ≡ at) }
    {
        Reader { at, ..self }
    }

    // Returns how many octets are left at the reader's place.
    pub fn left(self) -> usize
        ensures { result ≡ left_at self.entry.value.now self.entry.at }
    {
        left_at(self.value, self.at)
    }
}

// Returns what the outermost element of a value is, if its tag is `tag`: the one at the place of a new reader.
// Readers of values begin with this: its parameters are plain.
pub fn outermost(tag: u8, value: &[u8]) -> Opening
    ensures { result ≡ opening_of tag value.now }
{
    Reader::new(value).element(tag)
}
