// The contents of NULL and of an OCTET STRING (X.690, sections 8.8 and 8.7).
ghost use Rattle.std.specs.Prelude.{◌≡◌};
ghost use Rattle.der.specs.Strings.{is_null, is_sized};

// Returns whether the contents are those of a NULL: there are none.
pub fn null(contents: &[u8]) -> bool
    ensures { result ≡ is_null contents.now }
{
    contents.len() == 0
}

// Returns whether an OCTET STRING has as many octets as its user asks for.
pub fn sized(contents: &[u8], least: usize, most: usize) -> bool
    ensures { result ≡ is_sized contents.now least most }
{
    if contents.len() < least {
        return false;
    }
    contents.len() <= most
}
