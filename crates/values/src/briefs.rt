// Nearly all BIT STRINGs and INTEGERs have a few octets: where eight can be read at once they are one number, and there is no loop over octets.
// A brief element is taken that way if nothing is wrong with it; any other is read, or refused, by its head and its contents.
ghost use Rattle.std.specs.Prelude.{◌≡◌, ◌<◌};
ghost use Rattle.values.specs.Briefs.{is_brief};

// Returns whether s begins with this tag and a length from least to most in one octet, and has eight octets after the first of the contents:
// a BIT STRING's bits come after that one, so that eight octets can be read at once whether or not they are all its own.
pub fn is_brief(tag: u8, least: u8, most: u8, s: &[u8]) -> bool
    ensures { result ≡ is_brief tag least most s.now }
{
    if s.len() < 11 || s[0] != tag || s[1] < least {
        return false;
    }
    s[1] <= most
}
