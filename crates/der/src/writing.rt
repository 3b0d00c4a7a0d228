// Octets written into a lent run: nothing is changed where they do not fit.
ghost use Rattle.std.specs.Prelude.{◌≡◌};
ghost use Rattle.der.specs.Written.{written};

// Writes the octets of s at a place of `out`; nothing where they do not fit.
pub fn put(out: &mut [u8], at: usize, s: &[u8])
    ensures { out.new ≡ written out.old at s.now }
{
    if out.len() < at {
        return;
    }
    if out.len() - at < s.len() {
        return;
    }
    out[at..at + s.len()].copy_from_slice(s);
}
