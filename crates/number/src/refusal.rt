// The refusals of document 01, "Refusal numbers": a named case for each.
ghost use Rattle.std.specs.Prelude.{◌≡◌};
ghost use Rattle.number.specs.Refusal.{number_of};

#[derive(Clone, Copy, PartialEq, Eq)]
pub enum Refusal {
    // 1: value empty (reader alone) or above 32,768 octets
    ValueSize,
    // 2: tag or length missing, length not minimal or not definite, contents past the enclosing element
    Element,
    // 3: tag not allowed here
    Tag,
    // 4: NULL, OCTET STRING, BIT STRING or INTEGER with contents against the rules
    Contents,
    // 5: octets left after the last allowed element
    OctetsLeft,
    // 6: AFI unknown
    Afi,
    // 7: family not above the one before
    FamilyOrder,
    // 8: empty list, or ASIdentifiers with no member
    EmptyList,
    // 9: range not in its one form
    RangeForm,
    // 10: element not more than 1 past the one before
    ElementOrder,
    // 11: row 513
    RowCount,
    // 12: count of certificates 0 or above 8
    CertificateCount,
    // 13: extension carried, issuer has none
    IssuerLacks,
    // 14: inherit, and the issuer has no such space, or anchor
    NothingToInherit,
    // 15: a held number is not held by the issuer
    NotHeld,
    // 16: a lent table too short
    TableShort,
    // 17: mark or version differs
    Mark,
    // 18: bundle length outside limits, cut short, or octets over
    Framing,
    // 19: the writer's kind or rows
    NotATable,
    // 20: the writer's output shorter than the encoding
    OutputShort,
}

// The refusal's number.
impl From<Refusal> for u64 {
    ghost from_gives = { λ refusal n. n ≡ number_of refusal };

    fn from(refusal: Refusal) -> u64 {
        match refusal {
            Refusal::ValueSize => 1,
            Refusal::Element => 2,
            Refusal::Tag => 3,
            Refusal::Contents => 4,
            Refusal::OctetsLeft => 5,
            Refusal::Afi => 6,
            Refusal::FamilyOrder => 7,
            Refusal::EmptyList => 8,
            Refusal::RangeForm => 9,
            Refusal::ElementOrder => 10,
            Refusal::RowCount => 11,
            Refusal::CertificateCount => 12,
            Refusal::IssuerLacks => 13,
            Refusal::NothingToInherit => 14,
            Refusal::NotHeld => 15,
            Refusal::TableShort => 16,
            Refusal::Mark => 17,
            Refusal::Framing => 18,
            Refusal::NotATable => 19,
            Refusal::OutputShort => 20,
        }
    }
}
