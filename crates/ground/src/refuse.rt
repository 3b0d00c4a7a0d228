// The refusals and their numbers.
use crate::print;
use number::refusal::Refusal;

fn show(rt: &impl Print, refusal: Refusal) {
    let _ = rt.write_all(b"refusal");
    print::long(rt, u64::from(refusal));
    print::end(rt);
}

pub fn numbers(rt: &impl Print) {
    show(rt, Refusal::ValueSize);
    show(rt, Refusal::Element);
    show(rt, Refusal::Tag);
    show(rt, Refusal::Contents);
    show(rt, Refusal::OctetsLeft);
    show(rt, Refusal::Afi);
    show(rt, Refusal::FamilyOrder);
    show(rt, Refusal::EmptyList);
    show(rt, Refusal::RangeForm);
    show(rt, Refusal::ElementOrder);
    show(rt, Refusal::RowCount);
    show(rt, Refusal::CertificateCount);
    show(rt, Refusal::IssuerLacks);
    show(rt, Refusal::NothingToInherit);
    show(rt, Refusal::NotHeld);
    show(rt, Refusal::TableShort);
    show(rt, Refusal::Mark);
    show(rt, Refusal::Framing);
    show(rt, Refusal::NotATable);
    show(rt, Refusal::OutputShort);
}
