// The refusals: the numbers by which documents know them, and what is said of them.
use books::Refusal;
use std::alloc::AllocError;

#[test]
fn every_refusal_has_its_number(rt: HostRuntime) {
    assert_eq!(rt; Refusal::NoSuchCard.number(), 1);
    assert_eq!(rt; Refusal::SameCard.number(), 2);
    assert_eq!(rt; Refusal::BadTolerance.number(), 6);
    assert_eq!(rt; Refusal::Unsuitable.number(), 7);
    assert_eq!(rt; Refusal::BadList.number(), 8);
    assert_eq!(rt; Refusal::LinkHeld.number(), 11);
    assert_eq!(rt; Refusal::LinkMissing.number(), 12);
    assert_eq!(rt; Refusal::Full.number(), 13);
    assert_eq!(rt; Refusal::ListTooShort.number(), 14);
}

#[test]
fn a_refusal_is_shown_in_words(rt: HostRuntime) -> Result<(), AllocError> {
    let alloc = rt.alloc();
    let same = format!(in alloc; "{}", Refusal::SameCard)?;
    let full = format!(in alloc; "{}", Refusal::Full)?;
    assert_eq!(rt; same.as_str(), "both ends are one card");
    assert_eq!(rt; full.as_str(), "every place is taken");
    Ok(())
}
