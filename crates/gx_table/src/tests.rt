use crate::{Entry, FaultName, entry, fault_text, find};
use std::test::Fail;

const UNITS: [Entry; 4] = [
    entry!(b"mm", 0),
    entry!(b"cm", 1),
    entry!(b"deg", 2),
    entry!(b"CM", 3),
];

#[test]
fn a_word_has_the_number_of_the_first_row_with_its_letters(rt: HostRuntime) -> Result<(), Fail> {
    assert_eq!(rt; find(&UNITS, b"MM"), Some(0));
    assert_eq!(rt; find(&UNITS, b"Cm"), Some(1));
    assert_eq!(rt; find(&UNITS, b"deg"), Some(2));
    assert_eq!(rt; find(&UNITS, b"mmm"), None);
    assert_eq!(rt; find(&UNITS, b"m"), None);
    assert_eq!(rt; find(&UNITS, b""), None);
    Ok(())
}

#[test]
fn an_entry_holds_up_to_16_bytes(rt: HostRuntime) -> Result<(), Fail> {
    let entry = Entry::new("abcdefghijklmn.1", 7);
    assert_eq!(rt; entry.number(), 7);
    assert!(rt; entry.same(b"ABCDEFGHIJKLMN.1"));
    assert!(rt; !entry.same(b"abcdefghijklmn"));
    Ok(())
}

#[test]
fn a_fault_is_printed_by_its_name(rt: HostRuntime) -> Result<(), Fail> {
    assert_eq!(rt; fault_text(FaultName::TooManyRays), "TooManyRays");
    Ok(())
}
