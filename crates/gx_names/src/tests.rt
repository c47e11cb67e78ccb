use crate::{NameFault, Names};
use std::test::Fail;

fn define(names: &mut Names, name: &[u8]) -> Option<Result<u32, NameFault>> {
    if names.count() == u32::MAX {
        return None;
    }
    Some(names.define(name))
}

// By hand: numbers go by first sight, and a refusal takes none.
#[test]
fn names_are_numbered_in_their_order(rt: HostRuntime) -> Result<(), Fail> {
    let mut names = Names::new(rt.alloc());
    let defined = [
        (b"world".as_slice(), Ok(0)),
        (b"slab", Ok(1)),
        (b"world", Err(NameFault::Twice)),
        (b"World", Ok(2)),
        (b"slab", Err(NameFault::Twice)),
        (b"", Ok(3)),
    ];
    for (name, number) in defined {
        assert_eq!(rt; define(&mut names, name), Some(number));
    }
    assert_eq!(rt; names.count(), 4);
    let numbers = [
        (b"world".as_slice(), Some(0)),
        (b"slab", Some(1)),
        (b"World", Some(2)),
        (b"", Some(3)),
        (b"sla", None),
        (b"slabs", None),
    ];
    for (name, number) in numbers {
        assert_eq!(rt; names.number(name), number);
    }
    Ok(())
}

#[test]
fn the_message_of_a_fault_is_its_name(rt: HostRuntime) -> Result<(), Fail> {
    let twice = format!(in rt.alloc(); "{}", NameFault::Twice)?;
    assert_eq!(rt; twice.as_str(), "Twice");
    let memory = format!(in rt.alloc(); "{}", NameFault::NoMemory)?;
    assert_eq!(rt; memory.as_str(), "NoMemory");
    Ok(())
}
