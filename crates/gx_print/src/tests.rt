use crate::{Summary, print_fault, print_ray, print_summary, print_usage};
use gx_gather::TextFault;
use gx_io::{Failed, MemSink};
use gx_table::FaultName;
use std::test::Fail;

fn off_grid() -> TextFault {
    TextFault {
        line: 20,
        word: 4,
        name: FaultName::OffGrid,
    }
}

#[test]
fn each_line_has_its_bytes(rt: HostRuntime) -> Result<(), Fail> {
    let alloc = rt.alloc();
    let mut sink = MemSink::new(alloc, 200, 3, Vec::new(alloc))?;
    print_ray(65536, &mut sink)?;
    print_fault(&off_grid(), &mut sink)?;
    print_usage(&mut sink)?;
    let summary = Summary {
        number: 2,
        instances: 5,
        rays: 3,
        rows: 10,
    };
    print_summary(&summary, &mut sink)?;
    let lines =
        b"ray 65536\nfault 20 4 OffGrid\nusage: g4exact (trace | check [--brief] | list) [--grid=EXPR] | sample N\nsample 2 instances 5 rays 3 rows 10\n";
    assert!(rt; sink.written() == lines.as_slice());
    Ok(())
}

// Its first four writes fail, and it takes no byte.
#[test]
fn a_write_that_fails_ends_a_line(rt: HostRuntime) -> Result<(), Fail> {
    let alloc = rt.alloc();
    let mut sink = MemSink::new(alloc, 200, 3, vec![in alloc; 1, 2, 3, 4]?)?;
    assert_eq!(rt; print_ray(1, &mut sink), Err(Failed));
    assert_eq!(rt; print_fault(&off_grid(), &mut sink), Err(Failed));
    assert_eq!(rt; print_usage(&mut sink), Err(Failed));
    assert!(rt; sink.written().is_empty());
    Ok(())
}
