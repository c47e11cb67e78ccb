//! Whole texts are compared by the tests across crates, and by the examples.
use crate::piece::{Piece, write_line};
use gx_io::{Failed, MemSink};
use gx_num::V3;
use gx_shapes::Scale;
use std::test::Fail;

#[test]
fn a_line_has_its_words(rt: HostRuntime) -> Result<(), Fail> {
    let alloc = rt.alloc();
    let mut sink = MemSink::new(alloc, 200, 3, Vec::new(alloc))?;
    let length = -7i64;
    let pieces = [
        Piece::Word(b"b"),
        Piece::Count(2),
        Piece::Copy(-1),
        Piece::Length(&length),
        Piece::Vector(V3 { x: 1, y: -2, z: 3 }),
        Piece::Ratio(Scale { num: 1, den: 2 }),
        Piece::Ratio(Scale { num: 3, den: 1 }),
        Piece::Turn(10),
    ];
    write_line(b":PLACE", &pieces, &mut sink)?;
    assert!(rt; sink.written() == b":PLACE b 2 -1 -7 1 -2 3 1/2 3 R10\n".as_slice());
    Ok(())
}

#[test]
fn a_write_that_fails_ends_a_line(rt: HostRuntime) -> Result<(), Fail> {
    let alloc = rt.alloc();
    let mut sink = MemSink::new(alloc, 200, 2, vec![in alloc; 2]?)?;
    assert_eq!(rt;
        write_line(b":RAY", &[Piece::Count(2)], &mut sink),
        Err(Failed)
    );
    assert!(rt; sink.written() == b":R".as_slice());
    Ok(())
}
