use crate::sample_text;
use std::test::Fail;

// The texts of 1 and 64, written by hand.

const OF_1: &[u8] = b"\
// sample 1\n\
:P n 1\n\
:P half 10*$n\n\
:ROTM r0 0 0 0\n\
:VOLU world BOX $half+20 $half+20 100 Air\n\
:VOLU cell BOX 10 10 50 Lead\n\
:VOLU core TRD 4 8 4 8 40 Wax\n\
:PLACE_PARAM cell 1 world SQUARE_XY r0 $n $n 20 20 10-$half 10-$half\n\
:PLACE core 1 cell r0 0 0 0\n\
:RAY -$half-30 0 0 1 0 0\n\
:RAY -$half-30 -$half-30 0 1 1 0\n\
:RAY 0 5 -120 0 0 1\n";

const OF_64: &[u8] = b"\
// sample 64\n\
:P n 64\n\
:P half 10*$n\n\
:ROTM r0 0 0 0\n\
:VOLU world BOX $half+20 $half+20 100 Air\n\
:VOLU cell BOX 10 10 50 Lead\n\
:VOLU core TRD 4 8 4 8 40 Wax\n\
:PLACE_PARAM cell 1 world SQUARE_XY r0 $n $n 20 20 10-$half 10-$half\n\
:PLACE core 1 cell r0 0 0 0\n\
:RAY -$half-30 0 0 1 0 0\n\
:RAY -$half-30 -$half-30 0 1 1 0\n\
:RAY 0 5 -120 0 0 1\n";

#[test]
fn a_sample_has_its_text(rt: HostRuntime) -> Result<(), Fail> {
    for (n, start, length) in [
        (1, OF_1, OF_1.len()),
        (2, b"// sample 2\n:P n 2\n:P half 10*$n\n", OF_1.len()),
        (10, b"// sample 10\n:P n 10\n:P half 10*$n\n", OF_64.len()),
        (64, OF_64, OF_64.len()),
    ] {
        let text = sample_text(rt.alloc(), n)?;
        assert!(rt; text.as_slice().starts_with(start));
        assert_eq!(rt; text.len(), length);
    }
    Ok(())
}
