use crate::Offers;
use std::test::Fail;

// By hand: a number comes where it is first offered, also after all went.
#[test]
fn a_number_offered_again_comes_once(rt: HostRuntime) -> Result<(), Fail> {
    let mut offers = Offers::new(rt.alloc(), 9)?;
    if offers.room() != 9 {
        return Ok(());
    }
    let rows = [
        ([3, 0, 3, 8], [3, 0, 8].as_slice()),
        ([8, 8, 8, 8], &[8]),
        ([0, 1, 2, 3], &[0, 1, 2, 3]),
    ];
    for (numbers, come) in rows {
        for k in numbers {
            if k < offers.room() {
                offers.offer(k);
            }
        }
        assert_eq!(rt; offers.as_slice(), come);
        offers.clear();
        assert_eq!(rt; offers.as_slice(), [].as_slice());
    }
    Ok(())
}
