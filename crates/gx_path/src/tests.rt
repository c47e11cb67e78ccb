use super::*;
use gx_fraction::Frac;
use gx_io::Failed;
use std::alloc::Global;
use std::test::Fail;

// As many of the ordinals as there is room for.
#[tactic(auto, unfolding(crate::specs::Path::max_length))]
fn path_of(alloc: Global, ordinals: &[u32]) -> Path {
    let mut path = Path::new(alloc);
    for &k in ordinals {
        if path.len() < 32 {
            path.push(k);
        }
    }
    path
}

fn ordinals(alloc: Global, path: &Path) -> Result<Vec<u32>, Fail> {
    let mut list = Vec::new(alloc);
    for i in 0..path.len() {
        list.push(path.at(i))?;
    }
    Ok(list)
}

#[test]
fn a_path_grows_and_shrinks_at_its_end(rt: HostRuntime) -> Result<(), Fail> {
    let alloc = rt.alloc();
    for list in [[].as_slice(), &[7], &[4095, 0, 4294967295], &[5; 32]] {
        let mut path = path_of(alloc, list);
        let copy = path.copy();
        assert_eq!(rt; ordinals(alloc, &path)?.as_slice(), list);
        for last in list.iter().rev() {
            assert_eq!(rt; path.pop(), Some(*last));
        }
        assert_eq!(rt; (path.pop(), path.len()), (None, 0));
        assert_eq!(rt; ordinals(alloc, &copy)?.as_slice(), list);
    }
    Ok(())
}

#[test]
fn rows_are_kept_up_to_the_room_and_calls_fail_where_told(rt: HostRuntime) -> Result<(), Fail> {
    let alloc = rt.alloc();
    let mut rows = MemRows::new(alloc, 2, [2].to_vec(alloc)?)?;
    // the end of a row from 0 to it, and what its call answers
    let calls = [(1, Ok(())), (2, Err(Failed)), (3, Ok(())), (4, Err(Failed))];
    for (end, answer) in calls {
        let row = Row {
            from: Frac::new(0, 1),
            to: Frac::new(end, 1),
            path: path_of(alloc, &[9]),
        };
        assert_eq!(rt; rows.row(&row), answer, "{end}");
    }
    assert_eq!(rt; rows.count(), 2);
    // the first and the third
    for i in 0..rows.count() {
        let row = rows.at(i);
        let end = Frac::new(2 * i128::from(i) + 1, 1);
        assert_eq!(rt; (row.from, row.to), (Frac::new(0, 1), end));
        assert_eq!(rt; ordinals(alloc, &row.path)?.as_slice(), [9].as_slice());
    }
    Ok(())
}
