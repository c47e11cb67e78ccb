use crate::*;
use gx_num::V3;
use std::test::Fail;

// By hand: number 10 takes x to y and y to -x, number 13 takes x to -z, y to x and z to -y.
#[test]
fn rotations_turn_compose_and_undo(rt: HostRuntime) -> Result<(), Fail> {
    let v = V3 { x: 1, y: 2, z: 3 };
    let cases = [
        (10, 3, 9, V3 { x: -2, y: 1, z: 3 }),
        (13, 18, 18, V3 { x: 2, y: -3, z: -1 }),
    ];
    for (number, twice, inverse, image) in cases {
        let rotation = Rotation::new(number);
        assert_eq!(rt; rotation.compose(rotation).index(), twice);
        assert_eq!(rt; rotation.inverse().index(), inverse);
        assert_eq!(rt; rotation.apply(v), image);
    }
    Ok(())
}

#[test]
fn three_angles_turn_about_x_first(rt: HostRuntime) -> Result<(), Fail> {
    let cases = [
        ([Some(0), Some(4), Some(1)], Ok(Rotation::new(10))),
        ([Some(1), Some(1), Some(0)], Ok(Rotation::new(13))),
        ([None, Some(1), None], Err(RotationFault::NotAxis(0))),
        ([Some(0), Some(1), None], Err(RotationFault::NotAxis(2))),
    ];
    for (angles, rotation) in cases {
        assert_eq!(rt; from_angles3(angles), rotation);
    }
    Ok(())
}

// The angles of x are 1 and 0, of y 1 and 1, of -x 1 and 2; those of z are 0 and any phi.
#[test]
fn six_angles_are_the_images_of_the_axes(rt: HostRuntime) -> Result<(), Fail> {
    let cases = [
        (
            [Some(1), Some(1), Some(1), Some(2), Some(0), None],
            Ok(Rotation::new(10)),
        ),
        (
            [Some(1), Some(1), Some(1), Some(0), Some(0), None],
            Err(RotationFault::Mirror),
        ),
        (
            [Some(1), Some(1), Some(0), None, Some(0), None],
            Err(RotationFault::NotAxis(0)),
        ),
        (
            [Some(1), Some(1), Some(1), None, Some(0), None],
            Err(RotationFault::NotAxis(3)),
        ),
        (
            [Some(1), Some(1), Some(1), Some(2), None, None],
            Err(RotationFault::NotAxis(4)),
        ),
    ];
    for (angles, rotation) in cases {
        assert_eq!(rt; from_angles6(angles), rotation);
    }
    Ok(())
}

#[test]
fn nine_values_are_the_rows(rt: HostRuntime) -> Result<(), Fail> {
    let cases = [
        ([0, -1, 0, 1, 0, 0, 0, 0, 1], Ok(Rotation::new(10))),
        ([1, 0, 0, 0, 1, 0, 0, 0, -1], Err(RotationFault::Mirror)),
        ([1, 0, 0, 1, 0, 0, 0, 0, 1], Err(RotationFault::NotAxis(0))),
        ([1, 0, 0, 0, 2, -1, 0, 0, 1], Err(RotationFault::NotAxis(0))),
    ];
    for (rows, rotation) in cases {
        assert_eq!(rt; from_matrix9(rows.map(Some)), rotation);
    }
    let mut rows = [Some(-128); 9];
    rows[5] = None;
    assert_eq!(rt; from_matrix9(rows), Err(RotationFault::NotAxis(5)));
    Ok(())
}
