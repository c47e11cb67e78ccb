ghost use Rattle.std.specs.Prelude.{◌≡◌, ◌<◌, ◌≤◌, IfOk, unsigned_abs};
ghost use Rattle.gx_num.specs.Vector.{IsWithin};
ghost use Rattle.gx_rotation.specs.Rotation as rotations;
ghost use Rattle.gx_rotation.specs.Rotation.{takes_axes_to_axes, axis_of, number_of};
ghost use Rattle.gx_rotation.specs.Given as spec;
ghost use Rattle.gx_rotation.specs.Given.{checked, turn, direction_at, by_angles3, by_angles6, row_at, by_matrix9};

use crate::{Rotation, RotationFault};
use gx_num::V3;

/// The turn about x, then y, then z by these quarter turns. `NotAxis` is at the first that is missing.
pub fn from_angles3(q: [Option<u8>; 3]) -> Result<Rotation, RotationFault>
    ensures { result ≡ by_angles3 q }
{
    let x = q[0].ok_or(RotationFault::NotAxis(0))?;
    let y = q[1].ok_or(RotationFault::NotAxis(1))?;
    let z = q[2].ok_or(RotationFault::NotAxis(2))?;
    Ok(about(2, z).compose(about(1, y)).compose(about(0, x)))
}

/// The rotation that takes x, y and z to the directions of these angles, in quarter turns: theta, from z, and phi, about
/// z from x, for each. `NotAxis` is at the first that is missing and counts, or at 0 where the directions are not along
/// three axes; `Mirror` where they are left-handed.
pub fn from_angles6(q: [Option<u8>; 6]) -> Result<Rotation, RotationFault>
    ensures { result ≡ by_angles6 q }
{
    let x = towards(&q, 0)?;
    let y = towards(&q, 2)?;
    let z = towards(&q, 4)?;
    from_rows(
        V3 {
            x: x.x,
            y: y.x,
            z: z.x,
        },
        V3 {
            x: x.y,
            y: y.y,
            z: z.y,
        },
        V3 {
            x: x.z,
            y: y.z,
            z: z.z,
        },
    )
}

/// The rotation of this matrix, by rows. `NotAxis` is at the first entry that is missing, or at 0 where the matrix does
/// not take axes to axes; `Mirror` where its determinant is -1.
pub fn from_matrix9(m: [Option<i8>; 9]) -> Result<Rotation, RotationFault>
    ensures { result ≡ by_matrix9 m }
{
    let x = row(&m, 0)?;
    let y = row(&m, 3)?;
    let z = row(&m, 6)?;
    from_rows(x, y, z)
}

// Quarter turns about an axis.
#[tactic(auto, using(crate::proofs::Turns::turn_at_is))]
fn about(axis: u8, q: u8) -> Rotation
    requires { axis < 3 }
    ensures { result ≡ turn axis q }
{
    const TURNS: [[u8; 4]; 3] = [[0, 5, 1, 4], [0, 20, 2, 22], [0, 10, 3, 9]];
    Rotation::new(TURNS[axis as usize][(q % 4) as usize])
}

// The direction of the theta at the place and the phi after it.
fn towards(q: &[Option<u8>; 6], place: u8) -> Result<V3, RotationFault>
    requires { place ≤ 4 }
    ensures { result ≡ direction_at q.now place }
{
    let theta = q[place as usize].ok_or(RotationFault::NotAxis(place))?;
    if sine(theta) == 0 {
        return Ok(direction(theta, 0));
    }
    let phi = q[place as usize + 1].ok_or(RotationFault::NotAxis(place + 1))?;
    Ok(direction(theta, phi))
}

fn direction(theta: u8, phi: u8) -> V3
    ensures { result ≡ spec.direction theta phi }
{
    V3 {
        x: sine(theta) * cosine(phi),
        y: sine(theta) * sine(phi),
        z: cosine(theta),
    }
}

fn sine(q: u8) -> i64
    ensures value { result ≡ spec.sine q }
    ensures bound { unsigned_abs result ≤ 1 }
{
    const SINES: [i64; 4] = [0, 1, 0, -1];
    SINES[(q % 4) as usize]
}

fn cosine(q: u8) -> i64
    ensures value { result ≡ spec.cosine q }
    ensures bound { unsigned_abs result ≤ 1 }
{
    const COSINES: [i64; 4] = [1, 0, -1, 0];
    COSINES[(q % 4) as usize]
}

// The three values from the place on.
fn row(m: &[Option<i8>; 9], place: u8) -> Result<V3, RotationFault>
    requires { place ≤ 6 }
    ensures { result ≡ row_at m.now place }
{
    let i = place as usize;
    let x = i64::from(m[i].ok_or(RotationFault::NotAxis(place))?);
    let y = i64::from(m[i + 1].ok_or(RotationFault::NotAxis(place + 1))?);
    let z = i64::from(m[i + 2].ok_or(RotationFault::NotAxis(place + 2))?);
    Ok(V3 { x, y, z })
}

// The rotation whose matrix has these rows.
#[tactic(auto, unfolding(crate::specs::Given::checked))]
fn from_rows(x: V3, y: V3, z: V3) -> Result<Rotation, RotationFault>
    ensures { result ≡ checked (record { x = x; y = y; z = z }) }
{
    if !take_axes_to_axes(x, y, z) {
        return Err(RotationFault::NotAxis(0));
    }
    let rotation = Rotation::new(number(x, y, z));
    // The third row of the rotation with the first two, or its opposite.
    if rotation.apply(z).z < 0 {
        return Err(RotationFault::Mirror);
    }
    Ok(rotation)
}

// The number of the rotation with the first two rows, whose third row is along the axis of z.
#[tactic(auto, using(crate::proofs::Oriented::axis_of_below, crate::proofs::Oriented::from_bool_below), unfolding(crate::specs::Rotation::number_of))]
fn number(x: V3, y: V3, z: V3) -> u8
    ensures value { result ≡ number_of (record { x = x; y = y; z = z }) }
    ensures below { result < 24 }
{
    8 * axis(x)
        + 4 * u8::from(axis(y) > axis(z))
        + 2 * u8::from(is_negative(x))
        + u8::from(is_negative(y))
}

// The matrix with these rows has one entry, 1 or -1, in each row and in each column.
fn take_axes_to_axes(x: V3, y: V3, z: V3) -> bool
    ensures { result ≡ takes_axes_to_axes (record { x = x; y = y; z = z }) }
{
    is_unit(x)
        && is_unit(y)
        && is_unit(z)
        && axis(x) != axis(y)
        && axis(y) != axis(z)
        && axis(z) != axis(x)
}

fn is_unit(v: V3) -> bool
    ensures { result ≡ rotations.is_unit v }
{
    matches!(
        (v.x, v.y, v.z),
        (1 | -1, 0, 0) | (0, 1 | -1, 0) | (0, 0, 1 | -1)
    )
}

// The axis of a unit vector.
fn axis(v: V3) -> u8
    ensures { result ≡ axis_of v }
{
    if v.x != 0 {
        0
    } else if v.y != 0 {
        1
    } else {
        2
    }
}

// Whether a unit vector points against its axis.
fn is_negative(v: V3) -> bool
    ensures { result ≡ rotations.is_negative v }
{
    v.x < 0 || v.y < 0 || v.z < 0
}
