ghost use Rattle.std.specs.Prelude.{◌≡◌, ℕ, ◌<◌, ◌^◌};
ghost use Rattle.gx_num.specs.Vector.{IsWithin, dot_of};
ghost use Rattle.gx_rotation.specs.Matrix.{product, transpose, identity, image, is_same_matrix, is_same_matrix-equivalence};
ghost use Rattle.std.specs.Cmp.{partial_equiv_from_equiv};
ghost use Rattle.gx_rotation.specs.Rotation.{matrix_of, unit_vector};

use gx_num::V3;
use std::marker::Model;

/// One of the 24 rotations that take the axes to axes. Contracts see its matrix.
#[derive(Clone, Copy, Debug)]
pub struct Rotation {
    index: u8,
}

// Four numbers share a permutation, and differ in the last two bits, where the exclusive or multiplies the signs.
macro_rules! row {
    ($signs:literal, [$x:literal $y:literal $z:literal], [$($first:literal)*]) => {
        [$($first ^ $signs, $first ^ $signs ^ $x, $first ^ $signs ^ $y, $first ^ $signs ^ $z),*]
    };
}

// A line for each permutation: what the signs 1, 2 and 3 become on its right, and its first products with the six.
macro_rules! products {
    ($($signs:tt $first:tt),*) => {
        [$(
            row!(0, $signs, $first),
            row!(1, $signs, $first),
            row!(2, $signs, $first),
            row!(3, $signs, $first)
        ),*]
    };
}

const PRODUCTS: [[u8; 24]; 24] = products!(
    [1 2 3] [0 4 8 12 16 20],
    [1 3 2] [4 1 13 8 20 17],
    [2 1 3] [8 16 0 20 4 12],
    [3 1 2] [12 21 5 16 0 9],
    [2 3 1] [16 10 22 0 12 6],
    [3 2 1] [20 14 18 4 8 2]
);

const INVERSES: [u8; 24] = [
    0, 1, 2, 3, 5, 4, 6, 7, 8, 10, 9, 11, 16, 18, 19, 17, 12, 15, 13, 14, 22, 21, 20, 23,
];

// The columns of the three entries, and whether their order is odd.
const PERMUTATIONS: [([u8; 3], bool); 6] = [
    ([0, 1, 2], false),
    ([0, 2, 1], true),
    ([1, 0, 2], true),
    ([1, 2, 0], false),
    ([2, 0, 1], false),
    ([2, 1, 0], true),
];

impl Model for Rotation {
    ghost use Rattle.std.specs.Prelude.{◌<◌};
    ghost use Rattle.gx_rotation.specs.Matrix.{Matrix};
    ghost use Rattle.gx_rotation.specs.Rotation.{matrix_of, number_of, number_of-matrix_of};

    ghost Value = { Matrix };

    ghost view = { λ r. matrix_of r.index };

    ghost invariant = { λ r. r.index < 24 };

    ghost inverse = { λ m. record { index = number_of m } };

    ghost inverse_ok = { λ r h i. record { index = number_of-matrix_of r.index h i } };
}

impl PartialEq for Rotation {
    ghost eq = { is_same_matrix };

    ghost laws = { partial_equiv_from_equiv is_same_matrix-equivalence };

    fn eq(&self, other: &Rotation) -> bool {
        self.index == other.index
    }
}

impl Eq for Rotation {
    ghost laws = { is_same_matrix-equivalence };
}

impl Rotation {
    /// The rotation with this number.
    pub fn new(index: u8) -> Rotation
        requires { index < 24 }
        ensures { result ≡ matrix_of index }
    {
        Rotation { index }
    }

    /// Its number.
    pub fn index(&self) -> u8
        ensures value { self.now ≡ matrix_of result }
        ensures below { result < 24 }
    {
        self.index
    }

    /// The rotation that does `o` first.
    pub fn compose(self, o: Rotation) -> Rotation
        ensures { result ≡ product self o }
    {
        Rotation {
            index: PRODUCTS[self.index as usize][o.index as usize],
        }
    }

    /// The rotation that undoes this one.
    pub fn inverse(self) -> Rotation
        ensures left { product result self ≡ identity }
        ensures right { product self result ≡ identity }
        ensures transposed { result ≡ transpose self }
    {
        Rotation {
            index: INVERSES[self.index as usize],
        }
    }

    /// The vector turned.
    pub fn apply(self, v: V3) -> V3
        requires { IsWithin (2 ^ 61) v }
        ensures { result ≡ image self v }
    {
        let (columns, odd) = PERMUTATIONS[(self.index / 4) as usize];
        let negative_x = self.index % 4 / 2 == 1;
        let negative_y = self.index % 2 == 1;
        let negative_z = (negative_x != negative_y) != odd;
        V3 {
            x: signed_component(v, columns[0], negative_x),
            y: signed_component(v, columns[1], negative_y),
            z: signed_component(v, columns[2], negative_z),
        }
    }

    /// The vector turned back; its components are no larger.
    pub fn undo(self, v: V3) -> V3
        requires { IsWithin (2 ^ 61) v }
        ensures value { result ≡ image (transpose self) v }
        ensures within { (bound : ℕ) → IsWithin bound v → IsWithin bound result }
    {
        // What each rotation keeps is known from here on.
        let _ = &self.index;
        self.inverse().apply(v)
    }
}

// The component along the axis, or against it.
fn signed_component(v: V3, axis: u8, negative: bool) -> i64
    requires within { IsWithin (2 ^ 61) v }
    requires axis { axis < 3 }
    ensures { result ≡ dot_of (unit_vector axis negative) v }
{
    let value = match axis {
        0 => v.x,
        1 => v.y,
        _ => v.z,
    };
    if negative { -value } else { value }
}
