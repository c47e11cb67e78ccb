use gx_expr::Value;
use gx_hull::Solid;
use gx_num::{Ray, V3};
use gx_rotation::Rotation;
use gx_text::Name;

/// How a volume is placed in its mother. Lengths are in steps of the grid, axes 0 to 2 are x, y and z, and planes 0 to 2
/// are xy, xz and yz.
#[derive(Clone, Copy, Debug, PartialEq, Eq)]
pub enum Form {
    /// One copy, with its number.
    Single {
        copy: i32,
        offset: V3,
    },
    /// Copies that fill the mother along an axis.
    Replica {
        axis: u8,
        count: u32,
        width: i64,
    },
    /// Copies in a row along an axis.
    Linear {
        axis: u8,
        count: u32,
        step: i64,
        offset: i64,
    },
    /// Rows of copies in a plane: a count, a step and an offset for each of its axes.
    Square {
        plane: u8,
        first_count: u32,
        second_count: u32,
        first_step: i64,
        second_step: i64,
        first_offset: i64,
        second_offset: i64,
    },
}

/// What a line declares.
#[derive(Drop)]
pub enum Declaration {
    /// `:P`
    Param {
        name: Name,
        value: Value,
    },
    /// `:SOLID`
    Solid {
        name: Name,
        solid: Solid,
    },
    /// `:VOLU` with a solid of its own.
    Volume {
        name: Name,
        solid: Solid,
        material: Name,
    },
    /// `:VOLU` with a solid by name.
    Named {
        name: Name,
        solid: Name,
        material: Name,
    },
    /// `:PLACE`, `:REPL` and `:PLACE_PARAM`. Replicas alone have no rotation.
    Place {
        volume: Name,
        mother: Name,
        rotation: Option<Name>,
        form: Form,
    },
    /// `:ROTM`
    Turn {
        name: Name,
        rotation: Rotation,
    },
    /// `:RAY`
    Trace {
        ray: Ray,
    },
    /// A line that is passed over unread.
    Passed,
}
