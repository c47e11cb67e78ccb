use gx_decl::Form;
use gx_hull::Solid;
use gx_text::Name;

/// A line that makes a volume or places one, by the number of the line. Names are resolved after the last line.
#[derive(Drop)]
pub enum Item {
    Volume {
        line: u32,
        name: Name,
        shape: Shape,
        material: Name,
    },
    /// Replicas alone have no rotation.
    Place {
        line: u32,
        volume: Name,
        mother: Name,
        rotation: Option<Name>,
        form: Form,
    },
}

/// A volume's solid: its own, or one by name.
#[derive(Drop)]
pub enum Shape {
    Own(Solid),
    Named(Name),
}
