/// Why values give no rotation.
#[derive(Clone, Copy, Debug, PartialEq, Eq)]
pub enum RotationFault {
    /// The value at this place, counted from 0, takes an axis to no axis.
    NotAxis(u8),
    /// The axes go to axes, and right hands to left hands.
    Mirror,
}
