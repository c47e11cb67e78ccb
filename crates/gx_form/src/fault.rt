use gx_table::FaultName;

/// A fault of what is read, at its place.
#[derive(Clone, Copy, Debug, PartialEq, Eq)]
pub struct Fault {
    pub place: u32,
    pub name: FaultName,
}
