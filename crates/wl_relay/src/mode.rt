//! What the relay does with the announcements of globals.

/// What the relay does with the announcements of globals.
#[derive(Clone, Copy, Debug, PartialEq, Eq)]
pub enum Mode {
    /// It drops those of interfaces that its table lacks, and lowers versions above the table's. So the client binds nothing whose
    /// messages the relay cannot read.
    HandOn,
    /// It changes nothing. Messages of objects that it does not know it hands on without reading them.
    Log,
}
