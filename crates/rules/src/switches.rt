//! What a setting is of.

/// An order of two runs on one track, or a connection.
#[derive(Clone, Copy, Debug, PartialEq, Eq)]
pub enum Switch {
    Order { i: u16, j: u16 },
    Connection { c: u16 },
}
