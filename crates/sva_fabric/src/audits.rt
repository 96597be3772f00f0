//! What an audit tells.

/// What an audit that finds nothing wrong tells: the length of the journal, and where the frames of its world are.
#[derive(Clone, Copy, Debug, PartialEq, Eq)]
pub struct Audit {
    /// How many calls the journal has.
    pub calls: u64,
    /// How many frames are free.
    pub free: u32,
    /// How many frames are at a page of a space.
    pub mapped: u32,
    /// How many frames wait for an endpoint.
    pub withheld: u32,
}

/// The first receipt that doesn't stand in the journal. Where each does and the calls don't add up to the journal's length, or the
/// tokens aren't as many as unreleased bindings and taken use slots, it is the number of ports and the journal's length.
#[derive(Clone, Copy, Debug, PartialEq, Eq)]
pub struct FirstBadReceipt {
    /// The number of the port.
    pub port: u64,
    /// The receipt's place.
    pub place: u64,
}
