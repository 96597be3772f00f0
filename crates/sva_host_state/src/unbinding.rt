//! The ways in which a binding is unbound.

/// How a binding is unbound.
#[derive(Drop)]
pub enum Ending {
    /// A reset cut it off while it was in use: nothing is sent.
    AtOnce,
    /// Its endpoint is told to stop the PASID.
    ByStop { endpoint: u64, pasid: u32 },
}
