//! The ports of a fabric.

use crate::port::Port;
use sva_core::Ledgers;

/// The ports of a `Fabric`, numbered from 0 in this order.
#[derive(Drop)]
pub struct Ports<C: Ledgers> {
    /// The host's port.
    pub host: Port<C>,
    /// The link's port.
    pub link: Port<C>,
    /// The port of the service that pumps and serves.
    pub service: Port<C>,
    /// A port for each endpoint.
    pub endpoints: Vec<Port<C>>,
    /// A port for each worker.
    pub workers: Vec<Port<C>>,
}
