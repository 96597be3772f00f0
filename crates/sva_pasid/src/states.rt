//! The states of a binding, each a value that must be spent: none is `Drop`, `Clone` or `Copy`, and each but `Live`
//! comes only from an earlier one by a move that takes it. A state knows its binding's number, its PASID, the marker
//! and the wait of which it was told, and nothing that another activity may change: not its endpoint's unit, not its
//! messages.
//!
//! The states and their moves are this project's own rule. PCI Express Base 5.0, chapter 10, leaves it to the device
//! how the use of a PASID is started and stopped.

mod draining_state;
mod invalidating_state;
mod live_state;
mod lost_state;
mod quiet_state;
mod released_state;
mod stopping_state;
mod wait;

pub use draining_state::Draining;
pub use invalidating_state::Invalidating;
pub use live_state::Live;
pub use lost_state::Lost;
pub use quiet_state::Quiet;
pub use released_state::Released;
pub use stopping_state::Stopping;
