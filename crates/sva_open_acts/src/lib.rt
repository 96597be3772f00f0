//! What each act leaves of the open world: exactly what its definition says.
#![tactic(auto)]

mod acting;
mod answering;
mod asking;
mod barriers;
mod below;
mod controls;
mod deliveries;
mod expiring;
mod finishing;
mod hosting;
mod loose;
mod order;
mod pumping;
mod receiving;
mod serving;

pub use acting::act;
