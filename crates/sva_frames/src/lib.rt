//! The frames of a host: which are free, which stand in a space, and which are withheld until the units that may
//! still hold translations to them have answered.
#![tactic(auto)]

mod bits;
mod free;
mod heads;
mod lane;
mod laws;
mod ledger;
mod pool;
mod reading;
mod waits;

pub use laws::frame_laws;
pub use pool::{Counts, Frame, FramePool, Place};
pub use reading::Held;
pub use waits::{PENDING, Target, UNITS, Waits};
