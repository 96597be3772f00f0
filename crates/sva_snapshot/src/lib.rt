//! A snapshot of a world: everything that it keeps, by numbers and labels, as a plain value of lists; whether two
//! snapshots are the same, and a number by which one is found again.
#![tactic(auto)]

mod bindings;
mod devices;
mod digests;
mod endpoints;
mod explaining;
mod flights;
mod holding;
mod jobs;
mod sameness;
mod snapshots;
mod spaces;
mod taking;
mod units;

pub use bindings::{Binding, Stage};
pub use devices::{Cached, Device};
pub use digests::digest;
pub use endpoints::Endpoint;
pub use explaining::{Explains, explain, is_held};
pub use flights::Flight;
pub use holding::{held_back_by, holds_back};
pub use jobs::{HostGroup, Job};
pub use sameness::same;
pub use snapshots::Snapshot;
pub use spaces::Space;
pub use sva_endpoint::{GroupPlace, PasidState, RequestTag, Taken, Use, UseSlot};
pub use sva_frames::{Held, Target};
pub use sva_itags::Busy;
pub use sva_msg::{Kind, Message, PageRequest};
pub use sva_prq::Ask;
pub use sva_queue::Descriptor;
pub use sva_space::Mapping;
pub use taking::snapshot;
pub use units::Unit;
