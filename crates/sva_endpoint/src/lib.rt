//! What an endpoint with address translation services, page requests and PASIDs does: which step it may make, what
//! each step and each message from the host leaves in its tables, and what holds of them over every list of permitted
//! calls.
//!
//! It keeps a translation cache in the order of its keys, of which an invalidation covers one run; and beside it
//! tables, each of a fixed size: the states of its PASIDs, the translation requests that are out, its uses, the
//! invalidations that it has taken and its groups of page requests. No call takes memory.
#![tactic(auto)]

mod cache_reading;
mod cached;
mod coverage;
mod device;
mod groups;
mod keys;
mod laws;
mod pasid_states;
mod permitted;
mod reading;
mod request_tags;
mod taken_table;
mod use_slots;

pub use cached::{Cache, Translation};
pub use coverage::Invalidation;
pub use device::Endpoint;
pub use groups::{GroupPlace, GroupTable};
pub use keys::{CacheKey, Ticks};
pub use laws::endpoint_laws;
pub use pasid_states::{PasidState, PasidStates};
pub use permitted::{Asking, Fault, Faulting, Finishing, Quitting, Received, Using};
pub use request_tags::{RequestTag, RequestTags};
pub use sva_msg::Extent;
pub use taken_table::{Taken, TakenTable};
pub use use_slots::{Use, UseSlot, UseSlots};
