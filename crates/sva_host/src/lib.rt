//! A host together with its table of jobs: each step is the step by labels.
//!
//! The steps on what a host keeps without its jobs stand by what they are of: `endpoints` (asking, using, letting go,
//! quitting), `bindings` (the life of a binding, stage by stage), `link` (what a unit sends, resets, each message that
//! arrives) and `spaces` (spaces, their pages, page requests).
#![tactic(auto)]

mod advancing;
mod applying;
mod bindings;
mod endpoints;
mod host;
mod host_steps;
mod jobs;
mod link;
mod page_requests;
mod reading;
mod replying;
mod resets;
mod spaces;

pub use bindings::{advance, bearer, bind, unbind};
pub use endpoints::{ask, begin_use, end_use, evict, fault, finish, quit};
pub use host::Host;
pub use link::{deliver, pump, reset};
pub use spaces::{
    bearer_at, counts, drop_space, first_request, look, map, may_serve, respond, space,
    take_request, unmap, unmap_range,
};
