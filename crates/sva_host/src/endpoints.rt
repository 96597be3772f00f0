//! The steps of an endpoint, on what a host keeps: it asks for translations, uses them and lets them go, sends page requests,
//! completes invalidations, and says when it has stopped using a PASID. Each step is the step by labels.

mod endpoints;

pub use endpoints::{ask, begin_use, end_use, evict, fault, finish, quit};
