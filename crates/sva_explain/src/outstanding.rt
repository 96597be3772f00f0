//! What an endpoint has under way, and how its PASIDs stand: groups of page requests up to their response, request tags
//! that are out, uses that run. A line for each, with a step in brackets that would be accepted.

mod credits;
mod jobs;
mod tables;

pub use credits::{put_credit, put_disabled};
pub use jobs::{put_job_of, put_unfiled};
pub use tables::{put_busy_pasid, put_not_started, put_unfinished_if};
