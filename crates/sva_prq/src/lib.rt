//! The host's side of page requests: the queue in which a unit's page requests wait, the groups under which they are filed until
//! each group is answered, and the jobs that whole groups make, until a worker has answered them.
#![tactic(auto)]

mod group_table;
mod job_table;
mod jobs;
mod laws;
mod page_queue;
mod reading;

pub use group_table::{Group, Groups};
pub use job_table::JobTable;
pub use jobs::{Ask, Job};
pub use laws::{group_laws, queue_laws};
pub use page_queue::PageQueue;
