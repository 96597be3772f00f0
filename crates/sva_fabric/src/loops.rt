//! What one thread does by its port of a shared world, turn by turn: the loops of the host, of the link and of the service, that of an
//! endpoint, and that of a worker. None knows of another thread.

mod callbacks;
mod endings;
mod hosting;
mod linking;
mod paging;
mod spending;
mod tickets;
mod using;

pub use callbacks::{Device, Pager};
pub use endings::{Ended, Spent};
pub use hosting::{BindingTokens, host};
pub use linking::{link, service};
pub use paging::{answer_jobs, fault_loop};
pub use tickets::{MOST_TICKETS, Tickets, append_tickets};
pub use using::{endpoint_loop, play};
