//! One world that several threads share under a lock, with a journal of what was asked and answered, and receipts that
//! an audit compares with it; what lies under the lock is `sva_core`'s, and passed on from here. `loops`: what one
//! thread does by its port, turn by turn.
#![tactic(auto)]

mod auditing;
mod audits;
mod fabric;
mod fault_texts;
mod faults;
mod gathering;
mod laws;
mod loops;
mod opening;
mod port;
mod ports;
mod token_calls;
mod tokens;

pub use audits::{Audit, FirstBadReceipt};
pub use fabric::Fabric;
pub use faults::Fault;
pub use laws::audits_tell_once;
pub use loops::{
    BindingTokens, Device, Ended, MOST_TICKETS, Pager, Spent, Tickets, answer_jobs, append_tickets,
    endpoint_loop, fault_loop, host, link, play, service,
};
pub use port::Port;
pub use ports::Ports;
pub use sva_core::{
    Bindings, Blanks, Books, CallTokens, Entry, Journaled, Ledgers, Part, Receipt, Running,
    StepFault, Strayed, Uses, ports_of,
};
pub use tokens::{Lease, Leaving, Moved, Tokens, UseTicket};
