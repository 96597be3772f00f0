//! Scenarios: their reports are those of `sva_reports`, the grammar is that of `sva_grammar`; both are passed on.
//! Storms: the threads that play a scenario on one shared world, each by a loop of `sva_loops`, the audit of the
//! world's journal that ends them, and what stands before and behind them.
#![tactic(auto)]

mod faults;
mod line_threads;
mod lines;
mod plan;
mod roles;
mod round_threads;
mod storm_reports;
mod storming;
mod threads;

pub use faults::StormFault;
pub use storm_reports::{read_scenario, report_audit};
pub use storming::storm;
pub use sva_fabric::{
    Audit, Blanks, Device, Ended, Fabric, Lease, Ledgers, Pager, Port, Ports, Tokens, UseTicket,
    endpoint_loop, fault_loop, ports_of,
};
pub use sva_grammar::{Cause, LineFault, ParseFault, Scenario, parse};
pub use sva_reports::{check, check_text, drive, laws, report_text};
pub use sva_streams::{DriveFault, MOST_KEPT, MOST_TURNS, Outcome, Told, read_all, write_all};
