//! Reports of scenarios: the run of their steps, and the loop that writes what it is answered. The grammar is that of
//! `sva_grammar`, the streams are those of `sva_streams`. No thread is started here, and nothing waits.
#![tactic(auto)]

mod checking;
mod configs;
mod counts;
mod driving;
mod report;
mod scenarios;

pub use checking::{check, check_text};
pub use configs::laws;
pub use counts::put_counts;
pub use driving::{drive, report_text};
pub use report::{write_audit, write_bad_audit, write_reply};
pub use scenarios::scenario_or_fault;
