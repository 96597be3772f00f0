//! A whole run of the program svahost: what each command makes of its streams. The crate above, `sva_cli`, calls it with the
//! arguments, and with the standard streams or a file.
#![tactic(auto)]

mod naming;
mod run;
mod storming;

pub use naming::{is_streamed, main_on};
pub use run::{Ending, faulted, main_of, main_with, unread};
pub use sva_scenario::Told;
pub use sva_search::{Unwatched, Watch};
