//! What the commands on scripts print: the plain scenario, the verdict of a test, what is kept at the end, what holds
//! steps back; and the trace, a row for each step, as it comes.
#![tactic(auto)]

mod plain_lines;
mod printing;
mod rows;
mod showing;
mod testing;
mod tracing;
mod whying;

pub use plain_lines::plain;
pub use printing::{Saying, print};
pub use rows::{Columns, Style};
pub use showing::show;
pub use testing::test;
pub use tracing::trace;
pub use whying::why;
