//! Other texts that are made of a driver's own, and judged: without a line, and on other platforms. They tell on what its
//! verdict rests.
#![tactic(auto)]

mod acts;
mod asking;
mod cuts;
mod driving;
mod leaving;
mod platforms;
mod standing;
mod telling;
mod trying;

pub use asking::{Question, varied_text};
pub use cuts::Cut;
pub use driving::vary;
pub use platforms::Platform;
pub use trying::Tried;
