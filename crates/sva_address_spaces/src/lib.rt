//! The live address spaces of a host, with the frames that their pages lead to.
#![tactic(auto)]

mod address_spaces;
mod asked;
mod live;
mod pages;
mod reading;

pub use address_spaces::AddressSpaces;
pub use asked::MOST_ASKED;
pub use live::LiveSpace;
