//! The definitions of host, endpoints and link, by names, and runs of them that are worked out by hand. Their laws are in
//! `sva_laws`, but those of the codes of ranges, which stand here.
#![tactic(auto)]

mod ranges;
pub mod runs;

pub use ranges::codes;
