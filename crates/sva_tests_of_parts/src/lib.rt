//! The tests of the parts, by public functions alone: of each part a module. A test that stands in the crate that it
//! tests has all of that crate proved once more beside it; here the test alone is proved.
#![tactic(auto)]

mod address_spaces;
#[cfg(test)]
mod asserted;
mod endpoints;
mod frames;
mod queues;
mod words;
