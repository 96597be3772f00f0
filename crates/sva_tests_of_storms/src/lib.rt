//! The tests of loops and storms, and of what a device and a pager are told. `sva_tests_of_parts` says why they stand in a crate of their own; that it is
//! another than `sva_tests_of_threads` lets the tests of what lies under the lock go on beside the proofs of `sva_scenario`.
#![tactic(auto)]

#[cfg(test)]
mod callbacks;
#[cfg(test)]
mod loops;
#[cfg(test)]
mod meetings;
#[cfg(test)]
mod storms;
#[cfg(test)]
mod tokens;
#[cfg(test)]
mod worlds;
