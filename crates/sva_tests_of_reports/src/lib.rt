//! The tests of streams and reports, and of the line that says how far a search is, by public calls alone. `sva_tests_of_parts`
//! says why tests stand in a crate of their own.
#![tactic(auto)]

#[cfg(test)]
mod progress;
#[cfg(test)]
mod reports;
#[cfg(test)]
mod streams;
