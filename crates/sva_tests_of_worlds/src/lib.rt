//! The tests of the world, of the text of scenarios, of what `why` says in plain lines, and of the search, by public calls
//! alone. The search is tried on a system whose states are copied as they are and on one whose states own memory; and of
//! forty systems the same ends and claims are wanted as by all lists of choices, one after another. `sva_tests_of_parts`
//! says why tests stand in a crate of their own.
#![tactic(auto)]

#[cfg(test)]
mod all_lists;
#[cfg(test)]
mod asserted;
mod letters;
#[cfg(test)]
mod lines;
#[cfg(test)]
mod searches;
#[cfg(test)]
mod texts;
mod ways;
#[cfg(test)]
mod whys;
#[cfg(test)]
mod worlds;
