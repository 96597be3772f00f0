//! The tests of a world that several threads share, and of its journal: what the public functions of `sva_core` and `sva_fabric` do, a module
//! for each concern. Some are whole runs in which a part falls silent: its thread does no more behind each of its lines. `sva_tests_of_parts` says why
//! they stand in a crate of their own.
#![tactic(auto)]

#[cfg(test)]
mod binding_and_use;
#[cfg(test)]
mod counting;
#[cfg(test)]
mod cutting;
#[cfg(test)]
mod journals;
#[cfg(test)]
mod lines;
#[cfg(test)]
mod runs;
#[cfg(test)]
mod straying;
#[cfg(test)]
mod thread_states;
#[cfg(test)]
mod threads;
#[cfg(test)]
mod tries;
#[cfg(test)]
mod worlds;
