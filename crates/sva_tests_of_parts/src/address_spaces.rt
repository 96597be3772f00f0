//! Tests of the memory of a host and of its remapping units.

#[cfg(test)]
mod memories;
#[cfg(test)]
mod pages_of_jobs;
#[cfg(test)]
mod units;
