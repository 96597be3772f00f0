//! Tests of the frames of a host and of its spaces, and ten thousand calls that a pool and a plain one answer alike.

#[cfg(test)]
mod plain;
#[cfg(test)]
mod pools;
#[cfg(test)]
mod spaces;
#[cfg(test)]
mod twin_pools;
