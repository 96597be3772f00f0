//! Tests of what an endpoint keeps: its cache, beside a plain one, its tables, and all of it together.

#[cfg(test)]
mod caches;
#[cfg(test)]
mod endpoint_calls;
#[cfg(test)]
mod endpoints;
#[cfg(test)]
mod plain;
#[cfg(test)]
mod tables;
