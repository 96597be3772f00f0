//! Tests of what stands in a queue: descriptors, page requests, their groups and jobs; and ten thousand calls that a
//! unit and a plain one answer alike.

#[cfg(test)]
mod groups;
#[cfg(test)]
mod job_tables;
#[cfg(test)]
mod page_queues;
#[cfg(test)]
mod plain;
#[cfg(test)]
mod queues;
#[cfg(test)]
mod twin_queues;
