//! Tests of the words, and of the parts that need no queue or memory: the messages, the ranges, the tags, and the
//! table of bindings. Of each its public functions, in a module of its own.

#[cfg(test)]
mod binding_calls;
#[cfg(test)]
mod messages;
#[cfg(test)]
mod pasids;
#[cfg(test)]
mod ranges;
#[cfg(test)]
mod tags;
#[cfg(test)]
mod words;
