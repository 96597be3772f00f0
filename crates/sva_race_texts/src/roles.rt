//! Whose a step is.

ghost use Rattle.std.specs.Prelude.{◌≡◌, ◌++◌, IfOk, map};
ghost use Rattle.sva_race_texts.specs.Roles.{actor_of, is_of_endpoint, is_of_unit, is_of_worker, role_of};

use crate::words::word_at;
use std::alloc::{AllocError, Global};
use sva_grammar::number_in;
use sva_script::is;

/// Whether a step is an endpoint's.
fn is_of_endpoint(step: &[u8]) -> bool
    ensures { result ≡ is_of_endpoint step.now }
{
    is(step, b"ask")
        || is(step, b"use")
        || is(step, b"end")
        || is(step, b"evict")
        || is(step, b"fault")
        || is(step, b"finish")
        || is(step, b"quit")
}

/// Whether a step is a unit's.
fn is_of_unit(step: &[u8]) -> bool
    ensures { result ≡ is_of_unit step.now }
{
    is(step, b"pump") || is(step, b"serve")
}

/// Whether a step is a worker's.
fn is_of_worker(step: &[u8]) -> bool
    ensures { result ≡ is_of_worker step.now }
{
    is(step, b"take") || is(step, b"answer")
}

/// A role with the number of who has it.
fn numbered(alloc: Global, role: &[u8], number: &[u8]) -> Result<Vec<u8>, AllocError>
    ensures { IfOk result (λ name. name.items ≡ role.now ++ number.now) }
{
    let mut name = Vec::from_slice(alloc, role)?;
    name.extend_from_slice(number)?;
    Ok(name)
}

/// The thread of a step by its role.
pub fn role_of(alloc: Global, step: &[&[u8]]) -> Result<Vec<u8>, AllocError>
    ensures { IfOk result (λ name. name.items ≡ role_of (map (λ word. word.now) step.now)) }
{
    let name = word_at(step, 0);
    let first = word_at(step, 1);
    if is_of_endpoint(name) {
        return numbered(alloc, b"endpoint ", first);
    }
    if is_of_unit(name) {
        return numbered(alloc, b"unit ", first);
    }
    if is_of_worker(name) {
        return numbered(alloc, b"worker ", first);
    }
    if is(name, b"deliver") {
        return Vec::from_slice(alloc, b"link");
    }
    Vec::from_slice(alloc, b"host")
}

/// The endpoint whose act a step is.
pub fn actor_of(step: &[&[u8]]) -> Option<usize>
    ensures { result ≡ actor_of (map (λ word. word.now) step.now) }
{
    if !is_of_endpoint(word_at(step, 0)) {
        return None;
    }
    match number_in(word_at(step, 1)) {
        Ok(endpoint) => Some(endpoint as usize),
        Err(_) => None,
    }
}
