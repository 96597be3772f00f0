//! Texts that are searched at once share one limit of moments.

ghost use Rattle.std.specs.Prelude.{◌≡◌, ◌≤◌, IfOk};
ghost use Rattle.sva_several.specs.Sharing as sharing;

use crate::given::Given;
use crate::searching::{Said, Search, search_one};
use std::alloc::{AllocError, Global};

/// How many moments each of so many searches may look at.
fn share_of(most: u64, jobs: u64) -> u64
    requires { 1 ≤ jobs }
    ensures { result ≡ sharing.share_of most jobs }
{
    (most / jobs).max(1).min(most)
}

/// A search that looks at its share of moments.
fn shared(search: Search, jobs: u64) -> Search
    requires { 1 ≤ jobs }
    ensures { result ≡ sharing.shared search jobs }
{
    match search {
        Search::Races { most } => Search::Races {
            most: share_of(most, jobs),
        },
        Search::Drivers { most, all, strict } => Search::Drivers {
            most: share_of(most, jobs),
            all,
            strict,
        },
        Search::Lines | Search::Steps | Search::Tests | Search::Whys => search,
    }
}

/// What the first search of a text came to.
#[derive(Drop)]
pub(crate) enum First {
    /// This is said of it.
    Said(Said),
    /// It was cut off at its share.
    Cut,
}

/// Searches a text, with its share of the moments.
pub(crate) fn search_first(
    alloc: Global,
    search: Search,
    jobs: u64,
    text: &Given,
) -> Result<First, AllocError>
    requires { 1 ≤ jobs }
    ensures { IfOk result (sharing.IsFirst search jobs text.now) }
{
    let tried = search_one(alloc, shared(search, jobs), text)?;
    if tried.is_whole {
        return Ok(First::Said(tried.said));
    }
    if jobs == 1 {
        Ok(First::Said(tried.said))
    } else {
        Ok(First::Cut)
    }
}

/// What is said of a text behind its first search: where that was cut off, it is searched again, with all moments.
pub(crate) fn search_again(
    alloc: Global,
    search: Search,
    jobs: u64,
    text: &Given,
    first: First,
) -> Result<Said, AllocError>
    requires jobs { 1 ≤ jobs }
    requires first { sharing.IsFirst search jobs text.now first }
    ensures { IfOk result (sharing.IsSaidBy search jobs text.now) }
{
    match first {
        First::Said(said) => Ok(said),
        First::Cut => {
            let tried = search_one(alloc, search, text)?;
            Ok(tried.said)
        }
    }
}
