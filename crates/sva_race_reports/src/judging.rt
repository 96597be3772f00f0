//! What a search says of a claim.

ghost use Rattle.std.specs.Prelude.{◌≡◌, option_map};
ghost use Rattle.sva_race_reports.specs.Judging.{both, judged_by, judged_word, witness_of};

use sva_race::{Choice, Claiming, End};
use sva_search::Found;

/// What is said of a claim.
#[derive(Clone, Copy, PartialEq, Eq)]
pub enum Judged {
    /// It holds.
    Holds,
    /// It doesn't.
    Fails,
    /// Not all was looked at, and nothing was found.
    Unknown,
}

/// What is said of a claim, by whether a moment was found that settles it, and whether all was looked at.
pub(crate) fn judge(claiming: Claiming, is_found: bool, is_whole: bool) -> Judged
    ensures { result ≡ judged_by claiming is_found is_whole }
{
    match claiming {
        Claiming::Sometimes if is_found => Judged::Holds,
        Claiming::Never | Claiming::Always if is_found => Judged::Fails,
        Claiming::Sometimes if is_whole => Judged::Fails,
        Claiming::Never | Claiming::Always if is_whole => Judged::Holds,
        _ => Judged::Unknown,
    }
}

/// Its word.
pub(crate) fn word_of(judged: Judged) -> &'static str
    ensures { result.now ≡ judged_word judged }
{
    match judged {
        Judged::Holds => "holds",
        Judged::Fails => "fails",
        Judged::Unknown => "unknown",
    }
}

/// What is said of two claims together.
pub(crate) fn both(one: Judged, other: Judged) -> Judged
    ensures { result ≡ both one other }
{
    match (one, other) {
        (Judged::Fails, _) => Judged::Fails,
        (Judged::Holds, other) => other,
        (Judged::Unknown, Judged::Fails) => Judged::Fails,
        (Judged::Unknown, _) => Judged::Unknown,
    }
}

/// The choices to a moment that settles the claim of a place, if one was found; to an end, if it is asked of ends alone.
pub(crate) fn witness_of(
    found: &Found<Choice, End>,
    is_of_ends: bool,
    place: usize,
) -> Option<&Vec<Choice>>
    ensures { option_map (λ witness. witness.now) result ≡ witness_of found.now is_of_ends place }
{
    let all = if is_of_ends {
        &found.at_ends
    } else {
        &found.at_states
    };
    match all.get(place) {
        Some(Some(witness)) => Some(witness),
        _ => None,
    }
}
