//! What is asked of a driver beside its verdict.

ghost use Rattle.std.specs.Prelude.{◌≡◌, IfOk, []};
ghost use Rattle.sva_variants.specs.Needed.{is_safe};
ghost use Rattle.sva_variants.specs.Questions as spec;

use crate::standing::tell_standing;
use crate::telling::tell_needed;
use crate::trying::wanted_of;
use std::alloc::{AllocError, Global};
use sva_driver_reports::{Ruling, judge_text};
use sva_search::Watch;

/// What is asked of a driver: other texts are made of its own, and judged.
#[derive(Clone, Copy, PartialEq, Eq)]
pub enum Question {
    /// On which lines does its verdict rest?
    Needed,
    /// On which settings?
    Platforms,
}

/// Whether a driver is safe, and something was tried in it.
fn is_safe(said: Option<Ruling>) -> bool
    ensures { result ≡ is_safe said }
{
    matches!(said, Some(Ruling::Safe))
}

/// Whether a question is asked of a driver of which this is said.
fn is_open(question: Question, first: Option<Ruling>) -> bool
    ensures { result ≡ spec.is_open question first }
{
    match question {
        Question::Needed => is_safe(first),
        Question::Platforms => first.is_some(),
    }
}

/// Answers a question that is asked.
fn answer<P: Watch>(
    alloc: Global,
    question: Question,
    most: u64,
    text: &[u8],
    first: Option<Ruling>,
    own: &[u8],
    out: &mut Vec<u8>,
    watch: &mut P,
) -> Result<Option<Ruling>, AllocError>
    requires { out.old.items ≡ [] }
    ensures { IfOk result (λ said. spec.IsAnswered question text.now most first own.now said out.new.items) }
{
    match question {
        Question::Needed => tell_needed(alloc, most, text, own, out, watch),
        Question::Platforms => tell_standing(alloc, most, text, first, own, out, watch),
    }
}

/// Judges a driver, and then other texts that are made of it: each search looks at so many moments at most.
///
/// `Needed`, of one that is safe: each text in which a line of it is left out, and what goes with that line. The first
/// line of its report is written, whether each line is needed, with the first line of the report without it, and in
/// which world. `CutOff` is said where one of the searches was cut off, and else `Safe`.
///
/// `Platforms`, of one that can be read: it on Intel VT-d, and on that with one setting by which less is left open, but
/// for what it stands on. The first line of each report is written. What is said is said of the text as it stands; but
/// `CutOff` of one that is safe, where a search was cut off.
///
/// A driver of which that isn't asked has its own report alone.
pub fn varied_text<P: Watch>(
    alloc: Global,
    question: Question,
    most: u64,
    text: &[u8],
    out: &mut Vec<u8>,
    watch: &mut P,
) -> Result<Option<Ruling>, AllocError>
    requires { out.old.items ≡ [] }
    ensures { IfOk result (λ said. spec.IsVaried question text.now most said out.new.items) }
{
    let mut own = Vec::new(alloc);
    let said = judge_text(alloc, wanted_of(most), text, &mut own, watch)?;
    if is_open(question, said) {
        return answer(
            alloc,
            question,
            most,
            text,
            said,
            own.as_slice(),
            out,
            watch,
        );
    }
    out.extend_from_slice(own.as_slice())?;
    Ok(said)
}
