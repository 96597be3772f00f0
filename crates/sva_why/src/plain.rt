//! What each refusal says, in a line without numbers.

ghost use Rattle.std.specs.Prelude.{◌≡◌, ◌++◌, OnOk};
ghost use Rattle.sva_why.specs.Plain.{plain_line, plain_text};

use std::alloc::AllocError;
use sva_explain::{Level, put_indent};
use sva_lines::{end_line, put_word};
use sva_step::Refusal;

/// What a refusal says.
fn plain_text(refusal: Refusal) -> &'static str
    ensures { result.now ≡ plain_text refusal }
{
    match refusal {
        Refusal::BadConfig => "endpoints are 1 to 8, frames 1 to 4096, workers 1 to 4",
        Refusal::NoSuchEndpoint => "the config has no endpoint of this number",
        Refusal::NoSuchSpace => "no live space has this number",
        Refusal::TooManySpaces => "64 spaces are live",
        Refusal::PageRange => "pages are below 2^36",
        Refusal::Mapped => "the page is mapped",
        Refusal::NotMapped => "a page isn't mapped",
        Refusal::NoFrame => "too few frames are free, or none has this number",
        Refusal::SpaceFull => "the space would have more than 1024 pages",
        Refusal::AlreadyBound => "the space is bound to the endpoint",
        Refusal::NoPasid => "other spaces bear all 32 pasids",
        Refusal::StillBound => "the space is bound",
        Refusal::NoSuchBinding => "no unreleased binding has this number",
        Refusal::NotLive => "the binding isn't live",
        Refusal::NotYet => "the stage of the binding isn't over",
        Refusal::QueueFull => "a queue has too little room",
        Refusal::Resetting => "the unit is in reset",
        Refusal::NotStarted => "the pasid isn't on at the endpoint",
        Refusal::NoTag => "all 32 request tags are out",
        Refusal::NotHeld => "the endpoint holds no translation of the page under the pasid",
        Refusal::ReadOnly => "the translation that is held allows no write",
        Refusal::NoUseSlot => "all 16 use slots are taken",
        Refusal::NoSuchUse => "the use slot is free, or none of 0 to 15",
        Refusal::NoCredit => "32 page requests are outstanding at the endpoint",
        Refusal::NoSuchGroup => "the group is none of the pasid that still gets requests",
        Refusal::PriDisabled => "page requests are disabled at the endpoint: only a reset helps",
        Refusal::NotPending => "the vector names an itag that isn't pending, or none",
        Refusal::InUse => "an itag waits for a use",
        Refusal::BadCount => {
            "completions are counted 1 to 8, and pages taken out 1 to 48 at a time"
        }
        Refusal::NotStopping => "the pasid isn't told to stop at the endpoint",
        Refusal::Busy => "the pasid has a group, a tag or a use at the endpoint",
        Refusal::NoSuchMessage => "no message in flight has this number",
        Refusal::Overtakes => "an older message has to arrive before",
        Refusal::NoSuchWorker => "the config has no worker of this number",
        Refusal::HandsFull => "the worker has a job in hand",
        Refusal::NoJob => "no job is queued, or none is in the worker's hand",
        Refusal::BadVerdict => "a page is mapped read-only, and a request asks to write it",
        Refusal::NumbersSpent => "too few numbers are left below 2^63",
        Refusal::OutOfMemory => "there is no memory for it",
        Refusal::BadOrder => "the order of a range is 0 to 9",
        Refusal::NotAligned => "the first page is no multiple of the range's size",
        Refusal::NothingMapped => "no page of the range is mapped",
        Refusal::BadPasid => "pasids are 1 to 32",
    }
}

/// Appends the line of a refusal.
pub(crate) fn put_plain(out: &mut Vec<u8>, refusal: Refusal) -> Result<(), AllocError>
    ensures { OnOk result (out.new.items ≡ out.old.items ++ plain_line refusal) }
{
    put_indent(out, Level::First)?;
    put_word(out, plain_text(refusal))?;
    end_line(out)
}
