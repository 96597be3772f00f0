//! The pieces of a line that is written.

ghost use Rattle.std.specs.Prelude.{◌≡◌, ◌++◌, OnOk, codes, decimal};
ghost use Rattle.sva_driver_words.specs.Pieces as pieces;

use std::alloc::AllocError;
use sva_open::Kind;
use sva_race_texts::put_number;

/// Appends a blank and a number.
pub fn put_one(out: &mut Vec<u8>, number: u64) -> Result<(), AllocError>
    ensures { OnOk result (out.new.items ≡ out.old.items ++ pieces.and_number number) }
{
    out.extend_from_slice(b" ")?;
    put_number(out, number)
}

/// Appends a word with an endpoint.
pub fn put_endpoint(out: &mut Vec<u8>, word: &[u8], endpoint: usize) -> Result<(), AllocError>
    ensures { OnOk result (out.new.items ≡ out.old.items ++ pieces.with_endpoint word.now endpoint) }
{
    out.extend_from_slice(word)?;
    put_one(out, endpoint as u64)
}

/// Appends a word with an endpoint and a PASID.
pub fn put_pasid(
    out: &mut Vec<u8>,
    word: &[u8],
    endpoint: usize,
    pasid: usize,
) -> Result<(), AllocError>
    ensures { OnOk result (out.new.items ≡ out.old.items ++ pieces.with_pasid word.now endpoint pasid) }
{
    put_endpoint(out, word, endpoint)?;
    put_one(out, pasid as u64)
}

/// Appends a word with an endpoint, a PASID and a page.
pub fn put_page(
    out: &mut Vec<u8>,
    word: &[u8],
    endpoint: usize,
    pasid: usize,
    page: u64,
) -> Result<(), AllocError>
    ensures { OnOk result (out.new.items ≡ out.old.items ++ pieces.with_page word.now endpoint pasid page) }
{
    put_pasid(out, word, endpoint, pasid)?;
    put_one(out, page)
}

/// Appends how many are older, where some are.
pub fn put_older(out: &mut Vec<u8>, older: usize) -> Result<(), AllocError>
    ensures { OnOk result (out.new.items ≡ out.old.items ++ pieces.and_older older) }
{
    if older == 0 {
        return Ok(());
    }
    put_one(out, older as u64)
}

/// The word of what is asked for, behind a blank.
pub fn access_text(write: bool) -> &'static str
    ensures { result.now ≡ pieces.access_text write }
{
    if write { " w" } else { " r" }
}

/// The word of whether more follow, behind a blank.
pub fn last_text(last: bool) -> &'static str
    ensures { result.now ≡ pieces.last_text last }
{
    if last { " last" } else { " more" }
}

/// The word of a code, behind a blank.
pub fn code_text(fails: bool) -> &'static str
    ensures { result.now ≡ pieces.code_text fails }
{
    if fails { " failure" } else { " success" }
}

/// The word of a kind.
pub fn kind_text(kind: Kind) -> &'static str
    ensures { result.now ≡ pieces.kind_text kind }
{
    match kind {
        Kind::Start => "start",
        Kind::Stop => "stop",
        Kind::Barrier => "barrier",
        Kind::Reset => "reset",
        Kind::Completion => "completion",
        Kind::Invalidate => "invalidate",
        Kind::Response => "response",
        Kind::Request => "request",
        Kind::Invalidated => "invalidated",
        Kind::PageRequest => "page-request",
        Kind::Marker => "marker",
        Kind::Status => "status",
        Kind::Passed => "passed",
        Kind::ResetDone => "reset-done",
    }
}

/// Appends how many places page request queues have, where that is said, with what stands before it and behind it.
pub fn put_places(
    out: &mut Vec<u8>,
    places: Option<usize>,
    before: &[u8],
    behind: &[u8],
) -> Result<(), AllocError>
    ensures { OnOk result (out.new.items ≡ out.old.items ++ pieces.places_text before.now behind.now places) }
{
    let Some(places) = places else {
        return Ok(());
    };
    out.extend_from_slice(before)?;
    put_endpoint(out, b"places", places)?;
    out.extend_from_slice(behind)
}

/// Appends a count, with the word for one or for more.
pub fn put_counted(out: &mut Vec<u8>, count: u64, one: &str, more: &str) -> Result<(), AllocError>
    ensures { OnOk result (out.new.items ≡ out.old.items ++ pieces.counted_text count one.now more.now) }
{
    put_number(out, count)?;
    out.extend_from_slice(b" ")?;
    out.extend_from_slice(if count == 1 {
        one.as_bytes()
    } else {
        more.as_bytes()
    })
}
