//! The pieces of a line, appended one after another.

ghost use Rattle.std.specs.Prelude.{◌≡◌, ◌++◌, ◌-◌, OnOk, false, map, replicate};
ghost use Rattle.sva_lines.specs.Pieces.{ask_text, asks_text, extent_text, field, flags_text, head};
ghost use Rattle.sva_lines.specs.Pieces.{line_end, listed, padded, range_text, request_text, word_if};
ghost use Rattle.sva_msg.specs.Seen.{extent_seen};
ghost use Rattle.sva_prq.specs.Job.{ask_seen};

use itoa::Buffer;
use std::alloc::AllocError;
use sva_msg::{Extent, Range};
use sva_snapshot::{Ask, PageRequest};

/// How wide the head column is, without the space that follows.
const HEAD: usize = 11;

/// Appends a word and a number.
pub fn put_field(out: &mut Vec<u8>, word: &str, number: u64) -> Result<(), AllocError>
    ensures { OnOk result (out.new.items ≡ out.old.items ++ field word.now number) }
{
    out.extend_from_slice(word.as_bytes())?;
    out.extend_from_slice(Buffer::new().format(number).as_bytes())
}

/// Fills a head column up, of which so many bytes are written.
fn pad(out: &mut Vec<u8>, written: usize) -> Result<(), AllocError>
    ensures { OnOk result (out.new.items ≡ out.old.items ++ replicate (11 - written) 32) }
{
    let missing = HEAD.saturating_sub(written);
    out.resize(out.len() + missing, b' ')
}

/// Appends a head column.
pub fn put_head(out: &mut Vec<u8>, word: &str, number: u64) -> Result<(), AllocError>
    ensures { OnOk result (out.new.items ≡ out.old.items ++ head word.now number) }
{
    let start = out.len();
    put_field(out, word, number)?;
    pad(out, out.len() - start)
}

/// Appends a word.
pub fn put_word(out: &mut Vec<u8>, word: &str) -> Result<(), AllocError>
    ensures { OnOk result (out.new.items ≡ out.old.items ++ word.now) }
{
    out.extend_from_slice(word.as_bytes())
}

/// Appends a word where something holds.
pub fn put_if(out: &mut Vec<u8>, holds: bool, word: &str) -> Result<(), AllocError>
    ensures { OnOk result (out.new.items ≡ out.old.items ++ word_if holds word.now) }
{
    if holds { put_word(out, word) } else { Ok(()) }
}

/// Ends a line.
pub fn end_line(out: &mut Vec<u8>) -> Result<(), AllocError>
    ensures { OnOk result (out.new.items ≡ out.old.items ++ line_end) }
{
    match out.push(b'\n') {
        Ok(()) => Ok(()),
        Err(_) => Err(AllocError),
    }
}

/// Appends whether something may be read, and written.
pub fn put_flags(out: &mut Vec<u8>, read: bool, write: bool) -> Result<(), AllocError>
    ensures { OnOk result (out.new.items ≡ out.old.items ++ flags_text read write) }
{
    put_word(
        out,
        match (read, write) {
            (true, true) => " rw",
            (true, false) => " r",
            (false, true) => " w",
            (false, false) => " -",
        },
    )
}

/// Appends a head column that has no number.
pub fn put_plain_head(out: &mut Vec<u8>, word: &str) -> Result<(), AllocError>
    ensures { OnOk result (out.new.items ≡ out.old.items ++ padded word.now) }
{
    put_word(out, word)?;
    pad(out, word.len())
}

/// Appends the pages of a range.
pub fn put_range(out: &mut Vec<u8>, range: Range) -> Result<(), AllocError>
    ensures { OnOk result (out.new.items ≡ out.old.items ++ range_text range) }
{
    if range.order() == 0 {
        return put_field(out, " page ", range.base());
    }
    put_field(out, " pages ", range.base())?;
    put_field(out, "..", range.base() + range.pages().saturating_sub(1))
}

/// Appends the pages of an invalidation.
pub fn put_extent(out: &mut Vec<u8>, extent: Extent) -> Result<(), AllocError>
    ensures { OnOk result (out.new.items ≡ out.old.items ++ extent_text (extent_seen extent)) }
{
    match extent {
        Extent::Pages(range) => put_range(out, range),
        Extent::All => put_word(out, " all pages"),
    }
}

/// Appends what one page request asks for.
fn put_ask(out: &mut Vec<u8>, ask: &Ask) -> Result<(), AllocError>
    ensures { OnOk result (out.new.items ≡ out.old.items ++ ask_text (ask_seen ask.now)) }
{
    put_field(out, " ", ask.page)?;
    put_flags(out, ask.read, ask.write)
}

/// Appends what the page requests of a group ask for.
pub fn put_asks(out: &mut Vec<u8>, asks: &[Ask]) -> Result<(), AllocError>
    ensures { OnOk result (out.new.items ≡ out.old.items ++ asks_text (map ask_seen asks.now)) }
{
    put_word(out, ":")?;
    put_each_ask(out, asks)
}

/// Appends what each of some page requests asks for, with commas between them.
fn put_each_ask(out: &mut Vec<u8>, asks: &[Ask]) -> Result<(), AllocError>
    ensures { OnOk result (out.new.items ≡ out.old.items ++ listed false (map ask_text (map ask_seen asks.now))) }
{
    let mut is_begun = false;
    for ask in asks {
        put_if(out, is_begun, ",")?;
        put_ask(out, ask)?;
        is_begun = true;
    }
    Ok(())
}

/// Appends a page request.
pub fn put_request(out: &mut Vec<u8>, request: &PageRequest) -> Result<(), AllocError>
    ensures { OnOk result (out.new.items ≡ out.old.items
        ++ request_text request.now.pasid request.now.index request.now.page request.now.read request.now.write
        request.now.last) }
{
    put_field(out, " pasid ", u64::from(request.pasid))?;
    put_field(out, " group ", u64::from(request.index))?;
    put_field(out, " page ", request.page)?;
    put_flags(out, request.read, request.write)?;
    put_word(out, if request.last { " last" } else { " more" })
}
