//! The kinds of messages, with their fields.

ghost use Rattle.std.specs.Prelude.{◌≡◌, ◌++◌, ◌%◌, OnOk};
ghost use Rattle.std.specs.Char.{digit_char};
ghost use Rattle.sva_lines.specs.Kinds.{code_text, hex_text, message_text, scope_text};
ghost use Rattle.sva_lines.specs.Pieces.{field};
ghost use Rattle.sva_model.specs.Message.Message.{CompletionMessage, InvalidateMessage, ResponseMessage};
ghost use Rattle.sva_model.specs.Message.Message.{RequestMessage, InvalidatedMessage};
ghost use Rattle.sva_parts_by_labels.specs.Flights.{code_seen, kind_seen, scope_seen};

use crate::pieces::{put_extent, put_field, put_flags, put_request, put_word};
use std::alloc::AllocError;
use sva_msg::{Code, Extent, Scope};
use sva_snapshot::Kind;

/// The digit of a number's last four bits.
fn digit(number: u32) -> u8
    ensures { result ≡ digit_char (number % 16) }
{
    let low = (number % 16) as u8;
    if low < 10 {
        b'0' + low
    } else {
        b'a' + (low - 10)
    }
}

/// Appends a vector: eight hexadecimal digits.
pub fn put_vector(out: &mut Vec<u8>, vector: u32) -> Result<(), AllocError>
    ensures { OnOk result (out.new.items ≡ out.old.items ++ hex_text 8 vector) }
{
    let digits = [
        digit(vector >> 28),
        digit(vector >> 24),
        digit(vector >> 20),
        digit(vector >> 16),
        digit(vector >> 12),
        digit(vector >> 8),
        digit(vector >> 4),
        digit(vector),
    ];
    out.extend_from_slice(&digits)
}

/// Appends the pages that a scope names.
fn put_scope(out: &mut Vec<u8>, scope: Scope) -> Result<(), AllocError>
    ensures { OnOk result (out.new.items ≡ out.old.items ++ scope_text (scope_seen scope)) }
{
    put_extent(out, Extent::of(scope))
}

/// Appends a response code.
fn put_code(out: &mut Vec<u8>, code: Code) -> Result<(), AllocError>
    ensures { OnOk result (out.new.items ≡ out.old.items ++ code_text (code_seen code)) }
{
    put_word(
        out,
        match code {
            Code::Success => " success",
            Code::InvalidRequest => " invalid",
            Code::ResponseFailure => " failure",
        },
    )
}

/// Appends two words, each with a number.
fn put_two(
    out: &mut Vec<u8>,
    first: &str,
    number: u64,
    second: &str,
    next: u64,
) -> Result<(), AllocError>
    ensures { OnOk result (out.new.items ≡ out.old.items ++ (field first.now number ++ field second.now next)) }
{
    put_field(out, first, number)?;
    put_field(out, second, next)
}

/// Appends a translation completion.
fn put_completion(
    out: &mut Vec<u8>,
    tag: u8,
    frame: u32,
    read: bool,
    write: bool,
) -> Result<(), AllocError>
    ensures { OnOk result (out.new.items ≡ out.old.items ++ message_text (CompletionMessage tag frame read write)) }
{
    put_two(
        out,
        " completion tag ",
        u64::from(tag),
        " frame ",
        u64::from(frame),
    )?;
    put_flags(out, read, write)
}

/// Appends an invalidate request.
fn put_invalidate(out: &mut Vec<u8>, itag: u64, pasid: u64, scope: Scope) -> Result<(), AllocError>
    ensures { OnOk result (out.new.items ≡ out.old.items
        ++ message_text (InvalidateMessage itag pasid (scope_seen scope))) }
{
    put_two(out, " invalidate itag ", itag, " pasid ", pasid)?;
    put_scope(out, scope)
}

/// Appends a response to a group of page requests.
fn put_response(out: &mut Vec<u8>, pasid: u32, index: u8, code: Code) -> Result<(), AllocError>
    ensures { OnOk result (out.new.items ≡ out.old.items
        ++ message_text (ResponseMessage pasid index (code_seen code))) }
{
    put_two(
        out,
        " response pasid ",
        u64::from(pasid),
        " group ",
        u64::from(index),
    )?;
    put_code(out, code)
}

/// Appends a translation request.
fn put_translation_request(
    out: &mut Vec<u8>,
    tag: u64,
    pasid: u64,
    page: u64,
) -> Result<(), AllocError>
    ensures { OnOk result (out.new.items ≡ out.old.items ++ message_text (RequestMessage tag pasid page)) }
{
    put_two(out, " request tag ", tag, " pasid ", pasid)?;
    put_field(out, " page ", page)
}

/// Appends an invalidate completion, with its Completion Count field.
fn put_invalidated(out: &mut Vec<u8>, vector: u32, count: u8) -> Result<(), AllocError>
    ensures { OnOk result (out.new.items ≡ out.old.items ++ message_text (InvalidatedMessage vector count)) }
{
    put_word(out, " invalidated ")?;
    put_vector(out, vector)?;
    put_field(out, " count ", u64::from(count))
}

/// Appends a message: the word for its kind, and its fields.
pub fn put_kind(out: &mut Vec<u8>, kind: &Kind) -> Result<(), AllocError>
    ensures { OnOk result (out.new.items ≡ out.old.items ++ message_text (kind_seen kind.now)) }
{
    match kind {
        Kind::Start { pasid } => put_field(out, " start pasid ", u64::from(*pasid)),
        Kind::Stop { pasid } => put_field(out, " stop pasid ", u64::from(*pasid)),
        Kind::Reset => put_word(out, " reset"),
        Kind::Completion {
            tag,
            frame,
            read,
            write,
        } => put_completion(out, *tag, *frame, *read, *write),
        Kind::Invalidate { itag, pasid, scope } => {
            put_invalidate(out, u64::from(*itag), u64::from(*pasid), *scope)
        }
        Kind::Response { pasid, index, code } => put_response(out, *pasid, *index, *code),
        Kind::Request { tag, pasid, page } => {
            put_translation_request(out, u64::from(*tag), u64::from(*pasid), *page)
        }
        Kind::Invalidated { vector, count } => put_invalidated(out, *vector, count.get()),
        Kind::PageRequest(request) => {
            put_word(out, " page-request")?;
            put_request(out, request)
        }
        Kind::Marker { pasid } => put_field(out, " marker pasid ", u64::from(*pasid)),
        Kind::ResetDone => put_word(out, " reset-done"),
    }
}
