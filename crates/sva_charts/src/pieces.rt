//! The pieces of a chart's text, appended one after another.

use crate::collecting::Row;
use crate::places::delivered;
use std::alloc::AllocError;
use sva_msg::Kind;
use sva_script::Told;
use sva_script_reading::{put_number, put_reply};
use sva_script_runs::kind_name;

/// Appends a text in which these numbers stand, one for each `_`, and this word for each `$`.
pub(crate) fn fill(
    out: &mut Vec<u8>,
    text: &[u8],
    word: &str,
    numbers: &[usize],
) -> Result<(), AllocError> {
    let mut next: usize = 0;
    for byte in text {
        match *byte {
            b'_' => {
                if let Some(number) = numbers.get(next) {
                    put_number(out, *number as u64)?;
                }
                next = next.saturating_add(1);
            }
            b'$' => out.extend_from_slice(word.as_bytes())?,
            other => out.push(other)?,
        }
    }
    Ok(())
}

/// Appends spaces up to a column of a line that begins at `start`.
pub(crate) fn pad(out: &mut Vec<u8>, start: usize, column: usize) -> Result<(), AllocError> {
    let end = start.saturating_add(column);
    if out.len() < end {
        out.resize(end, b' ')?;
    }
    Ok(())
}

/// Appends `NUMBER KIND`, or `FIRST..LAST KIND` of several that were sent at once.
pub(crate) fn put_message(
    out: &mut Vec<u8>,
    first: u64,
    last: u64,
    kind: &Kind,
) -> Result<(), AllocError> {
    put_number(out, first)?;
    if first < last {
        out.extend_from_slice(b"..")?;
        put_number(out, last)?;
    }
    out.extend_from_slice(b" ")?;
    out.extend_from_slice(kind_name(kind).as_bytes())
}

/// The number of the last message that a step sent, if it sent one.
pub(crate) fn last_sent(told: &Told) -> Option<u64> {
    if told.first < told.next {
        Some(told.next - 1)
    } else {
        None
    }
}

/// Appends `<- NUMBER KIND`, the message that a step delivered, if it delivered one.
pub(crate) fn put_delivered(out: &mut Vec<u8>, row: &Row) -> Result<(), AllocError> {
    match (delivered(&row.taken), &row.taken.delivered) {
        (Some(number), Some(kind)) => {
            out.extend_from_slice(b"<- ")?;
            put_message(out, number, number, kind)
        }
        _ => Ok(()),
    }
}

/// Appends `-> NUMBER KIND`, the messages that a step sent, if it sent one.
pub(crate) fn put_sent(out: &mut Vec<u8>, row: &Row) -> Result<(), AllocError> {
    match (last_sent(&row.taken.told), &row.taken.first_sent) {
        (Some(last), Some(kind)) => {
            out.extend_from_slice(b"-> ")?;
            put_message(out, row.taken.told.first, last, kind)
        }
        _ => Ok(()),
    }
}

/// Appends a step and its answer, `STEP => ANSWER`.
pub(crate) fn put_step(out: &mut Vec<u8>, row: &Row) -> Result<(), AllocError> {
    out.extend_from_slice(row.plain.as_slice())?;
    out.extend_from_slice(b" => ")?;
    put_reply(out, &row.taken.told.reply)
}
