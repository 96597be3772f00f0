//! A chart as text: a line for each step, or two where it delivers a message and sends one.

use crate::blocks::{Blocks, Spacing};
use crate::collecting::{Row, Rows};
use crate::pieces::{last_sent, pad, put_delivered, put_sent, put_step};
use crate::places::{Places, delivered};
use crate::signs::Signs;
use std::alloc::{AllocError, Global};
use sva_reports::put_counts;
use sva_script_reading::put_number;

/// How wide the column of the line's number is.
const NUMBER_WIDTH: usize = 5;

/// How many columns lie between an endpoint's rails and between two blocks: heads never touch. A lane has three.
const SPACING: Spacing = Spacing {
    base: 3,
    lane: 3,
    gap: 12,
};

/// Appends a run as lines.
pub(crate) fn put_lines(
    alloc: Global,
    run: &Rows,
    places: &Places,
    out: &mut Vec<u8>,
) -> Result<(), AllocError> {
    let rows = run.rows.as_slice();
    let blocks = Blocks::of(alloc, places, 0, SPACING)?;
    put_heads(out, &blocks)?;
    let messages = messages_width(alloc, rows)?;
    let mut signs = Signs::new(alloc, places, blocks);
    for (at, row) in rows.iter().enumerate() {
        put_row(out, &mut signs, messages, at, row)?;
    }
    signs.rule()?;
    put_front(out, &signs, None)?;
    let start = out.len();
    end_messages(out, start, messages)?;
    out.extend_from_slice(b"end => ")?;
    put_counts(out, &run.counts)?;
    out.extend_from_slice(b"\n")
}

/// Appends the line of the heads.
fn put_heads(out: &mut Vec<u8>, blocks: &Blocks) -> Result<(), AllocError> {
    let start = out.len();
    out.extend_from_slice(b"line")?;
    for block in blocks.blocks.as_slice() {
        pad(out, start, block.host.saturating_add(NUMBER_WIDTH))?;
        out.extend_from_slice(b"host")?;
        pad(out, start, block.device.saturating_add(NUMBER_WIDTH))?;
        out.extend_from_slice(b"endpoint ")?;
        put_number(out, block.endpoint)?;
    }
    out.extend_from_slice(b"\n")
}

/// How wide the column of messages is: as the longest of them.
fn messages_width(alloc: Global, rows: &[Row]) -> Result<usize, AllocError> {
    let mut text = Vec::new(alloc);
    let mut width: usize = 0;
    for row in rows {
        text.clear();
        put_delivered(&mut text, row)?;
        width = width.max(text.len());
        text.clear();
        put_sent(&mut text, row)?;
        width = width.max(text.len());
    }
    Ok(width)
}

/// Appends the line of a step, or both.
fn put_row(
    out: &mut Vec<u8>,
    signs: &mut Signs<'_>,
    messages: usize,
    at: usize,
    row: &Row,
) -> Result<(), AllocError> {
    let delivers = delivered(&row.taken).is_some();
    let start = put_arrows(out, signs, delivers, at, row, Some(row.line))?;
    end_messages(out, start, messages)?;
    put_step(out, row)?;
    out.extend_from_slice(b"\n")?;
    if delivers && last_sent(&row.taken.told).is_some() {
        put_arrows(out, signs, false, at, row, None)?;
        out.extend_from_slice(b"\n")?;
    }
    Ok(())
}

/// Appends a line up to its message: the one that its step delivers, or what it sends. Says where that column begins.
fn put_arrows(
    out: &mut Vec<u8>,
    signs: &mut Signs<'_>,
    delivers: bool,
    at: usize,
    row: &Row,
    number: Option<u64>,
) -> Result<usize, AllocError> {
    signs.rule()?;
    if delivers {
        signs.draw_delivery(&row.taken);
    } else {
        signs.draw_sending(&row.taken)?;
    }
    signs.draw_mark(at, &row.taken);
    put_front(out, signs, number)?;
    let start = out.len();
    if delivers {
        put_delivered(out, row)?;
    } else {
        put_sent(out, row)?;
    }
    Ok(start)
}

/// Appends the front of a line: its number, where it has one, and its signs.
fn put_front(out: &mut Vec<u8>, signs: &Signs<'_>, number: Option<u64>) -> Result<(), AllocError> {
    let start = out.len();
    if let Some(number) = number {
        put_number(out, number)?;
    }
    pad(out, start, NUMBER_WIDTH)?;
    if !signs.signs().is_empty() {
        out.extend_from_slice(signs.signs())?;
        out.extend_from_slice(b"  ")?;
    }
    Ok(())
}

/// Fills the column of messages up, which begins at `start`; where there are no messages at all, there is none.
fn end_messages(out: &mut Vec<u8>, start: usize, messages: usize) -> Result<(), AllocError> {
    if messages > 0 {
        pad(out, start, messages.saturating_add(2))
    } else {
        Ok(())
    }
}
