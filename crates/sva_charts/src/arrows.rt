//! The parts of a picture: stripes, rails and their heads, arrows, marks and labels.

use crate::collecting::Row;
use crate::pieces::{fill, last_sent, put_message};
use crate::places::{Flight, Places, delivered};
use crate::plan::{Plan, ROWS_OF_HEADS, row_at};
use std::alloc::AllocError;

/// A message that is in flight over more rows than these has its label a second time, where it ends.
const LONG_FLIGHT: usize = 30;

/// Appends what lies below the arrows: a stripe for every second row up to that of the end, and the rails with their
/// heads, at the top and again behind every 40 rows.
pub(crate) fn put_ground(out: &mut Vec<u8>, plan: &Plan, end: usize) -> Result<(), AllocError> {
    for row in 0..end.saturating_add(1) {
        if row % 2 == 1 {
            fill(
                out,
                b"  <rect class=\"stripe\" x=\"8\" y=\"_\" width=\"_\" height=\"24\"/>\n",
                "",
                &[
                    row_at(row).saturating_sub(12),
                    plan.width.saturating_sub(16),
                ],
            )?;
        }
    }
    let foot = plan.height.saturating_sub(8);
    for block in plan.blocks.blocks.as_slice() {
        fill(
            out,
            b"  <path class=\"rail\" d=\"M_ 46V_M_ 46V_\"/>\n",
            "",
            &[block.host, foot, block.device, foot],
        )?;
    }
    for row in 0..end.saturating_add(1) {
        if row % ROWS_OF_HEADS == 0 {
            put_heads(out, plan, row_at(row).saturating_sub(20))?;
        }
    }
    Ok(())
}

/// Appends the heads of the rails at a height.
fn put_heads(out: &mut Vec<u8>, plan: &Plan, height: usize) -> Result<(), AllocError> {
    for block in plan.blocks.blocks.as_slice() {
        fill(
            out,
            b"  <text class=\"head\" x=\"_\" y=\"_\">host</text><text class=\"head\" x=\"_\" y=\"_\">endpoint _</text>\n",
            "",
            &[
                block.host,
                height,
                block.device,
                height,
                block.endpoint as usize,
            ],
        )?;
    }
    Ok(())
}

/// The word for the direction of a message.
fn direction(flight: &Flight) -> &'static str {
    if flight.message.is_up() { "up" } else { "down" }
}

/// Appends the arrow of a message. One that isn't delivered ends half the way, in the next row.
pub(crate) fn put_arrow(
    out: &mut Vec<u8>,
    plan: &Plan,
    flight: &Option<Flight>,
) -> Result<(), AllocError> {
    let Some(flight) = flight else {
        return Ok(());
    };
    let (Some(from), Some(to)) = (plan.blocks.at(flight.from()), plan.blocks.at(flight.to())) else {
        return Ok(());
    };
    let sent = row_at(flight.sent);
    match flight.delivered {
        Some(row) => fill(
            out,
            b"  <path class=\"$\" d=\"M_ _ _ _\"/>\n",
            direction(flight),
            &[from, sent, to, row_at(row)],
        ),
        None => fill(
            out,
            b"  <path class=\"$ lost\" d=\"M_ _ _ _\"/>\n",
            direction(flight),
            &[
                from,
                sent,
                from / 2 + to / 2,
                row_at(flight.sent.saturating_add(1)),
            ],
        ),
    }
}

/// Appends the mark of a step at its rail: a dot, or a cross of one that is refused.
pub(crate) fn put_mark(
    out: &mut Vec<u8>,
    plan: &Plan,
    places: &Places,
    at: usize,
    row: &Row,
) -> Result<(), AllocError> {
    let Some(Some(rail)) = places.rails.as_slice().get(at) else {
        return Ok(());
    };
    let Some(x) = plan.blocks.at(*rail) else {
        return Ok(());
    };
    let y = row_at(at);
    if row.taken.told.reply.is_ok() {
        let dot = b"  <circle class=\"dot\" cx=\"_\" cy=\"_\" r=\"3.5\"/>\n";
        return fill(out, dot, "", &[x, y]);
    }
    let (left, right) = (x.saturating_sub(4), x.saturating_add(4));
    let (high, low) = (y.saturating_sub(4), y.saturating_add(4));
    fill(
        out,
        b"  <path class=\"cross\" d=\"M_ _ _ _M_ _ _ _\"/>\n",
        "",
        &[left, high, right, low, left, low, right, high],
    )
}

/// Appends the labels of a row: of the messages that it sends, and of one that it delivers after a long flight.
pub(crate) fn put_labels(
    out: &mut Vec<u8>,
    plan: &Plan,
    places: &Places,
    at: usize,
    row: &Row,
) -> Result<(), AllocError> {
    let arrival = delivered(&row.taken);
    if let Some(number) = arrival {
        if let Some(flight) = places.flight(number) {
            put_late_label(out, plan, &flight, at, number)?;
        }
    }
    let first = row.taken.told.first;
    match (last_sent(&row.taken.told), places.flight(first)) {
        (Some(last), Some(flight)) => {
            put_label(out, plan, &flight, at, arrival.is_some())?;
            put_message(out, first, last, &flight.message.kind)?;
            out.extend_from_slice(b"</text>\n")
        }
        _ => Ok(()),
    }
}

/// Appends the front of the label at the beginning of an arrow: above it; or, where another arrow ends, between the two.
fn put_label(
    out: &mut Vec<u8>,
    plan: &Plan,
    flight: &Flight,
    at: usize,
    arrives: bool,
) -> Result<(), AllocError> {
    let from = plan.blocks.at(flight.from()).unwrap_or(0);
    let (away, height) = if arrives {
        (84, row_at(at).saturating_add(4))
    } else {
        (12, row_at(at).saturating_sub(4))
    };
    let x = if flight.message.is_up() {
        from.saturating_sub(away)
    } else {
        from.saturating_add(away)
    };
    fill(
        out,
        b"  <text class=\"label of-$\" x=\"_\" y=\"_\">",
        direction(flight),
        &[x, height],
    )
}

/// Appends the label at the end of an arrow, where its message was long in flight.
fn put_late_label(
    out: &mut Vec<u8>,
    plan: &Plan,
    flight: &Flight,
    at: usize,
    number: u64,
) -> Result<(), AllocError> {
    if at.saturating_sub(flight.sent) <= LONG_FLIGHT {
        return Ok(());
    }
    let to = plan.blocks.at(flight.to()).unwrap_or(0);
    let x = if flight.message.is_up() {
        to.saturating_add(24)
    } else {
        to.saturating_sub(24)
    };
    fill(
        out,
        b"  <text class=\"label late of-$\" x=\"_\" y=\"_\">",
        direction(flight),
        &[x, row_at(at).saturating_add(4)],
    )?;
    put_message(out, number, number, &flight.message.kind)?;
    out.extend_from_slice(b"</text>\n")
}
