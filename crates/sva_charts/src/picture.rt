//! A chart as a picture: an SVG file, with a row for each step, and a slanted arrow for each message.

use crate::arrows::{put_arrow, put_ground, put_labels, put_mark};
use crate::collecting::Rows;
use crate::pieces::fill;
use crate::places::Places;
use crate::plan::{LONGEST, Plan, STEPS, row_at};
use crate::style::whole_front;
use std::alloc::{AllocError, Global};
use sva_reports::put_counts;
use sva_script_reading::put_reply;

/// Appends the picture of a run. Its texts are words and numbers of the format: no sign of them means something in XML.
pub(crate) fn put_picture(
    alloc: Global,
    run: &Rows,
    places: &Places,
    out: &mut Vec<u8>,
) -> Result<(), AllocError> {
    let rows = run.rows.as_slice();
    let plan = Plan::of(alloc, run, places)?;
    let size = (plan.width, plan.height);
    let messages = places.flights().len();
    let numbers = [size.0, size.1, size.0, size.1, rows.len(), messages];
    fill(out, whole_front().as_bytes(), "", &numbers)?;
    put_ground(out, &plan, rows.len())?;
    for flight in places.flights() {
        put_arrow(out, &plan, flight)?;
    }
    for (at, row) in rows.iter().enumerate() {
        put_mark(out, &plan, places, at, row)?;
    }
    for (at, row) in rows.iter().enumerate() {
        put_labels(out, &plan, places, at, row)?;
    }
    put_texts(alloc, out, &plan, run)?;
    out.extend_from_slice(b"</svg>\n")
}

/// Appends the number of each line, its step and its answer.
fn put_texts(alloc: Global, out: &mut Vec<u8>, plan: &Plan, run: &Rows) -> Result<(), AllocError> {
    let mut answer = Vec::new(alloc);
    for (at, row) in run.rows.as_slice().iter().enumerate() {
        let place = [row_at(at).saturating_add(4), row.line as usize];
        fill(
            out,
            b"  <text class=\"faint line\" x=\"40\" y=\"_\">_</text>\n",
            "",
            &place,
        )?;
        put_text(out, "step", STEPS, at, row.plain.as_slice())?;
        answer.clear();
        put_reply(&mut answer, &row.taken.told.reply)?;
        let class = if row.taken.told.reply.is_ok() {
            "answer"
        } else {
            "refused"
        };
        put_text(out, class, plan.answers, at, answer.as_slice())?;
    }
    let end = run.rows.len();
    put_text(out, "faint", STEPS, end, b"end")?;
    answer.clear();
    put_counts(&mut answer, &run.counts)?;
    put_text(out, "faint", plan.answers, end, answer.as_slice())
}

/// Appends a text of a row, which begins at `x`.
fn put_text(
    out: &mut Vec<u8>,
    class: &str,
    x: usize,
    at: usize,
    text: &[u8],
) -> Result<(), AllocError> {
    let place = [x, row_at(at).saturating_add(4)];
    fill(out, b"  <text class=\"$\" x=\"_\" y=\"_\">", class, &place)?;
    put_cut(out, text)?;
    out.extend_from_slice(b"</text>\n")
}

/// Appends a text, or of a long one its front and two dots.
fn put_cut(out: &mut Vec<u8>, text: &[u8]) -> Result<(), AllocError> {
    match text.get(..LONGEST) {
        Some(front) if text.len() > LONGEST => {
            out.extend_from_slice(front)?;
            out.extend_from_slice(b"..")
        }
        _ => out.extend_from_slice(text),
    }
}
