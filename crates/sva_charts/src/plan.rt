//! Where things stand in a picture, in units of its user's space: a text is 13 high.

use crate::blocks::{Blocks, Spacing};
use crate::collecting::Rows;
use crate::places::Places;
use std::alloc::{AllocError, Global};
use sva_reports::put_counts;
use sva_script_reading::put_reply;

/// How high a row is.
const ROW: usize = 24;

/// Where the middle of the first row is.
const TOP: usize = 60;

/// Behind so many rows the heads of the rails stand again.
pub(crate) const ROWS_OF_HEADS: usize = 40;

/// How wide a sign of a text is, rounded up.
const SIGN: usize = 8;

/// Where the steps begin.
pub(crate) const STEPS: usize = 56;

/// How far the texts are from the rails beside them, so that a head has room.
const MARGIN: usize = 32;

/// The longest text of a step or an answer that is shown whole.
pub(crate) const LONGEST: usize = 40;

/// How far apart the rails of an endpoint and two blocks are.
const SPACING: Spacing = Spacing {
    base: 260,
    lane: 0,
    gap: 96,
};

/// Where things stand in a picture.
#[derive(Drop)]
pub(crate) struct Plan {
    pub(crate) blocks: Blocks,
    /// Where the answers begin.
    pub(crate) answers: usize,
    pub(crate) width: usize,
    pub(crate) height: usize,
}

impl Plan {
    /// The plan of a run.
    pub(crate) fn of(alloc: Global, run: &Rows, places: &Places) -> Result<Self, AllocError> {
        let (steps, answers) = widths(alloc, run)?;
        let left = STEPS
            .saturating_add(steps.saturating_mul(SIGN))
            .saturating_add(MARGIN);
        let blocks = Blocks::of(alloc, places, left, SPACING)?;
        let answers_at = match blocks.end() {
            Some(end) => end.saturating_add(MARGIN),
            None => left,
        };
        Ok(Plan {
            blocks,
            answers: answers_at,
            width: answers_at
                .saturating_add(answers.saturating_mul(SIGN))
                .saturating_add(MARGIN / 2),
            height: row_at(run.rows.len()).saturating_add(ROW),
        })
    }
}

/// Where the middle of a row is. Above each row of heads but the first there is room for them.
pub(crate) fn row_at(row: usize) -> usize {
    let above = row.saturating_add(row / ROWS_OF_HEADS);
    above.saturating_mul(ROW).saturating_add(TOP)
}

/// How many signs the longest step and the longest answer have, as they are shown.
fn widths(alloc: Global, run: &Rows) -> Result<(usize, usize), AllocError> {
    let mut text = Vec::new(alloc);
    put_counts(&mut text, &run.counts)?;
    let mut steps: usize = 3;
    let mut answers = text.len();
    for row in run.rows.as_slice() {
        steps = steps.max(row.plain.len().min(LONGEST));
        text.clear();
        put_reply(&mut text, &row.taken.told.reply)?;
        answers = answers.max(text.len().min(LONGEST));
    }
    Ok((steps, answers))
}
