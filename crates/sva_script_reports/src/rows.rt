//! The rows of a trace: the number of the line, the step, its answer, and the messages that it delivered and sent.

ghost use Rattle.std.specs.Prelude.{◌≡◌, ◌++◌, ◌+◌, ◌<◌, ◌≤◌, [], OnOk, Some, decimal, option_map, ◌∷◌};
ghost use Rattle.sva_parts_by_labels.specs.Flights.{kind_seen};
ghost use Rattle.sva_reports.specs.Report.{counts_text};
ghost use Rattle.sva_script_reports.specs.Rows.{answer_column, column, column_end, delivered_text, end_text, kind_text, messages_text, row_seen, row_text};
ghost use Rattle.sva_script_reports.specs.Rows.{sends, sent_text, step_text, whys_if};

use std::alloc::{AllocError, Global};
use sva_frames::Counts;
use sva_msg::Kind;
use sva_reports::put_counts;
use sva_script::Told;
use sva_script_reading::{put_number, put_reply};
use sva_script_runs::{Run, Taken, kind_name};
use sva_snapshot::{Explains, explain};
use sva_step::Step;

/// How wide the column of the line's number is.
const NUMBER_WIDTH: usize = 5;

/// How wide the column of the step is.
const STEP_WIDTH: usize = 27;

/// How wide the column of the answer is.
const ANSWER_WIDTH: usize = 23;

/// How columns are ended.
#[derive(Clone, Copy, PartialEq, Eq)]
pub enum Columns {
    /// By spaces, so that they stand below one another.
    Padded,
    /// By a tab each.
    Tabbed,
}

/// How the rows of a trace are written.
#[derive(Clone, Copy, PartialEq, Eq)]
pub struct Style {
    /// How columns are ended.
    pub columns: Columns,
    /// Is it said behind the row of a step that was refused, blocked or withheld what holds it back?
    pub whys: bool,
}

/// Appends a byte.
fn put_byte(out: &mut Vec<u8>, byte: u8) -> Result<(), AllocError>
    ensures { OnOk result (out.new.items ≡ out.old.items ++ byte ∷ []) }
{
    match out.push(byte) {
        Ok(()) => Ok(()),
        Err(_) => Err(AllocError),
    }
}

/// Ends a column that is so wide, of which so many bytes were written.
fn end_column(
    out: &mut Vec<u8>,
    columns: Columns,
    width: usize,
    written: usize,
) -> Result<(), AllocError>
    requires { width ≤ 64 }
    ensures { OnOk result (out.new.items ≡ out.old.items ++ column_end columns width written) }
{
    match columns {
        Columns::Tabbed => put_byte(out, b'\t'),
        Columns::Padded => {
            let missing = width.saturating_sub(written).saturating_sub(1);
            out.resize(out.len() + missing, b' ')?;
            put_byte(out, b' ')
        }
    }
}

/// Appends a column.
fn put_column(
    out: &mut Vec<u8>,
    columns: Columns,
    width: usize,
    text: &[u8],
) -> Result<(), AllocError>
    requires { width ≤ 64 }
    ensures { OnOk result (out.new.items ≡ out.old.items ++ column columns width text.now) }
{
    out.extend_from_slice(text)?;
    end_column(out, columns, width, text.len())
}

/// Appends the row of a step behind which the run is, and, where that is wanted, what holds the step back.
pub(crate) fn put_step<E: Explains>(
    alloc: Global,
    out: &mut Vec<u8>,
    style: Style,
    line: u64,
    plain: &[u8],
    run: &Run,
    taken: &Taken,
) -> Result<(), AllocError>
    ensures { OnOk result (out.new.items ≡ out.old.items
        ++ step_text E.explained style line plain.now run.now.seen (row_seen taken.now)) }
{
    put_row(out, style.columns, line, plain, taken)?;
    put_whys_if::<E>(alloc, out, style.whys, run, taken)
}

/// Appends what holds a step back behind which the run is, where that is wanted.
fn put_whys_if<E: Explains>(
    alloc: Global,
    out: &mut Vec<u8>,
    wanted: bool,
    run: &Run,
    taken: &Taken,
) -> Result<(), AllocError>
    ensures { OnOk result (out.new.items ≡ out.old.items ++ whys_if E.explained wanted run.now.seen (row_seen taken.now)) }
{
    if wanted {
        explain::<E>(out, alloc, run.world(), &taken.step, &taken.told.reply)
    } else {
        Ok(())
    }
}

/// Appends the row of a step.
fn put_row(
    out: &mut Vec<u8>,
    columns: Columns,
    line: u64,
    plain: &[u8],
    taken: &Taken,
) -> Result<(), AllocError>
    ensures { OnOk result (out.new.items ≡ out.old.items ++ row_text columns line plain.now (row_seen taken.now)) }
{
    put_line_number(out, columns, line)?;
    put_column(out, columns, STEP_WIDTH, plain)?;
    put_answer(out, columns, taken)?;
    put_messages(out, taken)?;
    put_byte(out, b'\n')
}

/// Appends the column of the line's number.
fn put_line_number(out: &mut Vec<u8>, columns: Columns, line: u64) -> Result<(), AllocError>
    ensures { OnOk result (out.new.items ≡ out.old.items ++ column columns 5 (decimal line)) }
{
    let start = out.len();
    put_number(out, line)?;
    end_column(out, columns, NUMBER_WIDTH, out.len() - start)
}

/// Appends the answer, padded where something follows.
fn put_answer(out: &mut Vec<u8>, columns: Columns, taken: &Taken) -> Result<(), AllocError>
    ensures { OnOk result (out.new.items ≡ out.old.items ++ answer_column columns (row_seen taken.now)) }
{
    let start = out.len();
    put_reply(out, &taken.told.reply)?;
    if taken.delivered.is_some() || sends(&taken.told) {
        end_column(out, columns, ANSWER_WIDTH, out.len() - start)
    } else {
        Ok(())
    }
}

/// Did the step send a message?
fn sends(told: &Told) -> bool
    ensures { result ≡ sends told.now }
{
    told.first < told.next
}

/// Appends what a step delivered, and what it sent.
fn put_messages(out: &mut Vec<u8>, taken: &Taken) -> Result<(), AllocError>
    ensures { OnOk result (out.new.items ≡ out.old.items ++ messages_text (row_seen taken.now)) }
{
    let behind: &[u8] = if sends(&taken.told) { b", " } else { b"" };
    put_delivered(out, &taken.step, &taken.delivered, behind)?;
    if sends(&taken.told) {
        put_sent(out, &taken.told, &taken.first_sent)
    } else {
        Ok(())
    }
}

/// Appends what a step delivered, `<- NUMBER KIND`, and what stands behind.
fn put_delivered(
    out: &mut Vec<u8>,
    step: &Step,
    delivered: &Option<Kind>,
    behind: &[u8],
) -> Result<(), AllocError>
    ensures { OnOk result (out.new.items ≡ out.old.items ++ delivered_text step.now (option_map kind_seen delivered.now) behind.now) }
{
    match (step, delivered) {
        (Step::Deliver { message }, Some(kind)) => {
            out.extend_from_slice(b"<- ")?;
            put_number(out, *message)?;
            put_kind(out, kind)?;
            out.extend_from_slice(behind)
        }
        _ => Ok(()),
    }
}

/// Appends a space, and the word of a kind of message.
fn put_kind(out: &mut Vec<u8>, kind: &Kind) -> Result<(), AllocError>
    ensures { OnOk result (out.new.items ≡ out.old.items ++ kind_text (Some (kind_seen kind.now))) }
{
    put_byte(out, b' ')?;
    out.extend_from_slice(kind_name(kind).as_bytes())
}

/// Appends what a step sent: `-> NUMBER KIND`, or `-> FIRST..LAST KIND`.
fn put_sent(out: &mut Vec<u8>, told: &Told, sent: &Option<Kind>) -> Result<(), AllocError>
    requires { told.now.first < told.now.next }
    ensures { OnOk result (out.new.items ≡ out.old.items ++ sent_text told.now (option_map kind_seen sent.now)) }
{
    out.extend_from_slice(b"-> ")?;
    put_number(out, told.first)?;
    if told.next - 1 > told.first {
        out.extend_from_slice(b"..")?;
        put_number(out, told.next - 1)?;
    }
    match sent {
        None => Ok(()),
        Some(kind) => put_kind(out, kind),
    }
}

/// Appends the row of the end: the counts.
pub(crate) fn put_end(
    out: &mut Vec<u8>,
    columns: Columns,
    counts: &Counts,
) -> Result<(), AllocError>
    ensures { OnOk result (out.new.items ≡ out.old.items ++ end_text columns
        (counts_text (record { free = counts.now.free; mapped = counts.now.mapped; withheld = counts.now.withheld }))) }
{
    put_column(out, columns, NUMBER_WIDTH, b"")?;
    put_column(out, columns, STEP_WIDTH, b"end")?;
    put_counts(out, counts)?;
    put_byte(out, b'\n')
}
