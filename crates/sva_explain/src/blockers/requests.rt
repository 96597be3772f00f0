//! Translation requests that are out, and the verdict of a worker on a page request.

ghost use Rattle.std.specs.Prelude.{◌≡◌, ◌++◌, OnOk};
ghost use Rattle.sva_snapshot.specs.Shown.{endpoint_shown};
ghost use Rattle.sva_explain.specs.Requests.{asked_text, invalid_text, out_line, out_lines};

use crate::blockers::levels::{Level, below, put_start};
use crate::blockers::link::{Topic, put_about};
use crate::blockers::units::put_reset_if;
use crate::enabled::can_answer_invalid;
use std::alloc::AllocError;
use sva_lines::{end_line, put_field, put_if, put_word};
use sva_snapshot::{Endpoint, Snapshot};

/// Appends the verdict Invalid of a worker in brackets, where it would be accepted.
pub fn put_invalid(out: &mut Vec<u8>, snapshot: &Snapshot, worker: u64) -> Result<(), AllocError>
    ensures { OnOk result (out.new.items ≡ out.old.items ++ invalid_text snapshot.now worker) }
{
    if !can_answer_invalid(snapshot, worker) {
        return Ok(());
    }
    put_field(out, " [answer ", worker)?;
    put_word(out, " invalid]")
}

/// Appends what a translation request asks for.
fn put_asked(out: &mut Vec<u8>, pasid: u32, page: u64) -> Result<(), AllocError>
    ensures { OnOk result (out.new.items ≡ out.old.items ++ asked_text pasid page) }
{
    put_field(out, " is out: pasid ", u64::from(pasid))?;
    put_field(out, " page ", page)
}

/// Appends the line of a translation request that is out.
fn put_out_line(
    out: &mut Vec<u8>,
    level: Level,
    tag: u64,
    pasid: u32,
    page: u64,
    is_doomed: bool,
) -> Result<(), AllocError>
    ensures { OnOk result (out.new.items ≡ out.old.items
        ++ out_line level tag (record { pasid = pasid; page = page; is_doomed = is_doomed })) }
{
    put_start(out, level, "tag ", tag)?;
    put_asked(out, pasid, page)?;
    put_if(out, is_doomed, " doomed")?;
    end_line(out)
}

/// Appends the lines of a translation request that is out.
pub fn put_out(
    out: &mut Vec<u8>,
    level: Level,
    snapshot: &Snapshot,
    endpoint: u64,
    part: &Endpoint,
    tag: u64,
    pasid: u32,
    page: u64,
    is_doomed: bool,
) -> Result<(), AllocError>
    ensures { OnOk result (out.new.items ≡ out.old.items
        ++ out_lines level snapshot.now endpoint (endpoint_shown part.now) tag
        (record { pasid = pasid; page = page; is_doomed = is_doomed })) }
{
    put_out_line(out, level, tag, pasid, page, is_doomed)?;
    put_about(out, below(level), snapshot, endpoint, Topic::Tag(tag))?;
    put_reset_if(out, below(level), snapshot, endpoint, part)
}
