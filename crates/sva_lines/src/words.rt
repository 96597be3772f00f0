//! What is said of one thing: a stage, a busy ITag, a translation.

ghost use Rattle.std.specs.Prelude.{◌≡◌, ◌++◌, OnOk};
ghost use Rattle.sva_iommu.specs.Seen.{busy_seen};
ghost use Rattle.sva_lines.specs.Words.{busy_text, stage_text, translation_text};
ghost use Rattle.sva_snapshot.specs.Shown.{stage_shown};

use crate::pieces::{put_field, put_if, put_word};
use std::alloc::AllocError;
use sva_snapshot::{Busy, Stage};

/// Appends a stage.
pub fn put_stage(out: &mut Vec<u8>, stage: Stage) -> Result<(), AllocError>
    ensures { OnOk result (out.new.items ≡ out.old.items ++ stage_text (stage_shown stage)) }
{
    match stage {
        Stage::Live => put_word(out, " live"),
        Stage::Stopping { marked: true } => put_word(out, " marked"),
        Stage::Stopping { marked: false } => put_word(out, " stopping"),
        Stage::Draining { cookie } => put_field(out, " draining wait ", cookie),
        Stage::Invalidating { cookie } => put_field(out, " invalidating wait ", cookie),
        Stage::Quiet => put_word(out, " quiet"),
        Stage::Lost => put_word(out, " lost"),
    }
}

/// Appends how many completions came of how many, once one came.
pub fn put_busy(out: &mut Vec<u8>, busy: &Busy) -> Result<(), AllocError>
    ensures { OnOk result (out.new.items ≡ out.old.items ++ busy_text (busy_seen busy.now)) }
{
    match busy {
        Busy::Fresh => Ok(()),
        Busy::Counting { count, arrived } => {
            put_field(out, ", ", u64::from(*arrived))?;
            put_field(out, " of ", u64::from(*count))
        }
    }
}

/// Appends what a translation, or a use of one, is of.
pub fn put_translation(
    out: &mut Vec<u8>,
    pasid: u64,
    page: u64,
    frame: u32,
    write: bool,
) -> Result<(), AllocError>
    ensures { OnOk result (out.new.items ≡ out.old.items
        ++ translation_text (record { pasid = pasid; page = page; frame = frame; write = write })) }
{
    put_field(out, " pasid ", pasid)?;
    put_field(out, " page ", page)?;
    put_field(out, " frame ", u64::from(frame))?;
    put_if(out, write, " w")
}
