//! Spaces, frames and bindings.

ghost use Rattle.std.specs.Prelude.{◌≡◌, ◌++◌, OnOk, count_by, false, flat_map, map};
ghost use Rattle.sva_address_spaces.specs.Seen.{page_seen, pages_seen, place_seen, places_seen, target_seen};
ghost use Rattle.sva_address_spaces.specs.Seen.{targets_seen};
ghost use Rattle.sva_frames.specs.Reading.{holding_of};
ghost use Rattle.sva_lines.specs.Words.{is_free, is_mapped, is_withheld};
ghost use Rattle.sva_lines.specs.Memory.{binding_line, frame_lines, frames_line, page_line, space_lines};
ghost use Rattle.sva_lines.specs.Memory.{target_text, target_texts};
ghost use Rattle.sva_lines.specs.Pieces.{listed, rows};
ghost use Rattle.sva_snapshot.specs.Shown.{binding_shown, space_shown};

use crate::pieces::{end_line, put_field, put_head, put_if, put_plain_head, put_word};
use crate::words::put_stage;
use std::alloc::AllocError;
use sva_snapshot::{Binding, Held, Mapping, Space, Stage, Target};

/// Appends the line of a mapped page.
fn put_page(out: &mut Vec<u8>, space: u64, mapping: &Mapping) -> Result<(), AllocError>
    ensures { OnOk result (out.new.items ≡ out.old.items ++ page_line space (page_seen mapping.now)) }
{
    put_head(out, "space ", space)?;
    put_field(out, " page ", mapping.page)?;
    put_field(out, " frame ", u64::from(mapping.frame))?;
    put_if(out, mapping.write, " w")?;
    end_line(out)
}

/// Appends the lines of a space.
fn put_space(out: &mut Vec<u8>, space: &Space) -> Result<(), AllocError>
    ensures { OnOk result (out.new.items ≡ out.old.items ++ space_lines (space_shown space.now)) }
{
    if space.pages.is_empty() {
        put_head(out, "space ", space.number)?;
        put_word(out, " no pages")?;
        return end_line(out);
    }
    put_pages(out, space.number, space.pages.as_slice())
}

/// Appends the lines of mapped pages.
fn put_pages(out: &mut Vec<u8>, space: u64, pages: &[Mapping]) -> Result<(), AllocError>
    ensures { OnOk result (out.new.items ≡ out.old.items ++ flat_map (page_line space) (pages_seen pages.now)) }
{
    for mapping in pages {
        put_page(out, space, mapping)?;
    }
    Ok(())
}

/// Appends the lines of the spaces.
pub(crate) fn put_spaces(out: &mut Vec<u8>, spaces: &[Space]) -> Result<(), AllocError>
    ensures { OnOk result (out.new.items ≡ out.old.items ++ flat_map space_lines (map space_shown spaces.now)) }
{
    for space in spaces {
        put_space(out, space)?;
    }
    Ok(())
}

/// Appends the line of a binding.
fn put_binding(out: &mut Vec<u8>, binding: &Binding) -> Result<(), AllocError>
    ensures { OnOk result (out.new.items ≡ out.old.items ++ binding_line (binding_shown binding.now)) }
{
    put_head(out, "binding ", binding.binding)?;
    put_field(out, " endpoint ", binding.endpoint)?;
    put_field(out, " space ", binding.space)?;
    put_field(out, " pasid ", u64::from(binding.pasid))?;
    put_stage(out, binding.stage)?;
    end_line(out)
}

/// Appends the lines of the bindings.
pub(crate) fn put_bindings(out: &mut Vec<u8>, bindings: &[Binding]) -> Result<(), AllocError>
    ensures { OnOk result (out.new.items ≡ out.old.items ++ flat_map binding_line (map binding_shown bindings.now)) }
{
    for binding in bindings {
        put_binding(out, binding)?;
    }
    Ok(())
}

/// Appends what is waited for at a unit.
fn put_target(out: &mut Vec<u8>, target: Target) -> Result<(), AllocError>
    ensures { OnOk result (out.new.items ≡ out.old.items ++ target_text (target_seen target)) }
{
    match target {
        Target::Cookie(cookie) => put_field(out, " wait ", cookie),
        Target::ResetEnd => put_word(out, " end of reset"),
    }
}

/// Appends what is waited for, unit by unit.
fn put_targets(out: &mut Vec<u8>, targets: &[Option<Target>]) -> Result<(), AllocError>
    ensures { OnOk result (out.new.items ≡ out.old.items ++ listed false (target_texts 0 (targets_seen targets.now))) }
{
    let mut is_begun = false;
    for (unit, target) in targets.iter().enumerate() {
        if let Some(target) = target {
            put_if(out, is_begun, ",")?;
            put_field(out, " unit ", unit as u64)?;
            put_target(out, *target)?;
            is_begun = true;
        }
    }
    Ok(())
}

/// Appends the line of a frame that is withheld.
fn put_frame(out: &mut Vec<u8>, frame: u64, held: &Held) -> Result<(), AllocError>
    ensures { OnOk result (out.new.items ≡ out.old.items ++ frame_lines frame (place_seen (holding_of held.now))) }
{
    match held {
        Held::Free | Held::Mapped => Ok(()),
        Held::Withheld { targets } => {
            put_head(out, "frame ", frame)?;
            put_word(out, " withheld:")?;
            put_targets(out, targets)?;
            end_line(out)
        }
    }
}

/// Appends the lines of the frames that are withheld.
pub(crate) fn put_frames(out: &mut Vec<u8>, frames: &[Held]) -> Result<(), AllocError>
    ensures { OnOk result (out.new.items ≡ out.old.items
        ++ rows frame_lines 0 (places_seen (map holding_of frames.now))) }
{
    for (frame, held) in frames.iter().enumerate() {
        put_frame(out, frame as u64, held)?;
    }
    Ok(())
}

/// How many frames are free.
fn free(frames: &[Held]) -> usize
    ensures { result ≡ count_by is_free (places_seen (map holding_of frames.now)) }
{
    frames
        .iter()
        .filter(|held| matches!(held, Held::Free))
        .count()
}

/// How many frames are mapped.
fn mapped(frames: &[Held]) -> usize
    ensures { result ≡ count_by is_mapped (places_seen (map holding_of frames.now)) }
{
    frames
        .iter()
        .filter(|held| matches!(held, Held::Mapped))
        .count()
}

/// How many frames are withheld.
fn withheld(frames: &[Held]) -> usize
    ensures { result ≡ count_by is_withheld (places_seen (map holding_of frames.now)) }
{
    frames
        .iter()
        .filter(|held| matches!(held, Held::Withheld { .. }))
        .count()
}

/// Appends the line of how many frames are free, mapped and withheld.
pub(crate) fn put_counts(out: &mut Vec<u8>, frames: &[Held]) -> Result<(), AllocError>
    ensures { OnOk result (out.new.items ≡ out.old.items ++ frames_line (places_seen (map holding_of frames.now))) }
{
    put_plain_head(out, "frames")?;
    put_field(out, " free ", free(frames) as u64)?;
    put_field(out, " mapped ", mapped(frames) as u64)?;
    put_field(out, " withheld ", withheld(frames) as u64)?;
    end_line(out)
}
