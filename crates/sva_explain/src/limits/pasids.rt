//! PASIDs that are all borne.

ghost use Rattle.std.specs.Prelude.{◌≡◌, ◌++◌, OnOk, flat_map, map};
ghost use Rattle.sva_explain.specs.Pasids.{advance_text, all_borne_line, bearer_line, no_pasid, unbind_text};
ghost use Rattle.sva_snapshot.specs.Shown.{binding_shown};
ghost use Rattle.sva_explain.specs.declared.blockers.levels.Level.TheVariants.{Second};

use crate::blockers::{Level, put_bracket, put_indent, put_start};
use crate::enabled::{can_advance, can_unbind};
use std::alloc::AllocError;
use sva_lines::{end_line, put_field, put_stage, put_word};
use sva_snapshot::{Binding, Snapshot};

/// Appends an unbinding in brackets, where it would be accepted.
pub fn put_unbind(out: &mut Vec<u8>, snapshot: &Snapshot, binding: u64) -> Result<(), AllocError>
    ensures { OnOk result (out.new.items ≡ out.old.items ++ unbind_text snapshot.now binding) }
{
    put_bracket(out, can_unbind(snapshot, binding), " [unbind ", binding)
}

/// Appends an advance in brackets, where it would be accepted.
pub fn put_advance(out: &mut Vec<u8>, snapshot: &Snapshot, binding: u64) -> Result<(), AllocError>
    ensures { OnOk result (out.new.items ≡ out.old.items ++ advance_text snapshot.now binding) }
{
    put_bracket(out, can_advance(snapshot, binding), " [advance ", binding)
}

/// Appends which PASID a space bears by a binding.
pub fn put_bearer(
    out: &mut Vec<u8>,
    level: Level,
    snapshot: &Snapshot,
    binding: &Binding,
) -> Result<(), AllocError>
    ensures { OnOk result (out.new.items ≡ out.old.items
        ++ bearer_line level snapshot.now (binding_shown binding.now)) }
{
    put_start(out, level, "space ", binding.space)?;
    put_field(out, " bears pasid ", u64::from(binding.pasid))?;
    put_field(out, " by binding ", binding.binding)?;
    put_field(out, " at endpoint ", binding.endpoint)?;
    put_word(out, ":")?;
    put_stage(out, binding.stage)?;
    put_unbind(out, snapshot, binding.binding)?;
    put_advance(out, snapshot, binding.binding)?;
    end_line(out)
}

/// Appends the same of each of these bindings.
fn put_bearers(
    out: &mut Vec<u8>,
    snapshot: &Snapshot,
    bindings: &[Binding],
) -> Result<(), AllocError>
    ensures { OnOk result (out.new.items ≡ out.old.items
        ++ flat_map (bearer_line Second snapshot.now) (map binding_shown bindings.now)) }
{
    for binding in bindings {
        put_bearer(out, Level::Second, snapshot, binding)?;
    }
    Ok(())
}

/// Appends the same of each binding.
fn put_each_bearer(out: &mut Vec<u8>, snapshot: &Snapshot) -> Result<(), AllocError>
    ensures { OnOk result (out.new.items ≡ out.old.items
        ++ flat_map (bearer_line Second snapshot.now) snapshot.now.bindings) }
{
    put_bearers(out, snapshot, snapshot.bindings.as_slice())
}

/// Appends that all PASIDs are borne.
fn put_all_borne(out: &mut Vec<u8>) -> Result<(), AllocError>
    ensures { OnOk result (out.new.items ≡ out.old.items ++ all_borne_line) }
{
    put_indent(out, Level::First)?;
    put_word(out, "other spaces bear all 32 pasids")?;
    end_line(out)
}

/// Appends that all PASIDs are borne, and by which bindings.
pub fn put_no_pasid(out: &mut Vec<u8>, snapshot: &Snapshot) -> Result<(), AllocError>
    ensures { OnOk result (out.new.items ≡ out.old.items ++ no_pasid snapshot.now) }
{
    put_all_borne(out)?;
    put_each_bearer(out, snapshot)
}
