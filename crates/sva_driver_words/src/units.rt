//! Which endpoints stand below one unit, and the words for each unit that several share.

ghost use Rattle.std.specs.Prelude.{◌≡◌, ◌==◌, ◌++◌, OnOk, count_by};
ghost use Rattle.sva_open.specs.Below.{is_beside, is_one};
ghost use Rattle.sva_driver_words.specs.Units as below;

use crate::pieces::put_one;
use std::alloc::AllocError;

fn is_one(unit: Option<usize>, other: Option<usize>) -> bool
    ensures { result ≡ is_one unit other }
{
    match unit {
        None => false,
        Some(unit) => match other {
            None => false,
            Some(other) => unit == other,
        },
    }
}

/// Whether another endpoint stands below the unit of an endpoint.
fn is_beside(units: &[usize], endpoint: usize, other: usize) -> bool
    ensures { result ≡ is_beside units.now endpoint other }
{
    other != endpoint && is_one(units.get(endpoint).copied(), units.get(other).copied())
}

/// Whether it is the endpoint itself, or stands below the same unit.
pub(crate) fn is_below(units: &[usize], endpoint: usize, other: usize) -> bool
    ensures { result ≡ below.is_below units.now endpoint other }
{
    other == endpoint || is_beside(units, endpoint, other)
}

fn count_below(units: &[usize], unit: usize) -> usize
    ensures { result ≡ count_by (λ own. own == unit) units.now }
{
    units.iter().filter(|own| **own == unit).count()
}

/// Whether several endpoints stand below a unit.
fn is_shared(units: &[usize], unit: usize) -> bool
    ensures { result ≡ below.is_shared units.now unit }
{
    1 < count_below(units, unit)
}

/// Appends an endpoint that stands below a unit.
fn put_member(out: &mut Vec<u8>, unit: usize, place: usize, own: usize) -> Result<(), AllocError>
    ensures { OnOk result (out.new.items ≡ out.old.items ++ below.member_text unit place own) }
{
    if own == unit {
        return put_one(out, place as u64);
    }
    Ok(())
}

/// Appends the endpoints that stand below a unit.
fn put_members(out: &mut Vec<u8>, units: &[usize], unit: usize) -> Result<(), AllocError>
    ensures { OnOk result (out.new.items ≡ out.old.items ++ below.members_from unit 0 units.now) }
{
    for place in 0..units.len() {
        put_member(out, unit, place, units[place])?;
    }
    Ok(())
}

/// Appends `unit` with the endpoints that stand below it.
fn put_unit(out: &mut Vec<u8>, units: &[usize], unit: usize) -> Result<(), AllocError>
    ensures { OnOk result (out.new.items ≡ out.old.items ++ below.unit_text units.now unit) }
{
    out.extend_from_slice(b"unit")?;
    put_members(out, units, unit)?;
    Ok(())
}

/// Appends a unit with what stands before it and behind it.
fn put_between(
    out: &mut Vec<u8>,
    units: &[usize],
    before: &[u8],
    behind: &[u8],
    unit: usize,
) -> Result<(), AllocError>
    ensures { OnOk result (out.new.items
        ≡ out.old.items ++ (before.now ++ below.unit_text units.now unit ++ behind.now)) }
{
    out.extend_from_slice(before)?;
    put_unit(out, units, unit)?;
    out.extend_from_slice(behind)?;
    Ok(())
}

/// Appends a unit, where it is shared.
fn put_shared(
    out: &mut Vec<u8>,
    units: &[usize],
    before: &[u8],
    behind: &[u8],
    unit: usize,
) -> Result<(), AllocError>
    ensures { OnOk result (out.new.items
        ≡ out.old.items ++ below.shared_text units.now before.now behind.now unit) }
{
    if is_shared(units, unit) {
        return put_between(out, units, before, behind, unit);
    }
    Ok(())
}

/// Appends each unit that is shared, with what stands before it and behind it: `unit 0 1`.
pub fn put_units(
    out: &mut Vec<u8>,
    units: &[usize],
    before: &[u8],
    behind: &[u8],
) -> Result<(), AllocError>
    ensures { OnOk result (out.new.items ≡ out.old.items ++ below.units_text units.now before.now behind.now) }
{
    for unit in 0..units.len() {
        put_shared(out, units, before, behind, unit)?;
    }
    Ok(())
}
