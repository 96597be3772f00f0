//! Which space bears each PASID, and how many bindings are under it.

ghost use Rattle.std.specs.Prelude.{◌≡◌, ◌+◌, ◌<◌, ◌^◌, IfSome};
ghost use Rattle.sva_pasid.specs.Bearers.{slot, is_by, raised, lowered, pasid_in, free_in};

use sva_step::{PASID_PLACES, PASIDS};

/// The space that bears a PASID.
#[derive(Debug, Clone, Copy, PartialEq, Eq)]
pub struct Bearer {
    /// The number of the space, which is the host's own.
    pub space: u64,
    /// How many unreleased bindings of the space there are, over all endpoints: 1 or more.
    pub bindings: u64,
}

/// The bearer of each PASID up to 32. PASID 0 has a place that stays empty, so that a PASID is its own index.
pub type Bearers = [Option<Bearer>; PASID_PLACES];

/// The bearer of the PASID; None where no space bears it, as 0 and each above 32.
pub(crate) fn bearer_in(bearers: &Bearers, pasid: u32) -> Option<Bearer>
    ensures { result ≡ slot pasid bearers.now }
{
    if pasid > PASIDS {
        return None;
    }
    bearers[pasid as usize]
}

/// Whether the space is this bearer.
fn is_by(bearer: Option<Bearer>, space: u64) -> bool
    ensures { result ≡ is_by space bearer }
{
    match bearer {
        Some(bearer) => bearer.space == space,
        None => false,
    }
}

/// The bearer with one binding of the space more.
pub(crate) fn raised(bearer: Option<Bearer>, space: u64) -> Option<Bearer>
    requires { IfSome bearer (λ before. before.bindings + 1 < 2 ^ 64) }
    ensures { result ≡ raised space bearer }
{
    let bindings = match bearer {
        Some(bearer) => bearer.bindings + 1,
        None => 1,
    };
    Some(Bearer { space, bindings })
}

/// The bearer with one binding less; None after the last one.
pub(crate) fn lowered(bearer: Option<Bearer>) -> Option<Bearer>
    requires { IfSome bearer (λ before. 0 < before.bindings) }
    ensures { result ≡ lowered bearer }
{
    let Some(before) = bearer else {
        return None;
    };
    if before.bindings == 1 {
        return None;
    }
    Some(Bearer {
        space: before.space,
        bindings: before.bindings - 1,
    })
}

/// The PASID that the space bears.
pub(crate) fn pasid_of(bearers: &Bearers, space: u64) -> Option<u32>
    ensures { result ≡ pasid_in space bearers.now }
{
    for pasid in 1..=PASIDS {
        if is_by(bearers[pasid as usize], space) {
            return Some(pasid);
        }
    }
    None
}

/// The lowest PASID that no space bears.
pub(crate) fn first_free(bearers: &Bearers) -> Option<u32>
    ensures { result ≡ free_in bearers.now }
{
    for pasid in 1..=PASIDS {
        if bearers[pasid as usize].is_none() {
            return Some(pasid);
        }
    }
    None
}
