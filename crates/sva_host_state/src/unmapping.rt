//! The plan of an unmapping: what each unit gets where pages are taken out of a space, and what the frames wait for there.

ghost use Rattle.std.specs.Prelude.{ℕ, ◌≡◌, if◌then◌else◌, ◌+◌, ◌≤◌, ◌*◌, ◌%◌, ◌^◌, option_map, suc};
ghost use Rattle.sva_model.specs.Wire.TargetWire.{Cookie as CookieTarget, ResetEnd as ResetTarget};
ghost use Rattle.sva_labels.specs.Moves.{target_by_stage};
ghost use Rattle.sva_address_spaces.specs.Seen.{target_seen};
ghost use Rattle.sva_parts_by_labels.specs.Bindings.{stage_or_quiet};
ghost use Rattle.sva_host_state.specs.Unmapping.{Plans, IsPlan, AreGiven, submitted};

use crate::host_state::HostState;
use crate::stage_reading::is_before_invalidating;
use sva_frames::{Target, Waits};
use sva_iommu::RemappingUnit;
use sva_pasid::Stage;
use sva_step::{MOST_ENDPOINTS, NUMBERS, Refusal};

/// What a frame waits for at a unit: this wait, or the end of the reset that the unit is in.
fn awaited(unit: &RemappingUnit, cookie: u64) -> Target
    ensures { target_seen result ≡ (if unit.now.unit.is_open then CookieTarget cookie else ResetTarget) }
{
    if unit.is_open() {
        Target::Cookie(cookie)
    } else {
        Target::ResetEnd
    }
}

/// What the frames of pages that are taken out wait for at a unit, by the stage of the binding of their space there. `cookie`
/// is that of the wait which the unit gets.
fn target_of(unit: &RemappingUnit, stage: &Option<Stage>, cookie: u64) -> Option<Target>
    ensures { option_map target_seen result ≡ target_by_stage unit.now.unit cookie (stage_or_quiet stage.now) }
{
    match stage {
        Some(Stage::Live(_)) => Some(awaited(unit, cookie)),
        Some(Stage::Stopping(_)) => Some(awaited(unit, cookie)),
        Some(Stage::Draining(_)) => Some(awaited(unit, cookie)),
        Some(Stage::Invalidating(invalidating)) => {
            if unit.is_wait_done(invalidating.cookie()) {
                None
            } else {
                Some(awaited(unit, invalidating.cookie()))
            }
        }
        Some(Stage::Quiet(_)) => None,
        Some(Stage::Lost(_)) => None,
        None => None,
    }
}

/// What an unmapping of pages of a space asks of the units, and what its frames wait for.
#[derive(Drop)]
pub struct Plan {
    /// The PASID under which the unit of an endpoint gets descriptors, by the endpoint's number, if it gets some.
    pub pasids: [Option<u32>; MOST_ENDPOINTS],
    /// What the frames wait for, unit by unit.
    pub waits: Waits,
    /// How many units get descriptors, each with a wait. The cookies of these are given out in rising order of units.
    pub cookies: u64,
}

impl Plan {
    /// The plan of an unmapping of pages of a space for which each unit that gets some gets so many descriptors. `QueueFull`
    /// where one of them lacks the room, and `NumbersSpent` where too few cookies are left for the waits.
    pub fn new(host: &HostState, space: u64, descriptors: u64) -> Result<Plan, Refusal>
        requires cookies { host.now.next_cookie ≤ 2 ^ 63 }
        ensures { Plans host.now space descriptors result }
    {
        let mut plan = Plan {
            pasids: [None; MOST_ENDPOINTS],
            waits: Waits::new(),
            cookies: 0,
        };
        for endpoint in 0..host.ports.len() {
            let Some(place) = host.bindings.place_between(endpoint as u64, space) else {
                continue;
            };
            let unit = &host.ports[endpoint].unit;
            if let Some(target) = target_of(unit, &place.stage, host.next_cookie + plan.cookies) {
                plan.waits.push(endpoint as u64, target);
            }
            if unit.is_open() && is_before_invalidating(&place.stage) {
                if !unit.has_room(descriptors) {
                    return Err(Refusal::QueueFull);
                }
                plan.pasids[endpoint] = Some(place.pasid);
                plan.cookies += 1;
            }
        }
        if NUMBERS - host.next_cookie < plan.cookies {
            return Err(Refusal::NumbersSpent);
        }
        Ok(plan)
    }

    /// Each unit that is to get descriptors gets them: for `count` ranges of 2^`order` pages, one behind another from `page`
    /// on, and with the next cookie for its wait.
    pub fn submit(&self, host: &mut HostState, page: u64, count: u64, order: u8)
        requires plan { (space : ℕ) × IsPlan host.old space (suc count) self.now }
        requires given { AreGiven host.old }
        requires cookies { host.old.next_cookie + self.now.cookies ≤ 2 ^ 63 }
        requires small { order ≤ 9 }
        requires aligned { page % 2 ^ order ≡ 0 }
        requires low { page + count * 2 ^ order ≤ 2 ^ 36 }
        ensures { (space : ℕ) → IsPlan host.old space (suc count) self.now
            → host.new ≡ submitted host.old space page count order }
    {
        for endpoint in 0..host.ports.len() {
            if let Some(pasid) = self.pasids[endpoint] {
                let cookie = host.next_cookie;
                host.ports[endpoint]
                    .unit
                    .submit_ranges(pasid, page, count, order, cookie);
                host.next_cookie += 1;
            }
        }
    }
}
