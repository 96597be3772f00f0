//! The first frame of each chain of one unit.

ghost use Rattle.std.specs.Prelude.{◌≡◌, ◌≢◌, ◌↔◌, IsTrue, ℕ, ◌<◌, length, Some, None, IfSome, IfNone, ◌-◌, [], slice_get};
ghost use Rattle.sva_frames.specs.declared.heads.Pending.{Pending};
ghost use Rattle.sva_frames.specs.Chains.{AreApart, first_of};

use crate::waits::{PENDING, Target};
use arrayvec::ArrayVec;
use std::marker::Model;

/// A cookie that some frame waits for, with the first frame of its chain.
#[derive(Clone, Copy)]
pub struct Pending {
    cookie: u64,
    first: u32,
}

/// An entry that no frame asked for: what the unused places of a table hold.
impl Default for Pending {
    ghost is_default = { λ pending. pending ≡ record { cookie = 0; first = 0 } };

    fn default() -> Self {
        Pending {
            cookie: 0,
            first: 0,
        }
    }
}

/// The first frame of each chain of one unit: a table of the pending cookies, in which the one that was used last stands
/// last, and a place for the reset's end. Contracts see both.
#[derive(Drop)]
pub struct Heads {
    pending: ArrayVec<Pending, PENDING>,
    reset: Option<u32>,
}

impl Model for Heads {
    ghost use Rattle.sva_frames.specs.Chains.{Firsts, AreApart};

    ghost Value = { Firsts };

    ghost view = { λ h. record { pending = h.pending.items; reset = h.reset } };

    ghost invariant = { λ h. AreApart h.pending.items };
}

impl Heads {
    ghost use Rattle.sva_frames.specs.declared.waits.Target.{Target};
    ghost use Rattle.sva_frames.specs.Chains.{first_at, HasPlace};

    /// No chain at all.
    pub(crate) fn new() -> Heads
        ensures empty { (target : Target) → first_at result target ≡ None }
    {
        Heads {
            pending: ArrayVec::new(),
            reset: None,
        }
    }

    /// The first frame of the chain of a target, if it has one.
    pub(crate) fn first(&self, target: Target) -> Option<u32>
        ensures first { result ≡ first_at self.now target }
        ensures apart { AreApart self.now.pending }
    {
        match target {
            Target::Cookie(cookie) => {
                let place = place_of(&self.pending, cookie)?;
                Some(self.pending[place].first)
            }
            Target::ResetEnd => self.reset,
        }
    }

    /// Whether a target may get a first frame.
    pub(crate) fn has_place(&self, target: Target) -> bool
        ensures place { IsTrue result ↔ HasPlace self.now target }
        ensures apart { AreApart self.now.pending }
    {
        match target {
            Target::Cookie(cookie) => self.pending.len() < PENDING
                || place_of(&self.pending, cookie).is_some(),
            Target::ResetEnd => true,
        }
    }

    /// Some target that has a chain.
    pub(crate) fn any(&self) -> Option<Target>
        ensures none { IfNone result ((target : Target) → first_at self.now target ≡ None) }
        ensures some { IfSome result (λ target. (frame : ℕ) × (first_at self.now target ≡ Some frame)) }
    {
        match last_cookie(&self.pending) {
            Some(cookie) => Some(Target::Cookie(cookie)),
            None => {
                self.reset?;
                Some(Target::ResetEnd)
            }
        }
    }

    /// Makes this the first frame of the chain of a target, or ends the chain.
    pub(crate) fn set(&mut self, target: Target, first: Option<u32>)
        requires { HasPlace self.old target }
        ensures here { first_at self.new target ≡ first }
        ensures others { (other : Target) → other ≢ target → first_at self.new other ≡ first_at self.old other }
    {
        match target {
            Target::Cookie(cookie) => set_first(&mut self.pending, cookie, first),
            Target::ResetEnd => self.reset = first,
        }
    }
}

/// Where a cookie stands in a table. It looks from the end, where the cookie stands that was used last.
fn place_of(pending: &[Pending], cookie: u64) -> Option<usize>
    ensures none { IfNone result (first_of pending.now cookie ≡ None) }
    ensures some { IfSome result (λ place. (entry : Pending) × (slice_get pending.now place ≡ Some entry) × (entry.cookie ≡ cookie)) }
{
    for place in (0..pending.len()).rev() {
        if pending[place].cookie == cookie {
            return Some(place);
        }
    }
    None
}

/// The last cookie of a table.
fn last_cookie(pending: &[Pending]) -> Option<u64>
    ensures none { IfNone result (pending.now ≡ []) }
    ensures some { IfSome result (λ cookie. (entry : Pending) × (slice_get pending.now (length pending.now - 1) ≡ Some entry) × (entry.cookie ≡ cookie)) }
{
    let count = pending.len();
    if count == 0 {
        return None;
    }
    Some(pending[count - 1].cookie)
}

/// Takes a cookie out, if it is there.
fn take_out(pending: &mut ArrayVec<Pending, PENDING>, cookie: u64)
    requires { AreApart pending.old.items }
    ensures apart { AreApart pending.new.items }
    ensures none { first_of pending.new.items cookie ≡ None }
    ensures others { (other : ℕ) → other ≢ cookie → first_of pending.new.items other ≡ first_of pending.old.items other }
    ensures room { (first_of pending.old.items cookie ≡ None → length pending.old.items < PENDING) → length pending.new.items < PENDING }
{
    if let Some(place) = place_of(pending, cookie) {
        pending.remove(place);
    }
}

/// Enters the first frame of a cookie's chain, as the last of the table, or takes the cookie out.
fn set_first(pending: &mut ArrayVec<Pending, PENDING>, cookie: u64, first: Option<u32>)
    requires apart { AreApart pending.old.items }
    requires room { first_of pending.old.items cookie ≡ None → length pending.old.items < PENDING }
    ensures apart { AreApart pending.new.items }
    ensures here { first_of pending.new.items cookie ≡ first }
    ensures others { (other : ℕ) → other ≢ cookie → first_of pending.new.items other ≡ first_of pending.old.items other }
{
    take_out(pending, cookie);
    if let Some(first) = first {
        pending.push(Pending { cookie, first });
    }
}
