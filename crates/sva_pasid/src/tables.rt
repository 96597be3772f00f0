//! The table of the bindings that are not released, with the PASID that each bears.

ghost use Rattle.std.specs.Prelude.{◌≡◌, Some, None, ◌↔◌, ◌++◌, ◌∷◌, [], ◌≤◌, length, slice_get, IsTrue, IsSome, IsSomeAnd, IfSome, IfNone, IfOk, OnErr};
ghost use Rattle.std.specs.Option.{option_copied, option_or};
ghost use Rattle.sva_pasid.specs.Bearers.{pasid_in, free_in};

use crate::bearers::{Bearer, Bearers, bearer_in, first_free, lowered, pasid_of, raised};
use crate::places::{TableEntry, index_of, reset_each};
use crate::stages::Stage;
use crate::states::{Live, Released};
use std::alloc::{AllocError, Global};
use std::marker::Model;
use sva_step::PASID_PLACES;

/// The bindings that are not released, in the order in which they began. A table that goes, at the end of the host itself,
/// spends the stages that are in it: each ends as by a function level reset, over `Quiet` and `Released`.
pub struct Table {
    pub(crate) places: Vec<TableEntry>,
    /// What the places say of each PASID, so that a look-up by PASID goes through no binding.
    bearers: Bearers,
}

impl Drop for Table {
    fn drop(self) {
        let Table {
            mut places,
            bearers: _,
        } = self;
        while let Some(place) = places.pop() {
            place.abandon();
        }
        places.destroy_empty();
    }
}

impl Model for Table {
    ghost use Rattle.std.specs.Prelude.{List};
    ghost use Rattle.sva_pasid.specs.declared.places.TableEntry.{TableEntry};
    ghost use Rattle.sva_pasid.specs.Places.{IsTable};
    ghost use Rattle.sva_pasid.specs.Bearers.{AreBearers};

    ghost Value = { List TableEntry };

    ghost view = { λ table. table.places.items };

    ghost invariant = { λ table. IsTable table.places.items × AreBearers table.places.items table.bearers };
}

impl Table {
    ghost use Rattle.sva_pasid.specs.Stages.{numbers_of};
    ghost use Rattle.sva_pasid.specs.Places.{place_of, place_under, place_between, is_bound, bearer_of, stage_of, with_stage, without, lowest};
    ghost use Rattle.sva_pasid.specs.Places.{IsLowest, IsOutOfPasids, begun, after_reset, IsLiveIn, Awaits, IsTable};

    /// A table with no binding.
    pub fn new(alloc: Global) -> Table
        ensures { result ≡ [] }
    {
        Table {
            places: Vec::new(alloc),
            bearers: [None; PASID_PLACES],
        }
    }

    /// How many bindings are not released.
    pub fn len(&self) -> usize
        ensures len { result ≡ length self.now }
        ensures table { IsTable self.now }
    {
        self.places.len()
    }

    /// Whether each binding is released.
    pub fn is_empty(&self) -> bool
        ensures { IsTrue result ↔ (self.now ≡ []) }
    {
        self.places.is_empty()
    }

    /// The place of the binding; None where it was released or never began.
    pub fn place(&self, binding: u64) -> Option<&TableEntry>
        ensures { option_copied result ≡ place_of binding self.now }
    {
        self.places.iter().find(|place| place.binding == binding)
    }

    /// The place of the first binding to the endpoint that bears the PASID. It is the only one where no space is bound
    /// to the endpoint twice.
    pub fn place_under(&self, endpoint: u64, pasid: u32) -> Option<&TableEntry>
        ensures { option_copied result ≡ place_under endpoint pasid self.now }
    {
        self.places
            .iter()
            .find(|place| place.endpoint == endpoint && place.pasid == pasid)
    }

    /// The place of the first binding of the space to the endpoint.
    pub fn place_between(&self, endpoint: u64, space: u64) -> Option<&TableEntry>
        ensures { option_copied result ≡ place_between endpoint space self.now }
    {
        self.places
            .iter()
            .find(|place| place.endpoint == endpoint && place.space == space)
    }

    /// Whether the space has an unreleased binding, at any endpoint.
    pub fn is_bound(&self, space: u64) -> bool
        ensures { result ≡ is_bound space self.now }
    {
        pasid_of(&self.bearers, space).is_some()
    }

    /// The space that bears the PASID, and how many bindings are under it; None where no space bears it, as 0 and each
    /// above 32.
    pub fn bearer(&self, pasid: u32) -> Option<Bearer>
        ensures { result ≡ bearer_of pasid self.now }
    {
        bearer_in(&self.bearers, pasid)
    }

    /// The PASID of a binding of the space that begins, of 1 to 32: the one that the space bears while it has an
    /// unreleased binding at any endpoint, else the lowest that no space bears. None exactly where the space bears none
    /// and all 32 are borne.
    pub fn lowest(&self, space: u64) -> Option<u32>
        ensures value { result ≡ lowest space self.now }
        ensures some { IfSome result (λ pasid. IsLowest space self.now pasid) }
        ensures none { IfNone result (IsOutOfPasids space self.now) }
    {
        lowest_in(&self.bearers, space)
    }

    /// Begins a binding of the space to the endpoint, `Live` under the PASID that `lowest` tells, and gives that PASID. An
    /// Err changes nothing. Each of the three is named by a number of the host's own, of 64 bits; no binding in the table
    /// has this one's.
    pub fn begin(&mut self, endpoint: u64, space: u64, binding: u64) -> Result<u32, AllocError>
        requires free { IsSome (lowest space self.old) }
        requires fresh { place_of binding self.old ≡ None }
        ensures pasid { IfOk result (λ pasid. lowest space self.old ≡ Some pasid) }
        ensures places { IfOk result (λ pasid. self.new ≡ self.old ++ begun endpoint space binding pasid ∷ []) }
        ensures err { OnErr result (self.new ≡ self.old) }
    {
        self.places.reserve(1)?;
        let Some(pasid) = lowest_in(&self.bearers, space) else {
            unreachable!();
        };
        self.bearers[pasid as usize] = raised(self.bearers[pasid as usize], space);
        self.places.push_reserved(TableEntry {
            endpoint,
            space,
            binding,
            pasid,
            stage: Some(Stage::Live(Live::new(binding, pasid))),
        });
        Ok(pasid)
    }

    /// Takes back a binding that has begun and of which nothing was sent yet: it is `Live`, and in its place. Its place
    /// goes, and its PASID is free if no other binding is under it. Where it was the last that began, the table is as it
    /// was before.
    pub fn take_back(&mut self, binding: u64)
        requires { IsLiveIn binding self.old }
        ensures { self.new ≡ without binding self.old }
    {
        match self.remove(binding) {
            Some(Stage::Live(live)) => live.take_back(),
            _other => unreachable!(),
        }
    }

    /// The endpoint, the space and the stage of the place with this index, in order of binding.
    pub fn at(&self, index: usize) -> (u64, u64, &Stage)
        requires { IsSomeAnd (slice_get self.now index) (λ place. IsSome place.stage) }
        ensures { IsSomeAnd (slice_get self.now index) (λ place. (result.0 ≡ place.endpoint)
            × (result.1 ≡ place.space)
            × (place.stage ≡ Some result.2.now)) }
    {
        let place = &self.places[index];
        let Some(stage) = &place.stage else {
            unreachable!();
        };
        (place.endpoint, place.space, stage)
    }

    /// Takes the stage of the binding in hand, and leaves its place empty. None, with nothing changed, where the table
    /// has no place of the binding or an empty one.
    pub fn take(&mut self, binding: u64) -> Option<Stage>
        ensures stage { result ≡ stage_of binding self.old }
        ensures places { self.new ≡ with_stage binding None self.old }
        ensures none { IfNone result (self.new ≡ self.old) }
        ensures awaits { IfSome result (λ stage. ((numbers_of stage).binding ≡ binding) × Awaits (numbers_of stage) self.new) }
    {
        let Some(index) = index_of(self.places.as_slice(), binding) else {
            return None;
        };
        self.places[index].stage.take()
    }

    /// Puts a stage back into the place of its binding, which is there and empty.
    pub fn put(&mut self, binding: u64, stage: Stage)
        requires own { (numbers_of stage).binding ≡ binding }
        requires awaits { Awaits (numbers_of stage) self.old }
        ensures { self.new ≡ with_stage binding (Some stage) self.old }
    {
        let Some(index) = index_of(self.places.as_slice(), binding) else {
            unreachable!();
        };
        let empty = self.places[index].stage.replace(stage);
        let None = empty else {
            unreachable!();
        };
    }

    /// Ends a binding: removes its place, which is there and empty. Its PASID is free if no other binding is under it.
    pub fn end(&mut self, released: Released)
        requires { Awaits released self.old }
        ensures { self.new ≡ without released.binding self.old }
    {
        let empty = self.remove(released.binding());
        let None = empty else {
            unreachable!();
        };
        released.spend();
    }

    /// Removes the place of the binding, which is there, and gives the stage that is in it.
    fn remove(&mut self, binding: u64) -> Option<Stage>
        requires { IsSome (place_of binding self.old) }
        ensures stage { result ≡ stage_of binding self.old }
        ensures places { self.new ≡ without binding self.old }
    {
        let Some(index) = index_of(self.places.as_slice(), binding) else {
            unreachable!();
        };
        let TableEntry {
            endpoint: _,
            space: _,
            binding: _,
            pasid,
            stage,
        } = self.places.remove(index);
        self.bearers[pasid as usize] = lowered(self.bearers[pasid as usize]);
        stage
    }

    /// A function level reset has emptied the endpoint: each of its bindings that has its stage in its place is `Lost`
    /// if it was `Live`, and `Quiet` if it was `Stopping`, `Draining` or `Invalidating`. All others stay.
    pub fn by_reset(&mut self, endpoint: u64)
        ensures { self.new ≡ after_reset endpoint self.old }
    {
        reset_each(self.places.as_mut_slice(), endpoint);
    }
}

/// The PASID of a binding of the space that begins.
fn lowest_in(bearers: &Bearers, space: u64) -> Option<u32>
    ensures { result ≡ option_or (pasid_in space bearers.now) (free_in bearers.now) }
{
    if let Some(pasid) = pasid_of(bearers, space) {
        return Some(pasid);
    }
    first_free(bearers)
}
