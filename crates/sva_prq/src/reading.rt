//! What is read of page requests, open groups and jobs beside the oldest.

ghost use Rattle.std.specs.Prelude.{◌≡◌, ◌≤◌, length, position, slice_get, option_copied, OnOk, IfOk};
ghost use Rattle.sva_prq.specs.Slots.{is_behind, placed, groups_in};

use crate::group_table::{Group, Groups, copied};
use crate::job_table::JobTable;
use crate::jobs::{Ask, Job};
use crate::page_queue::PageQueue;
use slab::Slab;
use std::alloc::{AllocError, Global};
use sva_msg::PageRequest;

impl PageQueue {
    /// How many requests wait: at most 32.
    pub fn len(&self) -> usize
        ensures len { result ≡ length self.now }
        ensures most { result ≤ 32 }
    {
        self.waiting.len()
    }

    /// The request at a place, the oldest at 0; none behind the last one.
    pub fn at(&self, place: usize) -> Option<PageRequest>
        ensures { result ≡ slice_get self.now place }
    {
        match self.waiting.get(place) {
            Some(arrival) => Some(arrival.request),
            None => None,
        }
    }
}

impl Group {
    /// The number of the unit at which its requests came.
    pub fn unit(&self) -> u64
        ensures { result ≡ self.now.unit }
    {
        self.unit
    }

    /// The number of the binding under which its requests were filed.
    pub fn binding(&self) -> u64
        ensures { result ≡ self.now.binding }
    {
        self.binding
    }

    /// The Page Request Group Index under which its requests came.
    pub fn index(&self) -> u8
        ensures { result ≡ self.now.index }
    {
        self.index
    }

    /// What its requests ask for, in order of filing: at most 32.
    pub fn asks(&self) -> &[Ask]
        ensures asks { result.now ≡ self.now.asks }
        ensures most { length result.now ≤ 32 }
    {
        self.asks.as_slice()
    }

    /// Whether its last request is filed.
    pub fn is_whole(&self) -> bool
        ensures { result ≡ self.now.last }
    {
        self.last
    }

    /// Whether it began after the group with this serial.
    fn is_after(&self, serial: u64) -> bool
        ensures { result ≡ is_behind serial self.now }
    {
        serial < self.serial
    }

    /// A copy, which needs no memory.
    fn again(&self) -> Group
        ensures { result ≡ self.now }
    {
        Group {
            serial: self.serial,
            unit: self.unit,
            binding: self.binding,
            index: self.index,
            asks: copied(&self.asks),
            last: self.last,
        }
    }
}

/// The place of the first of these that began after the group.
fn place_for(groups: &[Group], group: &Group) -> Option<usize>
    ensures { result ≡ position (is_behind group.now.serial) groups.now }
{
    let serial = group.serial;
    groups.iter().position(|other| other.is_after(serial))
}

/// Puts a group among others that stand by rising serial, in its place.
fn put(groups: &mut Vec<Group>, group: Group) -> Result<(), AllocError>
    ensures { OnOk result (groups.new.items ≡ placed group groups.old.items) }
{
    match place_for(groups.as_slice(), &group) {
        Some(place) => {
            if groups.insert(place, group).is_err() {
                return Err(AllocError);
            }
            Ok(())
        }
        None => {
            groups.push(group)?;
            Ok(())
        }
    }
}

/// The groups in these slots, by rising serial.
fn in_order(alloc: Global, slots: &Slab<Group>) -> Result<Vec<Group>, AllocError>
    ensures { IfOk result (λ groups. groups.items ≡ groups_in slots.now.slots) }
{
    let mut groups = Vec::new(alloc);
    let mut key = slots.capacity();
    while key > 0 {
        key -= 1;
        if let Some(group) = slots.get(key) {
            put(&mut groups, group.again())?;
        }
    }
    Ok(groups)
}

impl Groups {
    /// Copies of the open groups of all units, in the order in which they began.
    pub fn list(&self, alloc: Global) -> Result<Vec<Group>, AllocError>
        ensures { IfOk result (λ groups. groups.items ≡ self.now.groups) }
    {
        in_order(alloc, &self.slots)
    }
}

impl JobTable {
    /// The open groups.
    pub fn groups(&self) -> &Groups
        ensures { result.now ≡ self.now.groups }
    {
        &self.groups
    }

    /// What is in the hand of each worker, of 0 to 3.
    pub fn hands(&self) -> &[Option<Job>]
        ensures { result.now ≡ self.now.hands }
    {
        self.hands.as_slice()
    }

    /// The job at a place of the queue, the oldest at 0; none behind the last one.
    pub fn job(&self, place: usize) -> Option<&Job>
        ensures { option_copied result ≡ slice_get self.now.jobs place }
    {
        self.jobs.get(place)
    }
}
