//! The open page request groups of all units.

ghost use Rattle.std.specs.Prelude.{◌≡◌, Bool, ℕ, ◌+◌, ◌<◌, ◌≤◌, true, false, length, Some, None, IsOk, OnOk, OnErr, IfSome, IfNone, slice_index_or};
ghost use Rattle.slab.specs.Slab.{get, slab_len, ContainsKey, Updates};
ghost use Rattle.sva_prq.specs.Slots.{IsAt, IsTest, MayHold, passes_at, cell_of as cell_for};
ghost use Rattle.sva_prq.specs.Groups.{OpenGroup, no_groups, is_collecting, has_job, is_of_binding, is_of_unit, is_open, new_group, with_request};
ghost use Rattle.sva_prq.specs.Groups.{job_of, CanFile, filed, job_made, with_room, after_answer, without_unit};

use crate::jobs::{Ask, Job};
use arrayvec::ArrayVec;
use slab::Slab;
use std::alloc::{AllocError, Global};
use std::marker::Model;
use sva_msg::PageRequest;
use sva_step::{GROUPS, MOST_ENDPOINTS, PAGE_REQUESTS};

/// The cells of the table of unfinished groups: one for each index of each unit.
const CELLS: usize = MOST_ENDPOINTS * GROUPS;

/// A page request group that is filed in part or whole and not answered.
#[derive(Drop)]
pub struct Group {
    /// How many groups began before it. It tells the group from all others.
    pub(crate) serial: u64,
    pub(crate) unit: u64,
    pub(crate) binding: u64,
    pub(crate) index: u8,
    pub(crate) asks: ArrayVec<Ask, PAGE_REQUESTS>,
    /// The last request is filed, and the job is made.
    pub(crate) last: bool,
}

impl Model for Group {
    ghost use Rattle.sva_prq.specs.Groups.{OpenGroup};

    ghost Value = { OpenGroup };

    ghost view = { λ g. record {
      serial = g.serial;
      unit = g.unit;
      binding = g.binding;
      index = g.index;
      asks = g.asks.items;
      last = g.last;
    } };
}

impl Group {
    fn new(serial: u64, unit: u64, binding: u64, index: u8) -> Self
        ensures { result ≡ new_group serial unit binding index }
    {
        Group {
            serial,
            unit,
            binding,
            index,
            asks: ArrayVec::new(),
            last: false,
        }
    }

    fn is_collecting(&self, unit: u64, binding: u64, index: u8) -> bool
        ensures { result ≡ is_collecting unit binding index self.now }
    {
        self.unit == unit && self.binding == binding && self.index == index && !self.last
    }

    fn has_job(&self, serial: u64) -> bool
        ensures { result ≡ has_job serial self.now }
    {
        self.serial == serial && self.last
    }

    fn is_of_binding(&self, binding: u64) -> bool
        ensures { result ≡ is_of_binding binding self.now }
    {
        self.binding == binding
    }

    fn is_of_unit(&self, unit: u64) -> bool
        ensures { result ≡ is_of_unit unit self.now }
    {
        self.unit == unit
    }

    /// Files one request more, and makes the job if it is the last. The group is kept under this key.
    fn file(&mut self, request: PageRequest, key: usize) -> Option<Job>
        requires { length self.old.asks < 32 }
        ensures group { self.new ≡ with_request self.old request }
        ensures job { result ≡ job_of (with_request self.old request) }
    {
        self.asks.push(Ask {
            page: request.page,
            read: request.read,
            write: request.write,
        });
        self.last = request.last;
        if !self.last {
            return None;
        }
        Some(Job {
            unit: self.unit,
            binding: self.binding,
            index: self.index,
            asks: copied(&self.asks),
            serial: self.serial,
            key,
        })
    }
}

/// A copy that needs no memory.
pub(crate) fn copied(asks: &ArrayVec<Ask, PAGE_REQUESTS>) -> ArrayVec<Ask, PAGE_REQUESTS>
    ensures { result.items ≡ asks.now.items }
{
    let mut copy = ArrayVec::new();
    let Ok(()) = copy.try_extend_from_slice(asks.as_slice()) else {
        unreachable!()
    };
    copy
}

/// The cell of a unit and an index.
fn cell_of(unit: u64, index: u8) -> usize
    ensures cell { result ≡ cell_for unit index }
    ensures within { result < 256 }
{
    (unit % MOST_ENDPOINTS as u64) as usize * GROUPS + index as usize % GROUPS
}

/// The key of a group that passes the test, if there is one.
fn key_where<F: Fn(&Group) -> bool>(slots: &Slab<Group>, test: F) -> Option<usize>
    requires { F.IsAlwaysCallable test }
    ensures found { (passes : OpenGroup → Bool) → IsTest (F.post test) passes
        → IfSome result (λ key. passes_at passes (get slots.now key) ≡ true) }
    ensures absent { (passes : OpenGroup → Bool) → IsTest (F.post test) passes
        → IfNone result ((key : ℕ) → passes_at passes (get slots.now key) ≡ false) }
{
    for key in 0..slots.capacity() {
        if let Some(group) = slots.get(key) {
            if test(group) {
                return Some(key);
            }
        }
    }
    None
}

/// The key of the unfinished group of this unit, binding and index, if there is one among those to which its cell leads.
fn unfinished_key(
    slots: &Slab<Group>,
    cell: Option<usize>,
    unit: u64,
    binding: u64,
    index: u8,
) -> Option<usize>
    ensures found { IfSome result (λ key. passes_at (is_collecting unit binding index) (get slots.now key) ≡ true) }
    ensures absent { IfNone result ((key : ℕ) → MayHold cell key
        → passes_at (is_collecting unit binding index) (get slots.now key) ≡ false) }
{
    let Some(key) = cell else {
        return key_where(slots, |group| group.is_collecting(unit, binding, index));
    };
    match slots.get(key) {
        Some(group) if group.is_collecting(unit, binding, index) => Some(key),
        _ => None,
    }
}

/// The key of the group with this serial whose job is made, if there is one. A job of these groups has the key of its own
/// group; where that is at its end, or the job is of other groups, none is known to be there before all have been seen.
fn job_key(slots: &Slab<Group>, key: usize, serial: u64) -> Option<usize>
    ensures found { IfSome result (λ k. passes_at (has_job serial) (get slots.now k) ≡ true) }
    ensures absent { IfNone result ((k : ℕ) → passes_at (has_job serial) (get slots.now k) ≡ false) }
{
    match slots.get(key) {
        Some(group) if group.has_job(serial) => Some(key),
        _ => key_where(slots, |group| group.has_job(serial)),
    }
}

/// What a cell has once a group begins under a key: the key, if no other group of the cell can be unfinished.
fn next_cell(slots: &Slab<Group>, cell: Option<usize>, key: usize) -> Option<usize>
    ensures { IfSome result (λ k. (k ≡ key)
        × ((j : ℕ) → MayHold cell j → (g : OpenGroup) → IsAt slots.now.slots j g → g.last ≡ true)) }
{
    match slots.get(cell?) {
        Some(group) if !group.last => None,
        _ => Some(key),
    }
}

/// Files a request in the group under a key.
fn join(slots: &mut Slab<Group>, key: usize, request: PageRequest) -> Option<Job>
    requires there { ContainsKey slots.old key }
    requires room { (g : OpenGroup) → IsAt slots.old.slots key g → length g.asks < 32 }
    ensures group { (g : OpenGroup) → IsAt slots.old.slots key g
        → Updates slots.old slots.new key (Some (with_request g request)) }
    ensures job { (g : OpenGroup) → IsAt slots.old.slots key g → result ≡ job_of (with_request g request) }
    ensures len { slab_len slots.new ≡ slab_len slots.old }
    ensures capacity { slots.new.capacity ≡ slots.old.capacity }
{
    let Some(group) = slots.get_mut(key) else {
        unreachable!()
    };
    group.file(request, key)
}

/// Takes out all groups of a unit, and answers how many they were.
fn take_unit(slots: &mut Slab<Group>, unit: u64) -> usize
    ensures gone { (key : ℕ) → passes_at (is_of_unit unit) (get slots.old key) ≡ true → get slots.new key ≡ None }
    ensures kept { (key : ℕ) → passes_at (is_of_unit unit) (get slots.old key) ≡ false
        → get slots.new key ≡ get slots.old key }
    ensures count { slab_len slots.new + result ≡ slab_len slots.old }
    ensures capacity { slots.new.capacity ≡ slots.old.capacity }
{
    let mut count = 0;
    for key in 0..slots.capacity() {
        let is_of_unit = match slots.get(key) {
            Some(group) => group.is_of_unit(unit),
            None => false,
        };
        if is_of_unit {
            slots.remove(key);
            count += 1;
        }
    }
    count
}

/// The room once so many groups are gone from the slots.
fn room_after(slots: &Slab<Group>, room: usize, gone: usize) -> usize
    requires { slab_len slots.now + (room + gone) ≤ slots.now.capacity }
    ensures { result ≡ room + gone }
{
    // The sum is at most this.
    let _capacity = slots.capacity();
    room + gone
}

/// The page request groups that are open at the host, of all units: those that are filed in part or whole and not
/// answered. They are seen in the order in which they began, beside the number of groups that can begin without memory.
/// Only `reserve` takes memory.
///
/// To file and to answer costs what the group costs, however many others are open, as long as units are below 8, indexes
/// below 32, and a unit has no two unfinished groups of one index. `open_of` and `drop_unit` look at each open group once.
#[derive(Drop)]
pub struct Groups {
    pub(crate) slots: Slab<Group>,
    /// By unit and index, the key that any unfinished group of the cell has. A cell in which a group began while another
    /// was unfinished has none: then a search goes over all groups.
    cells: [Option<usize>; CELLS],
    /// How many groups more fit into `slots` as they are.
    room: usize,
    /// The serial of the next group that begins.
    next: u64,
}

impl Model for Groups {
    ghost use Rattle.std.specs.Prelude.{◌+◌, ◌≤◌};
    ghost use Rattle.slab.specs.Slab.{slab_len};
    ghost use Rattle.sva_prq.specs.Groups.{Groups as OpenGroups};

    ghost Value = { OpenGroups };

    ghost use Rattle.sva_prq.specs.Slots.{groups_in, AreKept};

    ghost view = { λ g. record { groups = groups_in g.slots.slots; room = g.room; next = g.next } };

    ghost invariant = { λ g. AreKept g.slots.slots g.cells g.next × (slab_len g.slots + g.room ≤ g.slots.capacity) };
}

impl Groups {
    /// No groups, and room for none.
    pub fn new(alloc: Global) -> Self
        ensures { result ≡ no_groups }
    {
        Groups {
            slots: Slab::new(alloc),
            cells: [Some(0); CELLS],
            room: 0,
            next: 0,
        }
    }

    /// Makes room for one group more, at this unit or another. An error changes nothing.
    pub fn reserve(&mut self, _unit: u64) -> Result<(), AllocError>
        ensures ok { OnOk result (self.new ≡ with_room self.old) }
        ensures err { OnErr result (self.new ≡ self.old) }
        ensures succeeds { 0 < self.old.room → IsOk result }
    {
        if self.room == 0 {
            self.slots.reserve(1)?;
            self.room = 1;
        }
        Ok(())
    }

    /// Files a page request that came at this unit under a binding: in the unfinished group of this unit, binding and
    /// index, or in a new one, for which `reserve` has made room. The last of a group makes its job.
    pub fn file(&mut self, unit: u64, binding: u64, request: PageRequest) -> Option<Job>
        requires { CanFile self.old unit binding request.index }
        ensures groups { self.new ≡ filed self.old unit binding request }
        ensures job { result ≡ job_made self.old unit binding request }
    {
        let place = cell_of(unit, request.index);
        let cell = self.cells[place];
        match unfinished_key(&self.slots, cell, unit, binding, request.index) {
            Some(key) => join(&mut self.slots, key, request),
            None => {
                let mut group = Group::new(self.next, unit, binding, request.index);
                let key = self.slots.vacant_key();
                let job = group.file(request, key);
                self.cells[place] = next_cell(&self.slots, cell, key);
                self.slots.insert_reserved(group);
                self.room -= 1;
                self.next += 1;
                job
            }
        }
    }

    /// A job is answered, or nobody waits for its answer: its group is at its end, if it is still there. No other group
    /// is, even of the same binding and index. The job leads to its group; only where that is gone the search goes over all.
    pub fn answered(&mut self, job: &Job)
        ensures { self.new ≡ after_answer self.old job.now.serial }
    {
        if let Some(key) = job_key(&self.slots, job.key, job.serial()) {
            self.slots.remove(key);
            self.room = room_after(&self.slots, self.room, 1);
        }
    }

    /// Whether the binding has a group that is neither answered nor dropped with its unit. A group whose job is made
    /// counts until its answer.
    pub fn open_of(&self, binding: u64) -> bool
        ensures { result ≡ is_open binding self.now }
    {
        key_where(&self.slots, |group| group.is_of_binding(binding)).is_some()
    }

    /// Ends all groups of a unit, those in part and those whose jobs are made.
    pub fn drop_unit(&mut self, unit: u64)
        ensures { self.new ≡ without_unit self.old unit }
    {
        let gone = take_unit(&mut self.slots, unit);
        self.room = room_after(&self.slots, self.room, gone);
    }
}
