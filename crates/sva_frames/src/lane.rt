//! What the frames wait for at one unit.

ghost use Rattle.std.specs.Prelude.{◌≡◌, ◌↔◌, IsTrue, ℕ, Some, None, replicate, slice_get, slice_set, IfOk, IfSome, IfNone, cond, is_some};
ghost use Rattle.std.specs.Prelude.{◌<◌, List, Option, length, count_by};
ghost use Rattle.sva_frames.specs.declared.waits.Target.{Target};
ghost use Rattle.sva_frames.specs.declared.waits.TheConstants.{UNITS};
ghost use Rattle.sva_frames.specs.Room.{HasRoom};
ghost use Rattle.sva_frames.specs.Chains.{entered};

use crate::heads::Heads;
use crate::waits::{Target, UNITS};
use std::alloc::{AllocError, Global};
use std::marker::Model;

/// What a unit keeps of one frame: what the frame waits for there, and the next frame that waits for the same.
#[derive(Clone, Copy)]
pub struct Cell {
    pub(crate) target: Option<Target>,
    next: Option<u32>,
}

/// What frames wait for at one unit: a cell for each frame, and the first frame of each chain of cells.
///
/// Contracts see the list of targets, one a frame, where it has one.
#[derive(Drop)]
pub struct Lane {
    pub(crate) cells: Vec<Cell>,
    heads: Heads,
}

impl Model for Lane {
    ghost use Rattle.std.specs.Prelude.{List, Option, map};
    ghost use Rattle.sva_frames.specs.declared.waits.Target.{Target};
    ghost use Rattle.sva_frames.specs.Chains.{IsLane, target_of};

    ghost Value = { List (Option Target) };

    ghost view = { λ l. map target_of l.cells.items };

    ghost invariant = { λ l. IsLane l.cells.items l.heads };
}

impl Lane {
    /// That where none of so many frames waits for anything.
    pub(crate) fn open(alloc: Global, frames: u32) -> Result<Lane, AllocError>
        ensures { IfOk result (λ lane. lane ≡ replicate frames None) }
    {
        let unlinked = Cell {
            target: None,
            next: None,
        };
        Ok(Lane {
            cells: vec![in alloc; unlinked; frames as usize]?,
            heads: Heads::new(),
        })
    }

    /// Whether one frame more may wait for a target, if there is one.
    pub(crate) fn has_room(&self, target: Option<Target>) -> bool
        ensures { IsTrue result ↔ IfSome target (HasRoom self.now) }
    {
        match target {
            Some(target) => self.heads.has_place(target),
            None => true,
        }
    }

    /// Lets a frame that waits for nothing here wait for a target: it becomes the first of the target's chain.
    pub(crate) fn push(&mut self, frame: u32, target: Target)
        requires here { slice_get self.old frame ≡ Some None }
        requires room { HasRoom self.old target }
        ensures { self.new ≡ slice_set self.old frame (Some target) }
    {
        let next = self.heads.first(target);
        self.heads.set(target, Some(frame));
        self.cells[frame as usize] = Cell {
            target: Some(target),
            next,
        };
    }

    /// Lets a frame that waits for nothing here wait for a target, if there is one, and tells how many that are.
    pub(crate) fn enter(&mut self, frame: u32, target: Option<Target>) -> u8
        requires here { slice_get self.old frame ≡ Some None }
        requires room { IfSome target (HasRoom self.old) }
        ensures after { self.new ≡ slice_set self.old frame target }
        ensures count { result ≡ cond (is_some target) 1 0 }
    {
        match target {
            Some(target) => {
                self.push(frame, target);
                1
            }
            None => 0,
        }
    }

    /// Takes the first frame off the chain of a target, and tells which it is: it waits for nothing here any more.
    /// `None` where no frame waits for the target.
    pub(crate) fn pop(&mut self, target: Target) -> Option<u32>
        ensures none { IfNone result ((frame : ℕ) → slice_get self.old frame ≡ Some (Some target) → ⊥) }
        ensures kept { IfNone result (self.new ≡ self.old) }
        ensures some { IfSome result (λ frame. slice_get self.old frame ≡ Some (Some target)) }
        ensures after { IfSome result (λ frame. self.new ≡ slice_set self.old frame None) }
    {
        let frame = self.heads.first(target)?;
        let place = frame as usize;
        let next = self.cells[place].next;
        self.cells[place] = Cell {
            target: None,
            next: None,
        };
        self.heads.set(target, next);
        Some(frame)
    }
}

impl Lane {
    ghost use Rattle.sva_frames.specs.Chains.{IsWanted};

    /// Some target that a frame waits for.
    pub(crate) fn any_target(&self) -> Option<Target>
        ensures none { IfNone result ((frame : ℕ) (target : Target) → slice_get self.now frame ≡ Some (Some target) → ⊥) }
        ensures some { IfSome result (λ target. (frame : ℕ) × (slice_get self.now frame ≡ Some (Some target))) }
    {
        self.heads.any()
    }

    /// Takes the first frame off the chain of the wanted target, or of any, and tells which it is.
    pub(crate) fn pop_wanted(&mut self, wanted: Option<Target>) -> Option<u32>
        ensures none { IfNone result ((frame : ℕ) (target : Target) → IsWanted wanted target → slice_get self.old frame ≡ Some (Some target) → ⊥) }
        ensures kept { IfNone result (self.new ≡ self.old) }
        ensures some { IfSome result (λ frame. (target : Target) × IsWanted wanted target × (slice_get self.old frame ≡ Some (Some target))) }
        ensures after { IfSome result (λ frame. self.new ≡ slice_set self.old frame None) }
    {
        let target = match wanted {
            Some(target) => target,
            None => self.any_target()?,
        };
        self.pop(target)
    }
}

/// The lanes of all units, where none of so many frames waits for anything.
pub(crate) fn open_all(alloc: Global, frames: u32) -> Result<Vec<Lane>, AllocError>
    ensures { IfOk result (λ lanes. lanes.items ≡ replicate UNITS (replicate frames None)) }
{
    let mut lanes = Vec::with_capacity(alloc, UNITS)?;
    for unit in 0..UNITS {
        lanes.push(Lane::open(alloc, frames)?)?;
    }
    Ok(lanes)
}

/// Lets a frame that waits for nothing wait for a target at each lane, if there is one, and tells how many these are.
pub(crate) fn enter_all(lanes: &mut [Lane], frame: u32, targets: &[Option<Target>]) -> u8
    requires units { length lanes.old ≡ length targets.now }
    requires few { length targets.now < 256 }
    requires here { (unit : ℕ) (lane : List (Option Target)) → slice_get lanes.old unit ≡ Some lane → slice_get lane frame ≡ Some None }
    requires room { (unit : ℕ) (lane : List (Option Target)) (target : Target) → slice_get lanes.old unit ≡ Some lane
        → slice_get targets.now unit ≡ Some (Some target) → HasRoom lane target }
    ensures after { lanes.new ≡ entered frame targets.now lanes.old }
    ensures count { result ≡ count_by is_some targets.now }
{
    let mut left = 0;
    for (unit, lane) in lanes.iter_mut().enumerate() {
        left += lane.enter(frame, targets[unit]);
    }
    left
}
