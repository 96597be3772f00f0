//! Where each frame is, and at how many units it still waits.

ghost use Rattle.std.specs.Prelude.{◌≡◌, ◌<◌, ◌≤◌, ◌+◌, ◌^◌, Some, Bool, IfOk, replicate, cond, length, position, count_by, slice_get, slice_set};

use crate::free::FreeSet;
use crate::pool::{Counts, Place};
use std::alloc::{AllocError, Global};
use std::marker::Model;

/// Where a frame is, and at how many units a withheld one still waits.
#[derive(Clone, Copy)]
pub enum Stage {
    Free,
    Mapped,
    Withheld(u8),
}

impl Stage {
    ghost use Rattle.sva_frames.specs.Stages.{is_free_stage, is_mapped_stage, is_withheld_stage, lowered, stage_of, stage_place};

    /// That of a frame which is in no space and still waits at so many units.
    pub(crate) fn of(left: u8) -> Stage
        ensures { result ≡ stage_of left }
    {
        if left == 0 {
            Stage::Free
        } else {
            Stage::Withheld(left)
        }
    }

    /// That once one of its waits is settled.
    pub(crate) fn lowered(self) -> Stage
        ensures { result ≡ lowered self }
    {
        match self {
            Stage::Withheld(left) if left > 1 => Stage::Withheld(left - 1),
            Stage::Withheld(_) => Stage::Free,
            Stage::Free | Stage::Mapped => self,
        }
    }

    /// Where its frame is.
    pub(crate) fn place(self) -> Place
        ensures { result ≡ stage_place self }
    {
        match self {
            Stage::Free => Place::Free,
            Stage::Mapped => Place::Mapped,
            Stage::Withheld(_) => Place::Withheld,
        }
    }

    /// Whether its frame is in the pool, to be taken.
    pub(crate) fn is_free(self) -> bool
        ensures { result ≡ is_free_stage self }
    {
        matches!(self, Stage::Free)
    }

    /// Whether its frame was handed out.
    pub(crate) fn is_mapped(self) -> bool
        ensures { result ≡ is_mapped_stage self }
    {
        matches!(self, Stage::Mapped)
    }

    /// Whether its frame waits at some unit.
    pub(crate) fn is_withheld(self) -> bool
        ensures { result ≡ is_withheld_stage self }
    {
        matches!(self, Stage::Withheld(_))
    }
}

/// The stage of each frame, the set of those that are free, and how many frames are at each place.
///
/// Contracts see the list of stages.
#[derive(Drop)]
pub struct Ledger {
    stages: Vec<Stage>,
    free: FreeSet,
    counts: Counts,
}

impl Model for Ledger {
    ghost use Rattle.std.specs.Prelude.{List};
    ghost use Rattle.sva_frames.specs.declared.ledger.Stage.{Stage};
    ghost use Rattle.sva_frames.specs.Stages.{IsLedger};

    ghost Value = { List Stage };

    ghost view = { λ l. l.stages.items };

    ghost invariant = { λ l. IsLedger l.stages.items l.free l.counts };
}

impl Ledger {
    ghost use Rattle.sva_frames.specs.declared.ledger.Stage.TheVariants.{Free};
    ghost use Rattle.sva_frames.specs.Stages.{is_free_stage, is_mapped_stage, is_withheld_stage};

    /// That of so many free frames.
    pub(crate) fn open(alloc: Global, frames: u32) -> Result<Ledger, AllocError>
        ensures { IfOk result (λ ledger. ledger ≡ replicate frames Free) }
    {
        let free = FreeSet::below(alloc, frames)?;
        Ok(Ledger {
            stages: vec![in alloc; Stage::Free; frames as usize]?,
            free,
            counts: Counts {
                free: frames,
                mapped: 0,
                withheld: 0,
            },
        })
    }

    /// How many frames there are.
    pub(crate) fn len(&self) -> usize
        ensures { result ≡ length self.now }
    {
        self.stages.len()
    }

    /// The stage of a frame.
    pub(crate) fn get(&self, frame: usize) -> Stage
        requires { frame < length self.now }
        ensures { slice_get self.now frame ≡ Some result }
    {
        self.stages[frame]
    }

    /// Brings a frame to a stage.
    pub(crate) fn set(&mut self, frame: usize, stage: Stage)
        requires { frame < length self.old }
        ensures { self.new ≡ slice_set self.old frame stage }
    {
        let old = self.stages[frame];
        self.counts.free = moved(self.counts.free, old.is_free(), stage.is_free());
        self.counts.mapped = moved(self.counts.mapped, old.is_mapped(), stage.is_mapped());
        self.counts.withheld = moved(self.counts.withheld, old.is_withheld(), stage.is_withheld());
        self.free.put(frame, stage.is_free());
        self.stages[frame] = stage;
    }

    /// The lowest frame that is free.
    pub(crate) fn first_free(&self) -> Option<usize>
        ensures { result ≡ position is_free_stage self.now }
    {
        self.free.lowest()
    }

    /// How many frames are at each place.
    pub(crate) fn counts(&self) -> Counts
        ensures free { result.free ≡ count_by is_free_stage self.now }
        ensures mapped { result.mapped ≡ count_by is_mapped_stage self.now }
        ensures withheld { result.withheld ≡ count_by is_withheld_stage self.now }
    {
        self.counts
    }
}

/// A count after one frame that it had or hadn't counted is to be counted or not.
fn moved(count: u32, was: bool, is: bool) -> u32
    requires counted { cond was 1 0 ≤ count }
    requires fits { count + cond is 1 0 < 2 ^ 32 + cond was 1 0 }
    ensures { result + cond was 1 0 ≡ count + cond is 1 0 }
{
    count - u32::from(was) + u32::from(is)
}
