//! The journal, and the world to which it leads.

ghost use Rattle.std.specs.Prelude.{◌≡◌, ◌≢◌, ◌↔◌, ◌+◌, ◌^◌, ◌<◌, ◌≤◌, true, false, length, slice_get, IfOk, IfErr, OnErr, Some, Err};
ghost use Rattle.sva_step.specs.declared.refusals.Refusal.TheVariants as refusal;
ghost use Rattle.sva_step.specs.Limits.{Fits};
ghost use Rattle.sva_core.specs.Reached.{IsOpenRefusal};
ghost use Rattle.sva_refinement.specs.Tallies.{binds, releases, begins, ends};
ghost use Rattle.sva_core.specs.Journal.{IsLegal, entry_of, answer_of, with_entry, empty_of, CountsFollow, CountsOf, bindings_of, uses_of};
ghost use Rattle.sva_core.specs.Receipts.{Stands};
ghost use Rattle.sva_core.specs.Suiting.{Suits};

use crate::comparing::is_same_entry;
use crate::receipts::Receipt;
use crate::world::World;
use std::alloc::{AllocError, Global};
use std::marker::Model;
use sva_frames::Counts;
use sva_step::{Answer, Config, Refusal, Step};

/// One call: which port asked, what, and what was answered.
#[derive(Clone, Copy, Debug, PartialEq, Eq)]
pub struct Entry {
    /// The number of the port.
    pub port: u64,
    /// The step that was asked.
    pub step: Step,
    /// What was answered: a refusal is an answer too.
    pub answer: Result<Answer, Refusal>,
}

/// A world with its journal. Contracts see the config and the entries; the world is the one to which they lead.
#[derive(Drop)]
pub struct Journaled {
    config: Config,
    world: World,
    entries: Vec<Entry>,
    /// How many bindings are unreleased, and how many use slots are taken.
    bindings: u64,
    uses: u64,
}

impl Model for Journaled {
    ghost use Rattle.std.specs.Prelude.{◌≡◌, ◌≤◌, length};
    ghost use Rattle.sva_model.specs.Wire.{wire};
    ghost use Rattle.sva_refinement.specs.Tallies.{unreleased, slots_taken};
    ghost use Rattle.sva_core.specs.Journal.{History, IsLegal, world_of};

    ghost Value = { History };

    ghost view = { λ j. record { config = j.config; entries = j.entries.items } };

    ghost invariant = { λ j. IsLegal (record { config = j.config; entries = j.entries.items })
        × (j.world ≡ wire (world_of (record { config = j.config; entries = j.entries.items })))
        × (j.bindings ≡ unreleased j.world) × (j.bindings ≤ length j.entries.items)
        × (j.uses ≡ slots_taken j.world) × (j.uses ≤ length j.entries.items) };
}

impl Journaled {
    /// A new world of a config, of which nothing was asked. A config out of its limits is `BadConfig`; the only other refusal is
    /// `OutOfMemory`.
    pub fn open(alloc: Global, config: Config) -> Result<Journaled, Refusal>
        ensures ok { IfOk result (λ j. (Fits config) × (j ≡ empty_of config)) }
        ensures bad { (result ≡ Err refusal.BadConfig) ↔ (Fits config → ⊥) }
        ensures memory { IfErr result IsOpenRefusal }
    {
        let world = World::open(alloc, config)?;
        Ok(Journaled {
            config,
            world,
            entries: Vec::new(alloc),
            bindings: 0,
            uses: 0,
        })
    }

    /// Takes one step for a port, and notes it with its answer. A refusal is noted too, but where memory lacks nothing changes:
    /// the journal grows before the world takes the step.
    pub fn perform(&mut self, port: u64, step: &Step) -> Result<Entry, AllocError>
        ensures entry { IfOk result (λ e. e ≡ entry_of port step.now (answer_of self.old step.now)) }
        ensures journal { IfOk result (λ e. self.new ≡ with_entry self.old e) }
        ensures suits { IfOk result (λ e. Suits step.now e.answer) }
        ensures follow { IfOk result (λ e. CountsFollow self.old self.new e.answer) }
        ensures err { OnErr result (self.new ≡ self.old) }
        ensures legal { IsLegal self.new }
    {
        self.entries.reserve(1)?;
        let answer = self.world.apply(step);
        if is_out_of_memory(&answer) {
            return Err(AllocError);
        }
        let entry = Entry {
            port,
            step: *step,
            answer,
        };
        let noted = entry;
        self.entries.push_reserved(noted);
        self.bindings = bindings_after(self.bindings, &answer);
        self.uses = uses_after(self.uses, &answer);
        Ok(entry)
    }

    /// How many bindings are unreleased.
    pub fn bindings(&self) -> u64
        ensures count { result ≡ bindings_of self.now }
        ensures legal { IsLegal self.now }
    {
        let Journaled { bindings, .. } = self;
        *bindings
    }

    /// How many use slots are taken, those of uses that a reset ended among them.
    pub fn uses(&self) -> u64
        ensures count { result ≡ uses_of self.now }
        ensures legal { IsLegal self.now }
    {
        let Journaled { uses, .. } = self;
        *uses
    }

    /// How many calls the journal has.
    pub fn calls(&self) -> u64
        ensures calls { result ≡ length self.now.entries }
        ensures legal { IsLegal self.now }
    {
        self.entries.len() as u64
    }

    /// The entry at a place, if the journal is that long.
    pub fn at(&self, place: u64) -> Option<Entry>
        ensures entry { result ≡ slice_get self.now.entries place }
        ensures legal { IsLegal self.now }
    {
        self.entries.get(place as usize).copied()
    }

    /// Tells that this very entry stands at a place.
    pub fn has(&self, place: u64, entry: &Entry) -> bool
        ensures yes { result ≡ true → slice_get self.now.entries place ≡ Some entry.now }
        ensures no { result ≡ false → slice_get self.now.entries place ≢ Some entry.now }
        ensures legal { IsLegal self.now }
    {
        match self.at(place) {
            Some(found) => is_same_entry(&found, entry),
            None => false,
        }
    }

    /// Tells that a receipt stands at its place, as a call of this port.
    pub fn stands(&self, port: u64, receipt: &Receipt) -> bool
        ensures yes { result ≡ true → Stands self.now.entries port receipt.now }
        ensures no { result ≡ false → Stands self.now.entries port receipt.now → ⊥ }
        ensures legal { IsLegal self.now }
    {
        let told = Entry {
            port,
            step: receipt.step,
            answer: receipt.answer,
        };
        self.has(receipt.place, &told)
    }

    /// How many frames are free, mapped and withheld.
    pub fn counts(&self) -> Counts
        ensures counts { CountsOf self.now result }
        ensures legal { IsLegal self.now }
    {
        self.world.counts()
    }
}

/// How many bindings there are behind an answer.
fn bindings_after(before: u64, answer: &Result<Answer, Refusal>) -> u64
    requires room { before + 1 < 2 ^ 64 }
    requires some { releases answer.now ≤ before + binds answer.now }
    ensures count { result + releases answer.now ≡ before + binds answer.now }
    ensures few { result ≤ before + 1 }
{
    match answer {
        Ok(Answer::Binding { .. }) => before + 1,
        Ok(Answer::Released) => before - 1,
        _ => before,
    }
}

/// How many use slots are taken behind an answer.
fn uses_after(before: u64, answer: &Result<Answer, Refusal>) -> u64
    requires room { before + 1 < 2 ^ 64 }
    requires some { ends answer.now ≤ before + begins answer.now }
    ensures count { result + ends answer.now ≡ before + begins answer.now }
    ensures few { result ≤ before + 1 }
{
    match answer {
        Ok(Answer::Use { .. }) => before + 1,
        Ok(Answer::Ended | Answer::Dead) => before - 1,
        _ => before,
    }
}

/// Tells that memory lacked.
fn is_out_of_memory(answer: &Result<Answer, Refusal>) -> bool
    ensures yes { result ≡ true → answer.now ≡ Err refusal.OutOfMemory }
    ensures no { result ≡ false → answer.now ≢ Err refusal.OutOfMemory }
{
    matches!(answer, Err(Refusal::OutOfMemory))
}
