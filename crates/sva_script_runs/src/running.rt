//! A script that is run, line by line.

ghost use Rattle.std.specs.Prelude.{◌≡◌, ◌↔◌, IfErr, IfOk, IfSome, Err, Ok, None, Some, [], map, option_map};
ghost use Rattle.sva_step.specs.declared.answers.Answer.{Answer};
ghost use Rattle.sva_step.specs.declared.refusals.Refusal.TheVariants as refusal;
ghost use Rattle.sva_model.specs.Claims.{Fits};
ghost use Rattle.sva_labels.specs.Host.{first_wire};
ghost use Rattle.sva_address_spaces.specs.Steps.{Counted};
ghost use Rattle.sva_core.specs.Reached.{IsOpenRefusal};
ghost use Rattle.sva_parts_by_labels.specs.Flights.{kind_seen};
ghost use Rattle.sva_script.specs.Lines.{parts_of};
ghost use Rattle.sva_script.specs.Names.{given_of};
ghost use Rattle.sva_script_reading.specs.Messages.{link_of};
ghost use Rattle.sva_script_runs.specs.Runs.{Applies, IsNamed, Takes, came_of, delivered_by, message_of};
ghost use Rattle.sva_script_runs.specs.Runs.{none_taken, sent_of};

use crate::in_world::InWorld;
use std::alloc::Global;
use std::marker::Model;
use sva_core::World;
use sva_frames::Counts;
use sva_msg::Kind;
use sva_script::{Given, Names, Stop, Told, name_in};
use sva_script_reading::read_line;
use sva_step::{Answer, Config, Refusal, Step};

/// What came of a step.
#[derive(Clone, Copy)]
pub struct Taken {
    /// The step.
    pub step: Step,
    /// What it was answered, and the messages that it sent.
    pub told: Told,
    /// What it delivered, if it delivered a message.
    pub delivered: Option<Kind>,
    /// The first message that it sent, if it sent one.
    pub first_sent: Option<Kind>,
}

impl Taken {
    /// A place for what comes of steps, of which none was taken yet.
    pub fn new() -> Self
        ensures { result ≡ none_taken }
    {
        Taken {
            step: Step::Space,
            told: Told {
                reply: Err(Refusal::OutOfMemory),
                first: 0,
                next: 0,
            },
            delivered: None,
            first_sent: None,
        }
    }
}

/// What came of a line.
#[derive(Clone, Copy)]
pub enum Came {
    /// Its step was taken.
    Step,
    /// It is the last line, `end => ..`, which has no step.
    End,
}

/// A world with the names of the lines that led to it.
#[derive(Drop)]
pub struct Run {
    world: World,
    names: Names,
}

impl Model for Run {
    ghost use Rattle.sva_script_runs.specs.Runs.{Running};

    ghost Value = { Running };

    ghost view = { λ run. record { seen = run.world; known = run.names } };
}

impl Run {
    /// A world in which nothing has happened, and no names. A config out of its limits is `BadConfig`; the only other
    /// refusal is `OutOfMemory`.
    pub fn open(alloc: Global, config: Config) -> Result<Run, Refusal>
        ensures ok { IfOk result (λ run. Fits config × (run ≡ record { seen = first_wire config; known = [] })) }
        ensures bad { (result ≡ Err refusal.BadConfig) ↔ (Fits config → ⊥) }
        ensures memory { IfErr result IsOpenRefusal }
    {
        match World::open(alloc, config) {
            Ok(world) => Ok(Run {
                world,
                names: Names::new(alloc),
            }),
            Err(refusal) => Err(refusal),
        }
    }

    /// The names so far.
    pub fn names(&self) -> &Names
        ensures { result.now ≡ self.now.known }
    {
        &self.names
    }

    /// The world.
    pub fn world(&self) -> &World
        ensures { result.now ≡ self.now.seen }
    {
        &self.world
    }

    /// How many frames are free, mapped and withheld.
    pub fn counts(&self) -> Counts
        ensures { Counted self.now.seen.places result }
    {
        self.world.counts()
    }

    /// Resolves a line, and takes its step, unless it is the last. `plain` is then the line of a scenario that it
    /// stands for, `expected` the answer that it expects, a space before each word, or nothing, and behind a step
    /// `taken` what came of that. A line that is wrong changes nothing. After `Memory` neither the world nor the names
    /// are of use.
    pub fn take(
        &mut self,
        alloc: Global,
        line: u64,
        words: &[&[u8]],
        plain: &mut Vec<u8>,
        expected: &mut Vec<u8>,
        taken: &mut Taken,
    ) -> Result<Came, Stop>
        ensures { Takes self.old line (parts_of (map (λ word. word.now) words.now)) self.new
            plain.new.items expected.new.items (came_of taken.new result) }
    {
        let flights = InWorld { world: &self.world };
        match read_line(&self.names, &flights, words, plain, expected) {
            Ok(None) => Ok(Came::End),
            Ok(Some(step)) => match self.apply(&step, taken) {
                Ok(()) => match self.name(alloc, line, name_in(words), &taken.told) {
                    Ok(()) => Ok(Came::Step),
                    Err(stop) => Err(stop),
                },
                Err(stop) => Err(stop),
            },
            Err(stop) => Err(stop),
        }
    }

    /// Notes what a line came to under its name, which no line has yet.
    fn name(
        &mut self,
        alloc: Global,
        line: u64,
        name: Option<&[u8]>,
        told: &Told,
    ) -> Result<(), Stop>
        requires { IfSome name (λ name. given_of name.now self.old.known ≡ None) }
        ensures { IsNamed self.old line (option_map (λ name. name.now) name.entry) told.now self.new result }
    {
        let Some(name) = name else {
            return Ok(());
        };
        let given = Given {
            line,
            told: Some(*told),
        };
        match self.names.put(alloc, name, given) {
            Ok(()) => Ok(()),
            Err(_) => Err(Stop::Memory),
        }
    }

    /// Takes a step. What came of it is then in `taken`.
    fn apply(&mut self, step: &Step, taken: &mut Taken) -> Result<(), Stop>
        ensures { Applies self.old step.now self.new taken.new result }
    {
        let delivered = self.delivered_by(step);
        let first = self.world.next_message();
        let reply: Result<Answer, Refusal> = self.world.apply(step);
        if matches!(reply, Err(Refusal::OutOfMemory)) {
            return Err(Stop::Memory);
        }
        let next = self.world.next_message();
        let delivered = if reply.is_ok() { delivered } else { None };
        let first_sent = self.sent(next.saturating_sub(first));
        taken.step = *step;
        taken.told.reply = reply;
        taken.told.first = first;
        taken.told.next = next;
        taken.delivered = delivered;
        taken.first_sent = first_sent;
        Ok(())
    }

    /// The message that a step delivers where it is accepted.
    fn delivered_by(&self, step: &Step) -> Option<Kind>
        ensures { (answer : Answer) → option_map kind_seen result ≡ delivered_by (link_of (Some self.now.seen)) (Ok answer) step.now }
    {
        match step {
            Step::Deliver { message } => self.kind_of(*message),
            _ => None,
        }
    }

    /// The first of so many messages that were sent last.
    fn sent(&self, sent: u64) -> Option<Kind>
        ensures { option_map kind_seen result ≡ sent_of (link_of (Some self.now.seen)) sent }
    {
        match self
            .world
            .message(self.world.messages().saturating_sub(sent as usize))
        {
            Some((_, message)) => Some(message.kind),
            None => None,
        }
    }

    /// The kind of a message in flight.
    fn kind_of(&self, number: u64) -> Option<Kind>
        ensures { option_map kind_seen result ≡ message_of (link_of (Some self.now.seen)) number }
    {
        match self.world.message_of(number) {
            Some(message) => Some(message.kind),
            None => None,
        }
    }
}
