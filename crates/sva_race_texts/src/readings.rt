//! What is read of a race, line by line.

ghost use Rattle.std.specs.Prelude.{◌≡◌, ◌+◌, ◌<◌, ◌^◌, [], ◌∷◌, ◌++◌, IfOk, None, Some, if◌then◌else◌, is_some};
ghost use Rattle.std.specs.Prelude.{length, map, nat_lt, option_map, replicate, slice_index_or, slice_set};
ghost use Rattle.sva_script_reading.specs.Reading.{ReadsLine};
ghost use Rattle.sva_race_texts.specs.Conditions.{condition_of};
ghost use Rattle.sva_race_texts.specs.Seen.{condition_seen, line_seen};
ghost use Rattle.sva_race_texts.specs.TakingWords.{Gives};
ghost use Rattle.sva_race_texts.specs.Claims.{with_claim, with_literals};
ghost use Rattle.sva_race_texts.specs.Devices.{device_seen, line_if};
ghost use Rattle.sva_race_texts.specs.Readings.{asked_seen, claim_seen, last_of, nothing};
ghost use Rattle.sva_race_texts.specs.Readings.{with_fault};
ghost use Rattle.sva_race_texts.specs.Threads.{line_said, thread_of, with_line};

use crate::claims::{is_of_ends, read_condition};
use crate::devices::DeviceLine;
use crate::faults::{RaceStop, RaceWrong, put_fault};
use crate::kept::Asked;
use crate::literals::{Literals, add_condition};
use crate::roles::{actor_of, role_of};
use crate::terms::{Claim, Line, Literal, Verdicts};
use crate::words::joined;
use std::alloc::{AllocError, Global};
use std::marker::Model;
use sva_script::{Names, is};
use sva_script_reading::{Desk, read_line_words};
use sva_step::Config;

/// What is read.
#[derive(Drop)]
pub struct Reading {
    /// The thread of the heading above, if there is one.
    pub(crate) heading: Option<Vec<u8>>,
    /// The lines, those before the race too.
    pub(crate) lines: Vec<Line>,
    /// Of each line, its thread; before the race it has no name.
    pub(crate) threads: Vec<Vec<u8>>,
    /// How workers answer, if that was said.
    pub(crate) verdicts: Option<Verdicts>,
    /// Of each endpoint, what the line of its device says, if it has one.
    pub(crate) devices: Vec<Option<DeviceLine>>,
    /// The claims.
    pub(crate) claims: Vec<Claim>,
    /// Of each claim, its words.
    pub(crate) asked: Vec<Asked>,
    /// What is asked of literals.
    pub(crate) literals: Literals,
    /// What is wrong with the lines.
    pub(crate) said: Vec<u8>,
}

impl Model for Reading {
    ghost use Rattle.std.specs.Prelude.{map, option_map};
    ghost use Rattle.sva_race_texts.specs.Seen.{line_seen};
    ghost use Rattle.sva_race_texts.specs.Devices.{line_if};
    ghost use Rattle.sva_race_texts.specs.Readings as readings;

    ghost Value = { readings.Reading };

    ghost view = { λ reading. record {
      heading = option_map (λ name. name.items) reading.heading;
      lines = map line_seen reading.lines.items;
      threads = map (λ name. name.items) reading.threads.items;
      verdicts = reading.verdicts;
      devices = map line_if reading.devices.items;
      claims = map readings.claim_seen reading.claims.items;
      asked = map readings.asked_seen reading.asked.items;
      literals = readings.literals_seen reading.literals;
      said = reading.said.items;
    } };
}

/// No line of a device, for so many endpoints.
fn no_devices(alloc: Global, count: usize) -> Result<Vec<Option<DeviceLine>>, AllocError>
    ensures { IfOk result (λ list. map line_if list.items ≡ replicate count None) }
{
    let mut list = Vec::new(alloc);
    for _place in 0..count {
        list.push(None)?;
    }
    Ok(list)
}

/// Whether an endpoint has a line of its device.
fn has_line(devices: &[Option<DeviceLine>], endpoint: usize) -> bool
    ensures { result ≡ is_some (slice_index_or devices.now endpoint None) }
{
    matches!(devices.get(endpoint), Some(Some(_)))
}

/// An endpoint has this line of its device, if there is such a one.
fn set_line(devices: &mut Vec<Option<DeviceLine>>, endpoint: usize, device: DeviceLine)
    ensures { devices.new.items ≡ slice_set devices.old.items endpoint (Some device) }
{
    if endpoint < devices.len() {
        devices[endpoint] = Some(device);
    }
}

/// The place where it is one more, and else the one found before.
fn later(found: Option<usize>, is_one: bool, place: usize) -> Option<usize>
    ensures { result ≡ (if is_one then Some place else found) }
{
    if is_one { Some(place) } else { found }
}

/// The place of a thread's last line.
fn last_of(thread: &[u8], threads: &[Vec<u8>]) -> Option<usize>
    ensures { result ≡ last_of thread.now (map (λ name. name.items) threads.now) }
{
    let mut found = None;
    for place in 0..threads.len() {
        found = later(found, is(threads[place].as_slice(), thread), place);
    }
    found
}

/// A name of its own.
fn own(alloc: Global, name: Option<&[u8]>) -> Result<Option<Vec<u8>>, AllocError>
    ensures { IfOk result (λ own. option_map (λ name. name.items) own ≡ option_map (λ name. name.now) name.entry) }
{
    match name {
        Some(name) => Ok(Some(Vec::from_slice(alloc, name)?)),
        None => Ok(None),
    }
}

/// A line behind another one of its thread.
fn line_from(
    alloc: Global,
    number: u64,
    after: Option<usize>,
    name: Option<&[u8]>,
    is_try: bool,
    step: &[&[u8]],
) -> Result<Line, AllocError>
    ensures { IfOk result (λ line. line_seen line ≡ line_said number after (option_map (λ name. name.now) name.entry)
        is_try (map (λ word. word.now) step.now)) }
{
    Ok(Line {
        number,
        after,
        name: own(alloc, name)?,
        is_try,
        text: joined(alloc, step)?,
        actor: actor_of(step),
    })
}

impl Reading {
    /// Nothing is read yet of a race with this config, which is within its limits.
    pub(crate) fn nothing(alloc: Global, config: &Config) -> Result<Self, AllocError>
        ensures { IfOk result (λ reading. reading ≡ nothing config.now) }
    {
        Ok(Reading {
            heading: None,
            lines: Vec::new(alloc),
            threads: Vec::new(alloc),
            verdicts: None,
            devices: no_devices(alloc, config.endpoints as usize)?,
            claims: Vec::new(alloc),
            asked: Vec::new(alloc),
            literals: Literals {
                claims: Vec::new(alloc),
                asked: Vec::new(alloc),
            },
            said: Vec::new(alloc),
        })
    }

    /// The place of a thread's last line.
    fn last_of(&self, thread: &[u8]) -> Option<usize>
        ensures { result ≡ last_of thread.now self.now.threads }
    {
        last_of(thread, self.threads.as_slice())
    }

    /// Adds a line of this thread.
    fn push_line(&mut self, line: Line, thread: Vec<u8>) -> Result<(), AllocError>
        ensures { IfOk result (λ _. self.new ≡ record self.old {
          lines = self.old.lines ++ line_seen line ∷ [];
          threads = self.old.threads ++ thread.items ∷ [];
        }) }
    {
        self.lines.push(line)?;
        self.threads.push(thread)?;
        Ok(())
    }

    /// Adds a line of a thread.
    pub(crate) fn add_line(
        &mut self,
        alloc: Global,
        number: u64,
        name: Option<&[u8]>,
        is_try: bool,
        step: &[&[u8]],
        thread: Vec<u8>,
    ) -> Result<(), AllocError>
        ensures { IfOk result (λ _. self.new
            ≡ with_line self.old number (option_map (λ name. name.now) name.entry) is_try
            (map (λ word. word.now) step.now) thread.items) }
    {
        let after = self.last_of(thread.as_slice());
        let line = line_from(alloc, number, after, name, is_try, step)?;
        self.push_line(line, thread)
    }

    /// The thread of a line with this step: that of the heading above it, or of its role.
    pub(crate) fn thread_of(&self, alloc: Global, step: &[&[u8]]) -> Result<Vec<u8>, AllocError>
        ensures { IfOk result (λ thread. thread.items ≡ thread_of self.now (map (λ word. word.now) step.now)) }
    {
        match &self.heading {
            Some(name) => Vec::from_slice(alloc, name.as_slice()),
            None => role_of(alloc, step),
        }
    }

    /// The lines that follow stand under this heading.
    pub(crate) fn head(&mut self, alloc: Global, name: &[u8]) -> Result<(), AllocError>
        ensures { IfOk result (λ _. self.new ≡ record self.old { heading = Some name.now }) }
    {
        let own = Vec::from_slice(alloc, name)?;
        self.heading = Some(own);
        Ok(())
    }

    /// Whether it was said how workers answer.
    pub(crate) fn has_verdicts(&self) -> bool
        ensures { result ≡ is_some self.now.verdicts }
    {
        self.verdicts.is_some()
    }

    /// Workers answer so.
    pub(crate) fn set_verdicts(&mut self, verdicts: Verdicts)
        ensures { self.new ≡ record self.old { verdicts = Some verdicts } }
    {
        self.verdicts = Some(verdicts);
    }

    /// Whether an endpoint has a line of its device.
    pub(crate) fn has_device(&self, endpoint: usize) -> bool
        ensures { result ≡ is_some (slice_index_or self.now.devices endpoint None) }
    {
        has_line(self.devices.as_slice(), endpoint)
    }

    /// An endpoint has this line of its device, if there is such a one.
    pub(crate) fn set_device(&mut self, endpoint: usize, device: DeviceLine)
        ensures { self.new ≡ record self.old {
          devices = slice_set self.old.devices endpoint (Some (device_seen device));
        } }
    {
        set_line(&mut self.devices, endpoint, device);
    }

    /// How many lines were read.
    pub(crate) fn count(&self) -> usize
        ensures { result ≡ length self.now.lines }
    {
        self.lines.len()
    }

    /// Whether a claim was read.
    pub(crate) fn has_claims(&self) -> bool
        ensures { result ≡ nat_lt 0 (length self.now.claims) }
    {
        self.claims.len() > 0
    }

    /// A condition over the lines that were read; its words begin at `at`.
    pub(crate) fn condition(
        &self,
        alloc: Global,
        config: Config,
        names: &Names,
        words: &[&[u8]],
        at: usize,
    ) -> Result<Vec<Vec<Literal>>, RaceStop>
        requires { at + length words.now + 4 < 2 ^ 64 }
        ensures { Gives condition_seen (condition_of config names.now self.now.lines at
            (map (λ word. word.now) words.now)) result }
    {
        read_condition(alloc, config, names, self.lines.as_slice(), words, at)
    }

    /// Adds a claim.
    fn push_claim(&mut self, claim: Claim, asked: Asked) -> Result<(), AllocError>
        ensures { IfOk result (λ _. self.new ≡ record self.old {
          claims = self.old.claims ++ claim_seen claim ∷ [];
          asked = self.old.asked ++ asked_seen asked ∷ [];
        }) }
    {
        self.claims.push(claim)?;
        self.asked.push(asked)?;
        Ok(())
    }

    /// Adds a claim with these words.
    pub(crate) fn add_claim(
        &mut self,
        alloc: Global,
        words: &[&[u8]],
        claim: Claim,
    ) -> Result<(), AllocError>
        ensures { IfOk result (λ _. self.new ≡ with_claim self.old (map (λ word. word.now) words.now)
            claim.claiming (condition_seen claim.condition)) }
    {
        let asked = Asked {
            text: joined(alloc, words)?,
            is_of_ends: is_of_ends(words),
        };
        self.push_claim(claim, asked)
    }

    /// Asks of the literals of a condition that stand beside others, of a claim with this line.
    pub(crate) fn add_literals(
        &mut self,
        alloc: Global,
        config: Config,
        names: &Names,
        line: u64,
        is_of_ends: bool,
        words: &[&[u8]],
    ) -> Result<(), AllocError>
        ensures { IfOk result (λ _. self.new
            ≡ with_literals config names.now self.old line is_of_ends (map (λ word. word.now) words.now)) }
    {
        add_condition(
            alloc,
            config,
            names,
            self.lines.as_slice(),
            line,
            is_of_ends,
            words,
            &mut self.literals,
        )
    }

    /// Tells that a line is wrong.
    pub(crate) fn tell(
        &mut self,
        wrong: &RaceWrong,
        line: u64,
        words: &[&[u8]],
        names: &Names,
    ) -> Result<(), AllocError>
        ensures { IfOk result (λ _. self.new
            ≡ with_fault self.old names.now line (map (λ word. word.now) words.now) wrong.now) }
    {
        put_fault(&mut self.said, wrong, line, words, names)
    }

    /// Tells what is wrong with a line of a script, whose words are on the desk; is the script's last line behind it?
    pub(crate) fn tell_script(
        &mut self,
        alloc: Global,
        number: u64,
        has_ended: bool,
        names: &mut Names,
        desk: &mut Desk<'_>,
    ) -> Result<bool, AllocError>
        ensures line { IfOk result (λ ended. ReadsLine names.old has_ended number
            (map (λ word. word.now) desk.old.words.items) names.new ended self.old.said self.new.said) }
        ensures only { IfOk result (λ _. self.new ≡ record self.old { said = self.new.said }) }
    {
        read_line_words(alloc, number, has_ended, names, desk, &mut self.said)
    }
}
