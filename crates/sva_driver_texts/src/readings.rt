//! What is read of a driver, line by line.

ghost use Rattle.std.specs.Prelude.{◌≡◌, ◌==◌, ◌++◌, ◌∷◌, [], IfOk, Some, is_some, length, map, nat_lt, option_map};
ghost use Rattle.std.specs.Prelude.{replicate, slice_get, slice_set, true};
ghost use Rattle.std.specs.List.{list_any};
ghost use Rattle.std.specs.Str.{bytes_eq};
ghost use Rattle.sva_driver_words.specs.Says.{is_lock_word};
ghost use Rattle.sva_driver_words.specs.Sayings.{saying_seen};
ghost use Rattle.sva_driver_words.specs.Taking.{Gives};
ghost use Rattle.sva_driver_texts.specs.Devices.{device_seen, items_of, setting_line, untold};
ghost use Rattle.sva_driver_texts.specs.Readings as readings;
ghost use Rattle.sva_driver_texts.specs.Units as below;

use crate::blocks::Block;
use crate::kept_of_endpoints::DeviceRead;
use crate::names::{judge_name, own, role_of};
use crate::settings::setting_line;
use crate::units::{units_of, units_or_own};
use std::alloc::{AllocError, Global};
use std::marker::Model;
use sva_driver_words::{DriverStop, DriverWrong, LineRead, Under, put_fault, read_saying};
use sva_open::{Budget, Link, Saying, Settings, Stopped, Timeouts, Workers};
use sva_race_texts::{joined, word_at};
use sva_script::{Names, is};
use sva_step::Config;

/// What is read.
#[derive(Drop)]
pub struct Reading {
    /// The thread of the heading above; empty where there is none.
    pub heading: Vec<u8>,
    /// Whether `race` was read.
    pub is_race: bool,
    /// The lines of acts, those before `race` too.
    pub lines: Vec<LineRead>,
    /// How many of them stand before `race`.
    pub before: usize,
    /// The locks that they name.
    pub locks: Vec<Vec<u8>>,
    /// The flags that they name.
    pub flags: Vec<Vec<u8>>,
    /// The blocks that are open, the outermost of a thread first.
    pub blocks: Vec<Block>,
    /// The settings.
    pub settings: Settings,
    /// The words of those that were said.
    pub set: Vec<Vec<u8>>,
    /// The units of endpoints, where some share one.
    pub units: Vec<usize>,
    /// What workers answer, if that was said.
    pub workers: Option<Workers>,
    /// What each endpoint was told.
    pub devices: Vec<DeviceRead>,
    /// What is wrong with the lines.
    pub said: Vec<u8>,
    /// The numbers of these.
    pub told: Vec<u64>,
}

impl Model for Reading {
    ghost use Rattle.std.specs.Prelude.{map};
    ghost use Rattle.sva_driver_words.specs.Awaits.{line_seen};
    ghost use Rattle.sva_driver_texts.specs.Blocks.{block_seen};
    ghost use Rattle.sva_driver_texts.specs.Devices.{device_seen};
    ghost use Rattle.sva_driver_texts.specs.Readings as readings;

    ghost Value = { readings.Reading };

    ghost view = { λ reading. record {
      heading = reading.heading.items;
      is_race = reading.is_race;
      lines = map line_seen reading.lines.items;
      before = reading.before;
      locks = map (λ lock. lock.items) reading.locks.items;
      flags = map (λ flag. flag.items) reading.flags.items;
      blocks = map block_seen reading.blocks.items;
      settings = reading.settings;
      set = map (λ word. word.items) reading.set.items;
      units = reading.units.items;
      workers = reading.workers;
      devices = map device_seen reading.devices.items;
      said = reading.said.items;
      told = reading.told.items;
    } };
}

/// An endpoint that was told nothing.
pub(crate) fn untold() -> DeviceRead
    ensures { device_seen result ≡ untold }
{
    DeviceRead {
        is_told: false,
        budget: Budget {
            asks: 0,
            uses: 0,
            faults: 0,
        },
        pages: None,
        evicts: false,
        is_silent: false,
        lies: false,
        awaits: false,
        leaves: false,
    }
}

/// Replaces what was kept of an endpoint.
fn replace(device: &mut DeviceRead, told: DeviceRead)
    ensures { device_seen device.new ≡ device_seen told }
{
    *device = told;
}

/// Keeps what an endpoint was told, if there is such a one.
fn put_device(devices: &mut Vec<DeviceRead>, endpoint: usize, told: DeviceRead)
    ensures { map device_seen devices.new.items
        ≡ slice_set (map device_seen devices.old.items) endpoint (device_seen told) }
{
    if endpoint < devices.len() {
        replace(&mut devices[endpoint], told);
    }
}

fn all_untold(alloc: Global, count: usize) -> Result<Vec<DeviceRead>, AllocError>
    ensures { IfOk result (λ devices. map device_seen devices.items ≡ replicate count untold) }
{
    let mut devices = Vec::new(alloc);
    for _endpoint in 0..count {
        devices.push(untold())?;
    }
    Ok(devices)
}

/// Whether a word is among words that are kept.
pub(crate) fn is_among(words: &[Vec<u8>], word: &[u8]) -> bool
    ensures { result ≡ list_any (λ own. bytes_eq own.items word.now) words.now }
{
    words.iter().any(|own| is(own.as_slice(), word))
}

/// Whether a word begins the line of a lock.
fn is_lock_word(word: &[u8]) -> bool
    ensures { result ≡ is_lock_word word.now }
{
    is(word, b"lock") || is(word, b"unlock")
}

impl Reading {
    /// Nothing is read yet of a driver with this config.
    pub fn nothing(alloc: Global, config: &Config) -> Result<Self, AllocError>
        ensures { IfOk result (λ reading. reading ≡ readings.nothing config.now) }
    {
        Ok(Reading {
            heading: Vec::new(alloc),
            is_race: false,
            lines: Vec::new(alloc),
            before: 0,
            locks: Vec::new(alloc),
            flags: Vec::new(alloc),
            blocks: Vec::new(alloc),
            settings: Settings {
                link: Link::Free,
                all_fence: true,
                drain_empties: true,
                refuses_drain: false,
                is_loose: false,
                has_caches: false,
                stopped: Stopped::Marker,
                allows_no_group: false,
                has_workers: false,
                clears_controls: false,
                timeouts: Timeouts::Off,
                places: None,
            },
            set: Vec::new(alloc),
            units: Vec::new(alloc),
            workers: None,
            devices: all_untold(alloc, config.endpoints as usize)?,
            said: Vec::new(alloc),
            told: Vec::new(alloc),
        })
    }

    /// The thread of a line of an act with these words.
    pub(crate) fn thread_of(&self, alloc: Global, step: &[&[u8]]) -> Result<Vec<u8>, AllocError>
        ensures { IfOk result (λ thread. thread.items
            ≡ readings.thread_of self.now (map (λ word. word.now) step.now)) }
    {
        if !self.is_race {
            return Ok(Vec::new(alloc));
        }
        if self.heading.is_empty() {
            return role_of(alloc, word_at(step, 0), word_at(step, 1));
        }
        Vec::from_slice(alloc, self.heading.as_slice())
    }

    /// Whether something was told of a line.
    fn is_told_of(&self, line: u64) -> bool
        ensures { result ≡ list_any (λ own. own == line) self.now.told }
    {
        self.told.iter().any(|own| *own == line)
    }

    /// Tells that a line is wrong, unless something was told of it: it may be written out several times.
    pub(crate) fn tell(
        &mut self,
        wrong: &DriverWrong,
        line: u64,
        words: &[&[u8]],
        names: &Names,
    ) -> Result<(), AllocError>
        ensures { IfOk result (λ _. self.new
            ≡ readings.with_fault self.old names.now line (map (λ word. word.now) words.now) wrong.now) }
    {
        if self.is_told_of(line) {
            return Ok(());
        }
        put_fault(&mut self.said, wrong, line, words, names)?;
        self.told.push(line)?;
        Ok(())
    }

    /// The lines that follow stand under this heading.
    pub(crate) fn head(&mut self, alloc: Global, name: &[u8]) -> Result<(), AllocError>
        ensures { IfOk result (λ _. self.new ≡ record self.old { heading = name.now }) }
    {
        let own = Vec::from_slice(alloc, name)?;
        self.heading = own;
        Ok(())
    }

    /// Adds a line of an act.
    fn push_line(
        &mut self,
        number: u64,
        under: Vec<Under>,
        name: Vec<u8>,
        thread: Vec<u8>,
        text: Vec<u8>,
        saying: Saying,
    ) -> Result<(), AllocError>
        ensures { IfOk result (λ _. self.new ≡ record self.old {
          lines = self.old.lines ++ (record {
            number = number;
            under = under.items;
            name = name.items;
            thread = thread.items;
            text = text.items;
            saying = saying_seen saying;
          }) ∷ [];
        }) }
    {
        self.lines.push(LineRead {
            number,
            under,
            name,
            thread,
            text,
            saying,
        })?;
        Ok(())
    }

    /// Whether a line's name is one, and no line above has it; it is no word behind `await`.
    pub(crate) fn judge_name(&self, name: Option<&[u8]>) -> Result<(), DriverWrong>
        ensures { result ≡ readings.name_judged self.now.lines (option_map (λ name. name.now) name.entry) }
    {
        judge_name(self.lines.as_slice(), name)
    }

    /// What the words of an act say that stands in these blocks, or what is wrong with them by their own places.
    fn saying_under(
        &self,
        alloc: Global,
        config: &Config,
        under: &[Under],
        thread: &[u8],
        words: &[&[u8]],
    ) -> Result<Saying, DriverStop>
        ensures { Gives saying_seen (readings.saying_under config.now self.now under.now thread.now
            (map (λ word. word.now) words.now)) result }
    {
        read_saying(
            alloc,
            config,
            self.units.as_slice(),
            self.lines.as_slice(),
            self.locks.as_slice(),
            self.flags.as_slice(),
            under,
            thread,
            words,
            word_at(words, 0),
        )
    }

    /// What the words of an act say, or what is wrong with them by their own places.
    pub(crate) fn saying_in(
        &self,
        alloc: Global,
        config: &Config,
        thread: &[u8],
        words: &[&[u8]],
    ) -> Result<Saying, DriverStop>
        ensures { Gives saying_seen (readings.saying_in config.now self.now thread.now
            (map (λ word. word.now) words.now)) result }
    {
        let under = match self.under_of(alloc, thread) {
            Ok(under) => under,
            Err(_) => return Err(DriverStop::Memory),
        };
        self.saying_under(alloc, config, under.as_slice(), thread, words)
    }

    /// Notes the lock that a line names.
    fn note_lock(&mut self, alloc: Global, words: &[&[u8]]) -> Result<(), AllocError>
        ensures { IfOk result (λ _. self.new ≡ readings.with_lock_of self.old (map (λ word. word.now) words.now)) }
    {
        if is_lock_word(word_at(words, 0)) && !self.has_lock(word_at(words, 1)) {
            return self.push_lock(alloc, word_at(words, 1));
        }
        Ok(())
    }

    /// Adds the line of an act, and notes what it names or opens.
    pub(crate) fn add(
        &mut self,
        alloc: Global,
        number: u64,
        name: Option<&[u8]>,
        thread: Vec<u8>,
        words: &[&[u8]],
        saying: Saying,
    ) -> Result<(), AllocError>
        ensures { IfOk result (λ _. self.new ≡ readings.with_line self.old number
            (readings.name_of (option_map (λ name. name.now) name.entry)) thread.items
            (map (λ word. word.now) words.now) (saying_seen saying)) }
    {
        let under = self.under_of(alloc, thread.as_slice())?;
        let own = own(alloc, name)?;
        let text = joined(alloc, words)?;
        self.note_lock(alloc, words)?;
        self.note_flag(alloc, words)?;
        self.note_block(alloc, thread.as_slice(), number, words)?;
        self.push_line(number, under, own, thread, text, saying)
    }

    /// Whether a line of an act was read.
    pub(crate) fn has_lines(&self) -> bool
        ensures { result ≡ nat_lt 0 (length self.now.lines) }
    {
        self.lines.len() > 0
    }

    /// How many lines of acts were read.
    pub(crate) fn count(&self) -> usize
        ensures { result ≡ length self.now.lines }
    {
        self.lines.len()
    }

    /// The lines that follow stand behind `race`.
    pub(crate) fn set_race(&mut self)
        ensures { self.new ≡ record self.old { is_race = true; before = length self.old.lines } }
    {
        let before = self.count();
        self.is_race = true;
        self.before = before;
    }

    /// Whether it was said what workers answer.
    pub(crate) fn has_workers(&self) -> bool
        ensures { result ≡ is_some self.now.workers }
    {
        self.workers.is_some()
    }

    /// Workers answer so.
    pub(crate) fn set_workers(&mut self, workers: Workers)
        ensures { self.new ≡ record self.old { workers = Some workers } }
    {
        self.workers = Some(workers);
    }

    /// The settings with the one that a line says.
    pub(crate) fn setting_in(&self, words: &[&[u8]]) -> Result<Settings, DriverWrong>
        ensures { result ≡ setting_line self.now.settings (map (λ word. word.now) words.now) }
    {
        setting_line(self.settings, words)
    }

    /// Adds a lock.
    fn push_lock(&mut self, alloc: Global, name: &[u8]) -> Result<(), AllocError>
        ensures { IfOk result (λ _. self.new ≡ record self.old { locks = self.old.locks ++ name.now ∷ [] }) }
    {
        let own = Vec::from_slice(alloc, name)?;
        self.locks.push(own)?;
        Ok(())
    }

    /// Whether a line above names a lock.
    fn has_lock(&self, name: &[u8]) -> bool
        ensures { result ≡ list_any (λ own. bytes_eq own name.now) self.now.locks }
    {
        is_among(self.locks.as_slice(), name)
    }

    /// Whether a line of an endpoint was read.
    pub(crate) fn is_told(&self, endpoint: usize) -> bool
        ensures { result ≡ readings.is_told (slice_get self.now.devices endpoint) }
    {
        match self.devices.get(endpoint) {
            None => false,
            Some(device) => device.is_told,
        }
    }

    /// Keeps what an endpoint was told.
    pub(crate) fn set_device(&mut self, endpoint: usize, told: DeviceRead)
        ensures { self.new ≡ record self.old { devices = slice_set self.old.devices endpoint (device_seen told) } }
    {
        put_device(&mut self.devices, endpoint, told);
    }

    /// Whether a setting was said that begins by this word.
    pub(crate) fn is_set(&self, word: &[u8]) -> bool
        ensures { result ≡ list_any (readings.is_word word.now) self.now.set }
    {
        is_among(self.set.as_slice(), word)
    }

    /// Whether a setting was said.
    pub(crate) fn has_settings(&self) -> bool
        ensures { result ≡ nat_lt 0 (length self.now.set) }
    {
        self.set.len() > 0
    }

    /// Keeps settings, of which one begins by this word.
    pub(crate) fn set_settings(
        &mut self,
        alloc: Global,
        settings: Settings,
        word: &[u8],
    ) -> Result<(), AllocError>
        ensures { IfOk result (λ _. self.new ≡ record self.old {
          settings = settings;
          set = self.old.set ++ word.now ∷ [];
        }) }
    {
        let own = Vec::from_slice(alloc, word)?;
        self.set.push(own)?;
        self.settings = settings;
        Ok(())
    }
    /// The units of endpoints behind a line that says it of some.
    pub(crate) fn units_in(
        &self,
        alloc: Global,
        config: &Config,
        words: &[&[u8]],
    ) -> Result<Vec<usize>, DriverStop>
        ensures { Gives items_of (below.units_of config.now (below.units_or_own config.now self.now.units)
            (map (λ word. word.now) words.now)) result }
    {
        match units_or_own(alloc, config, self.units.as_slice()) {
            Ok(own) => units_of(alloc, config, own, words),
            Err(_) => Err(DriverStop::Memory),
        }
    }

    /// Keeps the units of endpoints, which a line has said that begins by this word.
    pub(crate) fn set_units(
        &mut self,
        alloc: Global,
        units: Vec<usize>,
        word: &[u8],
    ) -> Result<(), AllocError>
        ensures { IfOk result (λ _. self.new ≡ record self.old {
          units = units.items;
          set = self.old.set ++ word.now ∷ [];
        }) }
    {
        let own = Vec::from_slice(alloc, word)?;
        self.set.push(own)?;
        self.units = units;
        Ok(())
    }
}
