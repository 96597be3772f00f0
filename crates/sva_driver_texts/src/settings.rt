//! The settings of a driver, and its workers.

ghost use Rattle.std.specs.Prelude.{◌≡◌, map};
ghost use Rattle.sva_driver_texts.specs.Devices as devices;

use sva_driver_words::{DriverWanted, DriverWrong, has_word, judge_end, places_at, says, wrong_at};
use sva_open::{Link, Settings, Stopped, Timeouts, Workers};
use sva_script::is;

/// Whether it begins a setting.
pub(crate) fn is_setting(word: &[u8]) -> bool
    ensures { result ≡ devices.is_setting word.now }
{
    is(word, b"platform")
        || is(word, b"link")
        || is(word, b"waits")
        || is(word, b"drain")
        || is(word, b"caches")
        || is(word, b"stopped")
        || is(word, b"enables")
        || is(word, b"timeouts")
        || is(word, b"refuses")
        || is(word, b"allow")
        || is(word, b"places")
        || is(word, b"unit")
        || is(word, b"order")
}

/// The five settings of a platform.
fn platform_set(settings: Settings, words: &[&[u8]]) -> Result<Settings, DriverWrong>
    ensures { result ≡ devices.platform_set settings (map (λ word. word.now) words.now) }
{
    if says(words, 1, b"vt-d") {
        return Ok(Settings {
            link: Link::Posted,
            all_fence: false,
            drain_empties: false,
            has_caches: true,
            is_loose: true,
            ..settings
        });
    }
    if says(words, 1, b"free") {
        return Ok(Settings {
            link: Link::Free,
            all_fence: true,
            drain_empties: true,
            has_caches: false,
            is_loose: false,
            ..settings
        });
    }
    Err(wrong_at(1, DriverWanted::Platform))
}

fn link_set(settings: Settings, words: &[&[u8]]) -> Result<Settings, DriverWrong>
    ensures { result ≡ devices.link_set settings (map (λ word. word.now) words.now) }
{
    if says(words, 1, b"free") {
        return Ok(Settings {
            link: Link::Free,
            ..settings
        });
    }
    if says(words, 1, b"posted") {
        return Ok(Settings {
            link: Link::Posted,
            ..settings
        });
    }
    Err(wrong_at(1, DriverWanted::Link))
}

fn waits_set(settings: Settings, words: &[&[u8]]) -> Result<Settings, DriverWrong>
    ensures { result ≡ devices.waits_set settings (map (λ word. word.now) words.now) }
{
    if says(words, 1, b"fence") {
        return Ok(Settings {
            all_fence: true,
            ..settings
        });
    }
    if says(words, 1, b"plain") {
        return Ok(Settings {
            all_fence: false,
            ..settings
        });
    }
    Err(wrong_at(1, DriverWanted::Waits))
}

fn drain_set(settings: Settings, words: &[&[u8]]) -> Result<Settings, DriverWrong>
    ensures { result ≡ devices.drain_set settings (map (λ word. word.now) words.now) }
{
    if says(words, 1, b"empty") {
        return Ok(Settings {
            drain_empties: true,
            ..settings
        });
    }
    if says(words, 1, b"arrived") {
        return Ok(Settings {
            drain_empties: false,
            ..settings
        });
    }
    Err(wrong_at(1, DriverWanted::Drain))
}

fn caches_set(settings: Settings, words: &[&[u8]]) -> Result<Settings, DriverWrong>
    ensures { result ≡ devices.caches_set settings (map (λ word. word.now) words.now) }
{
    if says(words, 1, b"off") {
        return Ok(Settings {
            has_caches: false,
            ..settings
        });
    }
    if says(words, 1, b"on") {
        return Ok(Settings {
            has_caches: true,
            ..settings
        });
    }
    Err(wrong_at(1, DriverWanted::Caches))
}

fn stopped_set(settings: Settings, words: &[&[u8]]) -> Result<Settings, DriverWrong>
    ensures { result ≡ devices.stopped_set settings (map (λ word. word.now) words.now) }
{
    if says(words, 1, b"marker") {
        return Ok(Settings {
            stopped: Stopped::Marker,
            ..settings
        });
    }
    if says(words, 1, b"status") {
        return Ok(Settings {
            stopped: Stopped::Status,
            ..settings
        });
    }
    if says(words, 1, b"known") {
        return Ok(Settings {
            stopped: Stopped::Known,
            ..settings
        });
    }
    Err(wrong_at(1, DriverWanted::Stopped))
}

/// What becomes of ATS, page requests and bus mastering by a reset.
fn enables_set(settings: Settings, words: &[&[u8]]) -> Result<Settings, DriverWrong>
    ensures { result ≡ devices.enables_set settings (map (λ word. word.now) words.now) }
{
    if says(words, 1, b"kept") {
        return Ok(Settings {
            clears_controls: false,
            ..settings
        });
    }
    if says(words, 1, b"cleared") {
        return Ok(Settings {
            clears_controls: true,
            ..settings
        });
    }
    Err(wrong_at(1, DriverWanted::Enables))
}

/// What becomes of an invalidation that isn't answered.
fn timeouts_set(settings: Settings, words: &[&[u8]]) -> Result<Settings, DriverWrong>
    ensures { result ≡ devices.timeouts_set settings (map (λ word. word.now) words.now) }
{
    if says(words, 1, b"off") {
        return Ok(Settings {
            timeouts: Timeouts::Off,
            ..settings
        });
    }
    if says(words, 1, b"on") {
        return Ok(Settings {
            timeouts: Timeouts::On,
            ..settings
        });
    }
    if says(words, 1, b"stop") {
        return Ok(Settings {
            timeouts: Timeouts::Stop,
            ..settings
        });
    }
    Err(wrong_at(1, DriverWanted::Timeouts))
}

fn refuses_set(settings: Settings, words: &[&[u8]]) -> Result<Settings, DriverWrong>
    ensures { result ≡ devices.refuses_set settings (map (λ word. word.now) words.now) }
{
    if says(words, 1, b"drain") {
        return Ok(Settings {
            refuses_drain: true,
            ..settings
        });
    }
    Err(wrong_at(1, DriverWanted::Refused))
}

/// In which order units take descriptors.
fn order_set(settings: Settings, words: &[&[u8]]) -> Result<Settings, DriverWrong>
    ensures { result ≡ devices.order_set settings (map (λ word. word.now) words.now) }
{
    if says(words, 1, b"queue") {
        return Ok(Settings {
            is_loose: false,
            ..settings
        });
    }
    if says(words, 1, b"loose") {
        return Ok(Settings {
            is_loose: true,
            ..settings
        });
    }
    Err(wrong_at(1, DriverWanted::Taken))
}

fn allow_set(settings: Settings, words: &[&[u8]]) -> Result<Settings, DriverWrong>
    ensures { result ≡ devices.allow_set settings (map (λ word. word.now) words.now) }
{
    if says(words, 1, b"no-group") {
        return Ok(Settings {
            allows_no_group: true,
            ..settings
        });
    }
    Err(wrong_at(1, DriverWanted::Allowed))
}

/// How many places the page request queue of each unit has.
fn places_set(settings: Settings, words: &[&[u8]]) -> Result<Settings, DriverWrong>
    ensures { result ≡ devices.places_set settings (map (λ word. word.now) words.now) }
{
    let places = places_at(words, 1)?;
    Ok(Settings {
        places: Some(places),
        ..settings
    })
}

/// What a reset leaves, what runs out of time, the order of descriptors, the settings that are no pair, or else by what
/// endpoints say that they have stopped.
fn set_other(settings: Settings, words: &[&[u8]]) -> Result<Settings, DriverWrong>
    ensures { result ≡ devices.set_other settings (map (λ word. word.now) words.now) }
{
    if says(words, 0, b"enables") {
        return enables_set(settings, words);
    }
    if says(words, 0, b"timeouts") {
        return timeouts_set(settings, words);
    }
    if says(words, 0, b"order") {
        return order_set(settings, words);
    }
    if says(words, 0, b"refuses") {
        return refuses_set(settings, words);
    }
    if says(words, 0, b"allow") {
        return allow_set(settings, words);
    }
    if says(words, 0, b"places") {
        return places_set(settings, words);
    }
    stopped_set(settings, words)
}

fn set(settings: Settings, words: &[&[u8]]) -> Result<Settings, DriverWrong>
    ensures { result ≡ devices.set settings (map (λ word. word.now) words.now) }
{
    if says(words, 0, b"platform") {
        return platform_set(settings, words);
    }
    if says(words, 0, b"link") {
        return link_set(settings, words);
    }
    if says(words, 0, b"waits") {
        return waits_set(settings, words);
    }
    if says(words, 0, b"drain") {
        return drain_set(settings, words);
    }
    if says(words, 0, b"caches") {
        return caches_set(settings, words);
    }
    set_other(settings, words)
}

/// The settings with the one that a line says.
pub(crate) fn setting_line(settings: Settings, words: &[&[u8]]) -> Result<Settings, DriverWrong>
    ensures { result ≡ devices.setting_line settings (map (λ word. word.now) words.now) }
{
    let more = set(settings, words)?;
    judge_end(words, 2)?;
    Ok(more)
}

/// Workers with one code more.
fn with_code(at: usize, workers: Workers, words: &[&[u8]]) -> Result<Workers, DriverWrong>
    ensures { result ≡ devices.with_code at workers (map (λ word. word.now) words.now) }
{
    if says(words, at, b"success") {
        return Ok(Workers {
            answer: true,
            ..workers
        });
    }
    if says(words, at, b"invalid") {
        return Ok(Workers {
            answer: true,
            ..workers
        });
    }
    if says(words, at, b"failure") {
        return Ok(Workers {
            fail: true,
            ..workers
        });
    }
    Err(wrong_at(at, DriverWanted::Code))
}

/// The workers of a line.
pub(crate) fn workers_of(words: &[&[u8]]) -> Result<Workers, DriverWrong>
    ensures { result ≡ devices.workers_of (map (λ word. word.now) words.now) }
{
    if !has_word(words, 1) {
        return Err(wrong_at(1, DriverWanted::Code));
    }
    let mut workers = Workers {
        are_there: true,
        answer: false,
        fail: false,
    };
    for at in 1..words.len() {
        match with_code(at, workers, words) {
            Ok(more) => workers = more,
            Err(wrong) => return Err(wrong),
        }
    }
    Ok(workers)
}
