//! The lines of what is awaited.

ghost use Rattle.std.specs.Prelude.{◌≡◌, ◌<◌, if◌then◌else◌, length, map, position, slice_get, IfSome, None, Some};
ghost use Rattle.std.specs.List.{list_all, list_any};
ghost use Rattle.sva_driver_words.specs.Awaits as awaits;
ghost use Rattle.sva_driver_words.specs.Awaits.{line_seen};
ghost use Rattle.sva_driver_words.specs.Sayings.{act_seen, read_seen, saying_seen};
ghost use Rattle.sva_open.specs.declared.acts.Act.TheVariants as variants;

use crate::faults::{BranchWanted, DriverWanted, DriverWrong, judge_end, wrong_at};
use crate::fields::{endpoint_at, has_word, pasid_at, says, some_pasid_at};
use crate::kept::{LineRead, Under};
use crate::units::is_below;
use sva_open::{Act, Descriptor, LocalAct, Saying};
use sva_race_texts::word_at;
use sva_script::is;
use sva_step::Config;

fn is_a_wait(descriptor: &Descriptor) -> bool
    ensures { result ≡ awaits.is_a_wait descriptor.now }
{
    matches!(descriptor, Descriptor::Wait { .. })
}

fn has_a_wait(descriptors: &[Descriptor]) -> bool
    ensures { result ≡ list_any awaits.is_a_wait descriptors.now }
{
    descriptors.iter().any(|descriptor| is_a_wait(descriptor))
}

fn at_if(so: bool, endpoint: usize) -> Option<usize>
    ensures { result ≡ (if so then Some endpoint else None) }
{
    if so { Some(endpoint) } else { None }
}

/// The endpoint at which an act submits a wait.
fn wait_of(endpoint: usize, act: &LocalAct) -> Option<usize>
    ensures { result ≡ awaits.wait_at (act_seen (variants.At endpoint act.now)) }
{
    match act {
        LocalAct::Submit { descriptors } => at_if(has_a_wait(descriptors.as_slice()), endpoint),
        LocalAct::SetEntry { .. }
        | LocalAct::Replace { .. }
        | LocalAct::ClearEntry { .. }
        | LocalAct::Start { .. }
        | LocalAct::Stop { .. }
        | LocalAct::Barrier { .. }
        | LocalAct::Reset
        | LocalAct::Close
        | LocalAct::Reopen
        | LocalAct::Skip
        | LocalAct::Resume
        | LocalAct::AwaitWait { .. }
        | LocalAct::AwaitStopped { .. }
        | LocalAct::AwaitPassed { .. }
        | LocalAct::AwaitQueue
        | LocalAct::AwaitQueueOf { .. }
        | LocalAct::AwaitGroups { .. }
        | LocalAct::AwaitResets
        | LocalAct::Turn { .. }
        | LocalAct::AwaitIdle
        | LocalAct::AwaitGone
        | LocalAct::Serve
        | LocalAct::Respond { .. }
        | LocalAct::RespondAll { .. }
        | LocalAct::Discard { .. }
        | LocalAct::FreePasid { .. }
        | LocalAct::Ask { .. }
        | LocalAct::Use { .. }
        | LocalAct::End { .. }
        | LocalAct::Evict { .. }
        | LocalAct::Fault { .. }
        | LocalAct::More { .. }
        | LocalAct::Finish { .. }
        | LocalAct::Pass { .. }
        | LocalAct::Quit { .. }
        | LocalAct::Leave
        | LocalAct::Pump
        | LocalAct::PumpAt { .. }
        | LocalAct::Expire { .. }
        | LocalAct::Write
        | LocalAct::ForgetEntry { .. }
        | LocalAct::Forget { .. }
        | LocalAct::Deliver { .. } => None,
    }
}

/// The endpoint at which a line submits a wait.
fn wait_at(saying: &Saying) -> Option<usize>
    ensures { result ≡ awaits.wait_at (saying_seen saying.now) }
{
    match saying {
        Saying::Does { act } => match act {
            Act::At { endpoint, act } => wait_of(*endpoint, act),
            Act::Mark
            | Act::SetPage { .. }
            | Act::ClearPage { .. }
            | Act::FreeFrame { .. }
            | Act::Freeze { .. }
            | Act::FreeSpace { .. }
            | Act::FreeDomain { .. } => None,
        },
        Saying::Names { .. }
        | Saying::AwaitsLine { .. }
        | Saying::AwaitsWaits { .. }
        | Saying::Locks { .. }
        | Saying::Unlocks { .. }
        | Saying::Sets { .. }
        | Saying::Looks { .. } => None,
    }
}

/// Whether a wait is submitted at an endpoint of the same unit.
fn is_of_its_unit(units: &[usize], endpoint: usize, found: Option<usize>) -> bool
    ensures { result ≡ awaits.is_of_its_unit units.now endpoint found }
{
    match found {
        None => false,
        Some(own) => is_below(units, endpoint, own),
    }
}

fn submits_there(units: &[usize], thread: &[u8], endpoint: usize, line: &LineRead) -> bool
    ensures { result ≡ awaits.submits_there units.now thread.now endpoint (line_seen line.now) }
{
    is(line.thread.as_slice(), thread) && is_of_its_unit(units, endpoint, wait_at(&line.saying))
}

/// The place of the last line of a thread that submits a wait to the unit of an endpoint. It looks from the end.
fn last_wait(units: &[usize], thread: &[u8], endpoint: usize, lines: &[LineRead]) -> Option<usize>
    ensures { result ≡ awaits.last_wait units.now thread.now endpoint (map line_seen lines.now) }
{
    for place in (0..lines.len()).rev() {
        if submits_there(units, thread, endpoint, &lines[place]) {
            return Some(place);
        }
    }
    None
}

fn is_block(block: Under, own: Under) -> bool
    ensures { result ≡ awaits.is_block block own }
{
    own.line == block.line && own.so == block.so
}

/// Whether a line that stands in these blocks stands in that one.
pub(crate) fn stands_in(under: &[Under], block: Under) -> bool
    ensures { result ≡ awaits.stands_in under.now block }
{
    under.iter().any(|own| is_block(block, *own))
}

/// Whether a line that stands in these blocks stands in each of those.
fn stands_in_all(under: &[Under], blocks: &[Under]) -> bool
    ensures { result ≡ list_all (awaits.stands_in under.now) blocks.now }
{
    blocks.iter().all(|block| stands_in(under, *block))
}

/// Whether a line that stands in these blocks stands in each block in which the line at a place does.
fn stands_with(under: &[Under], lines: &[LineRead], place: usize) -> bool
    ensures { result ≡ awaits.stands_with under.now (slice_get (map line_seen lines.now) place) }
{
    match lines.get(place) {
        None => false,
        Some(line) => stands_in_all(under, line.under.as_slice()),
    }
}

/// Reads `await wait E`.
fn await_wait(
    config: &Config,
    units: &[usize],
    under: &[Under],
    thread: &[u8],
    lines: &[LineRead],
    words: &[&[u8]],
) -> Result<Saying, DriverWrong>
    ensures { read_seen result ≡ awaits.await_wait config.now units.now under.now thread.now
        (map line_seen lines.now) (map (λ word. word.now) words.now) }
{
    let endpoint = endpoint_at(config, words, 2)?;
    judge_end(words, 3)?;
    let Some(line) = last_wait(units, thread, endpoint, lines) else {
        return Err(wrong_at(2, DriverWanted::WaitAbove));
    };
    if !stands_with(under, lines, line) {
        return Err(wrong_at(2, DriverWanted::Branch(BranchWanted::OnEachWay)));
    }
    Ok(Saying::AwaitsWaits { endpoint, line })
}

fn is_named(line: &LineRead, name: &[u8]) -> bool
    ensures { result ≡ awaits.is_named name.now (line_seen line.now) }
{
    is(line.name.as_slice(), name)
}

fn line_of(lines: &[LineRead], name: &[u8]) -> Option<usize>
    ensures { result ≡ position (λ line. awaits.is_named name.now (line_seen line)) lines.now }
{
    lines.iter().position(|line| is_named(line, name))
}

/// The place of the line of a name.
fn place_of(name: &[u8], lines: &[LineRead]) -> Option<usize>
    ensures { result ≡ position (awaits.is_named name.now) (map line_seen lines.now) }
{
    let found = line_of(lines, name);
    found
}

fn awaits_by(line: usize, waits: Option<usize>) -> Saying
    ensures { saying_seen result ≡ awaits.awaits_by line waits }
{
    match waits {
        None => Saying::AwaitsLine { line },
        Some(endpoint) => Saying::AwaitsWaits { endpoint, line },
    }
}

/// Reads `await NAME`.
fn await_named(lines: &[LineRead], words: &[&[u8]]) -> Result<Saying, DriverWrong>
    ensures { read_seen result ≡ awaits.await_named (map line_seen lines.now) (map (λ word. word.now) words.now) }
{
    if !has_word(words, 1) {
        return Err(wrong_at(1, DriverWanted::Awaited));
    }
    let Some(place) = place_of(word_at(words, 1), lines) else {
        return Err(wrong_at(1, DriverWanted::Awaited));
    };
    let Some(line) = lines.get(place) else {
        return Err(wrong_at(1, DriverWanted::Awaited));
    };
    judge_end(words, 2)?;
    Ok(awaits_by(place, wait_at(&line.saying)))
}

/// Reads `await stopped E P`.
fn await_stopped(config: &Config, words: &[&[u8]]) -> Result<Saying, DriverWrong>
    ensures { read_seen result ≡ awaits.await_stopped config.now (map (λ word. word.now) words.now) }
{
    let endpoint = endpoint_at(config, words, 2)?;
    let pasid = pasid_at(words, 3)?;
    judge_end(words, 4)?;
    Ok(Saying::Does {
        act: Act::At {
            endpoint,
            act: LocalAct::AwaitStopped { pasid },
        },
    })
}

fn is_of_thread(line: &LineRead, thread: &[u8]) -> bool
    ensures { result ≡ awaits.is_of_thread thread.now (line_seen line.now) }
{
    is(line.thread.as_slice(), thread)
}

fn first_line(lines: &[LineRead], thread: &[u8]) -> Option<usize>
    ensures { result ≡ position (λ line. awaits.is_of_thread thread.now (line_seen line)) lines.now }
{
    lines.iter().position(|line| is_of_thread(line, thread))
}

/// The place of the first line of a thread.
fn first_of(thread: &[u8], lines: &[LineRead]) -> Option<usize>
    ensures first { result ≡ position (awaits.is_of_thread thread.now) (map line_seen lines.now) }
    ensures inside { IfSome result (λ place. place < length lines.now) }
{
    let found = first_line(lines, thread);
    found
}

/// The number of a thread: 0 is before all of them, any other is one more than the place of its first line, which is
/// the next one where none stands above.
pub(crate) fn thread_number(thread: &[u8], lines: &[LineRead]) -> usize
    ensures { result ≡ awaits.thread_number thread.now (map line_seen lines.now) }
{
    match thread {
        [] => 0,
        [_first, ..] => match first_of(thread, lines) {
            None => lines.len() + 1,
            Some(place) => place + 1,
        },
    }
}

/// Reads `await passed E P`, of a thread.
fn await_passed(
    config: &Config,
    thread: &[u8],
    lines: &[LineRead],
    words: &[&[u8]],
) -> Result<Saying, DriverWrong>
    ensures { read_seen result ≡ awaits.await_passed config.now
        (awaits.thread_number thread.now (map line_seen lines.now)) (map (λ word. word.now) words.now) }
{
    let endpoint = endpoint_at(config, words, 2)?;
    let pasid = pasid_at(words, 3)?;
    judge_end(words, 4)?;
    let thread = thread_number(thread, lines);
    Ok(Saying::Does {
        act: Act::At {
            endpoint,
            act: LocalAct::AwaitPassed { pasid, thread },
        },
    })
}

fn await_queue_of(endpoint: usize, words: &[&[u8]]) -> Result<Saying, DriverWrong>
    ensures { read_seen result ≡ awaits.await_queue_of endpoint (map (λ word. word.now) words.now) }
{
    let pasid = pasid_at(words, 3)?;
    judge_end(words, 4)?;
    Ok(Saying::Does {
        act: Act::At {
            endpoint,
            act: LocalAct::AwaitQueueOf { pasid },
        },
    })
}

/// Reads `await queue E [P]`.
fn await_queue(config: &Config, words: &[&[u8]]) -> Result<Saying, DriverWrong>
    ensures { read_seen result ≡ awaits.await_queue config.now (map (λ word. word.now) words.now) }
{
    let endpoint = endpoint_at(config, words, 2)?;
    if has_word(words, 3) {
        return await_queue_of(endpoint, words);
    }
    Ok(Saying::Does {
        act: Act::At {
            endpoint,
            act: LocalAct::AwaitQueue,
        },
    })
}

/// Reads `await groups E [P]`.
fn await_groups(config: &Config, words: &[&[u8]]) -> Result<Saying, DriverWrong>
    ensures { read_seen result ≡ awaits.await_groups config.now (map (λ word. word.now) words.now) }
{
    let endpoint = endpoint_at(config, words, 2)?;
    let pasid = some_pasid_at(words, 3)?;
    judge_end(words, 4)?;
    Ok(Saying::Does {
        act: Act::At {
            endpoint,
            act: LocalAct::AwaitGroups { pasid },
        },
    })
}

/// Reads `await reset E`.
fn await_reset(config: &Config, words: &[&[u8]]) -> Result<Saying, DriverWrong>
    ensures { read_seen result ≡ awaits.await_reset config.now (map (λ word. word.now) words.now) }
{
    let endpoint = endpoint_at(config, words, 2)?;
    judge_end(words, 3)?;
    Ok(Saying::Does {
        act: Act::At {
            endpoint,
            act: LocalAct::AwaitResets,
        },
    })
}

/// Reads `await idle E`.
fn await_idle(config: &Config, words: &[&[u8]]) -> Result<Saying, DriverWrong>
    ensures { read_seen result ≡ awaits.await_idle config.now (map (λ word. word.now) words.now) }
{
    let endpoint = endpoint_at(config, words, 2)?;
    judge_end(words, 3)?;
    Ok(Saying::Does {
        act: Act::At {
            endpoint,
            act: LocalAct::AwaitIdle,
        },
    })
}

/// Reads `await gone E`.
fn await_gone(config: &Config, words: &[&[u8]]) -> Result<Saying, DriverWrong>
    ensures { read_seen result ≡ awaits.await_gone config.now (map (λ word. word.now) words.now) }
{
    let endpoint = endpoint_at(config, words, 2)?;
    judge_end(words, 3)?;
    Ok(Saying::Does {
        act: Act::At {
            endpoint,
            act: LocalAct::AwaitGone,
        },
    })
}

/// Reads `await ..`, with the lines above.
pub(crate) fn await_line(
    config: &Config,
    units: &[usize],
    under: &[Under],
    thread: &[u8],
    lines: &[LineRead],
    words: &[&[u8]],
) -> Result<Saying, DriverWrong>
    ensures { read_seen result ≡ awaits.await_line config.now units.now under.now thread.now
        (map line_seen lines.now) (map (λ word. word.now) words.now) }
{
    if says(words, 1, b"wait") {
        return await_wait(config, units, under, thread, lines, words);
    }
    if says(words, 1, b"stopped") {
        return await_stopped(config, words);
    }
    if says(words, 1, b"passed") {
        return await_passed(config, thread, lines, words);
    }
    if says(words, 1, b"queue") {
        return await_queue(config, words);
    }
    if says(words, 1, b"groups") {
        return await_groups(config, words);
    }
    if says(words, 1, b"reset") {
        return await_reset(config, words);
    }
    if says(words, 1, b"idle") {
        return await_idle(config, words);
    }
    if says(words, 1, b"gone") {
        return await_gone(config, words);
    }
    await_named(lines, words)
}
