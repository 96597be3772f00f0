//! The line of an invalidation that runs out of time, and what `if failed` looks at.

ghost use Rattle.std.specs.Prelude.{◌≡◌, ◌≤◌, map, slice_get};
ghost use Rattle.std.specs.List.{list_all, list_any};
ghost use Rattle.sva_driver_words.specs.Awaits.{line_seen};
ghost use Rattle.sva_driver_words.specs.Sayings.{read_seen, saying_seen};
ghost use Rattle.sva_driver_words.specs.Sayings.SayingSaid.{LooksSaid};
ghost use Rattle.sva_driver_words.specs.Timeouts as timeouts;

use crate::awaits::stands_in;
use crate::faults::{BranchWanted, DriverWanted, DriverWrong, judge_end, wrong_at};
use crate::fields::{endpoint_at, itag_at};
use crate::kept::{LineRead, Under};
use sva_open::{Act, Condition, LocalAct, Saying};
use sva_script::is;
use sva_step::Config;

/// Reads `expire E T`. The endpoint may leave unanswered what has come to it.
pub(crate) fn expire_line(config: &Config, words: &[&[u8]]) -> Result<Saying, DriverWrong>
    ensures { read_seen result ≡ timeouts.expire_line config.now (map (λ word. word.now) words.now) }
{
    let endpoint = endpoint_at(config, words, 1)?;
    let itag = itag_at(words, 2)?;
    judge_end(words, 3)?;
    Ok(Saying::Does {
        act: Act::At {
            endpoint,
            act: LocalAct::Expire { itag, silent: true },
        },
    })
}

/// Whether a line awaits waits.
fn awaits_waits(saying: &Saying) -> bool
    ensures { result ≡ timeouts.awaits_waits (saying_seen saying.now) }
{
    match saying {
        Saying::AwaitsWaits { .. } => true,
        Saying::Does { .. }
        | Saying::Names { .. }
        | Saying::AwaitsLine { .. }
        | Saying::Locks { .. }
        | Saying::Unlocks { .. }
        | Saying::Sets { .. }
        | Saying::Looks { .. } => false,
    }
}

/// Whether one is the other branch of the `if` of a block.
fn is_across(block: Under, own: Under) -> bool
    ensures { result ≡ timeouts.is_across block own }
{
    own.line == block.line && (if block.so { !own.so } else { own.so })
}

/// Whether a line that stands in these blocks stands in the other branch of that one.
fn stands_across(under: &[Under], block: Under) -> bool
    ensures { result ≡ timeouts.stands_across under.now block }
{
    under.iter().any(|own| is_across(block, *own))
}

/// Whether a line that stands in these blocks stands in the other branch of one of those.
fn is_apart(under: &[Under], blocks: &[Under]) -> bool
    ensures { result ≡ list_any (timeouts.stands_across under.now) blocks.now }
{
    blocks.iter().any(|block| stands_across(under, *block))
}

/// Whether a line of a thread awaits waits, and a way leads from it to these blocks.
fn awaits_before(thread: &[u8], under: &[Under], line: &LineRead) -> bool
    ensures { result ≡ timeouts.awaits_before thread.now under.now (line_seen line.now) }
{
    is(line.thread.as_slice(), thread)
        && (awaits_waits(&line.saying) && !is_apart(under, line.under.as_slice()))
}

/// The place of the last line of a thread that awaits waits, and from which a way leads to these blocks. It looks from
/// the end.
fn last_await(thread: &[u8], under: &[Under], lines: &[LineRead]) -> Option<usize>
    ensures { result ≡ timeouts.last_await thread.now under.now (map line_seen lines.now) }
{
    for place in (0..lines.len()).rev() {
        if awaits_before(thread, under, &lines[place]) {
            return Some(place);
        }
    }
    None
}

/// Whether a branch is the one that is gone where waits were aborted, by what its `if` looks at and finds.
fn is_failed(so: bool, condition: &Condition, holds: bool) -> bool
    ensures { result ≡ timeouts.asks_failed so (LooksSaid condition.now holds) }
{
    match condition {
        Condition::Failed { .. } => { if so { holds } else { !holds } }
        Condition::Flag { .. }
        | Condition::Present { .. }
        | Condition::Stopped { .. }
        | Condition::Filed { .. }
        | Condition::Queued { .. }
        | Condition::Gone { .. }
        | Condition::Overflowed { .. } => false,
    }
}

/// Whether a branch of an `if` is the one that is gone where the waits were aborted that were awaited last before it.
fn asks_failed(so: bool, saying: &Saying) -> bool
    ensures { result ≡ timeouts.asks_failed so (saying_seen saying.now) }
{
    match saying {
        Saying::Looks {
            condition,
            so: holds,
        } => is_failed(so, condition, *holds),
        Saying::Does { .. }
        | Saying::Names { .. }
        | Saying::AwaitsLine { .. }
        | Saying::AwaitsWaits { .. }
        | Saying::Locks { .. }
        | Saying::Unlocks { .. }
        | Saying::Sets { .. } => false,
    }
}

fn is_where_failed(lines: &[LineRead], block: Under) -> bool
    ensures { result ≡ timeouts.is_where_failed block.so (slice_get (map line_seen lines.now) block.line) }
{
    match lines.get(block.line) {
        None => false,
        Some(line) => asks_failed(block.so, &line.saying),
    }
}

/// Whether the line at a place stands in a block.
fn is_in_block(lines: &[LineRead], place: usize, block: Under) -> bool
    ensures { result ≡ timeouts.is_in_block block (slice_get (map line_seen lines.now) place) }
{
    match lines.get(place) {
        None => false,
        Some(line) => stands_in(line.under.as_slice(), block),
    }
}

/// Whether waits that a line submits in a block are a retry: the block is gone where others were aborted.
fn is_retry(lines: &[LineRead], place: usize, block: Under) -> bool
    ensures { result ≡ timeouts.is_retry (map line_seen lines.now) place block }
{
    is_where_failed(lines, block) && is_in_block(lines, place, block)
}

fn is_of_each_way(lines: &[LineRead], under: &[Under], place: usize, block: Under) -> bool
    ensures { result ≡ timeouts.is_of_each_way (map line_seen lines.now) under.now place block }
{
    stands_in(under, block) || is_retry(lines, place, block)
}

/// Whether it is so of each of these blocks.
fn are_of_each_way(lines: &[LineRead], under: &[Under], place: usize, blocks: &[Under]) -> bool
    ensures { result ≡ list_all (timeouts.is_of_each_way (map line_seen lines.now) under.now place) blocks.now }
{
    blocks
        .iter()
        .all(|block| is_of_each_way(lines, under, place, *block))
}

/// What is looked at behind a line that stands in blocks, if that says of each way to here whether the waits were
/// aborted that were awaited last.
fn failed_of(
    lines: &[LineRead],
    under: &[Under],
    blocks: &[Under],
    saying: &Saying,
) -> Option<Condition>
    ensures { result ≡ timeouts.failed_of (map line_seen lines.now) under.now blocks.now (saying_seen saying.now) }
{
    let Saying::AwaitsWaits { endpoint, line } = saying else {
        return None;
    };
    if !are_of_each_way(lines, under, *line, blocks) {
        return None;
    }
    Some(Condition::Failed {
        endpoint: *endpoint,
        line: *line,
    })
}

/// What `failed` looks at in these blocks, behind these lines: the waits that the last line awaits which a way to here
/// takes. On each way they have to be the last, or to be the retry of those that are.
pub(crate) fn failed_behind(thread: &[u8], under: &[Under], lines: &[LineRead]) -> Option<Condition>
    ensures { result ≡ timeouts.failed_behind thread.now under.now (map line_seen lines.now) }
{
    let Some(place) = last_await(thread, under, lines) else {
        return None;
    };
    match lines.get(place) {
        None => None,
        Some(line) => failed_of(lines, under, line.under.as_slice(), &line.saying),
    }
}

/// Reads `failed`, which looks at this.
pub(crate) fn failed_at(
    failed: Option<Condition>,
    words: &[&[u8]],
    at: usize,
) -> Result<Condition, DriverWrong>
    requires { at ≤ 2 }
    ensures { result ≡ timeouts.failed_at failed at (map (λ word. word.now) words.now) }
{
    judge_end(words, at + 1)?;
    match failed {
        None => Err(wrong_at(at, DriverWanted::Branch(BranchWanted::AwaitOnEachWay))),
        Some(condition) => Ok(condition),
    }
}
