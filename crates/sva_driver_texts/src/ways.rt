//! Whose line each one is, by threads that have numbers, and with which line a thread goes on.

ghost use Rattle.std.specs.Prelude.{◌≡◌, ◌+◌, ◌<◌, IfOk, drop, length, map, position};
ghost use Rattle.std.specs.Str.{bytes_eq};
ghost use Rattle.sva_driver_words.specs.Awaits.{line_seen};
ghost use Rattle.sva_driver_words.specs.Sayings.{saying_seen};
ghost use Rattle.sva_driver_texts.specs.Ways as ways;

use std::alloc::{AllocError, Global};
use sva_driver_words::{LineRead, Under};
use sva_judge::Spot;
use sva_open::{Line, Saying};
use sva_script::is;

/// With which lines a thread goes on behind a line.
#[derive(Clone, Copy, PartialEq, Eq)]
pub struct Way {
    /// The number of the thread.
    pub thread: usize,
    /// The place of the next line, if there is one.
    pub next: Option<usize>,
    /// That of the one with which it goes on where the line looked and didn't find what it has to.
    pub other: Option<usize>,
}

/// The place of a thread.
fn place_of(threads: &[Vec<u8>], thread: &[u8]) -> Option<usize>
    ensures { result ≡ position (λ own. bytes_eq own.items thread.now) threads.now }
{
    threads.iter().position(|own| is(own.as_slice(), thread))
}

fn place_in(threads: &[Vec<u8>], thread: &[u8]) -> Option<usize>
    ensures { result ≡ ways.place_in (map (λ own. own.items) threads.now) thread.now }
{
    let found = place_of(threads, thread);
    found
}

/// Adds a thread, unless it is there.
fn add_thread(alloc: Global, threads: &mut Vec<Vec<u8>>, thread: &[u8]) -> Result<(), AllocError>
    ensures { IfOk result (λ _. map (λ own. own.items) threads.new.items
        ≡ ways.with_thread (map (λ own. own.items) threads.old.items) thread.now) }
{
    if place_in(threads.as_slice(), thread).is_some() {
        return Ok(());
    }
    threads.push(Vec::from_slice(alloc, thread)?)?;
    Ok(())
}

/// The threads, in the order in which they first have a line.
fn threads_of(alloc: Global, lines: &[LineRead]) -> Result<Vec<Vec<u8>>, AllocError>
    ensures { IfOk result (λ threads. map (λ own. own.items) threads.items
        ≡ ways.threads_of (map line_seen lines.now)) }
{
    let mut threads = Vec::new(alloc);
    for line in lines {
        add_thread(alloc, &mut threads, line.thread.as_slice())?;
    }
    Ok(threads)
}

/// The number of a thread.
fn number_in(threads: &[Vec<u8>], thread: &[u8]) -> usize
    ensures { result ≡ ways.number_in (map (λ own. own.items) threads.now) thread.now }
{
    match place_in(threads, thread) {
        Some(place) => place,
        None => threads.len(),
    }
}

/// Whether a line is a thread's.
fn is_line_of(thread: &[u8], line: &LineRead) -> bool
    ensures { result ≡ ways.is_line_of thread.now (line_seen line.now) }
{
    is(line.thread.as_slice(), thread)
}

fn first_place(lines: &[LineRead], thread: &[u8]) -> Option<usize>
    ensures { result ≡ position (λ line. ways.is_line_of thread.now (line_seen line)) lines.now }
{
    lines.iter().position(|line| is_line_of(thread, line))
}

/// The first line of a thread.
fn first_of(lines: &[LineRead], thread: &[u8]) -> Option<usize>
    ensures { result ≡ ways.first_of (map line_seen lines.now) thread.now }
{
    let found = first_place(lines, thread);
    found
}

/// The first line of each thread.
fn firsts_of(
    alloc: Global,
    threads: &[Vec<u8>],
    lines: &[LineRead],
) -> Result<Vec<Option<usize>>, AllocError>
    ensures { IfOk result (λ firsts. firsts.items
        ≡ map (λ own. ways.first_of (map line_seen lines.now) own.items) threads.now) }
{
    let mut firsts = Vec::new(alloc);
    for thread in threads {
        firsts.push(first_of(lines, thread.as_slice()))?;
    }
    Ok(firsts)
}

/// Whether one is the other branch of the `if` of a block.
fn is_other_side(block: Under, own: Under) -> bool
    ensures { result ≡ ways.is_other_side block own }
{
    own.line == block.line && (if block.so { !own.so } else { own.so })
}

/// Whether what stands in these stands across from a block.
fn stands_across(under: &[Under], block: Under) -> bool
    ensures { result ≡ ways.stands_across under.now block }
{
    under.iter().any(|own| is_other_side(block, *own))
}

/// Whether it stands across from one of the blocks.
fn is_cut_off(under: &[Under], blocks: &[Under]) -> bool
    ensures { result ≡ ways.is_cut_off under.now blocks.now }
{
    blocks.iter().any(|block| stands_across(under, *block))
}

/// Whether a thread may come to a line by way of these blocks.
fn is_on_way(thread: &[u8], blocks: &[Under], line: &LineRead) -> bool
    ensures { result ≡ ways.is_on_way thread.now blocks.now (line_seen line.now) }
{
    is_line_of(thread, line) && !is_cut_off(line.under.as_slice(), blocks)
}

/// The first line from a place on to which a thread may come by way of these blocks.
fn first_on_way(thread: &[u8], blocks: &[Under], lines: &[LineRead], from: usize) -> Option<usize>
    ensures { result
        ≡ ways.first_from (ways.is_on_way thread.now blocks.now) from (map line_seen (drop from lines.now)) }
{
    for place in from..lines.len() {
        if is_on_way(thread, blocks, &lines[place]) {
            return Some(place);
        }
    }
    None
}

/// Whether a line looks.
fn looks(saying: &Saying) -> bool
    ensures { result ≡ ways.looks (saying_seen saying.now) }
{
    match saying {
        Saying::Looks { .. } => true,
        Saying::Does { .. }
        | Saying::Names { .. }
        | Saying::AwaitsLine { .. }
        | Saying::AwaitsWaits { .. }
        | Saying::Locks { .. }
        | Saying::Unlocks { .. }
        | Saying::Sets { .. } => false,
    }
}

/// The blocks by way of which a thread leaves a line.
fn left_by(
    alloc: Global,
    place: usize,
    line: &LineRead,
    found: bool,
) -> Result<Vec<Under>, AllocError>
    ensures { IfOk result (λ blocks. blocks.items ≡ ways.left_by place (line_seen line.now) found) }
{
    let mut blocks = Vec::from_slice(alloc, line.under.as_slice())?;
    if looks(&line.saying) {
        blocks.push(Under {
            line: place,
            so: found,
        })?;
    }
    Ok(blocks)
}

/// With which line a thread goes on behind one.
fn first_behind(
    alloc: Global,
    lines: &[LineRead],
    place: usize,
    line: &LineRead,
    found: bool,
) -> Result<Option<usize>, AllocError>
    requires { place < length lines.now }
    ensures { IfOk result (λ next. next
        ≡ ways.first_behind place (line_seen line.now) found (map line_seen (drop (place + 1) lines.now))) }
{
    let blocks = left_by(alloc, place, line, found)?;
    Ok(first_on_way(line.thread.as_slice(), blocks.as_slice(), lines, place + 1))
}

/// With which it goes on where it didn't find what it has to.
fn other_of(
    alloc: Global,
    lines: &[LineRead],
    place: usize,
    line: &LineRead,
) -> Result<Option<usize>, AllocError>
    requires { place < length lines.now }
    ensures { IfOk result (λ other. other
        ≡ ways.other_of place (line_seen line.now) (map line_seen (drop (place + 1) lines.now))) }
{
    if looks(&line.saying) {
        first_behind(alloc, lines, place, line, false)
    } else {
        Ok(None)
    }
}

/// The way of the line at a place.
fn way_of(
    alloc: Global,
    threads: &[Vec<u8>],
    lines: &[LineRead],
    place: usize,
    line: &LineRead,
) -> Result<Way, AllocError>
    requires { place < length lines.now }
    ensures { IfOk result (λ way. way ≡ ways.way_of (map (λ own. own.items) threads.now) place
        (line_seen line.now) (map line_seen (drop (place + 1) lines.now))) }
{
    let thread = number_in(threads, line.thread.as_slice());
    let next = first_behind(alloc, lines, place, line, true)?;
    let other = other_of(alloc, lines, place, line)?;
    Ok(Way {
        thread,
        next,
        other,
    })
}

/// The way of each line.
fn ways_by(alloc: Global, threads: &[Vec<u8>], lines: &[LineRead]) -> Result<Vec<Way>, AllocError>
    ensures { IfOk result (λ list. list.items
        ≡ ways.ways_from (map (λ own. own.items) threads.now) 0 (map line_seen lines.now)) }
{
    let mut list = Vec::new(alloc);
    for place in 0..lines.len() {
        let way = way_of(alloc, threads, lines, place, &lines[place])?;
        list.push(way)?;
    }
    Ok(list)
}

/// The first line of each thread, and the way of each line.
pub(crate) fn ways_of(
    alloc: Global,
    lines: &[LineRead],
) -> Result<(Vec<Option<usize>>, Vec<Way>), AllocError>
    ensures firsts { IfOk result (λ made. made.0.items ≡ ways.firsts_of (map line_seen lines.now)) }
    ensures ways { IfOk result (λ made. made.1.items ≡ ways.ways_of (map line_seen lines.now)) }
{
    let threads = threads_of(alloc, lines)?;
    let firsts = firsts_of(alloc, threads.as_slice(), lines)?;
    let list = ways_by(alloc, threads.as_slice(), lines)?;
    Ok((firsts, list))
}

/// Whether its thread has gone past a line: it stands in a branch that wasn't taken, or was taken itself.
pub fn is_past(spot: &Spot, place: usize, line: &Line) -> bool
    ensures { result ≡ ways.is_past spot.now place line.now }
{
    match spot.at.get(line.thread) {
        None => false,
        Some(None) => true,
        Some(Some(next)) => place < *next,
    }
}
