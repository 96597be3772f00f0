//! Several texts that are searched at once.

ghost use Rattle.std.specs.Prelude.{◌≡◌, ◌<◌, ◌≤◌, All, IfOk, OnOk, get_or, length, replicate, vec_len, None};
ghost use Rattle.std.specs.List.{AllZip};
ghost use Rattle.sva_several.specs.Searches.{IsFound};
ghost use Rattle.sva_several.specs.Sharing as sharing;

use crate::given::Given;
use crate::metering::Meter;
use crate::searching::{Said, Search};
use crate::sharing::{First, search_again, search_first};
use std::alloc::{AllocError, Global};
use std::sync::atomic::{AtomicUsize, Ordering};
use std::thread;
use std::thread::Threads;

/// The first search of a text, by its place among the texts.
#[derive(Drop)]
struct Answer {
    /// The text's place.
    place: usize,
    /// What the search came to, or that memory lacked for it.
    began: Result<First, AllocError>,
}

/// Counts a text of which nothing more is to be searched.
fn count_ended<M: Meter>(meter: &M, began: &Result<First, AllocError>) {
    match began {
        Ok(First::Cut) => {}
        _ => meter.count(),
    }
}

/// The part in a search of texts of one of those that search them at once: he takes the next one, as long as there is one.
fn work<M: Meter>(
    alloc: Global,
    search: Search,
    jobs: u64,
    texts: &[Given],
    next: &AtomicUsize,
    meter: &M,
) -> Vec<Answer>
    requires { 1 ≤ jobs }
    ensures { sharing.AreAnswers search jobs texts.now result }
{
    let mut answers = Vec::new(alloc);
    for _turn in 0..texts.len() {
        let place = next.fetch_add(1, Ordering::SeqCst);
        if place >= texts.len() {
            return answers;
        }
        let began = search_first(alloc, search, jobs, &texts[place]);
        count_ended(meter, &began);
        // Where there is no memory for the answer, the text is searched once more behind all others.
        let _ = answers.push(Answer { place, began });
    }
    answers
}

/// As many places for first searches as there are texts.
fn no_slots(
    alloc: Global,
    count: usize,
) -> Result<Vec<Option<Result<First, AllocError>>>, AllocError>
    ensures { IfOk result (λ slots. slots.items ≡ replicate count None) }
{
    let mut slots = Vec::new(alloc);
    for _place in 0..count {
        slots.push(None)?;
    }
    Ok(slots)
}

/// Puts a first search at the place of its text.
fn put_one(
    search: Search,
    jobs: u64,
    texts: &[Given],
    answer: Answer,
    slots: &mut [Option<Result<First, AllocError>>],
)
    requires answer { sharing.IsAnswer search jobs texts.now answer }
    requires slots { sharing.AreSlots search jobs texts.now slots.old }
    ensures { sharing.AreSlots search jobs texts.now slots.new }
{
    slots[answer.place] = Some(answer.began);
}

/// Puts first searches at the places of their texts.
fn put_all(
    search: Search,
    jobs: u64,
    texts: &[Given],
    mut answers: Vec<Answer>,
    slots: &mut [Option<Result<First, AllocError>>],
)
    requires answers { sharing.AreAnswers search jobs texts.now answers }
    requires slots { sharing.AreSlots search jobs texts.now slots.old }
    ensures { sharing.AreSlots search jobs texts.now slots.new }
{
    while let Some(answer) = answers.pop() {
        put_one(search, jobs, texts, answer, slots);
    }
}

/// What those who search texts at once have found, of each his own.
fn work_all<X: Threads + Sync, M: Meter>(
    rt: &X,
    alloc: Global,
    search: Search,
    jobs: u64,
    texts: &[Given],
    meter: &M,
) -> Result<Vec<Vec<Answer>>, AllocError>
    requires { 1 ≤ jobs }
    ensures { IfOk result (λ parts. All (sharing.AreAnswers search jobs texts.now) parts.items) }
{
    let next = AtomicUsize::new(0);
    thread::map_indices(
        rt,
        alloc,
        jobs as usize,
        &|_worker: usize| -> Vec<Answer>
            requires { 1 ≤ jobs }
            ensures { sharing.AreAnswers search jobs texts.entry.now result }
        { work(alloc, search, jobs, texts, &next, meter) },
    )
}

/// The first searches of texts by several at once, each at the place of its text.
fn begin_all<X: Threads + Sync, M: Meter>(
    rt: &X,
    alloc: Global,
    search: Search,
    jobs: u64,
    texts: &[Given],
    meter: &M,
) -> Result<Vec<Option<Result<First, AllocError>>>, AllocError>
    requires { 1 ≤ jobs }
    ensures { IfOk result (λ slots. sharing.AreSlots search jobs texts.now slots.items) }
{
    let mut parts = work_all(rt, alloc, search, jobs, texts, meter)?;
    let mut slots = no_slots(alloc, texts.len())?;
    while let Some(answers) = parts.pop() {
        put_all(search, jobs, texts, answers, slots.as_mut_slice());
    }
    Ok(slots)
}

/// What is said of a text behind its first search. Where that is missing, since there was no memory for it, it is made.
fn end_one<M: Meter>(
    alloc: Global,
    search: Search,
    jobs: u64,
    text: &Given,
    slot: Option<Result<First, AllocError>>,
    meter: &M,
) -> Result<Said, AllocError>
    requires jobs { 1 ≤ jobs }
    requires slot { sharing.IsSlot search jobs text.now slot }
    ensures { IfOk result (sharing.IsSaidBy search jobs text.now) }
{
    match slot {
        Some(Ok(First::Said(said))) => Ok(said),
        Some(Ok(First::Cut)) => {
            let found = search_again(alloc, search, jobs, text, First::Cut);
            meter.count();
            found
        }
        Some(Err(fault)) => Err(fault),
        None => {
            let first = search_first(alloc, search, jobs, text)?;
            search_again(alloc, search, jobs, text, first)
        }
    }
}

/// What is said of texts behind their first searches.
fn end_all<M: Meter>(
    alloc: Global,
    search: Search,
    jobs: u64,
    texts: &[Given],
    mut slots: Vec<Option<Result<First, AllocError>>>,
    meter: &M,
) -> Result<Vec<Result<Said, AllocError>>, AllocError>
    requires jobs { 1 ≤ jobs }
    requires slots { sharing.AreSlots search jobs texts.now slots.items }
    ensures { IfOk result (λ all. AllZip (sharing.IsFoundBy search jobs) texts.now all.items) }
{
    let mut all = Vec::new(alloc);
    for place in 0..texts.len() {
        let slot = slots[place].take();
        all.push(end_one(alloc, search, jobs, &texts[place], slot, meter))?;
    }
    Ok(all)
}

/// How many texts are searched at once: as many as there are, if not more than so many.
fn at_once(jobs: u64, count: usize) -> u64
    ensures { result ≡ sharing.at_once jobs count }
{
    jobs.min(count as u64).max(1)
}

/// Searches texts, so many at once, each by a thread of its own. They share the moments: each is searched with its share first,
/// and one whose search was cut off is searched again behind all others, alone, with all moments. So it is said of each what
/// a search of it alone says. Of one for whose search memory lacked its error stands there, and the others go on. The meter
/// counts those that were searched.
pub(crate) fn search_all<X: Threads + Sync, M: Meter>(
    rt: &X,
    alloc: Global,
    search: Search,
    jobs: u64,
    texts: &[Given],
    meter: &M,
) -> Result<Vec<Result<Said, AllocError>>, AllocError>
    ensures alone { IfOk result (λ all. AllZip (IsFound search) texts.now all.items) }
    ensures shared { IfOk result (λ all. AllZip (sharing.IsFoundBy search (sharing.at_once jobs (length texts.now))) texts.now all.items) }
{
    let jobs = at_once(jobs, texts.len());
    let slots = begin_all(rt, alloc, search, jobs, texts, meter)?;
    end_all(alloc, search, jobs, texts, slots, meter)
}
