//! Runs of calls of page request groups.

ghost use Rattle.sva_tests_of_parts.specs.Few.{HasFew};

use crate::asserted::holds;
use std::alloc::{AllocError, Global};
use std::process::Abort;
use sva_msg::PageRequest;
use sva_prq::{Ask, Groups, Job};

/// A call of groups, and what it has to answer.
#[derive(Clone, Copy)]
enum Call {
    /// A request of a unit, a binding and an index asks for a page, and isn't the last of its group.
    Part(u64, u64, u8, u64),
    /// So many of them, for the pages from 0 on.
    PartEach(u64, u64, u8, u64),
    /// The last request of a group asks for the last of these pages. The group's job asks for all of them, in this order.
    Last(u64, u64, u8, &'static [u64]),
    /// The job that was made by a call of `Last` is answered; they count from 0.
    Answer(usize),
    DropUnit(u64),
    /// Whether a binding has an open group.
    Open(u64, bool),
}

/// Groups, and what is known of them by the calls that were made.
#[derive(Drop)]
struct Filed {
    groups: Groups,
    /// How many requests were filed: no group has more.
    requests: u64,
    jobs: Vec<Job>,
    ghost few: { HasFew requests groups },
}

impl Filed {
    fn new(alloc: Global) -> Filed {
        Filed {
            groups: Groups::new(alloc),
            requests: 0,
            jobs: Vec::new(alloc),
        }
    }

    /// Makes room for a group, and files a read request.
    fn file<R: Abort>(
        &mut self,
        rt: &R,
        unit: u64,
        binding: u64,
        request: PageRequest,
    ) -> Result<Option<Job>, AllocError> {
        assert!(rt; self.requests < 32);
        self.groups.reserve(unit)?;
        self.requests += 1;
        Ok(self.groups.file(unit, binding, request))
    }

    /// A request is filed that isn't the last of its group: is there no job?
    fn files_part<R: Abort>(
        &mut self,
        rt: &R,
        unit: u64,
        binding: u64,
        request: PageRequest,
    ) -> Result<bool, AllocError> {
        let job = self.file(rt, unit, binding, request)?;
        Ok(job.is_none())
    }

    /// The last request of a group is filed: is there a job that asks for these pages?
    fn files_last<R: Abort>(
        &mut self,
        rt: &R,
        unit: u64,
        binding: u64,
        request: PageRequest,
        pages: &[u64],
    ) -> Result<bool, AllocError> {
        let Some(job) = self.file(rt, unit, binding, request)? else {
            return Ok(false);
        };
        let is_so = is_job(&job, (unit, binding, request.index), pages);
        self.jobs.push(job)?;
        Ok(is_so)
    }

    fn answered(&mut self, place: usize) -> bool {
        match self.jobs.get(place) {
            Some(job) => {
                self.groups.answered(job);
                true
            }
            None => false,
        }
    }

    fn drop_unit(&mut self, unit: u64) {
        self.groups.drop_unit(unit);
    }
}

/// A read request for a page.
fn request(index: u8, page: u64, last: bool) -> PageRequest {
    PageRequest {
        pasid: 1,
        index,
        page,
        read: true,
        write: false,
        last,
    }
}

/// Is this the job of a unit, a binding and an index, with reads of these pages in order?
fn is_job(job: &Job, numbers: (u64, u64, u8), pages: &[u64]) -> bool {
    (job.unit(), job.binding(), job.index()) == numbers && asks_for(job, pages)
}

/// Does a job ask to read these pages, in this order?
fn asks_for(job: &Job, pages: &[u64]) -> bool {
    let asks = job.asks();
    if asks.len() != pages.len() {
        return false;
    }
    for place in 0..pages.len() {
        if !reads(asks[place], pages[place]) {
            return false;
        }
    }
    true
}

fn reads(ask: Ask, page: u64) -> bool {
    ask.page == page && ask.read && !ask.write
}

/// Files so many requests of which none is the last of its group: is there no job by any?
fn files_each<R: Abort>(
    rt: &R,
    filed: &mut Filed,
    (unit, binding, index): (u64, u64, u8),
    pages: u64,
) -> Result<bool, AllocError> {
    for page in 0..pages {
        if !filed.files_part(rt, unit, binding, request(index, page, false))? {
            return Ok(false);
        }
    }
    Ok(true)
}

/// Makes a call, and tells whether it answers as it has to.
fn answers<R: Abort>(rt: &R, filed: &mut Filed, call: Call) -> Result<bool, AllocError> {
    match call {
        Call::Part(unit, binding, index, page) => {
            filed.files_part(rt, unit, binding, request(index, page, false))
        }
        Call::PartEach(unit, binding, index, pages) => {
            files_each(rt, filed, (unit, binding, index), pages)
        }
        Call::Last(unit, binding, index, pages) => match pages.last() {
            Some(page) => {
                filed.files_last(rt, unit, binding, request(index, *page, true), pages)
            }
            None => Ok(false),
        },
        _other => Ok(tells(filed, call)),
    }
}

/// The same of a call that files nothing.
fn tells(filed: &mut Filed, call: Call) -> bool {
    match call {
        Call::Answer(place) => filed.answered(place),
        Call::DropUnit(unit) => {
            filed.drop_unit(unit);
            true
        }
        Call::Open(binding, is_open) => filed.groups.open_of(binding) == is_open,
        _filing => false,
    }
}

/// Makes the calls one after another.
fn make<R: Abort>(rt: &R, filed: &mut Filed, what: &str, calls: &[Call]) {
    for place in 0..calls.len() {
        let is_so = answers(rt, filed, calls[place]) == Ok(true);
        holds(rt, is_so, what, place);
    }
}

/// Makes the calls of no groups.
fn run<R: Abort>(rt: &R, alloc: Global, what: &str, calls: &[Call]) {
    let mut filed = Filed::new(alloc);
    make(rt, &mut filed, what, calls);
}

const TWO_UNITS: [Call; 4] = [
    Call::Part(0, 7, 3, 10),
    Call::Part(1, 8, 3, 20),
    Call::Last(0, 7, 3, &[10, 11]),
    Call::Last(1, 8, 3, &[20, 21]),
];

const IN_TURN: [Call; 9] = [
    Call::Part(0, 7, 3, 10),
    Call::Open(7, true),
    Call::Open(8, false),
    Call::DropUnit(0),
    Call::Open(7, false),
    Call::Last(0, 8, 3, &[20]),
    Call::Open(8, true),
    Call::Answer(0),
    Call::Open(8, false),
];

const UNIT_GONE: [Call; 9] = [
    Call::Last(0, 7, 3, &[10]),
    Call::Last(1, 9, 3, &[30]),
    Call::Open(7, true),
    Call::DropUnit(0),
    Call::Last(0, 8, 3, &[20]),
    Call::Answer(0),
    Call::Open(7, false),
    Call::Open(8, true),
    Call::Open(9, true),
];

/// A reset drops the group of a first job, and the same binding and index have a second one. The late answer of the first
/// leaves the second as it is.
const LATE_ANSWER: [Call; 7] = [
    Call::Last(0, 7, 3, &[10]),
    Call::DropUnit(0),
    Call::Last(0, 7, 3, &[20]),
    Call::Answer(0),
    Call::Open(7, true),
    Call::Answer(1),
    Call::Open(7, false),
];

/// Two bindings at one unit and index, and a unit and an index that are the same by the remainder.
const ONE_CELL: [Call; 6] = [
    Call::Part(0, 7, 3, 10),
    Call::Part(0, 8, 3, 20),
    Call::Part(8, 9, 35, 30),
    Call::Last(8, 9, 35, &[30, 31]),
    Call::Last(0, 7, 3, &[10, 11]),
    Call::Last(0, 8, 3, &[20, 21]),
];

/// The pages of the largest group, in its order.
const MOST_PAGES: [u64; 32] = [
    0, 1, 2, 3, 4, 5, 6, 7, 8, 9, 10, 11, 12, 13, 14, 15, 16, 17, 18, 19, 20, 21, 22, 23, 24, 25,
    26, 27, 28, 29, 30, 31,
];

const MOST_ASKS: [Call; 2] = [
    Call::PartEach(0, 7, 0, 31),
    Call::Last(0, 7, 0, &MOST_PAGES),
];

/// What each run shows, and its calls.
static RUNS: [(&str, &[Call]); 6] = [
    ("one index at two units", &TWO_UNITS),
    ("bindings in turn", &IN_TURN),
    ("a job outlives its unit", &UNIT_GONE),
    ("a late answer ends no other group", &LATE_ANSWER),
    ("groups that share a cell", &ONE_CELL),
    ("most asks", &MOST_ASKS),
];

#[test]
fn answers_each_run_of_calls(rt: HostRuntime) {
    for place in 0..RUNS.len() {
        let (what, calls) = RUNS[place];
        run(&rt, rt.alloc(), what, calls);
    }
}

/// Has each binding below this one an open group, and no other of six?
fn holds_groups_below(filed: &Filed, binding: u64) -> bool {
    (0..6).all(|other| filed.groups.open_of(other) == (other < binding))
}

/// Files a request of a binding. Where an allocation is refused, the groups are as they were, and the next try files it.
fn files_again<R: Abort>(rt: &R, filed: &mut Filed, binding: u64) -> bool {
    let call = Call::Part(0, binding, 0, 10);
    match answers(rt, filed, call) {
        Ok(is_so) => is_so,
        Err(_refused) => {
            holds_groups_below(filed, binding) && answers(rt, filed, call) == Ok(true)
        }
    }
}

#[test]
fn a_refused_reserve_changes_nothing(rt: HostRuntime) {
    let mut filed = Filed::new(rt.alloc());
    for binding in 0..6 {
        assert!(rt; files_again(&rt, &mut filed, binding));
        assert!(rt; holds_groups_below(&filed, binding + 1));
    }
}
