//! The texts of answers and refusals, and the tests of configs and steps.

use crate::asserted::holds;
use std::alloc::{AllocError, Global};
use std::process::Abort;
use sva_step::{Answer, Config, FrameList, MOST_PAGES, Refusal, Step, Verdict};

/// Does an answer print this text, behind a text that was there before?
fn is_printed(alloc: Global, answer: Answer, text: &str) -> Result<bool, AllocError> {
    let mut line = Vec::from_slice(alloc, b"> ")?;
    answer.write(&mut line)?;
    Ok(line.as_slice() == text.as_bytes())
}

fn host_answer(place: usize) -> Answer {
    match place {
        0 => Answer::Space { space: 0 },
        1 => Answer::Gone,
        2 => Answer::Frame { frame: 4095 },
        3 => Answer::RangeFree { frames: 512 },
        4 => Answer::RangeWithheld { frames: 2 },
        5 => Answer::Binding {
            binding: 9223372036854775807,
            pasid: 32,
        },
        6 => Answer::Stopping,
        7 => Answer::Draining,
        8 => Answer::Invalidating,
        9 => Answer::Quiet,
        10 => Answer::Released,
        _ => Answer::Idle,
    }
}

/// The texts that the calls of the host print.
static HOST_ANSWERS: [&str; 12] = [
    "> space 0",
    "> gone",
    "> frame 4095",
    "> range free 512",
    "> range withheld 2",
    "> binding 9223372036854775807 pasid 32",
    "> stopping",
    "> draining",
    "> invalidating",
    "> quiet",
    "> released",
    "> idle",
];

fn service_answer(place: usize) -> Answer {
    match place {
        0 => Answer::Itag { itag: 31 },
        1 => Answer::Blocked,
        2 => Answer::WaitDone,
        3 => Answer::Empty,
        4 => Answer::Part,
        5 => Answer::Job,
        6 => Answer::Resetting,
        7 => Answer::JobTaken {
            binding: 1,
            group: 0,
            pages: 32,
        },
        8 => Answer::Success { pages: 1 },
        9 => Answer::Invalid,
        10 => Answer::Failure,
        _ => Answer::Dropped,
    }
}

/// The texts that the service of the queues and the workers print.
static SERVICE_ANSWERS: [&str; 12] = [
    "> itag 31",
    "> blocked",
    "> wait done",
    "> empty",
    "> part",
    "> job",
    "> resetting",
    "> job binding 1 group 0 pages 32",
    "> success 1",
    "> invalid",
    "> failure",
    "> dropped",
];

fn endpoint_answer(place: usize) -> Answer {
    match place {
        0 => Answer::Tag { tag: 10 },
        1 => Answer::Use { slot: 15, frame: 7 },
        2 => Answer::Ended,
        3 => Answer::Dead,
        4 => Answer::Evicted,
        5 => Answer::Group { group: 31 },
        6 => Answer::Sent { count: 8 },
        _ => Answer::Marker,
    }
}

/// The texts that endpoints print.
static ENDPOINT_ANSWERS: [&str; 8] = [
    "> tag 10",
    "> use 15 frame 7",
    "> ended",
    "> dead",
    "> evicted",
    "> group 31",
    "> sent 8",
    "> marker",
];

fn delivery_down(place: usize) -> Answer {
    match place {
        0 => Answer::Free,
        1 => Answer::Mapped,
        2 => Answer::Withheld,
        3 => Answer::Started,
        4 => Answer::Reset,
        5 => Answer::NoTranslation,
        6 => Answer::Full,
        7 => Answer::Held,
        8 => Answer::Taken,
        9 => Answer::Answered,
        _ => Answer::Stale,
    }
}

/// The texts that `look` and the deliveries to an endpoint print.
static DELIVERIES_DOWN: [&str; 11] = [
    "> free",
    "> mapped",
    "> withheld",
    "> started",
    "> reset",
    "> none",
    "> full",
    "> held",
    "> taken",
    "> answered",
    "> stale",
];

fn delivery_up(place: usize) -> Answer {
    match place {
        0 => Answer::Completion,
        1 => Answer::Freed { count: 0 },
        2 => Answer::Queued,
        3 => Answer::Marked,
        4 => Answer::ResetDone,
        5 => Answer::Bearer {
            space: 0,
            bindings: 2,
        },
        _ => Answer::NoBearer,
    }
}

/// The texts that the deliveries to a unit and `bearer` print.
static DELIVERIES_UP: [&str; 7] = [
    "> completion",
    "> freed 0",
    "> queued",
    "> marked",
    "> reset done",
    "> bearer 0 bindings 2",
    "> bearer none",
];

/// Frames 0, 10 and 4095.
fn three_frames() -> FrameList {
    let mut frames = FrameList::new();
    frames.push(0);
    frames.push(10);
    frames.push(4095);
    frames
}

fn answer_with_frames(place: usize) -> Answer {
    let frames = three_frames();
    match place {
        0 => Answer::FreeFrames { frames },
        _ => Answer::WithheldFrames { frames },
    }
}

static ANSWERS_WITH_FRAMES: [&str; 2] = ["> free 0 10 4095", "> withheld 0 10 4095"];

/// The answers by what prints them.
#[derive(Clone, Copy)]
enum Part {
    Host,
    Service,
    Endpoint,
    Down,
    Up,
    WithFrames,
}

fn answer(part: Part, place: usize) -> Answer {
    match part {
        Part::Host => host_answer(place),
        Part::Service => service_answer(place),
        Part::Endpoint => endpoint_answer(place),
        Part::Down => delivery_down(place),
        Part::Up => delivery_up(place),
        Part::WithFrames => answer_with_frames(place),
    }
}

/// The answers of a part print these texts.
fn print_each<R: Abort>(rt: &R, alloc: Global, part: Part, texts: &[&str]) {
    for place in 0..texts.len() {
        let is_so = is_printed(alloc, answer(part, place), texts[place]) == Ok(true);
        holds(rt, is_so, texts[place], place);
    }
}

#[test]
fn answers_of_the_host(rt: HostRuntime) {
    print_each(&rt, rt.alloc(), Part::Host, &HOST_ANSWERS);
    print_each(&rt, rt.alloc(), Part::Service, &SERVICE_ANSWERS);
    print_each(&rt, rt.alloc(), Part::WithFrames, &ANSWERS_WITH_FRAMES);
}

#[test]
fn answers_of_endpoints_and_deliveries(rt: HostRuntime) {
    print_each(&rt, rt.alloc(), Part::Endpoint, &ENDPOINT_ANSWERS);
    print_each(&rt, rt.alloc(), Part::Down, &DELIVERIES_DOWN);
    print_each(&rt, rt.alloc(), Part::Up, &DELIVERIES_UP);
}

/// Those of the host, and then the others.
static REFUSALS: [(Refusal, u8, &str); 43] = [
    (Refusal::BadConfig, 1, "> refused 1 BadConfig"),
    (Refusal::NoSuchEndpoint, 2, "> refused 2 NoSuchEndpoint"),
    (Refusal::NoSuchSpace, 3, "> refused 3 NoSuchSpace"),
    (Refusal::TooManySpaces, 4, "> refused 4 TooManySpaces"),
    (Refusal::PageRange, 5, "> refused 5 PageRange"),
    (Refusal::Mapped, 6, "> refused 6 Mapped"),
    (Refusal::NotMapped, 7, "> refused 7 NotMapped"),
    (Refusal::NoFrame, 8, "> refused 8 NoFrame"),
    (Refusal::SpaceFull, 9, "> refused 9 SpaceFull"),
    (Refusal::AlreadyBound, 10, "> refused 10 AlreadyBound"),
    (Refusal::NoPasid, 11, "> refused 11 NoPasid"),
    (Refusal::StillBound, 12, "> refused 12 StillBound"),
    (Refusal::NoSuchBinding, 13, "> refused 13 NoSuchBinding"),
    (Refusal::NotLive, 14, "> refused 14 NotLive"),
    (Refusal::NotYet, 15, "> refused 15 NotYet"),
    (Refusal::QueueFull, 16, "> refused 16 QueueFull"),
    (Refusal::Resetting, 17, "> refused 17 Resetting"),
    (Refusal::BadOrder, 40, "> refused 40 BadOrder"),
    (Refusal::NotAligned, 41, "> refused 41 NotAligned"),
    (Refusal::NothingMapped, 42, "> refused 42 NothingMapped"),
    (Refusal::BadPasid, 43, "> refused 43 BadPasid"),
    (Refusal::NotStarted, 18, "> refused 18 NotStarted"),
    (Refusal::NoTag, 19, "> refused 19 NoTag"),
    (Refusal::NotHeld, 20, "> refused 20 NotHeld"),
    (Refusal::ReadOnly, 21, "> refused 21 ReadOnly"),
    (Refusal::NoUseSlot, 22, "> refused 22 NoUseSlot"),
    (Refusal::NoSuchUse, 23, "> refused 23 NoSuchUse"),
    (Refusal::NoCredit, 24, "> refused 24 NoCredit"),
    (Refusal::NoSuchGroup, 25, "> refused 25 NoSuchGroup"),
    (Refusal::PriDisabled, 26, "> refused 26 PriDisabled"),
    (Refusal::NotPending, 27, "> refused 27 NotPending"),
    (Refusal::InUse, 28, "> refused 28 InUse"),
    (Refusal::BadCount, 29, "> refused 29 BadCount"),
    (Refusal::NotStopping, 30, "> refused 30 NotStopping"),
    (Refusal::Busy, 31, "> refused 31 Busy"),
    (Refusal::NoSuchMessage, 32, "> refused 32 NoSuchMessage"),
    (Refusal::Overtakes, 33, "> refused 33 Overtakes"),
    (Refusal::NoSuchWorker, 34, "> refused 34 NoSuchWorker"),
    (Refusal::HandsFull, 35, "> refused 35 HandsFull"),
    (Refusal::NoJob, 36, "> refused 36 NoJob"),
    (Refusal::BadVerdict, 37, "> refused 37 BadVerdict"),
    (Refusal::NumbersSpent, 38, "> refused 38 NumbersSpent"),
    (Refusal::OutOfMemory, 39, "> refused 39 OutOfMemory"),
];

/// Does a refusal print this text, behind a text that was there before, and has it this number and the text's name?
fn is_told(alloc: Global, refusal: Refusal, number: u8, text: &str) -> Result<bool, AllocError> {
    let mut line = Vec::from_slice(alloc, b"> ")?;
    refusal.write(&mut line)?;
    Ok(
        line.as_slice() == text.as_bytes()
            && refusal.number() == number
            && text.ends_with(refusal.name()),
    )
}

#[test]
fn refusals(rt: HostRuntime) {
    for place in 0..REFUSALS.len() {
        let (refusal, number, text) = REFUSALS[place];
        let is_so = is_told(rt.alloc(), refusal, number, text) == Ok(true);
        holds(&rt, is_so, text, place);
    }
}

/// The numbers from one on, 48 at most, each less than the one before.
fn falling(first: u32) -> FrameList {
    let mut frames = FrameList::new();
    for place in 0..48 {
        if frames.len() < MOST_PAGES {
            frames.push(first.wrapping_sub(place));
        }
    }
    frames
}

/// Are these the numbers from 100 on, 48 of them, each less than the one before?
fn are_falling(frames: &FrameList) -> bool {
    let listed = frames.as_slice();
    frames.len() == 48
        && !frames.is_empty()
        && listed.starts_with(&[100, 99])
        && listed.ends_with(&[54, 53])
}

/// Is an answer with frames the same as itself, and no other than the same list of withheld frames, or than no frames?
fn is_itself_alone(frames: FrameList) -> bool {
    let same = Answer::FreeFrames { frames };
    let others = [
        Answer::WithheldFrames { frames },
        Answer::FreeFrames {
            frames: FrameList::default(),
        },
    ];
    same == Answer::FreeFrames { frames } && !others.contains(&same)
}

#[test]
fn frame_lists(rt: HostRuntime) {
    let none = FrameList::new();
    assert!(rt; none.len() == 0 && none.is_empty());
    let frames = falling(100);
    assert!(rt; are_falling(&frames) && is_itself_alone(frames));
}

/// Of each config its endpoints, frames, workers and first number, and whether it fits.
static CONFIGS: [(u64, u64, u64, u64, bool); 9] = [
    (1, 1, 1, 0, true),
    (8, 4096, 4, 9223372036854775808, true),
    (0, 1, 1, 0, false),
    (9, 1, 1, 0, false),
    (1, 0, 1, 0, false),
    (1, 4097, 1, 0, false),
    (1, 1, 0, 0, false),
    (1, 1, 5, 0, false),
    (1, 1, 1, 9223372036854775809, false),
];

fn fits(endpoints: u64, frames: u64, workers: u64, first: u64) -> bool {
    let config = Config {
        endpoints,
        frames,
        workers,
        first,
    };
    config.fits()
}

#[test]
fn configs(rt: HostRuntime) {
    for place in 0..CONFIGS.len() {
        let (endpoints, frames, workers, first, does_fit) = CONFIGS[place];
        let is_so = fits(endpoints, frames, workers, first) == does_fit;
        holds(&rt, is_so, "config", place);
    }
}

static STEPS_WITH_TOKENS: [Step; 5] = [
    Step::Bind {
        endpoint: 0,
        space: 0,
    },
    Step::Unbind { binding: 0 },
    Step::Advance { binding: 0 },
    Step::BeginUse {
        endpoint: 0,
        pasid: 1,
        page: 16,
        write: true,
    },
    Step::EndUse {
        endpoint: 0,
        slot: 0,
    },
];

static PLAIN_STEPS: [Step; 7] = [
    Step::Space,
    Step::Unmap {
        space: 0,
        page: 16,
        count: 1,
    },
    Step::UnmapRange {
        space: 0,
        page: 64,
        order: 3,
    },
    Step::Reply {
        worker: 0,
        verdict: Verdict::Success,
    },
    Step::Deliver { message: 0 },
    Step::Look { frame: 0 },
    Step::Bearer { pasid: 1 },
];

/// Each of these steps is plain, or none is.
fn are_plain<R: Abort>(rt: &R, steps: &[Step], is_plain: bool) {
    for place in 0..steps.len() {
        holds(rt, steps[place].is_plain() == is_plain, "step", place);
    }
}

#[test]
fn steps_without_tokens(rt: HostRuntime) {
    are_plain(&rt, &STEPS_WITH_TOKENS, false);
    are_plain(&rt, &PLAIN_STEPS, true);
}

/// Appends an answer's text. With an allocation failing on the way, what was there stays, and the next try appends the whole
/// text.
fn append<R: Abort>(rt: &R, answer: Answer, text: &mut Vec<u8>) {
    let before = text.len();
    if answer.write(text).is_err() {
        assert!(rt; text.len() == before && answer.write(text).is_ok());
    }
}

/// Appends a refusal's text, in the same way.
fn append_refusal<R: Abort>(rt: &R, refusal: Refusal, text: &mut Vec<u8>) {
    let before = text.len();
    if refusal.write(text).is_err() {
        assert!(rt; text.len() == before && refusal.write(text).is_ok());
    }
}

/// Appends three texts.
fn append_each<R: Abort>(rt: &R, text: &mut Vec<u8>) {
    let job = Answer::JobTaken {
        binding: 9223372036854775807,
        group: 31,
        pages: 32,
    };
    append(rt, job, text);
    let frames = falling(1048);
    append(rt, Answer::WithheldFrames { frames }, text);
    append_refusal(rt, Refusal::OutOfMemory, text);
}

/// Are the three texts here, one behind another?
fn are_appended(told: &[u8]) -> bool {
    told.len() == 49 + 8 + 48 * 5 + 22
        && told.starts_with(b"job binding 9223372036854775807 group 31 pages 32withheld 1048 1047 ")
        && told.ends_with(b" 1002 1001refused 39 OutOfMemory")
}

#[test]
fn refused_memory(rt: HostRuntime) {
    let mut text = Vec::new(rt.alloc());
    append_each(&rt, &mut text);
    assert!(rt; are_appended(text.as_slice()));
}
