//! Runs of calls of a whole endpoint.

use crate::endpoints::endpoint_calls::{Call, Down, Told, Try, run};
use sva_msg::{Code, Scope};
use sva_step::Refusal;

const PAGE_16: Down = Down::Invalidate(0, 1, Scope::Code { page: 16, s: false });

const THIRTY_TWO_TAGS: [Call; 9] = [
    Call::Refused(Try::Ask(1, 1 << 36), Refusal::PageRange),
    Call::Refused(Try::Ask(0, 16), Refusal::NotStarted),
    Call::Refused(Try::Ask(33, 16), Refusal::NotStarted),
    Call::Refused(Try::Ask(u64::MAX, 16), Refusal::NotStarted),
    Call::AskEach(32),
    Call::Refused(Try::Ask(1, 16), Refusal::NoTag),
    Call::Tell(Down::Completion(7, 0, false, false), Told::NoTranslation),
    Call::Tell(Down::Completion(7, 0, false, false), Told::Dropped),
    Call::Ask(16, 7),
];

const SIXTY_FOUR_PAGES: [Call; 10] = [
    Call::HoldEach(64),
    Call::Ask(64, 0),
    Call::Tell(Down::Completion(0, 5, true, true), Told::Full),
    Call::Refused(Try::Use(64, false), Refusal::NotHeld),
    Call::Ask(5, 0),
    Call::Tell(Down::Completion(0, 77, true, true), Told::Held),
    Call::Use(5, true, 0, 77),
    Call::Evict(63),
    Call::Refused(Try::Evict(63), Refusal::NotHeld),
    Call::Hold(64, 6),
];

const SIXTEEN_SLOTS: [Call; 9] = [
    Call::Ask(16, 0),
    Call::Tell(Down::Completion(0, 3, true, false), Told::Held),
    Call::Refused(Try::Use(16, true), Refusal::ReadOnly),
    Call::UseEach(16),
    Call::Refused(Try::Use(16, false), Refusal::NoUseSlot),
    Call::End(4, false),
    Call::Refused(Try::End(4), Refusal::NoSuchUse),
    Call::Refused(Try::End(16), Refusal::NoSuchUse),
    Call::Use(16, false, 4, 3),
];

const THIRTY_TWO_REQUESTS: [Call; 6] = [
    Call::SendEach(31),
    Call::Send(32, Some(0), true, 0),
    Call::Refused(Try::Send(None), Refusal::NoCredit),
    Call::Refused(Try::Send(Some(0)), Refusal::NoCredit),
    Call::Tell(Down::Response(0, Code::Success), Told::Answered),
    Call::Refused(Try::Send(Some(0)), Refusal::NoSuchGroup),
];

const THIRTY_TWO_GROUPS: [Call; 9] = [
    Call::GroupEach(32),
    Call::Refused(Try::Send(None), Refusal::NoCredit),
    Call::Tell(Down::Response(9, Code::InvalidRequest), Told::Answered),
    Call::Send(32, None, true, 9),
    Call::Tell(Down::Response(2, Code::ResponseFailure), Told::Answered),
    Call::Refused(Try::Send(None), Refusal::PriDisabled),
    Call::Tell(Down::Reset, Told::Reset),
    Call::Tell(Down::Start, Told::Started),
    Call::Permitted(Try::Send(None)),
];

const LATE_ANSWER: [Call; 7] = [
    Call::Ask(16, 0),
    Call::Tell(PAGE_16, Told::Taken),
    Call::Finish(1, 1, 1),
    Call::Ask(17, 1),
    Call::Tell(Down::Completion(0, 0, true, true), Told::Dropped),
    Call::Refused(Try::Use(16, false), Refusal::NotHeld),
    Call::Ask(16, 0),
];

const TWO_ANSWERS: [Call; 5] = [
    Call::Ask(16, 0),
    Call::Ask(16, 1),
    Call::Tell(Down::Completion(1, 1, true, true), Told::Held),
    Call::Tell(Down::Completion(0, 0, true, true), Told::Held),
    Call::Use(16, true, 0, 0),
];

/// A use that begins in the same slot afterwards isn't waited for.
const USE_AND_INVALIDATION: [Call; 11] = [
    Call::Hold(16, 3),
    Call::Use(16, true, 0, 3),
    Call::Tell(PAGE_16, Told::Taken),
    Call::Refused(Try::Use(16, false), Refusal::NotHeld),
    Call::Refused(Try::Finish(1, 0), Refusal::InUse),
    Call::End(0, false),
    Call::Hold(16, 4),
    Call::Use(16, true, 0, 4),
    Call::Refused(Try::Finish(1, 0), Refusal::BadCount),
    Call::Refused(Try::Finish(1, 9), Refusal::BadCount),
    Call::Finish(1, 8, 0),
];

const PAGE_18: Scope = Scope::Code { page: 18, s: false };

const SEVERAL_ITAGS: [Call; 14] = [
    Call::Hold(16, 3),
    Call::Hold(17, 4),
    Call::Tell(Down::Invalidate(0, 1, PAGE_18), Told::Taken),
    Call::Tell(Down::Invalidate(1, 1, PAGE_18), Told::Taken),
    Call::Tell(Down::Invalidate(3, 1, PAGE_18), Told::Taken),
    Call::Refused(Try::Finish(0x0f, 2), Refusal::NotPending),
    Call::Refused(Try::Finish(0, 2), Refusal::NotPending),
    Call::Finish(0x0b, 2, 2),
    Call::Refused(Try::Finish(8, 2), Refusal::NotPending),
    Call::Tell(Down::Invalidate(31, 2, Scope::All), Told::Taken),
    Call::Permitted(Try::Evict(16)),
    Call::Tell(Down::Invalidate(30, 1, Scope::All), Told::Taken),
    Call::Refused(Try::Evict(17), Refusal::NotHeld),
    Call::Finish(0xc000_0000, 7, 7),
];

/// The code is that of the eight pages from 64 on.
const RANGE_OF_PAGES: [Call; 6] = [
    Call::Hold(70, 1),
    Call::Hold(72, 2),
    Call::Tell(
        Down::Invalidate(0, 1, Scope::Code { page: 67, s: true }),
        Told::Taken,
    ),
    Call::Refused(Try::Use(70, false), Refusal::NotHeld),
    Call::Use(72, false, 0, 2),
    Call::Finish(1, 1, 1),
];

/// Neither the request nor the group of before the reset has its tag or index any more.
const RESET: [Call; 16] = [
    Call::Hold(16, 3),
    Call::Use(16, true, 0, 3),
    Call::Ask(17, 0),
    Call::Send(32, None, true, 0),
    Call::Tell(Down::Invalidate(0, 1, PAGE_18), Told::Taken),
    Call::Tell(Down::Reset, Told::Reset),
    Call::Refused(Try::Ask(1, 17), Refusal::NotStarted),
    Call::Refused(Try::Evict(16), Refusal::NotHeld),
    Call::Refused(Try::Finish(1, 1), Refusal::NotPending),
    Call::Tell(Down::Start, Told::Started),
    Call::Ask(17, 0),
    Call::Send(32, None, true, 0),
    Call::Hold(16, 5),
    Call::Use(16, true, 1, 5),
    Call::End(0, true),
    Call::Use(16, true, 0, 5),
];

const QUIT: [Call; 13] = [
    Call::Refused(Try::Quit, Refusal::NotStopping),
    Call::Send(32, None, false, 0),
    Call::Tell(Down::Stop, Told::Stopping),
    Call::Refused(Try::Quit, Refusal::Busy),
    Call::Refused(Try::Send(None), Refusal::NotStarted),
    Call::Send(33, Some(0), true, 0),
    Call::Permitted(Try::Quit),
    Call::Quit,
    Call::Refused(Try::Quit, Refusal::NotStopping),
    Call::Tell(Down::Start, Told::Started),
    Call::Send(32, None, true, 1),
    Call::Tell(Down::Response(0, Code::Success), Told::Stale),
    Call::Send(32, None, true, 0),
];

/// What each run shows, and its calls.
static RUNS: [(&str, &[Call]); 12] = [
    ("request tags are 32", &THIRTY_TWO_TAGS),
    ("the cache keeps 64", &SIXTY_FOUR_PAGES),
    ("use slots are 16", &SIXTEEN_SLOTS),
    ("page requests are 32", &THIRTY_TWO_REQUESTS),
    ("groups are 32", &THIRTY_TWO_GROUPS),
    ("a late answer is dropped", &LATE_ANSWER),
    ("the answer that comes last is held", &TWO_ANSWERS),
    ("a use holds an invalidation up", &USE_AND_INVALIDATION),
    ("one vector names several", &SEVERAL_ITAGS),
    ("an invalidation covers a range", &RANGE_OF_PAGES),
    ("a reset leaves dead uses", &RESET),
    ("a quit leaves stale groups", &QUIT),
];

#[test]
fn answers_each_run_of_calls(rt: HostRuntime) {
    for place in 0..RUNS.len() {
        let (what, calls) = RUNS[place];
        run(&rt, what, calls);
    }
}
