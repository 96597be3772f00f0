//! The calls of a whole endpoint, each with what it has to answer.

use crate::asserted::holds;
use std::process::Abort;
use sva_endpoint::{Endpoint, Fault};
use sva_msg::{Code, CountField, Kind, Message, PageRequest, Scope};
use sva_step::{Answer, Refusal};

/// A message to the endpoint.
#[derive(Clone, Copy)]
pub(crate) enum Down {
    Start,
    Stop,
    Reset,
    /// The tag, the frame, and whether the page may be read and written.
    Completion(u8, u32, bool, bool),
    /// The ITag, the PASID and the pages.
    Invalidate(u8, u32, Scope),
    /// The index and the code.
    Response(u8, Code),
}

/// What the endpoint answers to a message.
#[derive(Clone, Copy)]
pub(crate) enum Told {
    Started,
    Stopping,
    Reset,
    NoTranslation,
    Full,
    Held,
    Dropped,
    Taken,
    Answered,
    Stale,
}

/// What an endpoint is asked for.
#[derive(Clone, Copy)]
pub(crate) enum Try {
    /// A PASID and a page.
    Ask(u64, u64),
    /// A page, and whether it is to be written.
    Use(u64, bool),
    End(u64),
    Evict(u64),
    /// The group that goes on; none where a new one begins.
    Send(Option<u64>),
    /// The vector, and how many completions.
    Finish(u32, u64),
    Quit,
}

/// A step of an endpoint, and what it has to answer. Where none is named, the PASID is 1.
#[derive(Clone, Copy)]
pub(crate) enum Call {
    Tell(Down, Told),
    Refused(Try, Refusal),
    Permitted(Try),
    /// A page, and the tag of the request.
    Ask(u64, u8),
    /// So many requests for page 16, with the tags from 0 on.
    AskEach(u8),
    /// A page is asked for, and held with this frame.
    Hold(u64, u32),
    /// The pages from 0 on, so many, are held with frame 9.
    HoldEach(u64),
    /// A page, whether it is to be written, and the slot and the frame of the use.
    Use(u64, bool, u8, u32),
    /// So many reads of page 16, which has frame 3, in the slots from 0 on.
    UseEach(u8),
    /// A slot, and whether its use was dead.
    End(u64, bool),
    Evict(u64),
    /// A page, the group, whether this is its last request, and its index.
    Send(u64, Option<u64>, bool, u8),
    /// So many requests of the group of index 0, which the first begins and none ends.
    SendEach(u8),
    /// So many groups of one request, with the indices from 0 on.
    GroupEach(u8),
    /// The vector, so many completions, and the Completion Count field of each.
    Finish(u32, u8, u8),
    Quit,
}

fn kind_of(down: Down) -> Kind {
    match down {
        Down::Start => Kind::Start { pasid: 1 },
        Down::Stop => Kind::Stop { pasid: 1 },
        Down::Reset => Kind::Reset,
        Down::Completion(tag, frame, read, write) => Kind::Completion {
            tag,
            frame,
            read,
            write,
        },
        Down::Invalidate(itag, pasid, scope) => Kind::Invalidate { itag, pasid, scope },
        Down::Response(index, code) => Kind::Response {
            pasid: 1,
            index,
            code,
        },
    }
}

fn answer_of(told: Told) -> Answer {
    match told {
        Told::Started => Answer::Started,
        Told::Stopping => Answer::Stopping,
        Told::Reset => Answer::Reset,
        Told::NoTranslation => Answer::NoTranslation,
        Told::Full => Answer::Full,
        Told::Held => Answer::Held,
        Told::Dropped => Answer::Dropped,
        Told::Taken => Answer::Taken,
        Told::Answered => Answer::Answered,
        Told::Stale => Answer::Stale,
    }
}

/// Whether the endpoint answers so to a message.
fn tells(endpoint: &mut Endpoint, down: Down, told: Told) -> bool {
    let kind = kind_of(down);
    endpoint.receive(Message { endpoint: 0, kind }).answer == answer_of(told)
}

/// A request of group `group` for page 32.
fn fault_of(group: Option<u64>) -> Fault {
    Fault {
        pasid: 1,
        page: 32,
        read: true,
        write: true,
        group,
        last: true,
    }
}

/// Why the endpoint doesn't do what it is asked for; none where it may.
fn refusal(endpoint: &Endpoint, asked: Try) -> Option<Refusal> {
    match asked {
        Try::Ask(pasid, page) => endpoint.may_ask(pasid, page).err(),
        Try::Use(page, write) => endpoint.may_begin_use(1, page, write).err(),
        Try::End(slot) => endpoint.may_end_use(slot).err(),
        Try::Evict(page) => endpoint.may_evict(1, page).err(),
        Try::Send(group) => endpoint.may_fault(&fault_of(group)).err(),
        Try::Finish(vector, count) => endpoint.may_finish(vector, count).err(),
        Try::Quit => endpoint.may_quit(1).err(),
    }
}

/// The tag of a request for a page, if it may be sent, and as the test of the step said it.
fn ask(endpoint: &mut Endpoint, page: u64) -> Option<u8> {
    let Ok(asking) = endpoint.may_ask(1, page) else {
        return None;
    };
    endpoint.ask(asking);
    let tag = asking.tag;
    let kind = Kind::Request {
        tag,
        pasid: 1,
        page,
    };
    if asking.kind() == kind {
        Some(tag)
    } else {
        None
    }
}

fn ask_each(endpoint: &mut Endpoint, requests: u8) -> bool {
    for tag in 0..requests {
        if ask(endpoint, 16) != Some(tag) {
            return false;
        }
    }
    true
}

fn hold(endpoint: &mut Endpoint, page: u64, frame: u32) -> bool {
    match ask(endpoint, page) {
        Some(tag) => tells(
            endpoint,
            Down::Completion(tag, frame, true, true),
            Told::Held,
        ),
        None => false,
    }
}

fn hold_each(endpoint: &mut Endpoint, pages: u64) -> bool {
    for page in 0..pages {
        if !hold(endpoint, page, 9) {
            return false;
        }
    }
    true
}

/// Whether a use may begin, and does, in this slot and with this frame.
fn begins(endpoint: &mut Endpoint, page: u64, write: bool, slot: u8, frame: u32) -> bool {
    let Ok(using) = endpoint.may_begin_use(1, page, write) else {
        return false;
    };
    endpoint.begin_use(using);
    using.slot == slot && using.begun.page == page && using.begun.frame == frame
}

fn begin_each(endpoint: &mut Endpoint, uses: u8) -> bool {
    for slot in 0..uses {
        if !begins(endpoint, 16, false, slot, 3) {
            return false;
        }
    }
    true
}

/// Ends a use, if there is one, and tells whether it was dead or not, as wanted.
fn ends(endpoint: &mut Endpoint, slot: u64, is_dead: bool) -> bool {
    let ending = endpoint.may_end_use(slot);
    if ending.is_err() {
        return false;
    }
    endpoint.end_use(slot);
    matches!(ending, Ok(Answer::Dead)) == is_dead
}

fn evicts(endpoint: &mut Endpoint, page: u64) -> bool {
    if endpoint.may_evict(1, page).is_err() {
        return false;
    }
    endpoint.evict(1, page);
    true
}

/// The index of a page request, if it may be sent, and as the test of the step said it.
fn send(endpoint: &mut Endpoint, page: u64, group: Option<u64>, last: bool) -> Option<u8> {
    let fault = Fault {
        pasid: 1,
        page,
        read: true,
        write: false,
        group,
        last,
    };
    let Ok(faulting) = endpoint.may_fault(&fault) else {
        return None;
    };
    endpoint.fault(faulting);
    let index = faulting.request.index;
    let request = PageRequest {
        pasid: 1,
        index,
        page,
        read: true,
        write: false,
        last,
    };
    if faulting.kind() == Kind::PageRequest(request) {
        Some(index)
    } else {
        None
    }
}

fn send_each(endpoint: &mut Endpoint, requests: u8) -> bool {
    let mut group = None;
    for _request in 0..requests {
        if send(endpoint, 32, group, false) != Some(0) {
            return false;
        }
        group = Some(0);
    }
    true
}

fn group_each(endpoint: &mut Endpoint, groups: u8) -> bool {
    for index in 0..groups {
        if send(endpoint, 32, None, true) != Some(index) {
            return false;
        }
    }
    true
}

/// Completes what the vector names by so many completions, if it may, and as the test of the step said it.
fn finishes(endpoint: &mut Endpoint, vector: u32, count: u8, field: u8) -> bool {
    let Ok(finishing) = endpoint.may_finish(vector, u64::from(count)) else {
        return false;
    };
    if field > 7 {
        return false;
    }
    endpoint.finish(finishing);
    let kind = Kind::Invalidated {
        vector,
        count: CountField::new(field),
    };
    finishing.count.get() == count && finishing.kind() == kind
}

fn quits(endpoint: &mut Endpoint) -> bool {
    let Ok(quitting) = endpoint.may_quit(1) else {
        return false;
    };
    endpoint.quit(quitting);
    quitting.kind() == Kind::Marker { pasid: 1 }
}

/// Makes a call of requests, or another one, and tells whether it answers as it has to.
fn answers(endpoint: &mut Endpoint, call: Call) -> bool {
    match call {
        Call::Tell(down, told) => tells(endpoint, down, told),
        Call::Refused(asked, why) => refusal(endpoint, asked) == Some(why),
        Call::Permitted(asked) => refusal(endpoint, asked).is_none(),
        Call::Ask(page, tag) => ask(endpoint, page) == Some(tag),
        Call::AskEach(requests) => ask_each(endpoint, requests),
        Call::Hold(page, frame) => hold(endpoint, page, frame),
        Call::HoldEach(pages) => hold_each(endpoint, pages),
        _other => answers_other(endpoint, call),
    }
}

fn answers_other(endpoint: &mut Endpoint, call: Call) -> bool {
    match call {
        Call::Use(page, write, slot, frame) => begins(endpoint, page, write, slot, frame),
        Call::UseEach(uses) => begin_each(endpoint, uses),
        Call::End(slot, is_dead) => ends(endpoint, slot, is_dead),
        Call::Evict(page) => evicts(endpoint, page),
        Call::Send(page, group, last, index) => send(endpoint, page, group, last) == Some(index),
        Call::SendEach(requests) => send_each(endpoint, requests),
        Call::GroupEach(groups) => group_each(endpoint, groups),
        Call::Finish(vector, count, field) => finishes(endpoint, vector, count, field),
        Call::Quit => quits(endpoint),
        _request => false,
    }
}

/// Makes the calls one after another.
fn make(rt: &impl Abort, endpoint: &mut Endpoint, what: &str, calls: &[Call]) {
    for place in 0..calls.len() {
        holds(rt, answers(endpoint, calls[place]), what, place);
    }
}

/// Makes the calls at an endpoint at which PASID 1 has started.
pub(crate) fn run(rt: &impl Abort, what: &str, calls: &[Call]) {
    let mut endpoint = Endpoint::new();
    assert!(rt; tells(&mut endpoint, Down::Start, Told::Started));
    make(rt, &mut endpoint, what, calls);
}
