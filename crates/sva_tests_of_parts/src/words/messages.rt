//! Which messages overtake which, and the messages in flight.

ghost use Rattle.std.specs.Prelude.{◌≤◌, ◌^◌};

use crate::asserted::holds;
use std::alloc::{AllocError, Global};
use std::process::Abort;
use sva_msg::{Bag, Code, CountField, Kind, Message, PageRequest, Scope};

fn page_request(last: bool) -> Kind {
    Kind::PageRequest(PageRequest {
        pasid: 1,
        index: 0,
        page: 16,
        read: true,
        write: false,
        last,
    })
}

/// Each kind by its place among 12, page requests without and with L.
fn kind(place: usize) -> Kind {
    match place {
        0 => Kind::Start { pasid: 1 },
        1 => Kind::Stop { pasid: 1 },
        2 => Kind::Reset,
        3 => Kind::Completion {
            tag: 0,
            frame: 2,
            read: true,
            write: true,
        },
        4 => Kind::Invalidate {
            itag: 3,
            pasid: 1,
            scope: Scope::Code { page: 16, s: false },
        },
        5 => Kind::Response {
            pasid: 1,
            index: 0,
            code: Code::Success,
        },
        6 => Kind::Request {
            tag: 0,
            pasid: 1,
            page: 16,
        },
        7 => Kind::Invalidated {
            vector: 8,
            count: CountField::new(1),
        },
        8 => page_request(false),
        9 => page_request(true),
        10 => Kind::Marker { pasid: 1 },
        _ => Kind::ResetDone,
    }
}

/// A row for each newer kind: may it be delivered while one of each older kind is in flight at its endpoint?
///
/// A start, a stop and a reset overtake, of the messages down, a completion alone; a page request with L and a marker
/// overtake no page request; a reset-done overtakes nothing.
static MAY_OVERTAKE: [&str; 12] = [
    "nnnynnyyyyyy",
    "nnnynnyyyyyy",
    "nnnynnyyyyyy",
    "yyyyyyyyyyyy",
    "yyyyyyyyyyyy",
    "yyyyyyyyyyyy",
    "yyyyyyyyyyyy",
    "yyyyyyyyyyyy",
    "yyyyyyyyyyyy",
    "yyyyyyyynnyy",
    "yyyyyyyynnyy",
    "nnnnnnnnnnnn",
];

fn may_overtake(newer: usize, older: usize) -> bool {
    newer < MAY_OVERTAKE.len() && MAY_OVERTAKE[newer].as_bytes().get(older) == Some(&b'y')
}

/// Whether the older one of two messages in flight may be delivered, and whether the newer one may.
fn may_deliver(alloc: Global, older: Message, newer: Message) -> Result<(bool, bool), AllocError> {
    let mut bag = Bag::new(alloc, 0);
    bag.send(older, 1)?;
    bag.send(newer, 1)?;
    Ok((bag.may_deliver(0), bag.may_deliver(1)))
}

/// Whether a message of the kind in the one place overtakes an older one of the kind in the other, at its endpoint, as it may or may
/// not, and at another endpoint. The older one may always be delivered.
fn overtakes(alloc: Global, newer: usize, older: usize) -> Result<bool, AllocError> {
    let may = may_overtake(newer, older);
    let first = Message {
        endpoint: 0,
        kind: kind(older),
    };
    let second = Message {
        endpoint: 0,
        kind: kind(newer),
    };
    let elsewhere = Message {
        endpoint: 1,
        kind: kind(newer),
    };
    let is_so = may_deliver(alloc, first, second)? == (true, may);
    Ok(is_so && may_deliver(alloc, first, elsewhere)? == (true, true))
}

#[test]
fn orders_each_pair_of_kinds(rt: HostRuntime) {
    for pair in 0..144 {
        let is_so = overtakes(rt.alloc(), pair / 12, pair % 12) == Ok(true);
        holds(&rt, is_so, "pair", pair);
    }
}

/// Whether a message of a kind goes up or down, and not the other way.
fn goes(kind: Kind, is_up: bool) -> bool {
    let message = Message { endpoint: 7, kind };
    message.is_up() == is_up && message.is_down() != is_up
}

#[test]
fn tells_the_way(rt: HostRuntime) {
    for place in 0..12 {
        holds(&rt, goes(kind(place), place >= 6), "kind", place);
    }
}

#[test]
fn codes_have_their_bits(rt: HostRuntime) {
    assert!(rt; Code::Success.bits() == 0);
    assert!(rt; Code::InvalidRequest.bits() == 1);
    assert!(rt; Code::ResponseFailure.bits() == 15);
    assert!(rt; CountField::new(7).get() == 7);
}

/// A message that differs from those of other pages, and that the order of the link never holds back.
fn request(page: u64) -> Message {
    Message {
        endpoint: page % 8,
        kind: Kind::Request {
            tag: 0,
            pasid: 1,
            page,
        },
    }
}

/// Opens a bag whose first message has this number.
fn open(alloc: Global, first: u64) -> Bag
    requires { first ≤ 2 ^ 63 }
{
    Bag::new(alloc, first)
}

/// Sends so many copies. Where memory is refused, nothing is sent, and the next try succeeds.
fn send<R: Abort>(rt: &R, bag: &mut Bag, message: Message, copies: u64) -> u64 {
    let left = bag.left();
    assert!(rt; (1..=8).contains(&copies) && copies <= left);
    if let Ok(first) = bag.send(message, copies) {
        return first;
    }
    assert!(rt; bag.left() == left);
    bag.send(message, copies)
        .expect(rt, "memory is refused once")
}

/// Whether the message of this number is delivered, and is the request for this page, and then there is none.
fn is_delivered(bag: &mut Bag, number: u64, page: u64) -> bool {
    if bag.get(number) != Some(request(page)) || !bag.may_deliver(number) {
        return false;
    }
    bag.deliver(number) == request(page) && bag.get(number).is_none() && !bag.may_deliver(number)
}

/// Sends two copies of each of 300 requests.
fn send_hundreds<R: Abort>(rt: &R, bag: &mut Bag) {
    for page in 0..300 {
        assert!(rt; bag.get(2 * page).is_none());
        assert!(rt; send(rt, bag, request(page), 2) == 2 * page);
    }
}

/// Delivers them. 7 and 600 have no common factor, so each number comes once.
fn deliver_hundreds<R: Abort>(rt: &R, bag: &mut Bag) {
    for step in 0..600u64 {
        let number = step * 7 % 600;
        let is_so = is_delivered(bag, number, number / 2);
        holds(rt, is_so, "message", number as usize);
    }
}

#[test]
fn holds_hundreds(rt: HostRuntime) {
    let mut bag = open(rt.alloc(), 0);
    send_hundreds(&rt, &mut bag);
    deliver_hundreds(&rt, &mut bag);
}

/// Whether the last eight numbers are left, and those from this one on are given to eight copies.
fn spends_eight<R: Abort>(rt: &R, bag: &mut Bag, first: u64) -> bool {
    bag.left() == 8 && send(rt, bag, request(1), 8) == first && bag.left() == 0
}

#[test]
fn spends_the_last_numbers(rt: HostRuntime) {
    let mut bag = open(rt.alloc(), 9223372036854775800);
    assert!(rt; spends_eight(&rt, &mut bag, 9223372036854775800));
    assert!(rt; bag.get(9223372036854775807) == Some(request(1)));
    assert!(rt; open(rt.alloc(), 9223372036854775808).left() == 0);
}

/// The stop that the sends of the next test put in flight under a number: one, eight, two and twice eight copies.
fn stop(number: u64) -> Message {
    let pasid = match number {
        5 => 1,
        6..=13 => 2,
        14..=15 => 3,
        16..=23 => 4,
        _ => 5,
    };
    Message {
        endpoint: 0,
        kind: Kind::Stop { pasid },
    }
}

/// Whether the numbers from 5 on and below `next` are in flight, each with its stop, and no other. A stop overtakes no
/// older stop, so the oldest alone may be delivered.
fn holds_stops_below(bag: &Bag, next: u64) -> bool {
    (0..40).all(|number| {
        let is_there = (5..next).contains(&number);
        let message = if is_there { Some(stop(number)) } else { None };
        bag.get(number) == message && bag.may_deliver(number) == (is_there && number == 5)
    })
}

/// Sends the stop of this number, if there is memory for it.
fn try_stop<R: Abort>(rt: &R, bag: &mut Bag, number: u64, copies: u64) -> Result<u64, AllocError> {
    assert!(rt; (1..=8).contains(&copies) && copies <= bag.left());
    bag.send(stop(number), copies)
}

/// Sends the stop of this number once more, where an allocation was refused: the bag is as it was, and gives that number.
fn send_again<R: Abort>(rt: &R, bag: &mut Bag, number: u64, copies: u64, left: u64) -> u64 {
    assert!(rt; bag.left() == left && holds_stops_below(bag, number));
    try_stop(rt, bag, number, copies).expect(rt, "memory is refused once")
}

/// Sends the stop of this number. Where an allocation is refused, the bag is as it was, and the next try gives that number.
fn send_stop<R: Abort>(rt: &R, bag: &mut Bag, number: u64, copies: u64) {
    assert!(rt; holds_stops_below(bag, number));
    let left = bag.left();
    let first = match try_stop(rt, bag, number, copies) {
        Ok(first) => first,
        Err(_refused) => send_again(rt, bag, number, copies, left),
    };
    assert!(rt; first == number && bag.left().wrapping_add(copies) == left);
}

/// The number of the first copy, and how many there are.
static STOPS: [(u64, u64); 5] = [(5, 1), (6, 8), (14, 2), (16, 8), (24, 8)];

fn send_each<R: Abort>(rt: &R, bag: &mut Bag) {
    for place in 0..STOPS.len() {
        let (number, copies) = STOPS[place];
        send_stop(rt, bag, number, copies);
    }
}

#[test]
fn a_refused_send_changes_nothing(rt: HostRuntime) {
    let mut bag = open(rt.alloc(), 5);
    send_each(&rt, &mut bag);
    assert!(rt; holds_stops_below(&bag, 32));
}
