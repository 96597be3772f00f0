//! Runs of calls of an address space.

ghost use Rattle.std.specs.Prelude.{◌<◌};

use crate::asserted::holds;
use crate::frames::pools::{give, open};
use std::alloc::Global;
use std::process::Abort;
use sva_frames::{Frame, FramePool};
use sva_space::Space;

/// A call of a space, and what it has to answer.
#[derive(Clone, Copy)]
enum Call {
    /// A page that isn't mapped is mapped to the lowest free frame, to be read, or written too.
    Map(u64, bool),
    /// A page is taken out. Whether it could be written, if it was mapped.
    Unmap(u64, Option<bool>),
    /// The lowest page from one on and below another is taken out. The page, and whether it could be written, if there is one.
    UnmapFirst(u64, u64, Option<(u64, bool)>),
    /// A page's frame, and whether it may be written.
    Find(u64, Option<(u32, bool)>),
    /// The lowest mapped page from one on and below another.
    First(u64, u64, Option<u64>),
    /// That page, and how many of these are mapped.
    Mapped(u64, u64, Option<(u64, usize)>),
    /// How many pages from one on and below another are mapped.
    Count(u64, u64, usize),
    /// Whether all pages from one on and below another are mapped.
    AreMapped(u64, u64, bool),
    Len(usize),
    IsEmpty(bool),
}

/// Maps a page to the lowest free frame, and tells whether that was done.
fn maps<R: Abort>(rt: &R, pool: &mut FramePool, space: &mut Space, page: u64, write: bool) -> bool {
    if space.find(page).is_some() {
        return false;
    }
    let Some(frame) = pool.take() else {
        return false;
    };
    match space.map(page, frame, write) {
        Ok(()) => true,
        Err((frame, _refused)) => {
            give(rt, pool, frame);
            false
        }
    }
}

/// Takes a page out, and gives its frame back. Whether it could be written, if it was mapped.
fn unmap<R: Abort>(rt: &R, pool: &mut FramePool, space: &mut Space, page: u64) -> Option<bool> {
    let (frame, write) = space.unmap(page)?;
    give(rt, pool, frame);
    Some(write)
}

/// The same of the lowest page from one on and below another.
fn unmap_first<R: Abort>(
    rt: &R,
    pool: &mut FramePool,
    space: &mut Space,
    first: u64,
    end: u64,
) -> Option<(u64, bool)> {
    let (page, frame, write) = space.unmap_first(first, end)?;
    give(rt, pool, frame);
    Some((page, write))
}

/// Makes a call, and tells whether it answers as it has to.
fn answers<R: Abort>(rt: &R, pool: &mut FramePool, space: &mut Space, call: Call) -> bool {
    match call {
        Call::Map(page, write) => maps(rt, pool, space, page, write),
        Call::Unmap(page, found) => unmap(rt, pool, space, page) == found,
        Call::UnmapFirst(first, end, found) => unmap_first(rt, pool, space, first, end) == found,
        _reading => tells(space, call),
    }
}

/// Does a call that changes nothing answer as it has to?
fn tells(space: &Space, call: Call) -> bool {
    match call {
        Call::Find(page, found) => space.find(page) == found,
        Call::First(first, end, found) => space.first_between(first, end) == found,
        Call::Mapped(first, end, found) => space.mapped_between(first, end) == found,
        Call::Count(first, end, count) => space.count_between(first, end) == count,
        Call::AreMapped(first, end, are) => space.are_mapped(first, end) == are,
        Call::Len(len) => space.len() == len,
        Call::IsEmpty(is_empty) => space.is_empty() == is_empty,
        _change => false,
    }
}

/// Takes the lowest page out, if there is one, and gives its frame back.
fn unmap_lowest<R: Abort>(rt: &R, pool: &mut FramePool, space: &mut Space) {
    if let Some((_page, frame, _write)) = space.pop_first() {
        give(rt, pool, frame);
    }
}

/// Takes all pages out, the lowest first, and closes the space.
fn close<R: Abort>(rt: &R, pool: &mut FramePool, mut space: Space) {
    for _page in 0..space.len() {
        unmap_lowest(rt, pool, &mut space);
    }
    assert!(rt; space.is_empty());
    space.close();
}

/// Makes the calls one after another.
fn make<R: Abort>(rt: &R, pool: &mut FramePool, space: &mut Space, calls: &[Call]) {
    for place in 0..calls.len() {
        holds(rt, answers(rt, pool, space, calls[place]), "call", place);
    }
}

/// Makes the calls of a new space.
fn run<R: Abort>(rt: &R, alloc: Global, calls: &[Call]) {
    let mut pool = open(rt, alloc, 4);
    let mut space = Space::new(alloc);
    make(rt, &mut pool, &mut space, calls);
    close(rt, &mut pool, space);
}

/// Pages 17 and 16 in this order; then page 16 goes as the lowest one of a range, and page 17 by its number.
static TWO_PAGES: [Call; 24] = [
    Call::IsEmpty(true),
    Call::Map(17, true),
    Call::Find(17, Some((0, true))),
    Call::Find(16, None),
    Call::Map(16, false),
    Call::Find(16, Some((1, false))),
    Call::Len(2),
    Call::First(0, 32, Some(16)),
    Call::First(17, 32, Some(17)),
    Call::First(18, 32, None),
    Call::Mapped(0, 32, Some((16, 2))),
    Call::Mapped(17, 32, Some((17, 1))),
    Call::Mapped(18, 32, None),
    Call::Count(0, 17, 1),
    Call::Count(16, 18, 2),
    Call::AreMapped(16, 18, true),
    Call::AreMapped(16, 19, false),
    Call::AreMapped(20, 20, true),
    Call::UnmapFirst(18, 32, None),
    Call::UnmapFirst(0, 32, Some((16, false))),
    Call::Unmap(17, Some(true)),
    Call::Unmap(17, None),
    Call::Find(17, None),
    Call::IsEmpty(true),
];

#[test]
fn maps_and_unmaps(rt: HostRuntime) {
    run(&rt, rt.alloc(), &TWO_PAGES);
}

/// A page of the test below: the first frame is mapped at page 100, and each next one at the page below.
fn page_of(number: u32) -> u64
    requires { number < 40 }
{
    100 - u64::from(number)
}

/// Whether the frames below `count` are mapped, every second one to be written, and nothing else is.
fn holds_frames_below(space: &Space, count: u32) -> bool {
    space.len() == count as usize
        && (0..40).all(|number| {
            let mapping = if number < count {
                Some((number, number % 2 == 0))
            } else {
                None
            };
            space.find(page_of(number)) == mapping
        })
}

/// Maps the frame of this number at its page, or gives it back where memory is refused.
fn map_once<R: Abort>(rt: &R, space: &mut Space, frame: Frame, number: u32) -> Result<(), Frame>
    requires { number < 40 }
{
    let page = page_of(number);
    assert!(rt; space.find(page).is_none());
    match space.map(page, frame, number % 2 == 0) {
        Ok(()) => Ok(()),
        Err((frame, _refused)) => Err(frame),
    }
}

/// Maps a frame at its page. Where memory is refused once, the frame comes back, the space is as it was, and the same
/// call again maps it.
fn map<R: Abort>(rt: &R, space: &mut Space, frame: Frame) {
    let number = frame.number();
    assert!(rt; number < 40 && holds_frames_below(space, number));
    let Err(frame) = map_once(rt, space, frame, number) else {
        return;
    };
    assert!(rt; frame.number() == number && holds_frames_below(space, number));
    if let Err(_frame) = map_once(rt, space, frame, number) {
        panic!(rt; "memory is refused once");
    }
}

/// Maps thirty frames in turn.
fn map_thirty<R: Abort>(rt: &R, pool: &mut FramePool, space: &mut Space) {
    for number in 0..30 {
        match pool.take() {
            Some(frame) => map(rt, space, frame),
            None => panic!(rt; "the pool has thirty frames"),
        }
        assert!(rt; holds_frames_below(space, number + 1));
    }
}

/// Takes the lowest page out, which the frame of this number has, and gives that back.
fn unmap_last<R: Abort>(rt: &R, pool: &mut FramePool, space: &mut Space, number: u32)
    requires { number < 40 }
{
    match space.pop_first() {
        Some((page, frame, write)) => {
            let is_last = (page, frame.number(), write)
                == (page_of(number), number, number % 2 == 0);
            assert!(rt; is_last);
            give(rt, pool, frame);
        }
        None => panic!(rt; "the space is empty"),
    }
}

/// Takes thirty pages out, the lowest first.
fn unmap_thirty<R: Abort>(rt: &R, pool: &mut FramePool, space: &mut Space) {
    for number in (0..30).rev() {
        unmap_last(rt, pool, space, number);
    }
}

/// Thirty pages, for which a space takes memory several times, and a pool of as many frames.
#[test]
fn a_refused_map_changes_nothing(rt: HostRuntime) {
    let mut pool = open(&rt, rt.alloc(), 30);
    let mut space = Space::new(rt.alloc());
    map_thirty(&rt, &mut pool, &mut space);
    unmap_thirty(&rt, &mut pool, &mut space);
    assert!(rt; space.is_empty());
    space.close();
}
