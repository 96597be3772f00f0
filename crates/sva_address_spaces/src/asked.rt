//! The pages that the requests of a job ask for: what refuses a success, what it maps, and what takes that back.

ghost use Rattle.std.specs.Prelude.{◌≡◌, ◌≤◌, ◌==◌, ◌&&◌, ◌||◌, [], None, IfOk, OnOk, OnErr, IsOk, IsSome, length, position};
ghost use Rattle.std.specs.List.{list_any};
ghost use Rattle.sva_frames.specs.Frames.{is_free};
ghost use Rattle.sva_space.specs.Pages.{IsRising, mapping_at};
ghost use Rattle.sva_labels.specs.Finding.{page_at, is_mapped};
ghost use Rattle.sva_labels.specs.Replying.{is_read_only_at};
ghost use Rattle.sva_address_spaces.specs.Seen.{pages_seen, places_seen};
ghost use Rattle.sva_address_spaces.specs.Owned.{Owns, Balanced};
ghost use Rattle.sva_address_spaces.specs.Pieces.{verdict};
ghost use Rattle.sva_address_spaces.specs.Asked.{asks_seen, success_causes, pages_back, places_back, MapsNew, MapsAll};
ghost use Rattle.sva_labels.specs.Replying.{new_among};

use arrayvec::ArrayVec;
use std::alloc::AllocError;
use sva_frames::FramePool;
use sva_prq::Ask;
use sva_space::Space;
use sva_step::{MOST_MAPPED, PAGE_REQUESTS, Refusal};

/// How many pages the requests of a job ask for at most: as many as requests may be outstanding.
pub const MOST_ASKED: usize = PAGE_REQUESTS;

/// Whether the page is mapped, or among those that are listed.
fn is_known(space: &Space, listed: &[u64], page: u64) -> bool
    ensures { result ≡ (is_mapped (pages_seen space.now) page || list_any (λ q. q == page) listed.now) }
{
    if space.find(page).is_some() {
        return true;
    }
    listed.contains(&page)
}

/// The pages that are asked for and aren't mapped, each once, in order of first filing.
pub(crate) fn new_pages(space: &Space, asks: &[Ask]) -> ArrayVec<u64, MOST_ASKED>
    requires { length asks.now ≤ 32 }
    ensures { result.items ≡ new_among (pages_seen space.now) (asks_seen asks.now) }
{
    let mut pages: ArrayVec<u64, MOST_ASKED> = ArrayVec::new();
    for ask in asks {
        if !is_known(space, &pages, ask.page) {
            pages.push(ask.page);
        }
    }
    pages
}

/// Whether a request asks to write the page.
fn is_write_asked(asks: &[Ask], page: u64) -> bool
    ensures { result ≡ list_any (λ ask. ask.page == page && ask.write) asks.now }
{
    asks.iter().any(|ask| ask.page == page && ask.write)
}

/// Whether the page is mapped read-only.
fn is_read_only(space: &Space, page: u64) -> bool
    ensures { result ≡ is_read_only_at (page_at (pages_seen space.now) page) }
{
    match space.find(page) {
        Some((_frame, write)) => !write,
        None => false,
    }
}

/// Whether a request asks to write a page that is mapped read-only.
fn writes_read_only(space: &Space, asks: &[Ask]) -> bool
    ensures { result ≡ list_any (λ ask. ask.write && is_read_only_at (page_at (pages_seen space.now) ask.page)) asks.now }
{
    asks.iter()
        .any(|ask| ask.write && is_read_only(space, ask.page))
}

/// Whether the pages that are asked for may be mapped: the first of `BadVerdict`, `NoFrame` and `SpaceFull` that refuses it.
pub(crate) fn may_map_all(space: &Space, pool: &FramePool, asks: &[Ask]) -> Result<(), Refusal>
    requires { length asks.now ≤ 32 }
    ensures { result ≡ verdict (success_causes (pages_seen space.now) (places_seen pool.now) (asks_seen asks.now)) }
{
    if writes_read_only(space, asks) {
        return Err(Refusal::BadVerdict);
    }
    let needed = new_pages(space, asks).len();
    if (pool.counts().free as usize) < needed {
        return Err(Refusal::NoFrame);
    }
    if space.len() > MOST_MAPPED - needed {
        return Err(Refusal::SpaceFull);
    }
    Ok(())
}

/// Maps a page that isn't mapped to the lowest free frame; there is one. Where there is no memory, nothing changes.
fn map_new(
    space: &mut Space,
    pool: &mut FramePool,
    page: u64,
    write: bool,
) -> Result<(), AllocError>
    requires new { mapping_at space.old page ≡ None }
    requires frame { IsSome (position is_free pool.old) }
    ensures ok { OnOk result (MapsNew space.old pool.old page write space.new pool.new) }
    ensures err { OnErr result ((space.new ≡ space.old) × (pool.new ≡ pool.old)) }
    ensures rising { IsRising space.new }
{
    let Some(frame) = pool.take() else {
        unreachable!();
    };
    match space.map(page, frame, write) {
        Ok(()) => Ok(()),
        Err((unused, refused)) => {
            pool.give(unused);
            Err(refused)
        }
    }
}

/// Maps the pages that are asked for and aren't mapped, in order of first filing, to the lowest free frames in turn, each to be
/// written if a request asks for that. Gives these pages. Where there is no memory for one of them, nothing changes.
pub(crate) fn map_all(
    space: &mut Space,
    pool: &mut FramePool,
    asks: &[Ask],
) -> Result<ArrayVec<u64, MOST_ASKED>, AllocError>
    requires few { length asks.now ≤ 32 }
    requires may { IsOk (verdict (success_causes (pages_seen space.old) (places_seen pool.old) (asks_seen asks.now))) }
    requires owned { Owns space.old pool.old }
    ensures asked { IfOk result (λ pages. pages.items ≡ new_among (pages_seen space.old) (asks_seen asks.now)) }
    ensures ok { OnOk result (MapsAll (pages_seen space.old) (places_seen pool.old) (asks_seen asks.now) (pages_seen space.new) (places_seen pool.new)) }
    ensures err { OnErr result ((pages_seen space.new ≡ pages_seen space.old) × (places_seen pool.new ≡ places_seen pool.old)) }
    ensures none { new_among (pages_seen space.old) (asks_seen asks.now) ≡ [] → IsOk result }
    ensures balanced { Balanced space.old pool.old space.new pool.new }
{
    // How many pages the space has doesn't matter; it is read so that the contract knows that they rise.
    let _mapped = space.len();
    let pages = new_pages(space, asks);
    for number in 0..pages.len() {
        let page = pages[number];
        if let Err(refused) = map_new(space, pool, page, is_write_asked(asks, page)) {
            take_back(space, pool, &pages[..number]);
            return Err(refused);
        }
    }
    Ok(pages)
}

/// Takes pages out of a space, the last first, those of them that are mapped: their frames are free.
pub(crate) fn take_back(space: &mut Space, pool: &mut FramePool, pages: &[u64])
    requires { Owns space.old pool.old }
    ensures pages { pages_seen space.new ≡ pages_back pages.now (pages_seen space.old) }
    ensures places { places_seen pool.new ≡ places_back pages.now (pages_seen space.old) (places_seen pool.old) }
    ensures balanced { Balanced space.old pool.old space.new pool.new }
{
    // Read for the same reason.
    let _mapped = space.len();
    for number in (0..pages.len()).rev() {
        if let Some((frame, _write)) = space.unmap(pages[number]) {
            pool.give(frame);
        }
    }
}
