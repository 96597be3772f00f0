//! Pages and frames: what a step does to one space and to the pool.

ghost use Rattle.std.specs.Prelude.{◌≡◌, ◌≤◌, ◌+◌, ◌^◌, if◌then◌else◌, is_some, true, filter};
ghost use Rattle.sva_step.specs.declared.refusals.Refusal.TheVariants as refusal;
ghost use Rattle.sva_space.specs.Pages.{mapping_at};
ghost use Rattle.sva_frames.specs.Room.{HaveRoom};
ghost use Rattle.sva_labels.specs.Finding.{frames_of};
ghost use Rattle.sva_labels.specs.Moves.{is_between, placed, place_for, without_pages};
ghost use Rattle.sva_model.specs.Wire.PlaceWire.{FreeWire};
ghost use Rattle.sva_address_spaces.specs.Seen.{pages_seen, places_seen, targets_seen};
ghost use Rattle.sva_address_spaces.specs.Owned.{Owns, Balanced, Spent};
ghost use Rattle.sva_address_spaces.specs.Pieces.{MapsPage, verdict, are_mapped, is_some_mapped, count_mapped};
ghost use Rattle.sva_labels.specs.Causes.{page_causes_of_unmap, page_causes_of_unmap_range};

use sva_frames::{FramePool, Waits};
use sva_space::Space;
use sva_step::{Answer, FrameList, MOST_MAPPED, MOST_ORDER, MOST_PAGES, PAGES, Refusal};

/// Maps a page to the lowest free frame.
pub(crate) fn map_page(
    space: &mut Space,
    pool: &mut FramePool,
    page: u64,
    write: bool,
) -> Result<Answer, Refusal>
    ensures step { MapsPage (pages_seen space.old) (places_seen pool.old) page write result (pages_seen space.new) (places_seen pool.new) }
    ensures balanced { Balanced space.old pool.old space.new pool.new }
{
    if page >= PAGES {
        return Err(Refusal::PageRange);
    }
    if space.len() >= MOST_MAPPED {
        return Err(mapped_or(space, page, Refusal::SpaceFull));
    }
    let Some(frame) = pool.take() else {
        return Err(mapped_or(space, page, Refusal::NoFrame));
    };
    let number = frame.number();
    match space.map_new(page, frame, write) {
        Ok(()) => Ok(Answer::Frame { frame: number }),
        Err((unused, refusal)) => {
            pool.give(unused);
            Err(refusal)
        }
    }
}

/// `Mapped` where the page is mapped, which comes first, and else another refusal.
fn mapped_or(space: &Space, page: u64, other: Refusal) -> Refusal
    ensures { result ≡ (if is_some (mapping_at space.now page) then refusal.Mapped else other) }
{
    if space.find(page).is_some() {
        Refusal::Mapped
    } else {
        other
    }
}

/// Whether `count` pages in a row may be taken out of a space.
pub(crate) fn may_unmap(space: &Space, page: u64, count: u64) -> Result<(), Refusal>
    ensures { result ≡ verdict (page_causes_of_unmap (pages_seen space.now) page count) }
{
    if count < 1 || count > MOST_PAGES as u64 {
        return Err(Refusal::BadCount);
    }
    if page > PAGES - count {
        return Err(Refusal::PageRange);
    }
    if !are_mapped(space, page, count) {
        return Err(Refusal::NotMapped);
    }
    Ok(())
}

/// Whether each of `count` pages in a row is mapped.
fn are_mapped(space: &Space, page: u64, count: u64) -> bool
    requires { page + count ≤ 2 ^ 36 }
    ensures { result ≡ are_mapped (pages_seen space.now) page count }
{
    space.are_mapped(page, page + count)
}

/// Takes `count` pages in a row out of a space where each of them is mapped. Their frames are withheld for these waits, and
/// free where there are none.
pub(crate) fn take_out(
    space: &mut Space,
    pool: &mut FramePool,
    page: u64,
    count: u64,
    waits: &Waits,
) -> FrameList
    requires range { page + count ≤ 2 ^ 36 }
    requires few { count ≤ 48 }
    requires mapped { are_mapped (pages_seen space.old) page count ≡ true }
    requires owned { Owns space.old pool.old }
    requires room { HaveRoom pool.old waits.now }
    ensures frames { result ≡ frames_of (pages_seen space.old) page count }
    ensures pages { pages_seen space.new ≡ without_pages page count (pages_seen space.old) }
    ensures places { places_seen pool.new
        ≡ placed (place_for (targets_seen waits.now)) (filter (is_between page count) (pages_seen space.old)) (places_seen pool.old) }
    ensures balanced { Balanced space.old pool.old space.new pool.new }
{
    // How many pages the space has doesn't matter; it is read so that the contract knows that they rise.
    let _pages = space.len();
    let mut frames = FrameList::new();
    for number in 0..count {
        let Some((taken, _write)) = space.unmap(page + number) else {
            unreachable!();
        };
        frames.push(taken.number());
        pool.withhold(taken, waits.copied());
    }
    frames
}

/// Whether a range of 2^`order` pages may be taken out of a space, those of them that are mapped.
pub(crate) fn may_unmap_range(space: &Space, page: u64, order: u64) -> Result<(), Refusal>
    ensures { result ≡ verdict (page_causes_of_unmap_range (pages_seen space.now) page order) }
{
    if order > u64::from(MOST_ORDER) {
        return Err(Refusal::BadOrder);
    }
    let count = 1u64 << order;
    if page > PAGES - count {
        return Err(Refusal::PageRange);
    }
    if page % count != 0 {
        return Err(Refusal::NotAligned);
    }
    if !is_some_mapped(space, page, count) {
        return Err(Refusal::NothingMapped);
    }
    Ok(())
}

/// Whether some of `count` pages in a row is mapped.
fn is_some_mapped(space: &Space, page: u64, count: u64) -> bool
    requires { page + count ≤ 2 ^ 36 }
    ensures { result ≡ is_some_mapped (pages_seen space.now) page count }
{
    // The pages rise, which is read of the space.
    let _pages = space.len();
    space.first_between(page, page + count).is_some()
}

/// Takes those of `count` pages in a row that are mapped out of a space, and answers how many they are. Their frames are
/// withheld for these waits, and free where there are none.
pub(crate) fn take_mapped(
    space: &mut Space,
    pool: &mut FramePool,
    page: u64,
    count: u64,
    waits: &Waits,
) -> u32
    requires range { page + count ≤ 2 ^ 36 }
    requires few { count ≤ 512 }
    requires owned { Owns space.old pool.old }
    requires room { HaveRoom pool.old waits.now }
    ensures frames { result ≡ count_mapped (pages_seen space.old) page count }
    ensures pages { pages_seen space.new ≡ without_pages page count (pages_seen space.old) }
    ensures places { places_seen pool.new
        ≡ placed (place_for (targets_seen waits.now)) (filter (is_between page count) (pages_seen space.old)) (places_seen pool.old) }
    ensures balanced { Balanced space.old pool.old space.new pool.new }
{
    let Some((lowest, number)) = space.mapped_between(page, page + count) else {
        return 0;
    };
    let mut next = lowest;
    for _turn in 0..number {
        let Some((taken, frame, _write)) = space.unmap_first(next, page + count) else {
            unreachable!();
        };
        pool.withhold(frame, waits.copied());
        next = taken + 1;
    }
    number as u32
}

/// Ends a space: its frames are given back, and are free.
pub(crate) fn give_all(mut space: Space, pool: &mut FramePool)
    requires { Owns space pool.old }
    ensures places { places_seen pool.new ≡ placed FreeWire (pages_seen space) (places_seen pool.old) }
    ensures spent { Spent space pool.old pool.new }
{
    while let Some((_page, frame, _write)) = space.pop_first() {
        pool.give(frame);
    }
    space.close();
}
