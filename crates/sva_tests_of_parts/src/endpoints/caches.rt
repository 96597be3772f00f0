//! The cache beside a plain one, before and after invalidations.

use crate::asserted::holds;
use crate::endpoints::plain::PlainCache;
use std::process::Abort;
use sva_endpoint::{Cache, CacheKey, Extent, Invalidation, Ticks, Translation};
use sva_msg::{Range, Scope};

/// The pages that the tests cache under a PASID: no two next to each other, so that there are absent ones between.
fn page_at(place: u64) -> u64 {
    1 + place % 32 * 3
}

/// The two halves of what is cached are of the PASIDs 2 and 3.
fn pasid_at(place: u64) -> u32 {
    if place % 64 < 32 { 2 } else { 3 }
}

fn translation_at(place: u64) -> Translation {
    Translation {
        frame: (place % 4096) as u32,
        write: place % 2 == 0,
    }
}

/// Both caches with so many translations, put in out of order: place after place, 37 on each time.
fn filled(rt: &impl Abort, count: u64) -> (Cache, PlainCache) {
    let mut cache = Cache::new();
    let mut plain = PlainCache::new();
    for step in 0..count {
        let place = step % 64 * 37 % 64;
        let (pasid, page) = (pasid_at(place), page_at(place));
        assert!(rt; cache.has_room_for(u64::from(pasid), page));
        cache.insert(pasid, page, translation_at(place));
        plain.insert(pasid, page, translation_at(place));
    }
    (cache, plain)
}

/// Both answer alike for a page of a PASID: where a search finds it, or would, is how many of those cached are below it. It takes at
/// most 7 comparisons.
fn are_alike(cache: &Cache, plain: &PlainCache, pasid: u64, page: u64) -> bool {
    let mut ticks = Ticks::new();
    let found = cache.search(&CacheKey::new(pasid, page), &mut ticks);
    found == plain.search(pasid, page)
        && ticks.count() <= 7
        && cache.get(pasid, page) == plain.get(pasid, page)
        && cache.has_room_for(pasid, page) == plain.has_room_for(pasid, page)
}

/// The same of each page near those cached, the pages below 100, of each PASID near theirs, the PASIDs 1 to 4.
fn compare(rt: &impl Abort, cache: &Cache, plain: &PlainCache) {
    for place in 0..400_u64 {
        let is_so = are_alike(cache, plain, 1 + place / 100, place % 100);
        holds(rt, is_so, "page", place as usize);
    }
}

fn in_range(pasid: u32, range: Range) -> Invalidation {
    Invalidation {
        pasid,
        extent: Extent::Pages(range),
    }
}

fn all_pages(pasid: u32) -> Invalidation {
    Invalidation {
        pasid,
        extent: Extent::All,
    }
}

/// Both, after an invalidation of caches with so many translations.
fn invalidated(rt: &impl Abort, count: u64, invalidation: &Invalidation) {
    let (mut cache, mut plain) = filled(rt, count);
    cache.remove_covered(invalidation);
    plain.remove_covered(invalidation);
    compare(rt, &cache, &plain);
}

/// The same for invalidations of some pages.
fn some_invalidated(rt: &impl Abort, count: u64) {
    for invalidation in [
        in_range(2, Range::new(7, 0)),
        in_range(2, Range::new(8, 0)),
        in_range(3, Range::new(16, 4)),
        in_range(2, Range::new(64, 6)),
        in_range(3, Range::new(0, 9)),
        in_range(1, Range::new(0, 9)),
    ] {
        invalidated(rt, count, &invalidation);
    }
}

/// The same for those of all pages of a PASID.
fn all_invalidated(rt: &impl Abort, count: u64) {
    for pasid in 1..5 {
        invalidated(rt, count, &all_pages(pasid));
    }
}

/// A PASID and a page for which a new translation is put in where there is room, and others that are evicted.
static PUT_IN: [(u32, u64); 5] = [(2, 1), (2, 2), (2, 40), (3, 94), (4, 0)];

static EVICTED: [(u64, u64); 5] = [(2, 1), (2, 3), (3, 94), (3, 49), (4, 0)];

/// Both, after new translations.
fn put_in(rt: &impl Abort, cache: &mut Cache, plain: &mut PlainCache) {
    for place in 0..PUT_IN.len() {
        let (pasid, page) = PUT_IN[place];
        if cache.has_room_for(u64::from(pasid), page) {
            cache.insert(pasid, page, translation_at(100));
            plain.insert(pasid, page, translation_at(100));
        }
        compare(rt, cache, plain);
    }
}

/// Both, after evictions.
fn evicted(rt: &impl Abort, cache: &mut Cache, plain: &mut PlainCache) {
    for place in 0..EVICTED.len() {
        let (pasid, page) = EVICTED[place];
        cache.remove(pasid, page);
        plain.remove(pasid, page);
        compare(rt, cache, plain);
    }
}

/// Both, after new translations and evictions in caches with so many, and after invalidations of such caches.
fn edited(rt: &impl Abort, count: u64) {
    let (mut cache, mut plain) = filled(rt, count);
    compare(rt, &cache, &plain);
    put_in(rt, &mut cache, &mut plain);
    evicted(rt, &mut cache, &mut plain);
    some_invalidated(rt, count);
    all_invalidated(rt, count);
}

#[test]
fn none_is_cached(rt: HostRuntime) {
    edited(&rt, 0);
}

#[test]
fn one_is_cached(rt: HostRuntime) {
    edited(&rt, 1);
}

#[test]
fn sixty_three_are_cached(rt: HostRuntime) {
    edited(&rt, 63);
}

/// The most comparisons that a search for one of these keys takes.
fn most_ticks(cache: &Cache) -> u32 {
    let mut most = 0;
    for page in 0..100_u64 {
        let mut ticks = Ticks::new();
        let _found = cache.search(&CacheKey::new(2, page), &mut ticks);
        most = most.max(ticks.count());
    }
    most
}

#[test]
fn sixty_four_are_cached(rt: HostRuntime) {
    edited(&rt, 64);
    // 64 entries need seven comparisons for some key
    let (cache, _plain) = filled(&rt, 64);
    assert!(rt; most_ticks(&cache) == 7);
    assert!(rt; !cache.has_room_for(3, 0));
}

/// A PASID, a page, and whether an invalidation of page 16 under PASID 1 covers it.
static OF_ONE: [(u32, u64, bool); 4] = [
    (1, 16, true),
    (1, 17, false),
    (1, 15, false),
    (2, 16, false),
];

/// The same of the eight pages from 64 on.
static OF_EIGHT: [(u32, u64, bool); 4] = [
    (1, 64, true),
    (1, 71, true),
    (1, 72, false),
    (1, 63, false),
];

/// The same of all pages.
static OF_ALL: [(u32, u64, bool); 2] = [(1, 17, true), (2, 17, false)];

fn covers_these(invalidation: &Invalidation, pages: &[(u32, u64, bool)]) -> bool {
    for (pasid, page, is_covered) in pages {
        if invalidation.covers(*pasid, *page) != *is_covered {
            return false;
        }
    }
    true
}

#[test]
fn an_invalidation_covers_its_pages(rt: HostRuntime) {
    let eight = in_range(1, Range::new(64, 3));
    assert!(rt; covers_these(&in_range(1, Range::new(16, 0)), &OF_ONE));
    assert!(rt; covers_these(&eight, &OF_EIGHT));
    assert!(rt; covers_these(&all_pages(1), &OF_ALL));
    assert!(rt; Extent::of(Scope::Code { page: 67, s: true }) == eight.extent);
    assert!(rt;
        Extent::of(Scope::Code {
            page: 1023,
            s: true
        }) == Extent::All
    );
    assert!(rt; Extent::of(Scope::All) == Extent::All);
}
