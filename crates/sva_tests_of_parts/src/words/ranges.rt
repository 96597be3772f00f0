//! The codes of ranges.

use crate::asserted::holds;
use sva_msg::Range;

/// Of each code its page and its bit S, and of its range the first page, the order and how many pages it has, as PCI Express Base
/// 5.0, section 10.2.3.2 gives them.
static CODES: [(u64, bool, u64, u8, u64); 6] = [
    (64, false, 64, 0, 1),
    (64, true, 64, 1, 2),
    (65, true, 64, 2, 4),
    (67, true, 64, 3, 8),
    (767, true, 512, 9, 512),
    (68_719_476_735, false, 68_719_476_735, 0, 1),
];

/// Is this the range of so many pages from `base` on?
fn has_pages(range: Range, base: u64, pages: u64) -> bool {
    let end = base.wrapping_add(pages);
    range.pages() == pages
        && range.contains(base)
        && range.contains(end.wrapping_sub(1))
        && !range.contains(base.wrapping_sub(1))
        && !range.contains(end)
}

/// Has the code of a page and a bit S a range, with this first page and this order, and is it that range's own code?
fn is_code(page: u64, s: bool, base: u64, order: u8, pages: u64) -> bool {
    match Range::decode(page, s) {
        Some(range) => {
            (range.base(), range.order()) == (base, order)
                && range.encode() == (page, s)
                && has_pages(range, base, pages)
        }
        None => false,
    }
}

#[test]
fn codes_of_ranges(rt: HostRuntime) {
    for place in 0..CODES.len() {
        let (page, s, base, order, pages) = CODES[place];
        holds(&rt, is_code(page, s, base, order, pages), "code", place);
    }
    assert!(rt; Range::decode(67, true) == Some(Range::new(64, 3)));
}

/// Codes of which no range is: it would have more than 512 pages, or its page isn't below 2^36.
static NO_CODES: [(u64, bool); 4] = [
    (1023, true),
    (68_719_476_736, false),
    (68_719_476_736, true),
    (68_719_476_735, true),
];

#[test]
fn codes_of_no_range(rt: HostRuntime) {
    for place in 0..NO_CODES.len() {
        let (page, s) = NO_CODES[place];
        holds(&rt, Range::decode(page, s).is_none(), "no code", place);
    }
}
