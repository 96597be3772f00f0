//! Runs of calls of a remapping unit.

ghost use Rattle.std.specs.Prelude.{◌≡◌, ◌≤◌, ◌<◌, ◌^◌, suc, true};

use sva_iommu::{Extent, Next, RemappingUnit};
use sva_itags::Count;
use sva_msg::{Kind, PageRequest, Range, Scope};

/// Is there room for so many descriptors, and for no more?
fn has_just(unit: &RemappingUnit, descriptors: u64) -> bool {
    unit.has_room(descriptors) && !unit.has_room(descriptors.wrapping_add(1))
}

/// Is the wait of this cookie done, and that of the next one not?
fn has_done(unit: &RemappingUnit, cookie: u64) -> bool {
    unit.is_wait_done(cookie) && !unit.is_wait_done(cookie.wrapping_add(1))
}

/// Is this what becomes of the head?
fn is_next(unit: &RemappingUnit, next: Next) -> bool {
    unit.next() == next
}

/// Sends what is to be sent: its message.
fn sent(unit: &mut RemappingUnit) -> Option<Kind>
    ensures waits { unit.new.unit.waits_end ≡ unit.old.unit.waits_end }
    ensures requests { unit.new.page_queue ≡ unit.old.page_queue }
{
    let Next::Send(sending) = unit.next() else {
        return None;
    };
    let head = sending;
    let message = sending.message();
    unit.send(head);
    Some(message)
}

/// Passes a wait of this cookie, which is done.
fn passes(unit: &mut RemappingUnit, cookie: u64) -> bool {
    match unit.next() {
        Next::Pass(found) => {
            unit.pass(found);
            found == cookie
        }
        _other => false,
    }
}

/// Are so many ITags freed by completions with this vector and count?
fn frees(unit: &mut RemappingUnit, vector: u32, count: Count, freed: u32) -> bool {
    unit.complete(vector, count) == freed
}

/// What is submitted.
#[derive(Clone, Copy)]
enum Orders {
    /// 32 pages of PASID 1, and a wait.
    Pages,
    /// A range of PASID 2, and a wait.
    Range,
    Drain,
    /// All pages of PASID 3, and a wait.
    Pasid,
}

/// Submits orders with a cookie, if there is room for so many descriptors.
fn submits(unit: &mut RemappingUnit, orders: Orders, cookie: u64) -> bool
    requires opened { unit.old.unit.is_open ≡ true }
    requires later { unit.old.unit.waits_end ≤ cookie }
    requires number { cookie < 2 ^ 63 }
    ensures opened { unit.new.unit.is_open ≡ true }
    ensures later { unit.new.unit.waits_end ≤ suc cookie }
{
    match orders {
        Orders::Pages if unit.has_room(33) => unit.submit_ranges(1, 16, 32, 0, cookie),
        Orders::Range if unit.has_room(2) => unit.submit_ranges(2, 512, 1, 9, cookie),
        Orders::Drain if unit.has_room(1) => unit.submit_drain(cookie),
        Orders::Pasid if unit.has_room(2) => unit.submit_pasid(3, cookie),
        _other => return false,
    }
    true
}

#[test]
fn has_room_for_64_descriptors(rt: HostRuntime) {
    let mut unit = RemappingUnit::default();
    assert!(rt; unit.is_open() && has_just(&unit, 64));
    assert!(rt; submits(&mut unit, Orders::Pages, 5) && has_just(&unit, 31));
    assert!(rt; submits(&mut unit, Orders::Range, 6) && has_just(&unit, 29));
    assert!(rt; submits(&mut unit, Orders::Drain, 7) && has_just(&unit, 28));
    assert!(rt; submits(&mut unit, Orders::Pasid, 8) && has_just(&unit, 26));
    assert!(rt; !unit.is_wait_done(5));
}

/// What is sent of pages 64 and 65.
const TWO_PAGES: Scope = Scope::Code { page: 65, s: true };

#[test]
fn tells_scopes(rt: HostRuntime) {
    assert!(rt; Extent::Pages(Range::new(64, 2)).scope() == TWO_PAGES);
    assert!(rt; Extent::All.scope() == Scope::All);
}

#[test]
fn sends(rt: HostRuntime) {
    let mut unit = RemappingUnit::new();
    assert!(rt; is_next(&unit, Next::Idle));
    unit.submit_ranges(3, 64, 1, 2, 9);
    let message = Kind::Invalidate {
        itag: 0,
        pasid: 3,
        scope: TWO_PAGES,
    };
    assert!(rt; sent(&mut unit) == Some(message));
    assert!(rt; is_next(&unit, Next::Blocked) && has_just(&unit, 63));
}

#[test]
fn counts_completions(rt: HostRuntime) {
    let mut unit = RemappingUnit::new();
    unit.submit_pasid(3, 9);
    assert!(rt; frees(&mut unit, 0b1, Count::new(1), 0));
    assert!(rt; sent(&mut unit).is_some());
    assert!(rt; frees(&mut unit, 0b11, Count::new(2), 0) && is_next(&unit, Next::Blocked));
    assert!(rt; frees(&mut unit, 0b11, Count::new(2), 1) && passes(&mut unit, 9));
    assert!(rt; has_done(&unit, 9) && is_next(&unit, Next::Idle));
}

fn page_request(page: u64) -> PageRequest {
    PageRequest {
        pasid: 4,
        index: 1,
        page,
        read: true,
        write: false,
        last: true,
    }
}

/// Is this page request the oldest one? It is taken out.
fn takes(unit: &mut RemappingUnit, page: u64) -> bool {
    let request = Some(page_request(page));
    unit.first_request() == request && unit.take_request() == request
}

/// Does no page request wait?
fn has_none(unit: &mut RemappingUnit) -> bool {
    unit.first_request().is_none() && unit.take_request().is_none()
}

#[test]
fn drains_page_requests(rt: HostRuntime) {
    let mut unit = RemappingUnit::new();
    unit.submit_drain(2);
    assert!(rt; unit.first_request().is_none());
    unit.arrive(page_request(70));
    unit.arrive(page_request(71));
    assert!(rt; is_next(&unit, Next::Blocked));
    assert!(rt; takes(&mut unit, 70) && takes(&mut unit, 71) && has_none(&mut unit));
    assert!(rt; is_next(&unit, Next::Pass(2)));
}

/// Has it neither descriptors nor page requests?
fn is_empty(unit: &RemappingUnit) -> bool {
    unit.first_request().is_none() && unit.has_room(64) && is_next(unit, Next::Idle)
}

#[test]
fn is_emptied_by_a_reset(rt: HostRuntime) {
    let mut unit = RemappingUnit::new();
    unit.submit_ranges(3, 64, 2, 1, 9);
    assert!(rt; sent(&mut unit).is_some());
    unit.arrive(page_request(70));
    unit.reset();
    assert!(rt; !unit.is_open() && is_empty(&unit) && !unit.is_wait_done(9));
    unit.reopen();
    assert!(rt; unit.is_open() && has_done(&unit, 9));
    unit.submit_drain(10);
    assert!(rt; is_next(&unit, Next::Pass(10)));
}
