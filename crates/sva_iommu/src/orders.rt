//! The descriptors of an unmapping.
ghost use Rattle.std.specs.Prelude.{◌≡◌, ◌+◌, ◌*◌, ◌%◌, ◌^◌, ◌<◌, ◌≤◌};
ghost use Rattle.sva_iommu.specs.Seen.{orders_for};

use arrayvec::ArrayVec;
use sva_msg::Range;
use sva_queue::Descriptor;
use sva_step::QUEUE_PLACES;

/// The invalidations of `count` ranges of 2^order pages, 0 to 63 of them, one behind another from `page` on, and the wait
/// behind them.
pub(crate) fn orders_for(
    pasid: u32,
    page: u64,
    count: u64,
    order: u8,
    cookie: u64,
) -> ArrayVec<Descriptor, QUEUE_PLACES>
    requires few { count < 64 }
    requires small { order ≤ 9 }
    requires aligned { page % 2 ^ order ≡ 0 }
    requires low { page + count * 2 ^ order ≤ 2 ^ 36 }
    ensures { result.items ≡ orders_for pasid page count order cookie }
{
    let mut orders = ArrayVec::new();
    let mut base = page;
    for _number in 0..count {
        let range = Range::new(base, order);
        orders.push(Descriptor::Range { pasid, range });
        base += range.pages();
    }
    orders.push(Descriptor::Wait {
        cookie,
        drain: false,
    });
    orders
}
