//! Laws of the open world. This project's own world, seen as an open one, is safe as other hosts are judged; the open
//! world stands apart by pages, and without asks and without faults; numbers of groups are fresh; and each driver comes
//! to an end.
#![tactic(auto)]

mod alongside;
mod ends;
mod fresh;
mod occasions;
mod pages;
mod units;

ghost use Rattle.sva_open_laws.specs.AsOpen.{ClosedIsSafe};
ghost use Rattle.sva_open_laws.specs.Beside.{RunsBeside};
ghost use Rattle.sva_open_laws.specs.Shown.{ClosedIsShown, SafeSaysEnough};

pub use alongside::{
    completions_are_one, orders_are_one, pumps_are_one, resets_are_one, scopes_are_one,
    steps_are_acts, strikes_are_one, units_are_one,
};
pub use ends::{each_act_is_paid, each_driver_ends, texts_go_forward};
pub use fresh::numbers_are_fresh;
pub use occasions::{occasions_stand_alone, rows_of_occasions};
pub use pages::{pages_stand_alone, rows_of_pages};
pub use units::endpoints_see_one_unit;

/// After every list of steps the world, seen as an open one, is safe. And it is seen whole: all of which its safety
/// speaks is shown, and a translation is current exactly where it leads to its frame by the last mapping of it and the
/// frame isn't free. So of a world that is seen whole, whatever led to it, to be safe says that no endpoint may use what
/// isn't its binding's any more, and that nothing else that is there of a PASID, nor a message in flight, would be taken
/// for what it isn't of.
pub fn closed_is_safe()
    ensures safe { ClosedIsSafe }
    ensures shown { ClosedIsShown }
    ensures enough { SafeSaysEnough }
{}

/// A run of both worlds side by side: behind a mapping that is asked for, behind its unmapping and the invalidation
/// that is sent, behind the answer that frees the frame, behind a second mapping of the frame, and behind a reset of
/// the endpoint, the acts of the open world leave what the steps of the closed one do.
pub fn runs_beside()
    ensures { RunsBeside }
{}
