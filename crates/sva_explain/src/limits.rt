//! What a step lacks where a limit is reached, or something isn't there yet: a translation, a request tag, a use slot,
//! an empty hand, a job, a space that may go, a frame, room in a space, a PASID; the frame of a page that is mapped; and
//! which frames of a range are withheld, and what they wait for. A line for each thing that could help, with a step in
//! brackets that would be accepted.

mod frames;
mod hands;
mod pages;
mod pasids;
mod ranges;
mod slots;
mod spaces;
mod tags;

pub use frames::{put_mapped, put_no_frame, put_space_full};
pub use hands::{put_hands_full, put_no_job};
pub use pasids::{put_advance, put_bearer, put_no_pasid, put_unbind};
pub use ranges::put_withheld_range;
pub use slots::put_no_slot;
pub use spaces::put_too_many;
pub use tags::{put_no_tag, put_not_held};
