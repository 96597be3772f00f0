//! Where things stand that hold a step back: messages in flight, ITags that are busy, waits that aren't done, resets,
//! withheld frames, translation requests that are out. A line for each, with a step in brackets that would be accepted.

mod itags;
mod levels;
mod link;
mod places;
mod requests;
mod units;

pub use itags::{put_end, put_use, put_waits_for};
pub use levels::{Level, below, put_bracket, put_bracket_of_two, put_indent, put_start};
pub use link::{Topic, put_about, put_older};
pub use places::{put_held, put_place, put_target};
pub use requests::{put_invalid, put_out};
pub use units::{put_blocked, put_in_reset, put_reset_if, put_room, put_wait_if};
