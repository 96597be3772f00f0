//! What of a race knows no moment: the names of lines, whether an endpoint may use a translation to a frame, whether
//! an answer is as expected, counts, what endpoints may do beside their lines, and worlds that are made once more.
//! `renumbering`: what is read of a race's texts is the same whatever numbers messages have, unless a step names one;
//! and what is kept without them.
#![tactic(auto)]

mod answers;
mod counts;
mod devices;
mod equal;
mod latest;
mod lists;
mod names;
mod reading;
mod renumbering;
mod usable;
mod worlds;

pub use answers::is_answer;
pub use counts::{count_in, counted};
pub use devices::{
    again_step, ask_step, cached_count, evict_step, fault_step, group_pasid, if_left, left_of,
    page_count, use_step,
};
pub use latest::{Latest, is_noted, last_step, note_request};
pub use lists::{budgets, repeated};
pub use names::known;
pub use reading::read_step;
pub use renumbering::{End, Kept, all_unnumbered, names_none, read_alike, without_numbers};
pub use usable::{is_usable, looked_at};
pub use worlds::{apply_boxed, made_by, open};
