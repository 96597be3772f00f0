//! The words of svahost: the steps that a host, its endpoints and their link take, the answers that they give, and
//! the refusals, each with its number and its name.
#![tactic(auto)]

mod answers;
mod frame_list;
mod limits;
mod pieces;
mod refusals;
mod steps;

pub use answers::{Answer, texts_tell_apart};
pub use frame_list::FrameList;
pub use limits::{
    CACHED, Config, GROUPS, ITAGS, MOST_COMPLETIONS, MOST_ENDPOINTS, MOST_FRAMES, MOST_MAPPED,
    MOST_ORDER, MOST_PAGES, MOST_SPACES, MOST_WORKERS, NUMBERS, PAGE_REQUESTS, PAGES, PASID_PLACES,
    PASIDS, QUEUE_PLACES, REQUEST_TAGS, USE_SLOTS, limits_stand,
};
pub use refusals::{Refusal, refusals_tell_apart};
pub use steps::{Step, Verdict};
