//! What holds a step back, in lines for a person. `enabled` has the steps that would be accepted where a snapshot is
//! kept; `blockers` where things stand that hold a step back: messages in flight, busy ITags, waits, resets, withheld
//! frames; `outstanding` what an endpoint has under way: groups of page requests up to their response, request tags,
//! uses; `limits` what a step lacks where a limit is reached, or something isn't there yet. A line for each thing,
//! with a step in brackets that would be accepted.
#![tactic(auto)]

mod blockers;
mod enabled;
mod limits;
mod outstanding;

pub use blockers::{
    Level, Topic, below, put_about, put_blocked, put_bracket_of_two, put_in_reset, put_indent,
    put_invalid, put_older, put_place, put_reset_if, put_room, put_start, put_wait_if,
    put_waits_for,
};
pub use enabled::{
    accepted_are_answered, binding_of, bound_at, can_quit, flight_of, held_by, is_mapped,
    is_read_only_at, is_set, names_none, pages_in, pages_of_job, part_at, submits,
};
pub use limits::{
    put_advance, put_bearer, put_hands_full, put_mapped, put_no_frame, put_no_job, put_no_pasid,
    put_no_slot, put_no_tag, put_not_held, put_space_full, put_too_many, put_unbind,
    put_withheld_range,
};
pub use outstanding::{
    put_busy_pasid, put_credit, put_disabled, put_job_of, put_not_started, put_unfiled,
    put_unfinished_if,
};
