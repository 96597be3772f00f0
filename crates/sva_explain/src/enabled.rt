//! Steps that would be accepted where a snapshot is kept, and what numbers and labels find in it.

mod accepted;
mod finishing;
mod laws;
mod lookups;
mod unmapping;
mod vectors;

pub use accepted::{
    can_advance, can_answer_invalid, can_ask, can_deliver, can_drop, can_end, can_finish_group,
    can_pump, can_quit, can_reset, can_serve, can_take, can_unbind, has_no_credit, is_unfinished,
    is_use_of, pasid_state,
};
pub use finishing::{can_finish, taken_at};
pub use laws::accepted_are_answered;
pub use lookups::{
    binding_of, bound_at, flight_of, has_room, held_by, is_full, is_mapped, is_read_only_at,
    is_some_busy, mapping_at, pages_in, pages_of_job, part_at, submits,
};
pub use unmapping::can_unmap;
pub use vectors::{is_set, names_none, vector_of};
