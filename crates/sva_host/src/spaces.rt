//! The host's steps of address spaces, of their pages and of page requests, on what it keeps: each step is the step by labels.

mod page_requests;
mod replying;
mod spaces;
mod unmapping;

pub use page_requests::{bearer_at, first_request, may_serve, take_request};
pub use replying::respond;
pub use spaces::{counts, drop_space, look, map, space};
pub use unmapping::{unmap, unmap_range};
