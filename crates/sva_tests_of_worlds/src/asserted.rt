//! What these tests assert by.

use std::process::Abort;

/// Asserts what stands at this place of what is tried. The text is made here alone: each function that makes one is dear
/// to prove. A library may not abort, so each crate of tests has this function.
pub(crate) fn holds<R: Abort>(rt: &R, is_so: bool, what: &str, place: usize) {
    assert!(rt; is_so, "{what}: {place}");
}
