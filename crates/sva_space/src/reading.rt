//! What is read of a space: all of its pages.

ghost use Rattle.std.specs.Prelude.{◌≡◌, IfOk};

use crate::pages::Space;
use std::alloc::{AllocError, Global};
use std::collections::BTreeMap;
use std::marker::Model;
use sva_frames::Frame;

/// A mapped page, with the number of its frame and whether it may be written.
#[derive(Clone, Copy, PartialEq, Eq)]
pub struct Mapping {
    /// The number of the page.
    pub page: u64,
    /// The number of the frame.
    pub frame: u32,
    /// The page may be written.
    pub write: bool,
}

impl Model for Mapping {
    ghost use Rattle.std.specs.Prelude.{ℕ, Bool};

    ghost Value = { ℕ × (ℕ × Bool) };

    ghost view = { λ mapping. (mapping.page, (mapping.frame, mapping.write)) };

    ghost inverse = { λ mapping. record { page = mapping.0; frame = mapping.1.0; write = mapping.1.1 } };
}

/// The pages of a map in rising order.
fn listed(alloc: Global, pages: &BTreeMap<u64, (Frame, bool)>) -> Result<Vec<Mapping>, AllocError>
    ensures { IfOk result (λ mappings. mappings.items ≡ pages.now.entries) }
{
    let mut mappings = Vec::new(alloc);
    for (page, mapping) in pages {
        mappings.push(Mapping {
            page: *page,
            frame: mapping.0.number(),
            write: mapping.1,
        })?;
    }
    Ok(mappings)
}

impl Space {
    /// The mapped pages in rising order.
    pub fn list(&self, alloc: Global) -> Result<Vec<Mapping>, AllocError>
        ensures { IfOk result (λ mappings. mappings.items ≡ self.now) }
    {
        listed(alloc, &self.pages)
    }
}
