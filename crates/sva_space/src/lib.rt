//! An address space: a finite map from pages to the frames that it owns.
#![tactic(auto)]

mod laws;
mod pages;
mod reading;

pub use laws::space_laws;
pub use pages::Space;
pub use reading::Mapping;
