//! The life of a binding, on what a host keeps: a space is bound to an endpoint, unbound from it, and goes on stage by stage until
//! the binding is released. Each step is the step by labels.

mod advancing;
mod bindings;
mod unbinding;

pub use advancing::advance;
pub use bindings::{bearer, bind};
pub use unbinding::unbind;
