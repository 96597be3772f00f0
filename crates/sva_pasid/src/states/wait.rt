//! What a state holds that waits for a wait descriptor.

ghost use Rattle.std.specs.Prelude.{◌≡◌, false};
ghost use Rattle.sva_pasid.specs.States.{done_wait, numbers_of_wait};

use crate::states::Quiet;
use std::marker::Model;

/// The numbers of a binding, the cookie of the wait descriptor for which it waits, and whether that wait was told to be
/// done.
#[derive(Drop)]
pub(crate) struct Wait {
    pub(crate) binding: u64,
    pub(crate) pasid: u32,
    pub(crate) cookie: u64,
    pub(crate) waited: bool,
}

impl Model for Wait {
    ghost use Rattle.sva_pasid.specs.States.{Wait as SeenWait};

    ghost Value = { SeenWait };

    ghost view = { λ wait. record { binding = wait.binding; pasid = wait.pasid; cookie = wait.cookie; waited = wait.waited } };
}

impl Wait {
    /// A wait that isn't done yet.
    pub(crate) fn new(binding: u64, pasid: u32, cookie: u64) -> Wait
        ensures { result ≡ record { binding = binding; pasid = pasid; cookie = cookie; waited = false } }
    {
        Wait {
            binding,
            pasid,
            cookie,
            waited: false,
        }
    }

    /// The wait is done.
    pub(crate) fn done(self) -> Wait
        ensures { result ≡ done_wait self }
    {
        Wait {
            waited: true,
            ..self
        }
    }

    /// Nothing is waited for any longer.
    pub(crate) fn quiet(self) -> Quiet
        ensures { result ≡ numbers_of_wait self }
    {
        Quiet {
            binding: self.binding,
            pasid: self.pasid,
        }
    }
}
