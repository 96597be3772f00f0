//! The state of a binding whose translations are invalidated.

ghost use Rattle.std.specs.Prelude.{◌≡◌, true, false, IfOk, IfErr};
ghost use Rattle.sva_pasid.specs.States.{Wait, done_wait, numbers_of_wait, quiet_of};

use crate::states::Quiet;
use crate::states::wait::Wait;
use std::marker::Model;

/// The page requests are answered. The binding waits until the endpoint has given up all that it holds under the PASID.
pub struct Invalidating {
    pub(crate) wait: Wait,
}

impl Model for Invalidating {
    ghost Value = { Wait };

    ghost view = { λ invalidating. invalidating.wait };
}

impl Invalidating {
    /// The cookie of the wait descriptor for which the binding waits.
    pub fn cookie(&self) -> u64
        ensures { result ≡ self.now.cookie }
    {
        self.wait.cookie
    }

    /// Whether that wait was told to be done.
    pub fn is_waited(&self) -> bool
        ensures { result ≡ self.now.waited }
    {
        self.wait.waited
    }

    /// The wait is done.
    pub fn waited(self) -> Invalidating
        ensures { result ≡ done_wait self }
    {
        let Invalidating { wait } = self;
        Invalidating { wait: wait.done() }
    }

    /// The endpoint holds nothing under the PASID any longer. Ok exactly where the wait is done; an Err gives the state
    /// back.
    pub fn quiet(self) -> Result<Quiet, Invalidating>
        ensures value { result ≡ quiet_of self }
        ensures ok { IfOk result (λ quiet. (self.waited ≡ true) × (quiet ≡ numbers_of_wait self)) }
        ensures err { IfErr result (λ invalidating. (self.waited ≡ false) × (invalidating ≡ self)) }
    {
        if !self.wait.waited {
            return Err(self);
        }
        let Invalidating { wait } = self;
        Ok(wait.quiet())
    }

    /// A function level reset emptied the endpoint: there is nothing left to wait for.
    pub fn by_reset(self) -> Quiet
        ensures { result ≡ numbers_of_wait self }
    {
        let Invalidating { wait } = self;
        wait.quiet()
    }
}
