//! The state of a binding whose page requests are drained.

ghost use Rattle.std.specs.Prelude.{◌≡◌, ◌&&◌, not, true, false, IfOk, IfErr};
ghost use Rattle.sva_pasid.specs.States.{Wait, done_wait, invalidation_of, numbers_of_wait};

use crate::states::wait::Wait;
use crate::states::{Invalidating, Quiet};
use std::marker::Model;

/// The marker was noted. The binding waits until the page requests that came before it are answered.
pub struct Draining {
    pub(crate) wait: Wait,
}

impl Model for Draining {
    ghost Value = { Wait };

    ghost view = { λ draining. draining.wait };
}

impl Draining {
    /// The cookie of the wait descriptor for which the binding waits.
    pub fn cookie(&self) -> u64
        ensures { result ≡ self.now.cookie }
    {
        self.wait.cookie
    }

    /// Whether that wait was told to be done.
    pub fn is_waited(&self) -> bool
        ensures { result ≡ self.now.waited }
    {
        self.wait.waited
    }

    /// The wait is done.
    pub fn waited(self) -> Draining
        ensures { result ≡ done_wait self }
    {
        let Draining { wait } = self;
        Draining { wait: wait.done() }
    }

    /// Goes on to wait for the wait descriptor with this cookie, behind an invalidation of the whole PASID (Intel VT-d,
    /// "Queued Invalidation Interface"). `groups_open` tells whether a group of page requests of the binding is not
    /// answered. Ok exactly where the wait with drain is done and no group is open; an Err gives the state back.
    pub fn invalidate(self, cookie: u64, groups_open: bool) -> Result<Invalidating, Draining>
        ensures value { result ≡ invalidation_of self cookie groups_open }
        ensures ok { IfOk result (λ invalidating. (self.waited ≡ true) × (groups_open ≡ false)
            × (invalidating ≡ record self { cookie = cookie; waited = false })) }
        ensures err { IfErr result (λ draining. ((self.waited && not groups_open) ≡ false) × (draining ≡ self)) }
    {
        if !self.wait.waited || groups_open {
            return Err(self);
        }
        let Draining { wait } = self;
        Ok(Invalidating {
            wait: Wait::new(wait.binding, wait.pasid, cookie),
        })
    }

    /// A function level reset emptied the endpoint: there is nothing left to wait for.
    pub fn by_reset(self) -> Quiet
        ensures { result ≡ numbers_of_wait self }
    {
        let Draining { wait } = self;
        wait.quiet()
    }
}
