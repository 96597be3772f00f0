//! What an endpoint does under each PASID.

ghost use Rattle.std.specs.Prelude.{◌≡◌, false};

use arrayvec::ArrayVec;
use std::marker::Model;
use sva_step::PASID_PLACES;

/// What an endpoint does under a PASID. How a device is told to start or stop is its own affair (PCI Express Base 5.0,
/// section 6.20): here by the messages Start and Stop (this project's own rule).
#[derive(Clone, Copy, Debug, PartialEq, Eq)]
pub enum PasidState {
    /// Nothing: no Start came since the PASID was last off.
    Off,
    /// A Start came: it asks, uses and sends page requests.
    On,
    /// A Stop came: it ends what it began, and begins nothing.
    Stopping,
}

impl PasidState {
    ghost use Rattle.sva_endpoint.specs.PasidStates.{is_off, is_on, is_stopping};

    /// Is nothing to be done under the PASID?
    pub fn is_off(self) -> bool
        ensures { result ≡ is_off self }
    {
        matches!(self, PasidState::Off)
    }

    /// May the endpoint begin something under the PASID?
    pub fn is_on(self) -> bool
        ensures { result ≡ is_on self }
    {
        matches!(self, PasidState::On)
    }

    /// May the endpoint only end what it began under the PASID?
    pub fn is_stopping(self) -> bool
        ensures { result ≡ is_stopping self }
    {
        matches!(self, PasidState::Stopping)
    }
}

/// The states of the PASIDs 1 to 32 of an endpoint. A PASID has 20 bits (PCI Express Base 5.0, section 6.20); every one
/// outside 1 to 32 is off (a limit of this project).
#[derive(Drop)]
pub struct PasidStates {
    states: ArrayVec<PasidState, PASID_PLACES>,
}

impl Model for PasidStates {
    ghost use Rattle.std.specs.Prelude.{◌≡◌, List, length};
    ghost use Rattle.sva_endpoint.specs.declared.pasid_states.PasidState.{PasidState};

    ghost Value = { List PasidState };

    ghost view = { λ table. table.states.items };

    ghost invariant = { λ table. length table.states.items ≡ 33 };
}

impl PasidStates {
    ghost use Rattle.sva_endpoint.specs.PasidStates.{all_off, state_of, with_state, is_off};

    /// Every PASID is off.
    pub fn new() -> Self
        ensures { result ≡ all_off }
    {
        PasidStates {
            states: ArrayVec::from([PasidState::Off; PASID_PLACES]),
        }
    }

    /// The states by PASID, of 0 to 32: there is no PASID 0, and its place is `Off`.
    pub fn places(&self) -> &[PasidState]
        ensures { result.now ≡ self.now }
    {
        self.states.as_slice()
    }

    /// The state of a PASID; that of one outside 1 to 32 is `Off`.
    #[tactic(auto, using(crate::proofs::Places::past_the_end))]
    pub fn state_of(&self, pasid: u64) -> PasidState
        ensures { result ≡ state_of self.now pasid }
    {
        if pasid < self.states.len() as u64 {
            self.states[pasid as usize]
        } else {
            PasidState::Off
        }
    }

    /// The PASID, which has to be on or stopping and so is 1 to 32, as messages carry it.
    #[tactic(auto, using(crate::proofs::Places::past_the_end))]
    pub fn label(&self, pasid: u64) -> u32
        requires { is_off (state_of self.now pasid) ≡ false }
        ensures { result ≡ pasid }
    {
        let states = &self.states;
        if pasid < states.len() as u64 {
            pasid as u32
        } else {
            unreachable!()
        }
    }

    /// Moves a PASID to a state; one outside 1 to 32 stays off.
    #[tactic(auto, using(crate::proofs::Places::past_the_end))]
    pub fn set(&mut self, pasid: u32, state: PasidState)
        ensures { self.new ≡ with_state self.old pasid state }
    {
        let place = pasid as usize;
        if 0 < place && place < self.states.len() {
            self.states[place] = state;
        }
    }
}
