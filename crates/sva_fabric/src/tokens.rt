//! Tokens: what an unreleased binding and a use are held by. Each has to be spent: none is `Drop`, `Clone` or `Copy`, and each comes only
//! from the call that makes it.

ghost use Rattle.std.specs.Prelude.{◌≡◌, []};

use std::alloc::Global;
use std::marker::Model;
use sva_core::{Bindings, Ledgers, Part, Uses};

/// A binding that `Fabric::bind` made. Contracts see its numbers.
pub struct Lease<C: Ledgers> {
    pub(crate) binding: u64,
    pub(crate) pasid: u32,
    pub(crate) part: Part<Bindings<C>>,
}

impl<C: Ledgers> Model for Lease<C> {
    ghost use Rattle.std.specs.Prelude.{◌≡◌};
    ghost use Rattle.sva_fabric.specs.TokenNumbers.{LeaseNumbers};

    ghost Value = { LeaseNumbers };

    ghost view = { λ lease. record { binding = lease.binding; pasid = lease.pasid } };
}

impl<C: Ledgers> Lease<C> {
    /// The number of the binding.
    pub fn binding(&self) -> u64
        ensures { result ≡ self.now.binding }
    {
        self.binding
    }

    /// The PASID of the binding: 1 to 32 of its 20 bits (PCI Express Base 5.0, section 6.20).
    pub fn pasid(&self) -> u32
        ensures { result ≡ self.now.pasid }
    {
        self.pasid
    }
}

/// A binding that is being taken back. Contracts see its number.
pub struct Leaving<C: Ledgers> {
    pub(crate) binding: u64,
    pub(crate) part: Part<Bindings<C>>,
}

impl<C: Ledgers> Model for Leaving<C> {
    ghost use Rattle.std.specs.Prelude.{◌≡◌, ℕ};

    ghost Value = { ℕ };

    ghost view = { λ leaving. leaving.binding };
}

impl<C: Ledgers> Leaving<C> {
    /// The number of the binding.
    pub fn binding(&self) -> u64
        ensures { result ≡ self.now }
    {
        let Leaving { binding, .. } = self;
        *binding
    }
}

/// A use that began: its slot is taken until `Fabric::end`. Contracts see its numbers.
pub struct UseTicket<C: Ledgers> {
    pub(crate) endpoint: u64,
    pub(crate) slot: u8,
    pub(crate) frame: u32,
    pub(crate) part: Part<Uses<C>>,
}

impl<C: Ledgers> Model for UseTicket<C> {
    ghost use Rattle.std.specs.Prelude.{◌≡◌};
    ghost use Rattle.sva_fabric.specs.TokenNumbers.{TicketNumbers};

    ghost Value = { TicketNumbers };

    ghost view = { λ ticket. record { endpoint = ticket.endpoint; slot = ticket.slot; frame = ticket.frame } };
}

impl<C: Ledgers> UseTicket<C> {
    /// The number of the endpoint.
    pub fn endpoint(&self) -> u64
        ensures { result ≡ self.now.endpoint }
    {
        self.endpoint
    }

    /// The use slot.
    pub fn slot(&self) -> u8
        ensures { result ≡ self.now.slot }
    {
        self.slot
    }

    /// The number of the frame that is used.
    pub fn frame(&self) -> u32
        ensures { result ≡ self.now.frame }
    {
        self.frame
    }
}

/// What became of a binding by an advance.
pub enum Moved<C: Ledgers> {
    /// It is at its next stage.
    Again(Leaving<C>),
    /// It is released.
    Gone,
}

/// The tokens that are left at the end.
pub struct Tokens<C: Ledgers> {
    /// Of bindings that nobody takes back.
    pub leases: Vec<Lease<C>>,
    /// Of bindings that are being taken back.
    pub leavings: Vec<Leaving<C>>,
    /// Of uses, those that a reset ended among them.
    pub tickets: Vec<UseTicket<C>>,
}

impl<C: Ledgers> Tokens<C> {
    /// No tokens.
    pub fn new(alloc: Global) -> Tokens<C>
        ensures leases { result.leases.items ≡ [] }
        ensures leavings { result.leavings.items ≡ [] }
        ensures tickets { result.tickets.items ≡ [] }
    {
        Tokens {
            leases: Vec::new(alloc),
            leavings: Vec::new(alloc),
            tickets: Vec::new(alloc),
        }
    }
}
