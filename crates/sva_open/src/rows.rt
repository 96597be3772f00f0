//! What there is of a PASID at an endpoint.

use std::alloc::AllocError;

/// What an endpoint does under a PASID.
#[derive(Clone, Copy, PartialEq, Eq)]
pub enum State {
    /// Nothing is sent under it.
    Off,
    /// Its start has come.
    On,
    /// Its stop has come while it was on. Until the endpoint says that it has stopped, more may begin: a function that is
    /// asked to stop goes on queuing requests until the stop is complete (PCI Express Base 5.0, section 6.20).
    Stopping,
    /// Its stop has come while it was off. Nothing begins, and the endpoint has only to say so.
    Answering,
}

impl State {
    ghost use Rattle.std.specs.Prelude.{◌≡◌};
    ghost use Rattle.sva_open.specs.World.{is_off, is_stopping, is_used, stopped_by};

    /// Whether more may begin under it.
    pub fn is_used(&self) -> bool
        ensures { result ≡ is_used self.now }
    {
        matches!(self, State::On | State::Stopping)
    }

    /// Whether the endpoint has to say that it has stopped.
    pub fn is_stopping(&self) -> bool
        ensures { result ≡ is_stopping self.now }
    {
        matches!(self, State::Stopping | State::Answering)
    }

    /// What it is once its stop has come.
    pub fn stopped(self) -> State
        ensures { result ≡ stopped_by self }
    {
        match self {
            State::Off | State::Answering => State::Answering,
            State::On | State::Stopping => State::Stopping,
        }
    }

    pub fn is_off(&self) -> bool
        ensures { result ≡ is_off self.now }
    {
        matches!(self, State::Off)
    }
}

/// A PASID table entry: the space that it leads to, and whose it is (Intel VT-d, "Scalable-Mode PASID Table Entry").
#[derive(Clone, Copy, PartialEq, Eq)]
pub struct Entry {
    /// The space.
    pub space: u64,
    /// The owner that the PASID had when the host set it.
    pub owner: u64,
}

/// A PASID table entry that a unit keeps.
#[derive(Clone, Copy, PartialEq, Eq)]
pub struct KeptEntry {
    /// The PASID.
    pub pasid: usize,
    /// Its entry.
    pub entry: Entry,
}

/// What there is of a PASID at an endpoint: in memory, at the host, and at the endpoint itself. An owner is how often
/// the PASID had been given to another one.
#[derive(Clone, Copy, PartialEq, Eq)]
pub struct Row {
    /// The entry in memory, if it leads somewhere.
    pub entry: Option<Entry>,
    /// The owner that the PASID has.
    pub owner: u64,
    /// The owner's space, if it had one.
    pub space: Option<u64>,
    /// The answer to the last stop, if it has come and wasn't taken: whose stop it answers.
    pub answer: Option<u64>,
    /// What the endpoint does under it.
    pub state: State,
    /// The owner whose start or stop came to the endpoint last.
    pub user: u64,
}

impl Row {
    ghost use Rattle.std.specs.Prelude.{◌≡◌, IfOk};
    ghost use Rattle.sva_open.specs.Host.{entered, leading_to, owned_for, with_next_owner};

    /// The row of the next owner. The error is of numbers that have come to their end.
    pub fn with_next_owner(self) -> Result<Row, AllocError>
        ensures { IfOk result (λ row. row ≡ with_next_owner self) }
    {
        let Some(owner) = self.owner.checked_add(1) else {
            return Err(AllocError);
        };
        Ok(Row {
            owner,
            space: None,
            answer: None,
            ..self
        })
    }

    /// The row of the owner whose space it is.
    fn owned_for(self, space: u64) -> Result<Row, AllocError>
        ensures { IfOk result (λ row. row ≡ owned_for self space self.space) }
    {
        match self.space {
            None => Ok(self),
            Some(own) => {
                if own == space {
                    Ok(self)
                } else {
                    self.with_next_owner()
                }
            }
        }
    }

    /// The row whose entry leads to a space, for the owner that the PASID has.
    pub fn leading_to(self, space: u64) -> Row
        ensures { result ≡ leading_to self space }
    {
        Row {
            entry: Some(Entry {
                space,
                owner: self.owner,
            }),
            space: Some(space),
            ..self
        }
    }

    /// The row whose entry leads to a space, for the owner whose space that is.
    pub fn entered(self, space: u64) -> Result<Row, AllocError>
        ensures { IfOk result (λ row. row ≡ entered self space) }
    {
        let row = self.owned_for(space)?;
        Ok(row.leading_to(space))
    }
}
