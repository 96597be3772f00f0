//! The count of the completions of an Invalidate Request.

ghost use Rattle.std.specs.Prelude.{◌≡◌, ◌≢◌, ℕ, ◌<◌, ◌≤◌};

use std::marker::Model;

/// How many Invalidate Completions complete one Invalidate Request: 1 to 8 (PCI Express Base 5.0, section 10.3.2).
#[derive(Clone, Copy, Debug, PartialEq, Eq)]
pub struct Count {
    count: u8,
}

impl Model for Count {
    ghost Value = { ℕ };

    ghost view = { λ c. c.count };

    ghost invariant = { λ c. (0 < c.count) × (c.count ≤ 8) };

    ghost inverse = { λ n. record { count = n } };
}

impl Count {
    /// This many completions, 1 to 8.
    pub fn new(count: u8) -> Self
        requires { (0 < count) × (count ≤ 8) }
        ensures { result ≡ count }
    {
        Count { count }
    }

    /// The count that the three bits of a Completion Count field, 0 to 7, stand for; 0 stands for 8.
    pub fn from_field(field: u8) -> Self
        requires { field < 8 }
        ensures zero { field ≡ 0 → result ≡ 8 }
        ensures other { field ≢ 0 → result ≡ field }
    {
        if field == 0 {
            Count { count: 8 }
        } else {
            Count { count: field }
        }
    }

    /// The three bits of the Completion Count field, 0 to 7.
    pub fn field(self) -> u8
        ensures below { result < 8 }
        ensures eight { self ≡ 8 → result ≡ 0 }
        ensures other { self ≢ 8 → result ≡ self }
    {
        if self.count == 8 { 0 } else { self.count }
    }

    /// The number of completions, 1 to 8.
    pub fn get(self) -> u8
        ensures value { result ≡ self }
        ensures within { (0 < result) × (result ≤ 8) }
    {
        self.count
    }
}
