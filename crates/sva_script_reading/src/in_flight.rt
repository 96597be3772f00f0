//! What a line may ask of the messages in flight: which is the oldest, the newest, or the oldest of a kind.

ghost use Rattle.std.specs.Prelude.{◌≡◌, None};
ghost use Rattle.sva_script_reading.specs.Messages.{Link, link_of, newest, oldest, oldest_of};

/// The messages in flight, as far as a line names one of them by its age or its kind.
pub trait InFlight {
    /// The messages, and the number that the next one gets.
    ghost link: { Self → Link };

    /// The number of the oldest message of a kind and an endpoint; where there is none, the number that the next message
    /// gets, which no message in flight has.
    fn oldest_of_kind(&self, kind: &[u8], endpoint: u64) -> u64
        ensures { result ≡ oldest_of (link self.now) kind.now endpoint };

    /// The number of the oldest message; where there is none, the number that the next message gets.
    fn oldest_message(&self) -> u64
        ensures { result ≡ oldest (link self.now) };

    /// The number of the newest message; where there is none, the number that the next message gets.
    fn newest_message(&self) -> u64
        ensures { result ≡ newest (link self.now) };
}

/// Nothing is in flight: so lines are read before a script is run.
#[derive(Drop)]
pub struct NothingInFlight;

impl InFlight for NothingInFlight {
    ghost link = { λ nothing. link_of None };

    fn oldest_of_kind(&self, _kind: &[u8], _endpoint: u64) -> u64 {
        0
    }

    fn oldest_message(&self) -> u64 {
        0
    }

    fn newest_message(&self) -> u64 {
        0
    }
}
