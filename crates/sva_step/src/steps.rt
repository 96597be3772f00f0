//! The steps that a host, its endpoints and their link take.

ghost use Rattle.std.specs.Prelude.{◌≡◌};
ghost use Rattle.sva_step.specs.Steps.{is_plain};

/// What a worker decides of a group of page requests.
#[derive(Clone, Copy, Debug, PartialEq, Eq)]
pub enum Verdict {
    /// Map each requested page and answer Success.
    Success,
    /// Answer Invalid Request.
    Invalid,
    /// Answer Response Failure, which disables the endpoint's page request interface.
    Failure,
}

/// One atomic event of a host, its endpoints and the link between them. A number out of its range isn't an error of the
/// caller: the step is refused.
///
/// A scenario writes each step as a line; its letters stand for the fields in their order (docs/FORMAT.md, section 3).
#[derive(Clone, Copy, Debug, PartialEq, Eq)]
pub enum Step {
    /// Makes a new empty address space.
    ///
    /// In a scenario `space`. Refused by the first of these that holds: TooManySpaces, NumbersSpent, OutOfMemory.
    Space,
    /// Takes a space away; its frames are free at once.
    ///
    /// In a scenario `drop S`. Refused by the first of these that holds: NoSuchSpace, StillBound.
    DropSpace {
        /// The number of a live space, below 2^63.
        space: u64,
    },
    /// Maps a page of a space to the lowest free frame.
    ///
    /// In a scenario `map S PAGE r` or `w`. Refused by the first of these that holds: NoSuchSpace, PageRange, Mapped,
    /// SpaceFull, NoFrame, OutOfMemory.
    Map {
        /// The number of a live space, below 2^63.
        space: u64,
        /// The number of the page, below 2^36; a page has 4096 bytes (PCI Express Base 5.0, section 10.2.3).
        page: u64,
        /// Allows writing beside reading.
        write: bool,
    },
    /// Takes pages in a row out of a space.
    ///
    /// In a scenario `unmap S PAGE [COUNT]`. Refused by the first of these that holds: NoSuchSpace, BadCount,
    /// PageRange, NotMapped, QueueFull, NumbersSpent.
    Unmap {
        /// The number of a live space, below 2^63.
        space: u64,
        /// The number of the first page; that of the last is below 2^36. A page has 4096 bytes.
        page: u64,
        /// How many pages: 1 to 48 (a limit of this project).
        count: u64,
    },
    /// Takes every mapped page of an aligned range out of a space.
    ///
    /// In a scenario `unmapr S PAGE K`. Refused by the first of these that holds: NoSuchSpace, BadOrder, PageRange,
    /// NotAligned, NothingMapped, QueueFull, NumbersSpent.
    UnmapRange {
        /// The number of a live space, below 2^63.
        space: u64,
        /// The number of the first page, a multiple of 2^order; that of the last is below 2^36. A page has 4096 bytes.
        page: u64,
        /// The order: 0 to 9 for a range of 1 to 512 pages (a limit of this project; an Invalidate Request names a range
        /// of 2^order aligned pages: PCI Express Base 5.0, section 10.3.1).
        order: u64,
    },
    /// Binds a space to an endpoint under the PASID that it bears, or else the lowest that no space bears, and sends
    /// Start. A space bears its PASID while it has an unreleased binding at any endpoint.
    ///
    /// In a scenario `bind E S`. Refused by the first of these that holds: NoSuchEndpoint, NoSuchSpace, Resetting,
    /// AlreadyBound, NoPasid, NumbersSpent, OutOfMemory.
    Bind {
        /// The number of the endpoint, below the config's count (at most 8).
        endpoint: u64,
        /// The number of a live space, below 2^63.
        space: u64,
    },
    /// Begins to take a binding back: sends Stop, or ends one that a reset has cut off.
    ///
    /// In a scenario `unbind B`. Refused by the first of these that holds: NoSuchBinding, NotLive, Resetting,
    /// NumbersSpent, OutOfMemory. The last three don't apply to a Lost binding, for which nothing is sent.
    Unbind {
        /// The number of an unreleased binding, below 2^63.
        binding: u64,
    },
    /// Moves a binding to its next stage.
    ///
    /// In a scenario `advance B`. Refused by the first of these that holds: NoSuchBinding, Resetting, NotYet,
    /// QueueFull, NumbersSpent. A Quiet binding is refused by none of the last four. A Live or a Lost one is always
    /// refused: Resetting in reset, else NotYet.
    Advance {
        /// The number of an unreleased binding, below 2^63.
        binding: u64,
    },
    /// Takes the head of an endpoint's invalidation queue (Intel VT-d, "Queued Invalidation Interface").
    ///
    /// In a scenario `pump E`. Refused by the first of these that holds: NoSuchEndpoint, Resetting, NumbersSpent,
    /// OutOfMemory. The last two apply only where an Invalidate would be sent.
    Pump {
        /// The number of the endpoint, below the config's count (at most 8).
        endpoint: u64,
    },
    /// Files the head of an endpoint's page request queue under its binding (Intel VT-d, "Page Request Queue").
    ///
    /// In a scenario `serve E`. Refused by the first of these that holds: NoSuchEndpoint, Resetting, OutOfMemory. The
    /// last doesn't apply where the queue is empty.
    Serve {
        /// The number of the endpoint, below the config's count (at most 8).
        endpoint: u64,
    },
    /// Closes an endpoint's unit and sends it a function level reset (PCI Express Base 5.0, section 6.6.2).
    ///
    /// In a scenario `reset E`. Refused by the first of these that holds: NoSuchEndpoint, Resetting, NumbersSpent,
    /// OutOfMemory.
    Reset {
        /// The number of the endpoint, below the config's count (at most 8).
        endpoint: u64,
    },
    /// A worker takes the oldest job.
    ///
    /// In a scenario `take W`. Refused by the first of these that holds: NoSuchWorker, HandsFull, NoJob.
    Take {
        /// The number of the worker, below the config's count (at most 4).
        worker: u64,
    },
    /// A worker answers the job that it holds.
    ///
    /// In a scenario `answer W V`. Refused by the first of these that holds: NoSuchWorker, NoJob, BadVerdict, NoFrame,
    /// SpaceFull, NumbersSpent, OutOfMemory. BadVerdict, NoFrame and SpaceFull apply only to a success with a Live
    /// binding at an open unit, NumbersSpent and OutOfMemory only where the job isn't dropped.
    Reply {
        /// The number of the worker, below the config's count (at most 4).
        worker: u64,
        /// What the worker decides of the job's group.
        verdict: Verdict,
    },
    /// An endpoint asks for a translation (AT field 01b: PCI Express Base 5.0, section 10.2.1).
    ///
    /// In a scenario `ask E P PAGE`. Refused by the first of these that holds: NoSuchEndpoint, PageRange, NotStarted,
    /// NoTag, NumbersSpent, OutOfMemory.
    Ask {
        /// The number of the endpoint, below the config's count (at most 8).
        endpoint: u64,
        /// The PASID: 1 to 32 of its 20 bits (PCI Express Base 5.0, section 6.20).
        pasid: u64,
        /// The number of the page, below 2^36; a page has 4096 bytes.
        page: u64,
    },
    /// An endpoint begins to use a cached translation (AT field 10b: PCI Express Base 5.0, section 10.2.1).
    ///
    /// In a scenario `use E P PAGE r` or `w`. Refused by the first of these that holds: NoSuchEndpoint, PageRange,
    /// NotStarted, NotHeld, ReadOnly, NoUseSlot.
    BeginUse {
        /// The number of the endpoint, below the config's count (at most 8).
        endpoint: u64,
        /// The PASID: 1 to 32 of its 20 bits (PCI Express Base 5.0, section 6.20).
        pasid: u64,
        /// The number of the page, below 2^36; a page has 4096 bytes.
        page: u64,
        /// Writes, where else it reads.
        write: bool,
    },
    /// An endpoint ends the use in a slot.
    ///
    /// In a scenario `end E U`. Refused by the first of these that holds: NoSuchEndpoint, NoSuchUse.
    EndUse {
        /// The number of the endpoint, below the config's count (at most 8).
        endpoint: u64,
        /// The use slot: 0 to 15 (a limit of this project).
        slot: u64,
    },
    /// An endpoint lets go of a cached translation.
    ///
    /// In a scenario `evict E P PAGE`. Refused by the first of these that holds: NoSuchEndpoint, PageRange, NotHeld.
    Evict {
        /// The number of the endpoint, below the config's count (at most 8).
        endpoint: u64,
        /// The PASID: 1 to 32 of its 20 bits (PCI Express Base 5.0, section 6.20).
        pasid: u64,
        /// The number of the page, below 2^36; a page has 4096 bytes.
        page: u64,
    },
    /// An endpoint sends a page request: the first of a new group, or one more of an unfinished group (PCI Express
    /// Base 5.0, section 10.4.1).
    ///
    /// In a scenario `fault E P PAGE A G L`. Refused by the first of these that holds: NoSuchEndpoint, PageRange,
    /// NotStarted, NoCredit, NoSuchGroup, PriDisabled, NumbersSpent, OutOfMemory.
    Fault {
        /// The number of the endpoint, below the config's count (at most 8).
        endpoint: u64,
        /// The PASID: 1 to 32 of its 20 bits (PCI Express Base 5.0, section 6.20).
        pasid: u64,
        /// The number of the page, below 2^36; a page has 4096 bytes.
        page: u64,
        /// The bit R: the page is to be read.
        read: bool,
        /// The bit W: the page is to be written.
        write: bool,
        /// The index of an unfinished group of this PASID, 0 to 31 of its nine bits, or none for a new group.
        group: Option<u64>,
        /// The bit L: the last request of its group.
        last: bool,
    },
    /// An endpoint completes invalidations (PCI Express Base 5.0, sections 10.3.2 and 10.3.3).
    ///
    /// In a scenario `finish E VECTOR COUNT`. Refused by the first of these that holds: NoSuchEndpoint, NotPending,
    /// InUse, BadCount, NumbersSpent, OutOfMemory.
    Finish {
        /// The number of the endpoint, below the config's count (at most 8).
        endpoint: u64,
        /// The ITag Vector, not 0: bit T stands for ITag T, 0 to 31.
        vector: u32,
        /// By how many completions: 1 to 8.
        count: u64,
    },
    /// An endpoint stops using a PASID, and sends the Stop Marker (PCI Express Base 5.0, section 10.4.1).
    ///
    /// In a scenario `quit E P`. Refused by the first of these that holds: NoSuchEndpoint, NotStopping, Busy,
    /// NumbersSpent, OutOfMemory.
    Quit {
        /// The number of the endpoint, below the config's count (at most 8).
        endpoint: u64,
        /// The PASID: 1 to 32 of its 20 bits (PCI Express Base 5.0, section 6.20).
        pasid: u64,
    },
    /// The link delivers a message.
    ///
    /// In a scenario `deliver M`. Refused by the first of these that holds: NoSuchMessage, Overtakes, NumbersSpent,
    /// OutOfMemory. The last two apply only where a message is sent in answer.
    Deliver {
        /// The number of a message in flight, below 2^63.
        message: u64,
    },
    /// Tells where a frame is.
    ///
    /// In a scenario `look F`. Refused by NoFrame alone.
    Look {
        /// The number of the frame, below the config's count (at most 4096).
        frame: u64,
    },
    /// Tells which space bears a PASID.
    ///
    /// In a scenario `bearer P`. Refused by BadPasid alone.
    Bearer {
        /// The PASID: 1 to 32 of its 20 bits (PCI Express Base 5.0, section 6.20).
        pasid: u64,
    },
}

impl Step {
    /// Tells that the step needs no token: all but those that make, move or spend one, which are a binding's steps and
    /// the begin and the end of a use.
    pub fn is_plain(&self) -> bool
        ensures { result ≡ is_plain self.now }
    {
        match self {
            Step::Bind { .. }
            | Step::Unbind { .. }
            | Step::Advance { .. }
            | Step::BeginUse { .. }
            | Step::EndUse { .. } => false,
            Step::Space
            | Step::DropSpace { .. }
            | Step::Map { .. }
            | Step::Unmap { .. }
            | Step::UnmapRange { .. }
            | Step::Pump { .. }
            | Step::Serve { .. }
            | Step::Reset { .. }
            | Step::Take { .. }
            | Step::Reply { .. }
            | Step::Ask { .. }
            | Step::Evict { .. }
            | Step::Fault { .. }
            | Step::Finish { .. }
            | Step::Quit { .. }
            | Step::Deliver { .. }
            | Step::Look { .. }
            | Step::Bearer { .. } => true,
        }
    }
}
