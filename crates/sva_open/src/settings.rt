//! What a platform is like.

/// The order of a link.
#[derive(Clone, Copy, PartialEq, Eq)]
pub enum Link {
    /// By this project's own three rules alone.
    Free,
    /// Posted requests stay in order too (PCI Express Base 5.0, section 2.4.1).
    Posted,
}

/// By what an endpoint says that it has stopped using a PASID.
#[derive(Clone, Copy, PartialEq, Eq)]
pub enum Stopped {
    /// By a Stop Marker (PCI Express Base 5.0, section 10.4.1).
    Marker,
    /// By a posted write.
    Status,
    /// By nothing on the link: the host sees it at once.
    Known,
}

/// What becomes of an invalidation that its endpoint doesn't answer.
#[derive(Clone, Copy, PartialEq, Eq)]
pub enum Timeouts {
    /// It is awaited for ever.
    Off,
    /// It runs out of time, and the unit goes on.
    On,
    /// It runs out of time, and the unit takes nothing more until it is resumed.
    Stop,
}

/// How an endpoint goes about invalidations and stops.
#[derive(Clone, Copy, PartialEq, Eq)]
pub struct Conduct {
    /// Whether it may complete an invalidation while a use runs that this has to await.
    pub lies: bool,
    /// Whether it awaits the responses to its page requests before it says that it has stopped.
    pub awaits: bool,
}

/// What a platform is like.
#[derive(Clone, Copy, PartialEq, Eq)]
pub struct Settings {
    /// The order of its links.
    pub link: Link,
    /// Whether each wait is a fence, also without its flag (Intel VT-d, "Invalidation Wait Descriptor").
    pub all_fence: bool,
    /// Whether page requests stand in the page request queue as they come, and a wait that drains needs that to be
    /// empty. Else they are received first, and such a wait is done once what had been received is written.
    pub drain_empties: bool,
    /// Whether a unit doesn't take a wait that drains, so that it stays at the head of the queue.
    pub refuses_drain: bool,
    /// Whether a unit takes any descriptor that none before it bars (Intel VT-d, "Queued Invalidation Ordering
    /// Considerations"). Else it takes them in the order of the queue.
    pub is_loose: bool,
    /// Whether units keep entries and translations.
    pub has_caches: bool,
    /// By what endpoints say that they have stopped.
    pub stopped: Stopped,
    /// Whether a response may come for an index under which the endpoint has no group (PCI Express Base 5.0, section
    /// 10.5.2.3, "Unexpected Page Request Group Index").
    pub allows_no_group: bool,
    /// Whether workers answer whole groups.
    pub has_workers: bool,
    /// Whether ATS, page requests and bus mastering are off behind a reset, until they are turned on.
    pub clears_controls: bool,
    /// What becomes of an invalidation that its endpoint doesn't answer.
    pub timeouts: Timeouts,
    /// How many page requests have room in the page request queue of a unit, 1 to 65535. Without one there is room for
    /// any number. One that finds no room is dropped, and so is each that comes before the overflow is cleared.
    pub places: Option<usize>,
}
