//! The acts: of the host, which are a driver's to choose, and of the others, which come as they like.

use crate::descriptors::Descriptor;
use crate::messages::Barrier;

/// What a configuration write turns on or off at an endpoint.
#[derive(Clone, Copy, PartialEq, Eq)]
pub enum Control {
    /// ATS: whether it asks for translations and holds them (PCI Express Base 5.0, section 10.5.1.3, "Enable").
    Ats,
    /// Its page request interface: whether it begins groups of page requests (section 10.5.2.2, "Enable").
    PageRequests,
    /// Bus mastering: whether it sends memory requests, of which translation requests are some (section 7.5.1.1.3,
    /// "Bus Master Enable").
    Mastering,
}

/// An act at one endpoint, its unit and its link.
#[derive(Drop)]
pub enum LocalAct {
    /// The host: the entry of a PASID leads to a space. Where that isn't its owner's space, it has another owner now.
    SetEntry {
        /// The PASID.
        pasid: usize,
        /// The space.
        space: u64,
    },
    /// The host: the entry of a PASID leads to a space, for the owner that it has.
    Replace {
        /// The PASID.
        pasid: usize,
        /// The space.
        space: u64,
    },
    /// The host: the entry of a PASID leads nowhere.
    ClearEntry {
        /// The PASID.
        pasid: usize,
    },
    /// The host: sends a start.
    Start {
        /// The PASID.
        pasid: usize,
    },
    /// The host: sends a stop.
    Stop {
        /// The PASID.
        pasid: usize,
    },
    /// The host: sends a barrier.
    Barrier {
        /// The barrier.
        barrier: Barrier,
    },
    /// The host: sends a reset.
    Reset,
    /// The host: puts descriptors into the invalidation queue, all at once.
    Submit {
        /// The descriptors.
        descriptors: Vec<Descriptor>,
    },
    /// The host: the unit takes nothing from the endpoint.
    Close,
    /// The host: the unit takes what comes again, with all ITags free and all waits done.
    Reopen,
    /// The host: takes the head out of the invalidation queue, whatever it is: the first that isn't out already.
    Skip,
    /// The host: clears the time-out of a unit that has stopped at one (Intel VT-d, "Fault Status Register", ITE), so that
    /// it goes on, and the overflow of its page request queue (Intel VT-d, "Page Request Status Register", PRO).
    Resume,
    /// The host: no wait of a name stands at the unit. That one was submitted is for those to see to who await it.
    AwaitWait {
        /// The name.
        name: usize,
    },
    /// The host: takes the answer to the last stop.
    AwaitStopped {
        /// The PASID.
        pasid: usize,
    },
    /// The host: each barrier of a PASID that a thread has sent is passed, and each that was sent before all threads.
    AwaitPassed {
        /// The PASID.
        pasid: usize,
        /// The thread.
        thread: usize,
    },
    /// The host: no page request of any PASID stands in the page request queue.
    AwaitQueue,
    /// The host: no page request of a PASID stands in the page request queue.
    AwaitQueueOf {
        /// The PASID.
        pasid: usize,
    },
    /// The host: no whole group is filed and not answered.
    AwaitGroups {
        /// The PASID, where those of one alone are awaited.
        pasid: Option<usize>,
    },
    /// The host: each reset is done.
    AwaitResets,
    /// The host: turns something on or off at the endpoint, at once.
    Turn {
        /// What.
        control: Control,
        /// Whether it is on from now on.
        on: bool,
    },
    /// The host: the endpoint has no translation request out and no use that runs (PCI Express Base 5.0, section
    /// 7.5.3.5, "Transactions Pending").
    AwaitIdle,
    /// The host: the endpoint is gone, and nothing that it has sent is on its way up.
    AwaitGone,
    /// The host: files the oldest page request.
    Serve,
    /// The host: answers a group.
    Respond {
        /// The PASID.
        pasid: usize,
        /// The Page Request Group Index.
        index: usize,
        /// Whether the code is Response Failure.
        fails: bool,
    },
    /// The host: answers each whole group that is filed.
    RespondAll {
        /// The PASID, where those of one alone are answered.
        pasid: Option<usize>,
        /// Whether the code is Response Failure.
        fails: bool,
    },
    /// The host: drops each group that is filed and isn't whole.
    Discard {
        /// The PASID, where those of one alone are dropped.
        pasid: Option<usize>,
    },
    /// The host: another owner has the PASID from now on.
    FreePasid {
        /// The PASID.
        pasid: usize,
    },
    /// The endpoint: asks for a translation.
    Ask {
        /// The PASID.
        pasid: usize,
        /// The number of the page.
        page: u64,
    },
    /// The endpoint: begins a use of a translation that it holds.
    Use {
        /// The PASID.
        pasid: usize,
        /// The number of the page.
        page: u64,
    },
    /// The endpoint: ends a use.
    End {
        /// Its place among what the endpoint is at.
        place: usize,
    },
    /// The endpoint: lets go of a translation that it holds.
    Evict {
        /// The PASID.
        pasid: usize,
        /// The number of the page.
        page: u64,
    },
    /// The endpoint: begins a group of page requests.
    Fault {
        /// The PASID.
        pasid: usize,
        /// The number of the page.
        page: u64,
        /// Whether it is to be written.
        write: bool,
        /// Whether it is the last of the group.
        last: bool,
    },
    /// The endpoint: goes on with a group of page requests.
    More {
        /// The Page Request Group Index.
        index: usize,
        /// The number of the page.
        page: u64,
        /// Whether it is to be written.
        write: bool,
        /// Whether it is the last of the group.
        last: bool,
    },
    /// The endpoint: completes an invalidation.
    Finish {
        /// Its place among what the endpoint is at.
        place: usize,
    },
    /// The endpoint: passes a barrier, and says so.
    Pass {
        /// Its place among what the endpoint is at.
        place: usize,
    },
    /// The endpoint: has stopped using a PASID, and says so.
    Quit {
        /// The PASID.
        pasid: usize,
    },
    /// The endpoint: is removed. What it had is gone with it.
    Leave,
    /// The unit: takes the head of the invalidation queue, where it takes them in order.
    Pump,
    /// The unit: takes a descriptor that none before it bars, where it doesn't take them in order.
    PumpAt {
        /// Its place in the invalidation queue.
        place: usize,
    },
    /// The unit: an invalidation has run out of time (Intel VT-d, "Fault Status Register", ITE). Each wait that the unit has
    /// fetched and that isn't done is aborted.
    Expire {
        /// Its ITag.
        itag: usize,
        /// Whether the endpoint may leave unanswered what has come to it.
        silent: bool,
    },
    /// The unit: writes the oldest page request that it has received into the page request queue, or drops it where
    /// there is no room.
    Write,
    /// The unit: drops an entry that it keeps.
    ForgetEntry {
        /// Its place.
        place: usize,
    },
    /// The unit: drops a translation that it keeps.
    Forget {
        /// Its place.
        place: usize,
    },
    /// The link: delivers a message.
    Deliver {
        /// Its place among those in flight, the oldest first.
        place: usize,
    },
}

/// An act.
#[derive(Drop)]
pub enum Act {
    /// The host: does nothing. Its line may have a name, and be awaited.
    Mark,
    /// The host: a page of a space leads to a frame.
    SetPage {
        /// The space.
        space: u64,
        /// The number of the page.
        page: u64,
        /// The frame.
        frame: usize,
        /// Whether it may be written too.
        write: bool,
    },
    /// The host: a page of a space leads nowhere.
    ClearPage {
        /// The space.
        space: u64,
        /// The number of the page.
        page: u64,
    },
    /// The host: another owner has the frame from now on.
    FreeFrame {
        /// The frame.
        frame: usize,
    },
    /// The host: from now on nobody may write the frame by what led to it before.
    Freeze {
        /// The frame.
        frame: usize,
    },
    /// The host: another owner has the memory of a space's table from now on.
    FreeSpace {
        /// The space.
        space: u64,
    },
    /// The host: that by which workers serve groups of a space is gone from now on.
    FreeDomain {
        /// The space.
        space: u64,
    },
    /// An act at an endpoint.
    At {
        /// The endpoint.
        endpoint: usize,
        /// The act.
        act: LocalAct,
    },
}
