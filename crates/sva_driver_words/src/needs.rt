//! What an act needs so that it is permitted.

ghost use Rattle.std.specs.Prelude.{◌≡◌};
ghost use Rattle.sva_driver_words.specs.Needs.{need_text};

/// What an act needs so that it is permitted.
#[derive(Clone, Copy)]
pub enum Need {
    /// Nothing: it is always permitted, where lines are taken in their order.
    Nothing,
    /// To submit: an open unit, and room in its queue.
    Room,
    /// To close a unit: that it is open.
    OpenUnit,
    /// To open a unit: that it is closed.
    ClosedUnit,
    /// To take the head out of a queue: a descriptor that stands there.
    Descriptor,
    /// To await a wait: that it is done.
    Done,
    /// To await a stop: an answer to it.
    Stopped,
    /// To await barriers: that each one is passed.
    Passed,
    /// To await the page request queue: that it is empty.
    EmptyQueue,
    /// To await the page requests of a PASID: that none stands in the queue.
    NoneQueued,
    /// To await groups: that each whole one is answered.
    Answered,
    /// To await resets: that each one is done.
    ResetsDone,
    /// To await that an endpoint is idle: no translation request that is out, and no use that runs.
    Quiet,
    /// To await that an endpoint is gone: that it is, and that nothing of it is on its way up.
    Gone,
    /// To remove an endpoint: that it is there.
    There,
    /// That an invalidation runs out of time: that it may, that it is out and no completion of it is on its way, and that
    /// its unit is open, hasn't stopped and can take nothing more.
    Unanswered,
    /// To write a page request into the queue: one that the unit has received.
    Received,
    /// To file a page request: one in the queue.
    Queued,
    /// To take a lock: that it is free.
    FreeLock,
    /// To give a lock back: that it is taken.
    TakenLock,
    /// To deliver a message: one in flight that may go.
    Deliverable,
    /// To take the head: an open unit that takes descriptors in order, and one at the head that may go.
    Head,
    /// To take a descriptor by its place: an open unit that doesn't take them in order, and one there that none before it
    /// bars.
    Unbarred,
    /// To drop an entry: that the unit keeps it.
    KeptEntry,
    /// To drop a translation: that the unit keeps it.
    KeptTranslation,
    /// To ask: the PASID, ATS and bus mastering on.
    On,
    /// To use: the same, and a held translation.
    Usable,
    /// To evict: a held translation.
    Held,
    /// To end a use: one that runs.
    Running,
    /// To complete an invalidation: one that has come, with no older use of what it covers.
    Covered,
    /// To pass a barrier: one that has come, and nothing older of its PASID that has to end.
    Drained,
    /// To quit a PASID: a stop that has come, and nothing of the PASID that has to end.
    Idle,
    /// To begin a group: the PASID and page requests on, and no Response Failure since.
    Enabled,
    /// To go on with a group: that it is unfinished, and no Response Failure since page requests came on.
    Unfinished,
}

/// What it needs, in words, behind those that say that it isn't permitted.
pub(crate) fn need_words(need: Need) -> &'static str
    ensures { result.now ≡ need_text need }
{
    match need {
        Need::Nothing => "",
        Need::Room => ": submit needs an open unit with room for all descriptors",
        Need::OpenUnit => ": close needs an open unit",
        Need::ClosedUnit => ": open needs a closed unit",
        Need::Descriptor => ": skip needs a descriptor in the queue",
        Need::Done => ": await needs the wait done",
        Need::Stopped => ": await needs an answer to the stop",
        Need::Passed => ": await needs each barrier passed",
        Need::EmptyQueue => ": await needs an empty page request queue",
        Need::NoneQueued => ": await needs no page request of the PASID in the queue",
        Need::Answered => ": await needs each whole group answered",
        Need::ResetsDone => ": await needs each reset done",
        Need::Quiet => ": await needs no translation request out and no use that runs",
        Need::Gone => ": await needs the endpoint gone, and nothing of it on its way up",
        Need::There => ": gone needs an endpoint that is there",
        Need::Unanswered =>
            ": expire needs timeouts, an open unit that can take no more, and that ITag out with no completion coming",
        Need::Received => ": write needs a page request that the unit has received",
        Need::Queued => ": serve needs a page request in the queue",
        Need::FreeLock => ": lock needs a free lock",
        Need::TakenLock => ": unlock needs a taken lock",
        Need::Deliverable =>
            ": deliver needs such a message in flight, behind none that it may not overtake",
        Need::Head =>
            ": pump without a place needs order queue, an open unit, and a descriptor at the head that may go",
        Need::Unbarred =>
            ": pump with a place needs order loose, an open unit, and a descriptor there that none before it bars",
        Need::KeptEntry => ": forget needs the entry kept by the unit",
        Need::KeptTranslation => ": forget needs the translation kept by the unit",
        Need::On => ": ask needs the PASID, ATS and bus mastering on at the endpoint",
        Need::Usable =>
            ": use needs the PASID, ATS and bus mastering on at the endpoint, and a held translation of the page",
        Need::Held => ": evict needs a held translation of the page",
        Need::Running => ": end needs a use that runs",
        Need::Covered =>
            ": finish needs an invalidation that has come, with no older use of what it covers",
        Need::Drained =>
            ": pass needs a barrier that has come, and nothing older of its PASID to end",
        Need::Idle =>
            ": quit needs a stop that has come, and no group, request or use of the PASID to end",
        Need::Enabled =>
            ": fault needs the PASID and page requests on at the endpoint, and no Response Failure since",
        Need::Unfinished =>
            ": fault needs that group of the PASID unfinished, and no Response Failure since page requests came on",
    }
}
