//! What is wrong at a moment.

ghost use Rattle.std.specs.Prelude.{◌≡◌, IsTrue};

/// What leads to a frame, or is there of a PASID.
#[derive(Clone, Copy, PartialEq, Eq)]
pub enum Thing {
    Held,
    Running,
    Completion,
    Request,
    Start,
    Stop,
    PageRequest,
    Received,
    Queued,
    Marker,
    Status,
    Answer,
    Entry,
    KeptEntry,
    Kept,
    Filed,
}

/// What is wrong.
#[derive(Clone, Copy, PartialEq, Eq)]
pub enum Wrong {
    /// A frame that has another owner may still be used.
    Freed {
        endpoint: usize,
        frame: usize,
        thing: Thing,
        page: u64,
        pasid: usize,
    },
    /// A frame that was frozen may still be written.
    Frozen {
        endpoint: usize,
        frame: usize,
        thing: Thing,
        page: u64,
        pasid: usize,
    },
    /// Something is there of an earlier owner of a PASID.
    Left {
        endpoint: usize,
        thing: Thing,
        pasid: usize,
    },
    /// An endpoint goes on under a PASID for an earlier owner.
    Goes {
        endpoint: usize,
        pasid: usize,
    },
    /// A table whose memory has another owner may still be walked.
    Walks {
        endpoint: usize,
        space: u64,
        kept: bool,
        pasid: usize,
    },
    /// A worker may still serve a group by a space whose domain was freed.
    Serves {
        endpoint: usize,
        space: u64,
        pasid: usize,
    },
    /// A response finds no group.
    NoGroup {
        endpoint: usize,
        index: usize,
    },
    /// A response finds another group.
    OtherGroup {
        endpoint: usize,
        index: usize,
    },
    /// A response finds its group unfinished.
    Unfinished {
        endpoint: usize,
        index: usize,
    },
    /// A page request would join another group.
    Joins {
        endpoint: usize,
        pasid: usize,
        index: usize,
    },
    /// A completion would be taken for the answer to another request.
    OtherRequest {
        endpoint: usize,
        tag: usize,
    },
}

/// Whether the same is wrong.
pub fn is_same_wrong(one: Wrong, other: Wrong) -> bool
    ensures same { IsTrue result → one ≡ other }
    ensures always { one ≡ other → IsTrue result }
{
    one == other
}

/// In which order what is wrong is looked for.
#[derive(Clone, Copy, PartialEq, Eq)]
pub enum Sort {
    Freed,
    Frozen,
    Left,
    Goes,
    Walks,
    Responses,
    Joins,
    Requests,
}
