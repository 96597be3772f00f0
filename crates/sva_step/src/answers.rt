//! What a step answers, and the text of each answer.

ghost use Rattle.std.specs.Prelude.{◌≡◌, false, ◌++◌, decimal, OnOk, OnErr};
ghost use Rattle.sva_step.specs.Texts.{answer_text, is_of_host, has_host_number, has_number, frames_text, BeginsWith, TextsTellApart};

use crate::frame_list::FrameList;
use crate::pieces::{put, put_number, undo};
use std::alloc::AllocError;

/// What an accepted step answers: one variant for each text.
#[derive(Clone, Copy, Debug, PartialEq, Eq)]
pub enum Answer {
    /// `space S`: the new space.
    Space {
        /// The number of the space, below 2^63.
        space: u64,
    },
    /// `gone`: the space was taken away.
    Gone,
    /// `frame F`: the frame that the page leads to.
    Frame {
        /// The number of the frame, below the config's count (at most 4096).
        frame: u32,
    },
    /// `free F ..`: the frames that were taken out are free.
    FreeFrames {
        /// The numbers of 1 to 48 frames, by page.
        frames: FrameList,
    },
    /// `withheld F ..`: the frames that were taken out wait for an endpoint.
    WithheldFrames {
        /// The numbers of 1 to 48 frames, by page.
        frames: FrameList,
    },
    /// `range free N`: the frames that were taken out are free.
    RangeFree {
        /// How many frames: 1 to 512, one for each mapped page of the range.
        frames: u32,
    },
    /// `range withheld N`: the frames that were taken out wait for an endpoint.
    RangeWithheld {
        /// How many frames: 1 to 512, one for each mapped page of the range.
        frames: u32,
    },
    /// `binding B pasid P`: the new binding.
    Binding {
        /// The number of the binding, below 2^63.
        binding: u64,
        /// The PASID: 1 to 32 of its 20 bits (PCI Express Base 5.0, section 6.20).
        pasid: u32,
    },
    /// `stopping`: a Stop was sent, or has arrived.
    Stopping,
    /// `draining`: the binding waits for the page requests ahead.
    Draining,
    /// `invalidating`: the binding waits for its PASID's invalidation.
    Invalidating,
    /// `quiet`: the endpoint uses nothing of the binding any more.
    Quiet,
    /// `released`: the PASID is free.
    Released,
    /// `idle`: the invalidation queue is empty.
    Idle,
    /// `itag T`: an invalidation was sent under this ITag.
    Itag {
        /// The ITag, five bits: 0 to 31 (PCI Express Base 5.0, section 10.3.1).
        itag: u8,
    },
    /// `blocked`: the head of the invalidation queue can't be taken yet.
    Blocked,
    /// `wait done`: a wait descriptor was taken.
    WaitDone,
    /// `empty`: the page request queue is empty.
    Empty,
    /// `part`: a page request was filed, and its group isn't whole yet.
    Part,
    /// `job`: the last page request of a group was filed.
    Job,
    /// `resetting`: a function level reset was sent.
    Resetting,
    /// `job binding B group I pages N`: the job that the worker holds now, of N page requests.
    JobTaken {
        /// The number of the binding, below 2^63.
        binding: u64,
        /// The Page Request Group Index: 0 to 31 of its nine bits (PCI Express Base 5.0, section 10.4.1).
        group: u8,
        /// How many page requests the group has: 1 to 32.
        pages: u32,
    },
    /// `success K`: the group was answered Success, and K pages were newly mapped.
    Success {
        /// How many pages were newly mapped: 0 to 32.
        pages: u32,
    },
    /// `invalid`: the group was answered Invalid Request.
    Invalid,
    /// `failure`: the group was answered Response Failure.
    Failure,
    /// `dropped`: nobody waits for what came; nothing was sent or kept.
    Dropped,
    /// `tag T`: a translation request was sent under this tag.
    Tag {
        /// The request tag, 0 to 31.
        tag: u8,
    },
    /// `use U frame F`: a use of this frame began in this slot.
    Use {
        /// The use slot, 0 to 15 (a limit of this project).
        slot: u8,
        /// The number of the frame, below the config's count (at most 4096).
        frame: u32,
    },
    /// `ended`: the use has ended.
    Ended,
    /// `dead`: a reset had ended the use.
    Dead,
    /// `evicted`: the cached translation is gone.
    Evicted,
    /// `group I`: a page request was sent in this group.
    Group {
        /// The Page Request Group Index: 0 to 31 of its nine bits (PCI Express Base 5.0, section 10.4.1).
        group: u8,
    },
    /// `sent COUNT`: so many invalidation completions were sent.
    Sent {
        /// How many completions: 1 to 8 (PCI Express Base 5.0, section 10.3.2).
        count: u8,
    },
    /// `marker`: the Stop Marker was sent.
    Marker,
    /// `free`: the frame is free.
    Free,
    /// `mapped`: the frame is at a page of a space.
    Mapped,
    /// `withheld`: the frame waits for an endpoint.
    Withheld,
    /// `started`: the PASID is on at the endpoint.
    Started,
    /// `reset`: the endpoint has reset itself.
    Reset,
    /// `none`: the completion had no translation.
    NoTranslation,
    /// `full`: the cache is full, and the translation wasn't kept.
    Full,
    /// `held`: the translation is cached.
    Held,
    /// `taken`: the endpoint has taken the invalidation.
    Taken,
    /// `answered`: the endpoint's group is answered.
    Answered,
    /// `stale`: the answer came to a group of a PASID that was quit.
    Stale,
    /// `completion`: a translation completion was sent.
    Completion,
    /// `freed K`: K invalidations were completed.
    Freed {
        /// How many invalidations: 0 to 32, one for each ITag of the vector at most.
        count: u8,
    },
    /// `queued`: the page request is in the unit's queue.
    Queued,
    /// `marked`: the binding's Stop Marker was noted.
    Marked,
    /// `reset done`: the unit is open again.
    ResetDone,
    /// `bearer S bindings N`: the space that bears the PASID.
    Bearer {
        /// The number of the space, below 2^63.
        space: u64,
        /// How many unreleased bindings it has, at all endpoints: 1 to 8.
        bindings: u32,
    },
    /// `bearer none`: no space bears the PASID.
    NoBearer,
}

impl Answer {
    /// Appends the answer's text, with no line end: words and decimal numbers with single spaces between them. Where
    /// memory is refused, the items stay as they were.
    pub fn write(&self, out: &mut Vec<u8>) -> Result<(), AllocError>
        ensures ok { OnOk result (out.new.items ≡ out.old.items ++ answer_text self.now) }
        ensures err { OnErr result (out.new.items ≡ out.old.items) }
    {
        let before = out.len();
        let written = self.append(out);
        undo(out, before, written)
    }

    /// As `write`, but an `Err` leaves what was appended before it.
    fn append(&self, out: &mut Vec<u8>) -> Result<(), AllocError>
        ensures ok { OnOk result (out.new.items ≡ out.old.items ++ answer_text self.now) }
        ensures err { OnErr result (BeginsWith out.new.items out.old.items) }
    {
        match self {
            Answer::Space { space } => put_number(out, "space ", *space),
            Answer::Frame { frame } => put_number(out, "frame ", u64::from(*frame)),
            Answer::FreeFrames { frames } => put_frames(out, "free", frames),
            Answer::WithheldFrames { frames } => put_frames(out, "withheld", frames),
            Answer::RangeFree { frames } => put_number(out, "range free ", u64::from(*frames)),
            Answer::RangeWithheld { frames } => put_number(
                out,
                "range withheld ",
                u64::from(*frames),
            ),
            Answer::Binding { binding, pasid } => put_two(
                out,
                "binding ",
                *binding,
                " pasid ",
                u64::from(*pasid),
            ),
            Answer::Itag { itag } => put_number(out, "itag ", u64::from(*itag)),
            Answer::JobTaken {
                binding,
                group,
                pages,
            } => put_job(out, *binding, *group, *pages),
            Answer::Success { pages } => put_number(out, "success ", u64::from(*pages)),
            _ => self.append_endpoint(out),
        }
    }

    /// As `append`, for the answers of endpoints, of the link and of `bearer` that have numbers, and for those of words alone.
    fn append_endpoint(&self, out: &mut Vec<u8>) -> Result<(), AllocError>
        requires { has_host_number self.now ≡ false }
        ensures ok { OnOk result (out.new.items ≡ out.old.items ++ answer_text self.now) }
        ensures err { OnErr result (BeginsWith out.new.items out.old.items) }
    {
        match self {
            Answer::Tag { tag } => put_number(out, "tag ", u64::from(*tag)),
            Answer::Use { slot, frame } => put_two(
                out,
                "use ",
                u64::from(*slot),
                " frame ",
                u64::from(*frame),
            ),
            Answer::Group { group } => put_number(out, "group ", u64::from(*group)),
            Answer::Sent { count } => put_number(out, "sent ", u64::from(*count)),
            Answer::Freed { count } => put_number(out, "freed ", u64::from(*count)),
            Answer::Bearer { space, bindings } => put_two(
                out,
                "bearer ",
                *space,
                " bindings ",
                u64::from(*bindings),
            ),
            _ => put(out, self.words()),
        }
    }

    /// The text of an answer that has no number.
    fn words(&self) -> &'static str
        requires { has_number self.now ≡ false }
        ensures { result.now ≡ answer_text self.now }
    {
        match self {
            Answer::Gone => "gone",
            Answer::Stopping => "stopping",
            Answer::Draining => "draining",
            Answer::Invalidating => "invalidating",
            Answer::Quiet => "quiet",
            Answer::Released => "released",
            Answer::Idle => "idle",
            Answer::Blocked => "blocked",
            Answer::WaitDone => "wait done",
            Answer::Empty => "empty",
            Answer::Part => "part",
            Answer::Job => "job",
            Answer::Resetting => "resetting",
            Answer::Invalid => "invalid",
            Answer::Failure => "failure",
            Answer::Dropped => "dropped",
            _ => self.endpoint_words(),
        }
    }

    /// As `words`, for the answers of endpoints, of the link, of `look` and of `bearer`.
    fn endpoint_words(&self) -> &'static str
        requires no_number { has_number self.now ≡ false }
        requires not_of_host { is_of_host self.now ≡ false }
        ensures { result.now ≡ answer_text self.now }
    {
        match self {
            Answer::Ended => "ended",
            Answer::Dead => "dead",
            Answer::Evicted => "evicted",
            Answer::Marker => "marker",
            Answer::Free => "free",
            Answer::Mapped => "mapped",
            Answer::Withheld => "withheld",
            Answer::Started => "started",
            Answer::Reset => "reset",
            Answer::NoTranslation => "none",
            Answer::Full => "full",
            Answer::Held => "held",
            Answer::Taken => "taken",
            Answer::Answered => "answered",
            Answer::Stale => "stale",
            Answer::Completion => "completion",
            Answer::Queued => "queued",
            Answer::Marked => "marked",
            Answer::ResetDone => "reset done",
            Answer::NoBearer => "bearer none",
            _ => unreachable!(),
        }
    }
}

/// Appends the words and the numbers of the frames, a space before each.
#[tactic(auto, using(crate::proofs::TextLemmas::begins_with_front))]
fn put_frames(out: &mut Vec<u8>, words: &str, frames: &FrameList) -> Result<(), AllocError>
    ensures ok { OnOk result (out.new.items ≡ out.old.items ++ (words.now ++ frames_text frames.now)) }
    ensures err { OnErr result (BeginsWith out.new.items out.old.items) }
{
    put(out, words)?;
    for frame in frames.as_slice() {
        put_number(out, " ", u64::from(*frame))?;
    }
    Ok(())
}

/// Appends two numbers, each behind its words.
fn put_two(
    out: &mut Vec<u8>,
    first: &str,
    number: u64,
    second: &str,
    other: u64,
) -> Result<(), AllocError>
    ensures ok { OnOk result (out.new.items ≡
        out.old.items ++ (first.now ++ decimal number ++ second.now ++ decimal other)) }
    ensures err { OnErr result (BeginsWith out.new.items out.old.items) }
{
    put_number(out, first, number)?;
    put_number(out, second, other)
}

/// Appends the text of a job that a worker has taken.
fn put_job(out: &mut Vec<u8>, binding: u64, group: u8, pages: u32) -> Result<(), AllocError>
    ensures ok { OnOk result
        (out.new.items ≡ out.old.items ++ answer_text (Answer.JobTaken binding group pages)) }
    ensures err { OnErr result (BeginsWith out.new.items out.old.items) }
{
    put_number(out, "job binding ", binding)?;
    put_number(out, " group ", u64::from(group))?;
    put_number(out, " pages ", u64::from(pages))
}

/// A line of a report tells which answer it is, the frames of an `Unmap` being one or more, and that it is no refusal.
pub fn texts_tell_apart()
    ensures { TextsTellApart }
{}
