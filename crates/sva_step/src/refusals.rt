//! Why a step is refused, and the text of each refusal.

ghost use Rattle.std.specs.Prelude.{◌≡◌, false, ◌++◌, OnOk, OnErr};
ghost use Rattle.sva_step.specs.Refusals.{number_of, name_of, is_of_call, refusal_text, TellApart};
ghost use Rattle.sva_step.specs.Texts.{BeginsWith};

use crate::pieces::{put, put_number, undo};
use std::alloc::AllocError;

/// Why a step was refused. A refused step changes nothing.
#[derive(Clone, Copy, Debug, PartialEq, Eq)]
pub enum Refusal {
    /// A count of the config is out of its limits, or `first` is above 2^63.
    BadConfig,
    /// The endpoint's number is not below the number of endpoints.
    NoSuchEndpoint,
    /// No live space has this number.
    NoSuchSpace,
    /// 64 spaces are live.
    TooManySpaces,
    /// A page of the step is 2^36 or more.
    PageRange,
    /// The page is mapped.
    Mapped,
    /// One of the pages isn't mapped.
    NotMapped,
    /// No frame is free, fewer frames are free than pages are to be mapped, or there is no frame of this number.
    NoFrame,
    /// The space would have more than 1024 pages.
    SpaceFull,
    /// The space has an unreleased binding at this endpoint.
    AlreadyBound,
    /// The space bears no PASID, and other spaces bear all 32.
    NoPasid,
    /// The space has an unreleased binding.
    StillBound,
    /// No unreleased binding has this number.
    NoSuchBinding,
    /// The binding is neither Live nor Lost.
    NotLive,
    /// What the binding's stage needs isn't there.
    NotYet,
    /// At a unit the descriptors don't fit into the 64 places of its invalidation queue.
    QueueFull,
    /// The unit is in reset.
    Resetting,
    /// The PASID's state at the endpoint doesn't allow the step.
    NotStarted,
    /// The 32 request tags are taken.
    NoTag,
    /// There is no cached translation of this PASID and page.
    NotHeld,
    /// A write use of a translation that doesn't allow writing.
    ReadOnly,
    /// The 16 use slots are taken.
    NoUseSlot,
    /// The use slot isn't taken.
    NoSuchUse,
    /// 32 page requests are outstanding at the endpoint.
    NoCredit,
    /// The index isn't that of an unfinished group of this PASID.
    NoSuchGroup,
    /// The page request interface is disabled.
    PriDisabled,
    /// The vector is 0, or names a tag without a taken, unfinished invalidation.
    NotPending,
    /// A running use that a named invalidation noted hasn't ended.
    InUse,
    /// The count is not one of 1 to 8 (completions) or 1 to 48 (pages).
    BadCount,
    /// The PASID isn't stopping at the endpoint.
    NotStopping,
    /// An unfinished group, a request tag out or a running use of this PASID.
    Busy,
    /// No message in flight has this number.
    NoSuchMessage,
    /// The permitted order of the link forbids the delivery now.
    Overtakes,
    /// The worker's number is not below the number of workers.
    NoSuchWorker,
    /// The worker holds a job.
    HandsFull,
    /// No job is queued, or the worker holds none.
    NoJob,
    /// `success`, and the group asks to write a page that is mapped read-only.
    BadVerdict,
    /// Fewer numbers are left below 2^63 than the step needs.
    NumbersSpent,
    /// A growth of this step was refused.
    OutOfMemory,
    /// The order of the range is above 9.
    BadOrder,
    /// The first page isn't a multiple of the range's size.
    NotAligned,
    /// No page of the range is mapped.
    NothingMapped,
    /// The PASID is not one of 1 to 32.
    BadPasid,
}

impl Refusal {
    /// The number that a report shows, 1 to 43.
    pub fn number(self) -> u8
        ensures { result ≡ number_of self }
    {
        self as u8 + 1
    }

    /// The name that a report shows.
    pub fn name(self) -> &'static str
        ensures { result.now ≡ name_of self }
    {
        match self {
            Refusal::BadConfig => "BadConfig",
            Refusal::NoSuchEndpoint => "NoSuchEndpoint",
            Refusal::NoSuchSpace => "NoSuchSpace",
            Refusal::TooManySpaces => "TooManySpaces",
            Refusal::PageRange => "PageRange",
            Refusal::Mapped => "Mapped",
            Refusal::NotMapped => "NotMapped",
            Refusal::NoFrame => "NoFrame",
            Refusal::SpaceFull => "SpaceFull",
            Refusal::AlreadyBound => "AlreadyBound",
            Refusal::NoPasid => "NoPasid",
            Refusal::StillBound => "StillBound",
            Refusal::NoSuchBinding => "NoSuchBinding",
            Refusal::NotLive => "NotLive",
            Refusal::NotYet => "NotYet",
            Refusal::QueueFull => "QueueFull",
            Refusal::Resetting => "Resetting",
            Refusal::BadOrder => "BadOrder",
            Refusal::NotAligned => "NotAligned",
            Refusal::NothingMapped => "NothingMapped",
            Refusal::BadPasid => "BadPasid",
            _ => self.endpoint_name(),
        }
    }

    /// As `name`, for the refusals of endpoints, of the link and of workers, and of a step that finds no number or no
    /// memory.
    fn endpoint_name(self) -> &'static str
        requires { is_of_call self ≡ false }
        ensures { result.now ≡ name_of self }
    {
        match self {
            Refusal::NotStarted => "NotStarted",
            Refusal::NoTag => "NoTag",
            Refusal::NotHeld => "NotHeld",
            Refusal::ReadOnly => "ReadOnly",
            Refusal::NoUseSlot => "NoUseSlot",
            Refusal::NoSuchUse => "NoSuchUse",
            Refusal::NoCredit => "NoCredit",
            Refusal::NoSuchGroup => "NoSuchGroup",
            Refusal::PriDisabled => "PriDisabled",
            Refusal::NotPending => "NotPending",
            Refusal::InUse => "InUse",
            Refusal::BadCount => "BadCount",
            Refusal::NotStopping => "NotStopping",
            Refusal::Busy => "Busy",
            Refusal::NoSuchMessage => "NoSuchMessage",
            Refusal::Overtakes => "Overtakes",
            Refusal::NoSuchWorker => "NoSuchWorker",
            Refusal::HandsFull => "HandsFull",
            Refusal::NoJob => "NoJob",
            Refusal::BadVerdict => "BadVerdict",
            Refusal::NumbersSpent => "NumbersSpent",
            Refusal::OutOfMemory => "OutOfMemory",
            _ => unreachable!(),
        }
    }

    /// Appends `refused N Name`, with no line end. Where memory is refused, the items stay as they were.
    pub fn write(&self, out: &mut Vec<u8>) -> Result<(), AllocError>
        ensures ok { OnOk result (out.new.items ≡ out.old.items ++ refusal_text self.now) }
        ensures err { OnErr result (out.new.items ≡ out.old.items) }
    {
        let before = out.len();
        let written = self.append(out);
        undo(out, before, written)
    }

    /// As `write`, but an `Err` leaves what was appended before it.
    fn append(&self, out: &mut Vec<u8>) -> Result<(), AllocError>
        ensures ok { OnOk result (out.new.items ≡ out.old.items ++ refusal_text self.now) }
        ensures err { OnErr result (BeginsWith out.new.items out.old.items) }
    {
        put_number(out, "refused ", u64::from(self.number()))?;
        put(out, " ")?;
        put(out, self.name())
    }
}

/// The numbers are 1 to 43, and no two refusals have one number or one name.
pub fn refusals_tell_apart()
    ensures { TellApart }
{}
