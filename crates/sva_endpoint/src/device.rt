//! The endpoint, and each of its steps.

ghost use Rattle.std.specs.Prelude.{◌≡◌, IsOk, IfOk};
ghost use Rattle.sva_endpoint.specs.Tables.{fresh};
ghost use Rattle.sva_endpoint.specs.Steps.{asking, MayAsk, after_ask, using, MayBeginUse, after_begin_use};
ghost use Rattle.sva_endpoint.specs.Steps.{ending, after_end_use, evicting, after_evict};
ghost use Rattle.sva_endpoint.specs.Steps.{may_send, faulting, MayFault, fault_of, after_fault};
ghost use Rattle.sva_endpoint.specs.Steps.{finishing, MayFinish, after_finish, quitting, MayQuit, after_quit};
ghost use Rattle.sva_endpoint.specs.Deliveries.{answer_to, after_receive, answer_to_completion, after_completion, after_invalidate};
ghost use Rattle.sva_endpoint.specs.Deliveries.{answer_to_response, after_response};
ghost use Rattle.sva_endpoint.specs.RequestTags.{request_at};
ghost use Rattle.sva_endpoint.specs.Groups.{group_at};

use crate::cached::{Cache, Translation};
use crate::coverage::Invalidation;
use crate::groups::{GroupPlace, GroupTable};
use crate::pasid_states::{PasidState, PasidStates};
use crate::permitted::{Asking, Fault, Faulting, Finishing, Quitting, Received, Using};
use crate::request_tags::{RequestTag, RequestTags};
use crate::taken_table::{Taken, TakenTable};
use crate::use_slots::{Use, UseSlot, UseSlots};
use std::marker::Model;
use sva_itags::Count;
use sva_msg::{Code, Extent, Kind, Message, PageRequest};
use sva_step::{Answer, MOST_COMPLETIONS, PAGE_REQUESTS, PAGES, Refusal};

/// An endpoint with address translation services, page requests and PASIDs (PCI Express Base 5.0, sections 10.2 to
/// 10.5). It is seen as its tables, by labels. No call takes memory. Each step has a test, which changes nothing and
/// gives the first refusal that holds, or what the step takes: its label and its message. The step's condition is that
/// the test would give the same still, so that nothing is searched twice. That an answer to a request that an
/// invalidation covered is thrown away, and that a completion waits for the uses that the invalidation covered, are this
/// project's own rules.
#[derive(Drop)]
pub struct Endpoint {
    pub(crate) pasids: PasidStates,
    pub(crate) cache: Cache,
    pub(crate) tags: RequestTags,
    pub(crate) uses: UseSlots,
    pub(crate) taken: TakenTable,
    pub(crate) groups: GroupTable,
    pub(crate) enabled: bool,
}

impl Model for Endpoint {
    ghost use Rattle.std.specs.Coded.{codes};
    ghost use Rattle.sva_endpoint.specs.Cache.{translations_code};
    ghost use Rattle.sva_endpoint.specs.Tables.{Tables};

    ghost Value = { Tables };

    ghost coded = { Prim.hlevel (codes, translations_code) };

    ghost view = { λ endpoint. record {
      pasids = endpoint.pasids;
      cache = endpoint.cache;
      tags = endpoint.tags;
      uses = endpoint.uses;
      taken = endpoint.taken;
      groups = endpoint.groups;
      enabled = endpoint.enabled;
    } };
}

impl Endpoint {
    /// An endpoint that does nothing yet: every PASID is off.
    pub fn new() -> Self
        ensures { result ≡ fresh }
    {
        Endpoint {
            pasids: PasidStates::new(),
            cache: Cache::new(),
            tags: RequestTags::new(),
            uses: UseSlots::new(),
            taken: TakenTable::new(),
            groups: GroupTable::new(),
            enabled: true,
        }
    }

    /// Tells whether this page may be asked for under this PASID (PCI Express Base 5.0, section 10.2.2): the request, or
    /// `PageRange` for a page from 2^36 on, `NotStarted` for a PASID that isn't on (one outside 1 to 32 never is), or
    /// `NoTag` where 32 requests are out.
    pub fn may_ask(&self, pasid: u64, page: u64) -> Result<Asking, Refusal>
        ensures answer { result ≡ asking self.now pasid page }
        ensures may { IfOk result (MayAsk self.now) }
    {
        if page >= PAGES {
            return Err(Refusal::PageRange);
        }
        if !self.pasids.state_of(pasid).is_on() {
            return Err(Refusal::NotStarted);
        }
        let Some(tag) = self.tags.lowest_free() else {
            return Err(Refusal::NoTag);
        };
        Ok(Asking {
            tag,
            pasid: self.pasids.label(pasid),
            page,
        })
    }

    /// Asks for a translation, by the request that the test gave: its tag is taken.
    pub fn ask(&mut self, permitted: Asking)
        requires { MayAsk self.old permitted }
        ensures { self.new ≡ after_ask self.old permitted.pasid permitted.page }
    {
        let Asking { tag, pasid, page } = permitted;
        self.tags.take(tag, pasid, page);
    }

    /// Tells whether the cached translation of this page may be used, to write or only to read (PCI Express Base 5.0,
    /// section 10.2.3): the use, with the slot and the frame, or `PageRange` for a page from 2^36 on, `NotStarted` for a
    /// PASID that isn't on (one outside 1 to 32 never is), `NotHeld` where no translation is cached, `ReadOnly` where it
    /// doesn't allow writing that is asked, or `NoUseSlot` where 16 slots are taken.
    pub fn may_begin_use(&self, pasid: u64, page: u64, write: bool) -> Result<Using, Refusal>
        ensures answer { result ≡ using self.now pasid page write }
        ensures may { IfOk result (MayBeginUse self.now) }
    {
        if page >= PAGES {
            return Err(Refusal::PageRange);
        }
        if !self.pasids.state_of(pasid).is_on() {
            return Err(Refusal::NotStarted);
        }
        let Some(translation) = self.cache.get(pasid, page) else {
            return Err(Refusal::NotHeld);
        };
        if write && !translation.write {
            return Err(Refusal::ReadOnly);
        }
        let Some(slot) = self.uses.lowest_free() else {
            return Err(Refusal::NoUseSlot);
        };
        Ok(Using {
            slot,
            begun: Use {
                pasid: self.pasids.label(pasid),
                page,
                frame: translation.frame,
                write: translation.write,
            },
        })
    }

    /// Begins the use that the test gave, in its slot.
    pub fn begin_use(&mut self, permitted: Using)
        requires { MayBeginUse self.old permitted }
        ensures { self.new ≡ after_begin_use self.old permitted.begun.pasid permitted.begun.page }
    {
        self.uses.begin(permitted.slot, permitted.begun);
    }

    /// Tells whether the slot is taken: `Ended` for a use that runs, `Dead` for one that a reset ended (this project's own
    /// rule), or `NoSuchUse` for a free slot; one from 16 on is free.
    pub fn may_end_use(&self, slot: u64) -> Result<Answer, Refusal>
        ensures { result ≡ ending self.now slot }
    {
        match self.uses.at(slot) {
            UseSlot::Free => Err(Refusal::NoSuchUse),
            UseSlot::Running(_) => Ok(Answer::Ended),
            UseSlot::Dead => Ok(Answer::Dead),
        }
    }

    /// Ends the use in this slot, 0 to 15, which is free then. No invalidation waits for it any more.
    pub fn end_use(&mut self, slot: u64)
        requires { IsOk (ending self.old slot) }
        ensures { self.new ≡ after_end_use self.old slot }
    {
        self.uses.free(slot);
        self.taken.forget(slot);
    }

    /// Tells whether a translation of this page is cached, whatever its PASID's state; else it gives `PageRange` for a page
    /// from 2^36 on, or `NotHeld` (and so for a PASID outside 1 to 32).
    pub fn may_evict(&self, pasid: u64, page: u64) -> Result<(), Refusal>
        ensures { result ≡ evicting self.now pasid page }
    {
        if page >= PAGES {
            return Err(Refusal::PageRange);
        }
        if self.cache.get(pasid, page).is_none() {
            return Err(Refusal::NotHeld);
        }
        Ok(())
    }

    /// Lets go of the cached translation of this page (PCI Express Base 5.0, section 10.1).
    pub fn evict(&mut self, pasid: u64, page: u64)
        requires { IsOk (evicting self.old pasid page) }
        ensures { self.new ≡ after_evict self.old pasid page }
    {
        self.cache.remove(pasid, page);
    }

    /// Tells whether this page request may be sent (PCI Express Base 5.0, section 10.4.1): the request, or `PageRange` for a
    /// page from 2^36 on; `NotStarted` for a new group where the PASID isn't on, and for one that goes on where it is off
    /// (one outside 1 to 32 is off); `NoCredit` where 32 page requests are outstanding (section 10.5.2); `NoSuchGroup`
    /// where no unfinished group of the PASID has the index; or `PriDisabled` after a response failure.
    pub fn may_fault(&self, fault: &Fault) -> Result<Faulting, Refusal>
        ensures answer { result ≡ faulting self.now fault.now }
        ensures may { IfOk result (MayFault self.now) }
    {
        if fault.page >= PAGES {
            return Err(Refusal::PageRange);
        }
        if !may_send(fault.group, self.pasids.state_of(fault.pasid)) {
            return Err(Refusal::NotStarted);
        }
        if self.groups.outstanding() as usize >= PAGE_REQUESTS {
            return Err(Refusal::NoCredit);
        }
        let index = match fault.group {
            None => self.groups.lowest_free(),
            Some(index) => match self.groups.unfinished(index, fault.pasid) {
                Some(index) => index,
                None => return Err(Refusal::NoSuchGroup),
            },
        };
        if !self.enabled {
            return Err(Refusal::PriDisabled);
        }
        Ok(Faulting {
            begins: fault.group.is_none(),
            request: fault.request(self.pasids.label(fault.pasid), index),
        })
    }

    /// Sends the page request that the test gave: it begins a group, or goes on with one.
    pub fn fault(&mut self, permitted: Faulting)
        requires { MayFault self.old permitted }
        ensures { self.new ≡ after_fault self.old (fault_of permitted) }
    {
        let PageRequest {
            pasid,
            index,
            last,
            ..
        } = permitted.request;
        if permitted.begins {
            self.groups.begin(index, pasid, last);
        } else {
            self.groups.extend(index, last);
        }
    }

    /// Tells whether the invalidations that the vector names, bit T for ITag T, may be completed, by so many completions
    /// (PCI Express Base 5.0, section 10.3.2): these, or `NotPending` for a vector of no bit, or of one whose ITag has no
    /// invalidation; `InUse` where one of them waits for a use that it noted (this project's own rule); or `BadCount` for a
    /// count that isn't 1 to 8.
    pub fn may_finish(&self, vector: u32, count: u64) -> Result<Finishing, Refusal>
        ensures answer { result ≡ finishing self.now vector count }
        ensures may { IfOk result (MayFinish self.now) }
    {
        if vector == 0 || !self.taken.are_pending(vector) {
            return Err(Refusal::NotPending);
        }
        if self.taken.is_one_waiting(vector) {
            return Err(Refusal::InUse);
        }
        if count == 0 || count > MOST_COMPLETIONS {
            return Err(Refusal::BadCount);
        }
        let count = Count::new(count as u8);
        Ok(Finishing { vector, count })
    }

    /// Completes the invalidations that the test's vector names. What is left doesn't depend on how many completions
    /// are sent.
    pub fn finish(&mut self, permitted: Finishing)
        requires { MayFinish self.old permitted }
        ensures { self.new ≡ after_finish self.old permitted.vector }
    {
        self.taken.complete(permitted.vector);
    }

    /// Tells whether this PASID may be quit: the Stop Marker (PCI Express Base 5.0, section 10.4.1), or `NotStopping` for
    /// one that isn't stopping (one outside 1 to 32 never is), or `Busy` where a group of it is unfinished, a request of it
    /// is out, doomed or not, or a use of it runs.
    pub fn may_quit(&self, pasid: u64) -> Result<Quitting, Refusal>
        ensures answer { result ≡ quitting self.now pasid }
        ensures may { IfOk result (MayQuit self.now) }
    {
        if !self.pasids.state_of(pasid).is_stopping() {
            return Err(Refusal::NotStopping);
        }
        if self.groups.is_collecting(pasid)
            || self.tags.asks_under(pasid)
            || self.uses.runs_under(pasid)
        {
            return Err(Refusal::Busy);
        }
        Ok(Quitting {
            pasid: self.pasids.label(pasid),
        })
    }

    /// Stops using the PASID that the test gave, which is off then. Its groups that are out become stale: they keep their
    /// indexes and their requests until their responses come (PCI Express Base 5.0, sections 6.20 and 10.4.1; that they keep
    /// their indexes is this project's own rule).
    pub fn quit(&mut self, permitted: Quitting)
        requires { MayQuit self.old permitted }
        ensures { self.new ≡ after_quit self.old permitted.pasid }
    {
        self.pasids.set(permitted.pasid, PasidState::Off);
        self.groups.make_stale(permitted.pasid);
    }

    /// Takes a message from the host, and answers what came of it. Whose message it is was looked at before. By kind, with
    /// the sections of PCI Express Base 5.0:
    ///
    /// - Start: the PASID is on, `Started`; one outside 1 to 32 stays off. Stop: it is stopping, `Stopping`. (Both are this
    ///   project's own messages, 6.20.)
    /// - Reset (6.6.2): all is as at first, and the page request interface is enabled, but each use that runs is dead and
    ///   keeps its slot, as the dead ones do (this project's own rule). `Reset`.
    /// - Completion (10.2.3): the request's tag is free. `Dropped` for a tag that no request has or whose request is
    ///   doomed, since the answer to a doomed one is thrown away (this project's own rule); `NoTranslation` with R clear;
    ///   `Full` where 64 translations of other pages are cached, which stay, and the new one isn't kept (this project's
    ///   own rule); else the translation is cached in place of one of its page, `Held`.
    /// - Invalidate (10.3.1): of its PASID it covers the range of its code, or all pages (for all, too, stands a code of no
    ///   range, which this host never sends: this project's own rule). What it covers is no more cached; each request out
    ///   that it covers is doomed; the uses running that it covers are noted, and it waits for these (this project's own
    ///   rules). `Taken`.
    /// - Response (10.4.2): the group's index and its requests are free, `Answered`, or `Stale` for a stale group. A
    ///   response failure, 1111b, disables the page request interface until a reset.
    /// - Any other isn't sent to an endpoint and changes nothing. `Dropped`.
    pub fn receive(&mut self, message: Message) -> Received
        ensures answer { result.answer ≡ answer_to self.old message.kind }
        ensures after { self.new ≡ after_receive self.old message.kind }
    {
        let answer = self.take(message.kind);
        Received { answer }
    }

    fn take(&mut self, kind: Kind) -> Answer
        ensures answer { result ≡ answer_to self.old kind }
        ensures after { self.new ≡ after_receive self.old kind }
    {
        match kind {
            Kind::Start { pasid } => self.start(pasid),
            Kind::Stop { pasid } => self.stop(pasid),
            Kind::Reset => self.reset(),
            Kind::Completion {
                tag,
                frame,
                read,
                write,
            } => self.complete(tag, read, Translation { frame, write }),
            Kind::Invalidate { itag, pasid, scope } => self.invalidate(
                itag,
                Invalidation {
                    pasid,
                    extent: Extent::of(scope),
                },
            ),
            Kind::Response { index, code, .. } => self.respond(index, code),
            Kind::Request { .. } => Answer::Dropped,
            Kind::Invalidated { .. } => Answer::Dropped,
            Kind::PageRequest(_) => Answer::Dropped,
            Kind::Marker { .. } => Answer::Dropped,
            Kind::ResetDone => Answer::Dropped,
        }
    }

    fn start(&mut self, pasid: u32) -> Answer
        ensures answer { result ≡ Answer.Started }
        ensures after { self.new ≡ after_receive self.old (Kind.Start pasid) }
    {
        self.pasids.set(pasid, PasidState::On);
        Answer::Started
    }

    fn stop(&mut self, pasid: u32) -> Answer
        ensures answer { result ≡ Answer.Stopping }
        ensures after { self.new ≡ after_receive self.old (Kind.Stop pasid) }
    {
        self.pasids.set(pasid, PasidState::Stopping);
        Answer::Stopping
    }

    /// Clears everything but the slots of uses: those that run are dead from now on.
    fn reset(&mut self) -> Answer
        ensures answer { result ≡ Answer.Reset }
        ensures after { self.new ≡ after_receive self.old Kind.Reset }
    {
        self.pasids = PasidStates::new();
        self.cache = Cache::new();
        self.tags = RequestTags::new();
        self.uses.cut_off();
        self.taken = TakenTable::new();
        self.groups = GroupTable::new();
        self.enabled = true;
        Answer::Reset
    }

    /// The answer to a translation request comes. `read` clear tells that there is no translation.
    fn complete(&mut self, tag: u8, read: bool, translation: Translation) -> Answer
        ensures answer { result ≡ answer_to_completion self.old.cache read (request_at self.old.tags tag) }
        ensures after { self.new ≡ after_completion self.old tag translation.frame read translation.write }
    {
        match self.tags.free(tag) {
            RequestTag::Free | RequestTag::Doomed { .. } => Answer::Dropped,
            RequestTag::Out { .. } if !read => Answer::NoTranslation,
            RequestTag::Out { pasid, page } => {
                if !self.cache.has_room_for(u64::from(pasid), page) {
                    return Answer::Full;
                }
                self.cache.insert(pasid, page, translation);
                Answer::Held
            }
        }
    }

    fn invalidate(&mut self, itag: u8, invalidation: Invalidation) -> Answer
        ensures answer { result ≡ Answer.Taken }
        ensures after { self.new ≡ after_invalidate self.old itag invalidation }
    {
        self.cache.remove_covered(&invalidation);
        self.tags.doom(&invalidation);
        let noted = self.uses.covered(&invalidation);
        self.taken.take(
            itag,
            Taken {
                invalidation,
                noted,
            },
        );
        Answer::Taken
    }

    fn respond(&mut self, index: u8, code: Code) -> Answer
        ensures answer { result ≡ answer_to_response (group_at self.old.groups index) }
        ensures after { self.new ≡ after_response self.old index code }
    {
        if matches!(code, Code::ResponseFailure) {
            self.enabled = false;
        }
        match self.groups.free(index) {
            GroupPlace::Stale { .. } => Answer::Stale,
            GroupPlace::Free | GroupPlace::Collecting { .. } | GroupPlace::Out { .. } =>
                Answer::Answered,
        }
    }
}

/// Does the state of its PASID allow a request of this group?
fn may_send(group: Option<u64>, state: PasidState) -> bool
    ensures { result ≡ may_send group state }
{
    match group {
        None => state.is_on(),
        Some(_) => !state.is_off(),
    }
}
