//! What is wrong with a line of a driver.

ghost use Rattle.std.specs.Prelude.{◌≡◌, ◌++◌, ◌∷◌, [], OnOk, Some, codes, decimal, map, option_map};
ghost use Rattle.std.specs.Prelude.{slice_get};
ghost use Rattle.sva_driver_words.specs.Faults.{branch_text, fault_text, hint_text, no_more, submit_text};
ghost use Rattle.sva_driver_words.specs.Faults.{wanted_text, where_text};

use crate::nears::near;
use crate::needs::{Need, need_words};
use crate::written::{WrittenWanted, written_words};
use std::alloc::AllocError;
use sva_race_texts::{RaceWanted, count_of, put_near, put_number, put_word, word_in};
use sva_script::{Names, Wanted};

/// What was wanted where a line that submits descriptors is wrong.
#[derive(Clone, Copy)]
pub enum SubmitWanted {
    /// No more than the queue has places for.
    Few,
    /// The next descriptor, or no further word.
    PlusOrEnd,
    /// Another endpoint behind `of`, the next descriptor, or no further word.
    OfOrPlus,
    /// The number of a page, another endpoint behind `of`, or the next descriptor.
    PageOrPlus,
    /// An endpoint below the unit of the line's.
    Beside,
    /// What a wait may have, or the next descriptor.
    FlagOrPlus,
    /// What a wait with `drain` may have, or the next descriptor.
    FenceOrPlus,
    /// What a wait with `fence` may have, or the next descriptor.
    DrainOrPlus,
}

/// What was wanted where a line of a branch is wrong, or one that names a flag.
#[derive(Clone, Copy)]
pub enum BranchWanted {
    /// The name of a flag.
    Flag,
    /// What is looked at, or `not`.
    Condition,
    /// What is looked at, behind `not`.
    BehindNot,
    /// A word of conditions: more words follow, and none stands behind a flag.
    Longer,
    /// No more blocks within one another than there may be.
    Few,
    /// An endpoint whose last wait above in this thread is submitted on each way to here.
    OnEachWay,
    /// A line above in this thread that awaits waits, the last such one on each way to here.
    AwaitOnEachWay,
    /// An `if` above that is open, in this thread.
    If,
    /// No further `else`.
    NoElse,
    /// An `end` below, in this thread.
    End,
}

/// What was wanted where a line is wrong.
#[derive(Clone, Copy)]
pub enum DriverWanted {
    /// What a race's line wants there.
    Race(RaceWanted),
    /// A line before `race`.
    Before,
    /// A line behind `race`.
    Behind,
    /// An act: it stands behind a name.
    Act,
    /// No further `race`.
    NoRace,
    /// An act or `race`: settings stand before the first act.
    Earlier,
    /// No answer: what comes of an order is judged.
    NoAnswer,
    /// Another line: `platform` stands before the other settings.
    Ahead,
    /// One line of this setting, of workers or of this endpoint: there is one already.
    OneLine,
    /// What the platform is.
    Platform,
    /// The order of links.
    Link,
    /// Which waits are fences.
    Waits,
    /// What a wait that drains asks for.
    Drain,
    /// Whether units keep something.
    Caches,
    /// In which order units take descriptors.
    Taken,
    /// By what an endpoint says that it has stopped.
    Stopped,
    /// What a unit refuses.
    Refused,
    /// What is no finding.
    Allowed,
    /// What becomes of ATS, page requests and bus mastering by a reset.
    Enables,
    /// What becomes of an invalidation that isn't answered.
    Timeouts,
    /// How many places a page request queue has, 1 to 65535.
    Places,
    /// An endpoint that doesn't stand below a unit with another one yet.
    Unshared,
    /// A frame that the config has.
    Frame,
    /// What may be freed.
    Freed,
    /// A PASID.
    Pasid,
    /// A space.
    Space,
    /// A space, or `none`.
    SpaceOrNone,
    /// A frame that the config has, or `none`.
    FrameOrNone,
    /// The number of a page.
    Page,
    /// The order of a range.
    Order,
    /// The index of a group.
    Index,
    /// An ITag.
    Itag,
    /// A place in an invalidation queue.
    Place,
    /// How many are older, 0 to 65535.
    Count,
    /// `r` or `w`.
    Access,
    /// `r`, `w` or `rw`.
    Asked,
    /// `new`, or the index of a group.
    GroupOrNew,
    /// `on` or `off`.
    OnOrOff,
    /// `more` or `last`.
    MoreOrLast,
    /// The code of a response.
    Code,
    /// The kind of a message.
    Kind,
    /// What a line wants that submits descriptors.
    Submit(SubmitWanted),
    /// A descriptor.
    Descriptor,
    /// What may be awaited.
    Awaited,
    /// An endpoint at which this thread has submitted a wait.
    WaitAbove,
    /// The name of a lock.
    Lock,
    /// What a line of a branch wants, or one that names a flag.
    Branch(BranchWanted),
    /// What a line of a definition, a call or a repeat wants.
    Written(WrittenWanted),
    /// What an endpoint is told: a number of events, 0 to 65535, or a word that stands alone.
    Part,
    /// The events that a number counts.
    Counted,
    /// An act that is permitted where it stands, for which it needs this.
    Permitted(Need),
}

/// What is wrong with a line: at which of its words, counted from 0, and what was wanted there. Where the line has no
/// such word, it ends too soon.
#[derive(Clone, Copy)]
pub struct DriverWrong {
    /// The place of the word.
    pub at: usize,
    /// What was wanted.
    pub wanted: DriverWanted,
}

/// Why a line can't be taken.
#[derive(Clone, Copy)]
pub enum DriverStop {
    /// It is wrong.
    Wrong(DriverWrong),
    /// Memory ran out.
    Memory,
}

/// A line that is wrong at this word.
pub fn wrong_at(at: usize, wanted: DriverWanted) -> DriverWrong
    ensures { result ≡ record { at = at; wanted = wanted } }
{
    DriverWrong { at, wanted }
}

/// Whether no word stands behind so many.
pub fn judge_end(words: &[&[u8]], count: usize) -> Result<(), DriverWrong>
    ensures { result ≡ no_more count (map (λ word. word.now) words.now) }
{
    if count < count_of(words) {
        return Err(wrong_at(
            count,
            DriverWanted::Race(RaceWanted::Script(Wanted::NoMore)),
        ));
    }
    Ok(())
}

/// What a line wanted that submits descriptors, in words.
fn submit_words(wanted: &SubmitWanted) -> &'static str
    ensures { result.now ≡ submit_text wanted.now }
{
    match wanted {
        SubmitWanted::Few => "no more than 64 descriptors",
        SubmitWanted::PlusOrEnd => "+ or no further word",
        SubmitWanted::OfOrPlus => "of, + or no further word",
        SubmitWanted::PageOrPlus => "the number of a page, of or +",
        SubmitWanted::Beside => "an endpoint of the same unit",
        SubmitWanted::FlagOrPlus => "drain, fence or +",
        SubmitWanted::FenceOrPlus => "fence or +",
        SubmitWanted::DrainOrPlus => "drain or +",
    }
}

/// What a line of a branch wanted, or one that names a flag, in words.
fn branch_words(wanted: &BranchWanted) -> &'static str
    ensures { result.now ≡ branch_text wanted.now }
{
    match wanted {
        BranchWanted::Flag => "the name of a flag",
        BranchWanted::Condition =>
            "a flag, not, present, stopped, filed, queued, gone, overflow or failed",
        BranchWanted::BehindNot =>
            "a flag, present, stopped, filed, queued, gone, overflow or failed",
        BranchWanted::Longer => "a condition of more words, or no word behind a flag",
        BranchWanted::Few => "no more than 16 blocks within one another",
        BranchWanted::OnEachWay =>
            "an endpoint whose last wait above in this thread is submitted on each way to here",
        BranchWanted::AwaitOnEachWay =>
            "an await of a wait above in this thread, the last on each way to here",
        BranchWanted::If => "an if above in this thread",
        BranchWanted::NoElse => "no second else",
        BranchWanted::End => "an end below in this thread",
    }
}

/// What was wanted, in words.
fn words_of(wanted: &DriverWanted) -> &'static str
    ensures { result.now ≡ wanted_text wanted.now }
{
    match wanted {
        DriverWanted::Race(_) => "",
        DriverWanted::Before => "an act, a setting, workers, device or race",
        DriverWanted::Behind => "an act, thread, workers or device",
        DriverWanted::Act => "an act",
        DriverWanted::NoRace => "no second race",
        DriverWanted::Earlier => "an act or race: settings stand before the first act",
        DriverWanted::NoAnswer => "no answer: a driver is judged, not compared",
        DriverWanted::Ahead => "another line: platform stands before the other settings",
        DriverWanted::OneLine => "one such line",
        DriverWanted::Platform => "vt-d or free",
        DriverWanted::Link => "free or posted",
        DriverWanted::Waits => "fence or plain",
        DriverWanted::Drain => "empty or arrived",
        DriverWanted::Caches => "off or on",
        DriverWanted::Taken => "queue or loose",
        DriverWanted::Stopped => "marker, status or known",
        DriverWanted::Refused => "drain",
        DriverWanted::Allowed => "no-group",
        DriverWanted::Enables => "kept or cleared",
        DriverWanted::Timeouts => "off, on or stop",
        DriverWanted::Places => "a number, 1 to 65535",
        DriverWanted::Unshared => "another endpoint: each stands below one unit",
        DriverWanted::Frame => "a frame of the config",
        DriverWanted::Freed => "a frame of the config, space, domain or pasid",
        DriverWanted::Pasid => "a PASID, 0 to 32",
        DriverWanted::Space => "a space, 0 to 63",
        DriverWanted::SpaceOrNone => "a space, 0 to 63, or none",
        DriverWanted::FrameOrNone => "a frame of the config or none",
        DriverWanted::Page => "the number of a page",
        DriverWanted::Order => "an order, 0 to 9",
        DriverWanted::Index => "the index of a group",
        DriverWanted::Itag => "an ITag, 0 to 31",
        DriverWanted::Place => "a place in the queue, 0 to 63",
        DriverWanted::Count => "a number, 0 to 65535",
        DriverWanted::Access => "r or w",
        DriverWanted::Asked => "r, w or rw",
        DriverWanted::GroupOrNew => "new or the index of a group",
        DriverWanted::OnOrOff => "on or off",
        DriverWanted::MoreOrLast => "more or last",
        DriverWanted::Code => "success, invalid or failure",
        DriverWanted::Kind => "the kind of a message",
        DriverWanted::Submit(wanted) => submit_words(wanted),
        DriverWanted::Descriptor => "range, pasid, iotlb, entry or wait",
        DriverWanted::Awaited =>
            "wait, stopped, passed, queue, groups, reset, idle, gone or the name of a line above",
        DriverWanted::WaitAbove =>
            "an endpoint at which a line above in this thread submits a wait",
        DriverWanted::Lock => "the name of a lock",
        DriverWanted::Branch(wanted) => branch_words(wanted),
        DriverWanted::Written(wanted) => written_words(wanted),
        DriverWanted::Part => "a number, 0 to 65535, evicts, silent, lies, awaits, leaves or pages",
        DriverWanted::Counted => "asks, uses or faults",
        DriverWanted::Permitted(_) => "an act that is permitted now",
    }
}

/// Appends what is wrong with a line, with a line end: `line L: 'WORD': wanted ..`.
pub fn put_fault(
    out: &mut Vec<u8>,
    wrong: &DriverWrong,
    line: u64,
    words: &[&[u8]],
    names: &Names,
) -> Result<(), AllocError>
    ensures { OnOk result (out.new.items
        ≡ out.old.items ++ fault_text names.now line (map (λ word. word.now) words.now) wrong.now) }
{
    match wrong.wanted {
        DriverWanted::Race(wanted) => {
            sva_race_texts::put_fault(
                out,
                &sva_race_texts::wrong_at(wrong.at, wanted),
                line,
                words,
                names,
            )
        }
        _ => put_own(out, wrong, line, words, names),
    }
}

/// Appends what is wrong with a line, where it isn't what a race's line wants.
fn put_own(
    out: &mut Vec<u8>,
    wrong: &DriverWrong,
    line: u64,
    words: &[&[u8]],
    names: &Names,
) -> Result<(), AllocError>
    ensures { OnOk result (out.new.items ≡ out.old.items ++ (codes "line " ++ decimal line
        ++ where_text names.now wrong.now.wanted (slice_get (map (λ word. word.now) words.now) wrong.now.at)
        ++ 10 ∷ [])) }
{
    out.extend_from_slice(b"line ")?;
    put_number(out, line)?;
    put_where(out, &wrong.wanted, word_in(words, wrong.at), names)?;
    out.extend_from_slice(b"\n")
}

/// Appends which word is wrong, if the line has it, and what was wanted there.
fn put_where(
    out: &mut Vec<u8>,
    wanted: &DriverWanted,
    word: Option<&[u8]>,
    names: &Names,
) -> Result<(), AllocError>
    ensures { OnOk result (out.new.items
        ≡ out.old.items ++ where_text names.now wanted.now (option_map (λ word. word.now) word.entry)) }
{
    match word {
        None => put_line_end(out, wanted),
        Some(word) => put_at_word(out, wanted, word, names),
    }
}

/// Appends what was wanted at the end of a line.
fn put_line_end(out: &mut Vec<u8>, wanted: &DriverWanted) -> Result<(), AllocError>
    ensures { OnOk result (out.new.items
        ≡ out.old.items ++ (codes ": end of line: wanted " ++ wanted_text wanted.now)) }
{
    out.extend_from_slice(b": end of line: wanted ")?;
    out.extend_from_slice(words_of(wanted).as_bytes())
}

/// Appends which word is wrong, and what was wanted there.
fn put_at_word(
    out: &mut Vec<u8>,
    wanted: &DriverWanted,
    word: &[u8],
    names: &Names,
) -> Result<(), AllocError>
    ensures { OnOk result (out.new.items ≡ out.old.items ++ where_text names.now wanted.now (Some word.now)) }
{
    out.extend_from_slice(b": '")?;
    put_word(out, word)?;
    out.extend_from_slice(b"': wanted ")?;
    out.extend_from_slice(words_of(wanted).as_bytes())?;
    put_hint(out, wanted, word, names)
}

/// Appends what the act needs, where it isn't permitted; else the word that is near, if there is one.
fn put_hint(
    out: &mut Vec<u8>,
    wanted: &DriverWanted,
    word: &[u8],
    names: &Names,
) -> Result<(), AllocError>
    ensures { OnOk result (out.new.items ≡ out.old.items ++ hint_text names.now word.now wanted.now) }
{
    match wanted {
        DriverWanted::Permitted(need) => out.extend_from_slice(need_words(*need).as_bytes()),
        _ => put_near(out, near(wanted, names, word)),
    }
}
