//! A race in a line, where that is wanted in place of its whole report.

ghost use Rattle.std.specs.Prelude.{◌≡◌, ◌+◌, ◌++◌, ◌<◌, ◌^◌, IfOk, OnOk, [], codes};
ghost use Rattle.sva_race_reports.specs.Briefs as briefs;
ghost use Rattle.sva_race_reports.specs.Reports.{asks, claimed};

use crate::claims::{judged_at, put_reach, put_whole};
use crate::judging::Judged;
use crate::searching::Wanted;
use crate::telling::put_counted;
use std::alloc::{AllocError, Global};
use sva_race::{Choice, Claim, End, Race};
use sva_race_texts::{Asked, AskedLiteral};
use sva_search::Found;
use sva_snapshot::Explains;

/// How many claims of a race hold, fail and are unknown.
#[derive(Clone, Copy, PartialEq, Eq)]
pub struct Tally {
    /// How many hold.
    pub hold: usize,
    /// How many fail.
    pub fail: usize,
    /// How many are unknown.
    pub unknown: usize,
}

/// With one claim more, of which this is said.
fn counted(tally: Tally, judged: Judged) -> Tally
    requires { (tally.hold + 1 < 2 ^ 64) × (tally.fail + 1 < 2 ^ 64) × (tally.unknown + 1 < 2 ^ 64) }
    ensures { result ≡ briefs.counted tally judged }
{
    match judged {
        Judged::Holds => Tally {
            hold: tally.hold + 1,
            ..tally
        },
        Judged::Fails => Tally {
            fail: tally.fail + 1,
            ..tally
        },
        Judged::Unknown => Tally {
            unknown: tally.unknown + 1,
            ..tally
        },
    }
}

/// How many claims there are of each kind.
fn tally_of(claims: &[Claim], asked: &[Asked], found: &Found<Choice, End>) -> Tally
    ensures { result ≡ briefs.tally_from found.now briefs.none_counted 0 (asks asked.now) (claimed claims.now) }
{
    let mut tally = Tally {
        hold: 0,
        fail: 0,
        unknown: 0,
    };
    for place in 0..asked.len().min(claims.len()) {
        let judged = judged_at(
            found,
            asked[place].is_of_ends,
            place,
            claims[place].claiming,
        );
        tally = counted(tally, judged);
    }
    tally
}

/// Appends how many there are of a kind more, if there are any.
fn put_kind(said: &mut Vec<u8>, count: usize, one: &str, more: &str) -> Result<(), AllocError>
    ensures { OnOk result (said.new.items ≡ briefs.with_count said.old.items count one.now more.now) }
{
    if count == 0 {
        return Ok(());
    }
    if !said.is_empty() {
        said.extend_from_slice(b", ")?;
    }
    put_counted(said, count, one, more)
}

/// How many there are of each kind.
fn counts_said(alloc: Global, tally: Tally) -> Result<Vec<u8>, AllocError>
    ensures { IfOk result (λ said. said.items ≡ briefs.counts_said tally) }
{
    let mut said = Vec::new(alloc);
    put_kind(&mut said, tally.hold, "holds", "hold")?;
    put_kind(&mut said, tally.fail, "fails", "fail")?;
    put_kind(&mut said, tally.unknown, "unknown", "unknown")?;
    Ok(said)
}

/// Appends what was counted, or that there are no claims.
fn put_or_none(out: &mut Vec<u8>, said: &[u8]) -> Result<(), AllocError>
    ensures { OnOk result (out.new.items ≡ out.old.items ++ briefs.or_none said.now) }
{
    if said.is_empty() {
        out.extend_from_slice(b"no claims")
    } else {
        out.extend_from_slice(said)
    }
}

/// Appends a race in a line.
fn put_brief(
    alloc: Global,
    out: &mut Vec<u8>,
    race: &Race,
    asked: &[Asked],
    found: &Found<Choice, End>,
) -> Result<(), AllocError>
    ensures { OnOk result (out.new.items ≡ out.old.items ++ briefs.brief_text race.now asked.now found.now) }
{
    let said = counts_said(alloc, tally_of(race.claims.as_slice(), asked, found))?;
    put_or_none(out, said.as_slice())?;
    out.extend_from_slice(b" (")?;
    put_reach(out, found, found.cut)?;
    out.extend_from_slice(b")\n")
}

/// Appends the report of a race: the whole of it, or a line.
pub(crate) fn put_report<E: Explains>(
    alloc: Global,
    out: &mut Vec<u8>,
    race: &Race,
    threads: &[Vec<u8>],
    wanted: Wanted,
    asked: &[Asked],
    literals: &[AskedLiteral],
    found: &Found<Choice, End>,
) -> Result<(), AllocError>
    ensures { OnOk result (out.new.items
        ≡ out.old.items ++ briefs.report_text E.explained race.now threads.now wanted asked.now literals.now found.now) }
{
    if wanted.is_brief {
        put_brief(alloc, out, race, asked, found)
    } else {
        put_whole::<E>(alloc, out, race, threads, wanted, asked, literals, found)
    }
}
