//! The report of a race that was searched.

ghost use Rattle.std.specs.Prelude.{◌≡◌, ◌++◌, ◌+◌, ◌<◌, ◌^◌, OnOk, option_map};
ghost use Rattle.sva_race_texts.specs.Readings.{asked_seen};
ghost use Rattle.sva_race_reports.specs.WitnessEnds.{ends_text};
ghost use Rattle.sva_race_reports.specs.Held.{held_in};
ghost use Rattle.sva_race_reports.specs.Judging.{judged_at};
ghost use Rattle.sva_race_reports.specs.declared.judging.Judged.TheVariants.{Holds};
ghost use Rattle.sva_race_reports.specs.Reports.{asks, behind_if, claim_text, claimed, claims_from, counts_text, named_witness};
ghost use Rattle.sva_race_reports.specs.Reports.{reach_text, tried_text, verdict_of, whole_text, with_witness, witness_if};
ghost use Rattle.sva_race_reports.specs.Reports.{witness_with, witnesses_from};

use crate::ends::put_ends;
use crate::held::put_held_in;
use crate::judging::{Judged, both, judge, witness_of, word_of};
use crate::literals::put_literals;
use crate::searching::Wanted;
use crate::telling::{put_counted, put_end_texts};
use crate::witnesses::put_witness;
use std::alloc::{AllocError, Global};
use sva_race::{Choice, Claim, Claiming, End, Race};
use sva_race_texts::{Asked, AskedLiteral};
use sva_script_reading::put_number;
use sva_search::Found;
use sva_snapshot::Explains;

/// Appends how many moments were looked at, and how many ends there are.
fn put_counts(out: &mut Vec<u8>, found: &Found<Choice, End>) -> Result<(), AllocError>
    ensures { OnOk result (out.new.items ≡ out.old.items ++ counts_text found.now) }
{
    put_counted(out, found.states, "moment", "moments")?;
    out.extend_from_slice(b", ")?;
    put_counted(out, found.ends.len(), "end", "ends")
}

/// Appends which lists of choices were tried, where the search was cut off.
fn put_tried(out: &mut Vec<u8>, depth: usize) -> Result<(), AllocError>
    ensures { OnOk result (out.new.items ≡ out.old.items ++ tried_text depth) }
{
    out.extend_from_slice(b": all lists of fewer than ")?;
    put_counted(out, depth, "move", "moves")?;
    out.extend_from_slice(b" were tried")
}

/// Appends how far the search came.
pub(crate) fn put_reach(
    out: &mut Vec<u8>,
    found: &Found<Choice, End>,
    cut: Option<usize>,
) -> Result<(), AllocError>
    ensures { OnOk result (out.new.items ≡ out.old.items ++ reach_text found.now cut) }
{
    match cut {
        None => {
            out.extend_from_slice(b"whole: ")?;
            put_counts(out, found)
        }
        Some(depth) => {
            out.extend_from_slice(b"cut off at ")?;
            put_counts(out, found)?;
            put_tried(out, depth)
        }
    }
}

/// What is said of the claim of a place.
pub(crate) fn judged_at(
    found: &Found<Choice, End>,
    is_of_ends: bool,
    place: usize,
    claiming: Claiming,
) -> Judged
    ensures { result ≡ judged_at found.now is_of_ends place claiming }
{
    let is_found = witness_of(found, is_of_ends, place).is_some();
    judge(claiming, is_found, found.cut.is_none())
}

/// How many witnesses come before the next claim, where so many come before this one.
fn with_witness(before: u64, witness: Option<&Vec<Choice>>) -> u64
    requires { before + 1 < 2 ^ 64 }
    ensures { result ≡ with_witness before (option_map (λ witness. witness.now) witness.entry) }
{
    match witness {
        Some(_) => before + 1,
        None => before,
    }
}

/// Appends the name of a claim's witness, if it has one.
fn put_named(
    out: &mut Vec<u8>,
    before: u64,
    witness: Option<&Vec<Choice>>,
) -> Result<(), AllocError>
    requires { before + 1 < 2 ^ 64 }
    ensures { OnOk result (out.new.items
        ≡ out.old.items ++ named_witness before (option_map (λ witness. witness.now) witness.entry)) }
{
    match witness {
        Some(_) => {
            out.extend_from_slice(b", witness ")?;
            put_number(out, before + 1)
        }
        None => Ok(()),
    }
}

/// Appends what is said of the claim of a place.
fn put_claim(
    out: &mut Vec<u8>,
    found: &Found<Choice, End>,
    place: usize,
    before: u64,
    asked: &Asked,
    claiming: Claiming,
) -> Result<(), AllocError>
    requires { before + 1 < 2 ^ 64 }
    ensures { OnOk result (out.new.items
        ≡ out.old.items ++ claim_text found.now place before (asked_seen asked.now) claiming) }
{
    out.extend_from_slice(asked.text.as_slice())?;
    out.extend_from_slice(b": ")?;
    let judged = judged_at(found, asked.is_of_ends, place, claiming);
    out.extend_from_slice(word_of(judged).as_bytes())?;
    put_named(out, before, witness_of(found, asked.is_of_ends, place))?;
    out.extend_from_slice(b"\n")
}

/// Appends what is said of each claim.
fn put_claims(
    out: &mut Vec<u8>,
    claims: &[Claim],
    asked: &[Asked],
    found: &Found<Choice, End>,
) -> Result<(), AllocError>
    ensures { OnOk result (out.new.items
        ≡ out.old.items ++ claims_from found.now 0 0 (asks asked.now) (claimed claims.now)) }
{
    let mut before = 0;
    for place in 0..asked.len().min(claims.len()) {
        let one = &asked[place];
        put_claim(out, found, place, before, one, claims[place].claiming)?;
        before = with_witness(before, witness_of(found, one.is_of_ends, place));
    }
    Ok(())
}

/// Appends what of a witness's own steps was held back, and which lines wait where it ends.
fn put_behind<E: Explains>(
    alloc: Global,
    out: &mut Vec<u8>,
    race: &Race,
    threads: &[Vec<u8>],
    number: u64,
    choices: &[Choice],
) -> Result<(), AllocError>
    ensures { OnOk result (out.new.items ≡ out.old.items
        ++ (held_in E.explained race.now threads.now number choices.now ++ ends_text E.explained race.now number choices.now)) }
{
    put_held_in::<E>(alloc, out, race, threads, number, choices)?;
    put_ends::<E>(alloc, out, race, number, choices)
}

/// Appends that, if it is wanted.
fn put_behind_if<E: Explains>(
    alloc: Global,
    out: &mut Vec<u8>,
    race: &Race,
    threads: &[Vec<u8>],
    whys: bool,
    number: u64,
    choices: &[Choice],
) -> Result<(), AllocError>
    ensures { OnOk result (out.new.items
        ≡ out.old.items ++ behind_if E.explained race.now threads.now whys number choices.now) }
{
    if whys {
        put_behind::<E>(alloc, out, race, threads, number, choices)
    } else {
        Ok(())
    }
}

/// Appends a witness with its number; and behind it, where that is wanted, what of its own steps was held back, and which
/// lines wait where it ends.
fn put_witness_with<E: Explains>(
    alloc: Global,
    out: &mut Vec<u8>,
    race: &Race,
    threads: &[Vec<u8>],
    whys: bool,
    number: u64,
    choices: &[Choice],
) -> Result<(), AllocError>
    ensures { OnOk result (out.new.items
        ≡ out.old.items ++ witness_with E.explained race.now threads.now whys number choices.now) }
{
    put_witness(alloc, out, race, threads, number, choices)?;
    put_behind_if::<E>(alloc, out, race, threads, whys, number, choices)
}

/// Appends a witness, if there is one.
fn put_witness_if<E: Explains>(
    alloc: Global,
    out: &mut Vec<u8>,
    race: &Race,
    threads: &[Vec<u8>],
    whys: bool,
    before: u64,
    witness: Option<&Vec<Choice>>,
) -> Result<(), AllocError>
    requires { before + 1 < 2 ^ 64 }
    ensures { OnOk result (out.new.items ≡ out.old.items
        ++ witness_if E.explained race.now threads.now whys before (option_map (λ witness. witness.now) witness.entry)) }
{
    match witness {
        Some(choices) => {
            put_witness_with::<E>(
                alloc,
                out,
                race,
                threads,
                whys,
                before + 1,
                choices.as_slice(),
            )
        }
        None => Ok(()),
    }
}

/// Appends the witnesses.
fn put_witnesses<E: Explains>(
    alloc: Global,
    out: &mut Vec<u8>,
    race: &Race,
    threads: &[Vec<u8>],
    whys: bool,
    asked: &[Asked],
    found: &Found<Choice, End>,
) -> Result<(), AllocError>
    ensures { OnOk result (out.new.items
        ≡ out.old.items ++ witnesses_from E.explained race.now threads.now whys found.now 0 0 (asks asked.now)) }
{
    let mut before = 0;
    for place in 0..asked.len() {
        let witness = witness_of(found, asked[place].is_of_ends, place);
        put_witness_if::<E>(alloc, out, race, threads, whys, before, witness)?;
        before = with_witness(before, witness);
    }
    Ok(())
}

/// Appends the report of a race: how far the search came, what the ends come to, what that says of each claim, which
/// literals were never true, and the witnesses, each with what holds its own steps back, and the lines that wait where it
/// ends, if that is wanted.
pub(crate) fn put_whole<E: Explains>(
    alloc: Global,
    out: &mut Vec<u8>,
    race: &Race,
    threads: &[Vec<u8>],
    wanted: Wanted,
    asked: &[Asked],
    literals: &[AskedLiteral],
    found: &Found<Choice, End>,
) -> Result<(), AllocError>
    ensures { OnOk result (out.new.items
        ≡ out.old.items ++ whole_text E.explained race.now threads.now wanted asked.now literals.now found.now) }
{
    let ends = found.ends.as_slice();
    put_reach(out, found, found.cut)?;
    out.extend_from_slice(b"\n")?;
    put_end_texts(alloc, out, race, threads, wanted.few_ends, ends)?;
    put_claims(out, race.claims.as_slice(), asked, found)?;
    put_literals(out, literals, asked.len(), found)?;
    put_witnesses::<E>(alloc, out, race, threads, wanted.whys, asked, found)
}

/// What is said of all claims together.
pub(crate) fn verdict_of(race: &Race, asked: &[Asked], found: &Found<Choice, End>) -> Judged
    ensures { result ≡ verdict_of race.now asked.now found.now }
{
    let mut so_far = Judged::Holds;
    let claims = race.claims.as_slice();
    for place in 0..asked.len().min(claims.len()) {
        let judged = judged_at(
            found,
            asked[place].is_of_ends,
            place,
            claims[place].claiming,
        );
        so_far = both(so_far, judged);
    }
    so_far
}
