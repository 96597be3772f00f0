//! Literals that were at no moment true.

ghost use Rattle.std.specs.Prelude.{◌≡◌, ◌+◌, ◌++◌, ◌<◌, ◌^◌, OnOk, length};
ghost use Rattle.sva_race_texts.specs.Readings.{asked_literal_seen};
ghost use Rattle.sva_race_reports.specs.Literals.{asked_literals, literal_at, literal_line, literal_text};
ghost use Rattle.sva_race_reports.specs.Literals.{literals_from, never_true};

use crate::claims::judged_at;
use crate::judging::Judged;
use std::alloc::AllocError;
use sva_race::{Choice, Claiming, End};
use sva_race_texts::AskedLiteral;
use sva_script_reading::put_number;
use sva_search::Found;

/// How the line of a literal begins.
fn never_true(is_of_ends: bool) -> &'static str
    ensures { result.now ≡ never_true is_of_ends }
{
    if is_of_ends {
        "ends never true: "
    } else {
        "never true: "
    }
}

/// Appends that a literal was never true.
fn put_line(out: &mut Vec<u8>, literal: &AskedLiteral) -> Result<(), AllocError>
    ensures { OnOk result (out.new.items ≡ out.old.items ++ literal_line (asked_literal_seen literal.now)) }
{
    out.extend_from_slice(never_true(literal.is_of_ends).as_bytes())?;
    out.extend_from_slice(literal.text.as_slice())?;
    out.extend_from_slice(b" (line ")?;
    put_number(out, literal.line)?;
    out.extend_from_slice(b")\n")
}

/// Appends that, where this is said of the claim that it is true at some moment.
fn put_judged(out: &mut Vec<u8>, judged: Judged, literal: &AskedLiteral) -> Result<(), AllocError>
    ensures { OnOk result (out.new.items
        ≡ out.old.items ++ literal_text judged (asked_literal_seen literal.now)) }
{
    match judged {
        Judged::Fails => put_line(out, literal),
        Judged::Holds | Judged::Unknown => Ok(()),
    }
}

/// Appends what is said of a literal, whose claim has this place.
fn put_literal(
    out: &mut Vec<u8>,
    found: &Found<Choice, End>,
    place: usize,
    literal: &AskedLiteral,
) -> Result<(), AllocError>
    ensures { OnOk result (out.new.items
        ≡ out.old.items ++ literal_at found.now place (asked_literal_seen literal.now)) }
{
    let judged = judged_at(found, literal.is_of_ends, place, Claiming::Sometimes);
    put_judged(out, judged, literal)
}

/// Appends what is said of literals. The claim of the first has this place.
pub(crate) fn put_literals(
    out: &mut Vec<u8>,
    literals: &[AskedLiteral],
    first: usize,
    found: &Found<Choice, End>,
) -> Result<(), AllocError>
    requires { first + length literals.now < 2 ^ 64 }
    ensures { OnOk result (out.new.items
        ≡ out.old.items ++ literals_from found.now first (asked_literals literals.now)) }
{
    for place in 0..literals.len() {
        let one = &literals[place];
        put_literal(out, found, first + place, one)?;
    }
    Ok(())
}
