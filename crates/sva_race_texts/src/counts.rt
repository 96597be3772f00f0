//! The answers that the claims of a race count.

ghost use Rattle.std.specs.Prelude.{◌≡◌, ◌++◌, IfOk, flat_map, map};
ghost use Rattle.sva_race_texts.specs.Seen.{atom_seen, condition_seen, literals_seen};
ghost use Rattle.sva_race_texts.specs.Devices.{count_seen, counts_in, counts_of_condition, counts_of_literals};

use crate::terms::{Atom, Claim, Count, Literal};
use std::alloc::{AllocError, Global};

/// Appends the answer that an atom counts, if it counts one.
fn add_atom(alloc: Global, counts: &mut Vec<Count>, atom: &Atom) -> Result<(), AllocError>
    ensures { IfOk result (λ _. map count_seen counts.new.items
        ≡ map count_seen counts.old.items ++ counts_in (atom_seen atom.now)) }
{
    match atom {
        Atom::Times { times, answer } => {
            let answer = Vec::from_slice(alloc, answer.as_slice())?;
            counts.push(Count {
                times: *times,
                answer,
            })?;
            Ok(())
        }
        _ => Ok(()),
    }
}

/// Appends that of a literal.
fn add_literal(alloc: Global, counts: &mut Vec<Count>, literal: &Literal) -> Result<(), AllocError>
    ensures { IfOk result (λ _. map count_seen counts.new.items
        ≡ map count_seen counts.old.items ++ counts_in (atom_seen literal.now.atom)) }
{
    add_atom(alloc, counts, &literal.atom)
}

/// Appends those of literals.
fn add_literals(
    alloc: Global,
    counts: &mut Vec<Count>,
    literals: &[Literal],
) -> Result<(), AllocError>
    ensures { IfOk result (λ _. map count_seen counts.new.items
        ≡ map count_seen counts.old.items ++ flat_map (λ literal. counts_in (atom_seen literal.atom)) literals.now) }
{
    for place in 0..literals.len() {
        add_literal(alloc, counts, &literals[place])?;
    }
    Ok(())
}

/// Appends those of a condition.
fn add_condition(
    alloc: Global,
    counts: &mut Vec<Count>,
    condition: &[Vec<Literal>],
) -> Result<(), AllocError>
    ensures { IfOk result (λ _. map count_seen counts.new.items ≡ map count_seen counts.old.items
        ++ flat_map (λ literals. counts_of_literals (literals_seen literals)) condition.now) }
{
    for place in 0..condition.len() {
        add_literals(alloc, counts, condition[place].as_slice())?;
    }
    Ok(())
}

/// Appends those of a claim.
fn add_claim(alloc: Global, counts: &mut Vec<Count>, claim: &Claim) -> Result<(), AllocError>
    ensures { IfOk result (λ _. map count_seen counts.new.items ≡ map count_seen counts.old.items
        ++ counts_of_condition (condition_seen claim.now.condition)) }
{
    add_condition(alloc, counts, claim.condition.as_slice())
}

/// The answers that claims count, in their order.
pub(crate) fn counts_of(alloc: Global, claims: &[Claim]) -> Result<Vec<Count>, AllocError>
    ensures { IfOk result (λ counts. map count_seen counts.items
        ≡ flat_map (λ claim. counts_of_condition (condition_seen claim.condition)) claims.now) }
{
    let mut counts = Vec::new(alloc);
    for place in 0..claims.len() {
        add_claim(alloc, &mut counts, &claims[place])?;
    }
    Ok(counts)
}
