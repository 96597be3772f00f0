//! The audit: the receipts of all ports against the journal, and the tokens against its world.

ghost use Rattle.std.specs.Prelude.{◌≡◌, ◌+◌, ◌^◌, ◌<◌, true, false, length, IfOk, IfSome, IfNone};
ghost use Rattle.sva_core.specs.Journal.{IsLegal, bindings_of, uses_of};
ghost use Rattle.sva_fabric.specs.Audits.{held_by, used_by, states_of, AllStand, IsFirstBad, EachStands, IsFirstBadOf, calls_of, IsAudit, IsToldOnce};
ghost use Rattle.sva_fabric.specs.Once.{AllRise};

use crate::audits::{Audit, FirstBadReceipt};
use crate::port::Port;
use crate::ports::Ports;
use crate::tokens::Tokens;
use sva_core::{Journaled, Ledgers, Receipt};

/// Compares the receipts of all ports with the journal, and the tokens with its world's unreleased bindings and taken use slots.
pub(crate) fn audit<C: Ledgers>(
    journaled: &Journaled,
    ports: &Ports<C>,
    tokens: &Tokens<C>,
) -> Result<Audit, FirstBadReceipt>
    ensures audit { IsAudit journaled.now (states_of ports.now) (held_by tokens.now) (used_by tokens.now) result }
    ensures once { IfOk result (λ audit. IsToldOnce journaled.now.entries (states_of ports.now)) }
    ensures legal { IsLegal journaled.now }
{
    let calls = journaled.calls();
    if let Some(bad) = first_bad(journaled, ports) {
        return Err(bad);
    }
    if !(adds_up(calls, ports) && are_all(journaled, tokens)) {
        return Err(FirstBadReceipt {
            port: count_of(ports),
            place: calls,
        });
    }
    let counts = journaled.counts();
    Ok(Audit {
        calls,
        free: counts.free,
        mapped: counts.mapped,
        withheld: counts.withheld,
    })
}

/// Tells that there is a token for each unreleased binding, and for each taken use slot.
fn are_all<C: Ledgers>(journaled: &Journaled, tokens: &Tokens<C>) -> bool
    ensures yes { result ≡ true → (held_by tokens.now ≡ bindings_of journaled.now) × (used_by tokens.now ≡ uses_of journaled.now) }
    ensures no { result ≡ false → (held_by tokens.now ≡ bindings_of journaled.now) × (used_by tokens.now ≡ uses_of journaled.now) → ⊥ }
{
    let leases = tokens.leases.as_slice();
    let leavings = tokens.leavings.as_slice();
    let tickets = tokens.tickets.as_slice();
    let held = leases.len() as u64 + leavings.len() as u64;
    held == journaled.bindings() && tickets.len() as u64 == journaled.uses()
}

/// The place of the first receipt of a port that doesn't stand.
fn first_bad_of(journaled: &Journaled, port: u64, receipts: &[Receipt]) -> Option<u64>
    ensures none { IfNone result (AllStand journaled.now.entries port receipts.now) }
    ensures some { IfSome result (λ place. IsFirstBad journaled.now.entries port receipts.now place) }
{
    for receipt in receipts {
        if !journaled.stands(port, receipt) {
            return Some(receipt.place);
        }
    }
    None
}

/// The first receipt that doesn't stand, of ports that are numbered from this number on.
fn first_bad_from<C: Ledgers>(
    journaled: &Journaled,
    first: u64,
    ports: &[Port<C>],
) -> Option<FirstBadReceipt>
    requires { first + length ports.now < 2 ^ 64 }
    ensures none { IfNone result (EachStands journaled.now.entries first ports.now) }
    ensures rise { IfNone result (AllRise ports.now) }
    ensures some { IfSome result (λ bad. IsFirstBadOf journaled.now.entries first ports.now bad.port bad.place) }
{
    let mut number = first;
    for port in ports {
        if let Some(place) = first_bad_of(journaled, number, port.receipts()) {
            return Some(FirstBadReceipt {
                port: number,
                place,
            });
        }
        number += 1;
    }
    None
}

/// The first receipt that doesn't stand.
fn first_bad<C: Ledgers>(journaled: &Journaled, ports: &Ports<C>) -> Option<FirstBadReceipt>
    ensures none { IfNone result (EachStands journaled.now.entries 0 (states_of ports.now)) }
    ensures rise { IfNone result (AllRise (states_of ports.now)) }
    ensures some { IfSome result (λ bad. IsFirstBadOf journaled.now.entries 0 (states_of ports.now) bad.port bad.place) }
{
    if let Some(place) = first_bad_of(journaled, 0, ports.host.receipts()) {
        return Some(FirstBadReceipt { port: 0, place });
    }
    if let Some(place) = first_bad_of(journaled, 1, ports.link.receipts()) {
        return Some(FirstBadReceipt { port: 1, place });
    }
    if let Some(place) = first_bad_of(journaled, 2, ports.service.receipts()) {
        return Some(FirstBadReceipt { port: 2, place });
    }
    let endpoints = ports.endpoints.as_slice();
    if let Some(bad) = first_bad_from(journaled, 3, endpoints) {
        return Some(bad);
    }
    let workers = ports.workers.as_slice();
    first_bad_from(journaled, 3 + endpoints.len() as u64, workers)
}

/// How many ports there are.
#[tactic(auto, using(crate::proofs::Sums::length_both))]
fn count_of<C: Ledgers>(ports: &Ports<C>) -> u64
    ensures { result ≡ length (states_of ports.now) }
{
    let endpoints = ports.endpoints.as_slice();
    let workers = ports.workers.as_slice();
    3 + endpoints.len() as u64 + workers.len() as u64
}

/// Tells that the calls of all ports are so many.
#[tactic(auto, using(crate::proofs::Sums::calls_append))]
fn adds_up<C: Ledgers>(calls: u64, ports: &Ports<C>) -> bool
    ensures yes { result ≡ true → calls_of (states_of ports.now) ≡ calls }
    ensures no { result ≡ false → calls_of (states_of ports.now) ≡ calls → ⊥ }
{
    let Some(left) = left_of(calls, &ports.host) else {
        return false;
    };
    let Some(left) = left_of(left, &ports.link) else {
        return false;
    };
    let Some(left) = left_of(left, &ports.service) else {
        return false;
    };
    let Some(left) = left_of_all(left, ports.endpoints.as_slice()) else {
        return false;
    };
    let Some(left) = left_of_all(left, ports.workers.as_slice()) else {
        return false;
    };
    left == 0
}

/// How many calls are left without those of a port, if it hasn't more.
fn left_of<C: Ledgers>(calls: u64, port: &Port<C>) -> Option<u64>
    ensures some { IfSome result (λ left. left + length port.now.receipts ≡ calls) }
    ensures none { IfNone result (calls < length port.now.receipts) }
{
    calls.checked_sub(port.calls())
}

/// How many calls are left without those of several ports, if they haven't more.
fn left_of_all<C: Ledgers>(calls: u64, ports: &[Port<C>]) -> Option<u64>
    ensures some { IfSome result (λ left. left + calls_of ports.now ≡ calls) }
    ensures none { IfNone result (calls < calls_of ports.now) }
{
    let mut left = calls;
    for port in ports {
        let Some(rest) = left_of(left, port) else {
            return None;
        };
        left = rest;
    }
    Some(left)
}
