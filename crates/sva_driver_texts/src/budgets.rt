//! What can't be made of a budget, and why.

ghost use Rattle.std.specs.Prelude.{◌≡◌};
ghost use Rattle.sva_driver_texts.specs.Budgets as budgets;

use sva_open::{Act, Device, Line, LocalAct, Saying};

fn is_start(act: &LocalAct) -> bool
    ensures { result ≡ budgets.is_start act.now }
{
    matches!(act, LocalAct::Start { .. })
}

/// Whether a line starts a PASID at an endpoint.
fn starts_at(endpoint: usize, saying: &Saying) -> bool
    ensures { result ≡ budgets.starts_at endpoint saying.now }
{
    match saying {
        Saying::Does { act } => match act {
            Act::At { endpoint: own, act } => *own == endpoint && is_start(act),
            Act::Mark
            | Act::SetPage { .. }
            | Act::ClearPage { .. }
            | Act::FreeFrame { .. }
            | Act::Freeze { .. }
            | Act::FreeSpace { .. }
            | Act::FreeDomain { .. } => false,
        },
        Saying::Names { .. }
        | Saying::AwaitsLine { .. }
        | Saying::AwaitsWaits { .. }
        | Saying::Locks { .. }
        | Saying::Unlocks { .. }
        | Saying::Sets { .. }
        | Saying::Looks { .. } => false,
    }
}

fn is_started(lines: &[Line], endpoint: usize) -> bool
    ensures { result ≡ budgets.is_started lines.now endpoint }
{
    lines.iter().any(|line| starts_at(endpoint, &line.saying))
}

fn is_ask(act: &LocalAct) -> bool
    ensures { result ≡ budgets.is_ask act.now }
{
    matches!(act, LocalAct::Ask { .. })
}

/// Whether a line asks for a translation at an endpoint.
fn asks_at(endpoint: usize, saying: &Saying) -> bool
    ensures { result ≡ budgets.asks_at endpoint saying.now }
{
    match saying {
        Saying::Does { act } => match act {
            Act::At { endpoint: own, act } => *own == endpoint && is_ask(act),
            Act::Mark
            | Act::SetPage { .. }
            | Act::ClearPage { .. }
            | Act::FreeFrame { .. }
            | Act::Freeze { .. }
            | Act::FreeSpace { .. }
            | Act::FreeDomain { .. } => false,
        },
        Saying::Names { .. }
        | Saying::AwaitsLine { .. }
        | Saying::AwaitsWaits { .. }
        | Saying::Locks { .. }
        | Saying::Unlocks { .. }
        | Saying::Sets { .. }
        | Saying::Looks { .. } => false,
    }
}

fn is_asked(lines: &[Line], endpoint: usize) -> bool
    ensures { result ≡ budgets.is_asked lines.now endpoint }
{
    lines.iter().any(|line| asks_at(endpoint, &line.saying))
}

/// How many lines ask for a translation at an endpoint.
pub fn asks_in(lines: &[Line], endpoint: usize) -> usize
    ensures { result ≡ budgets.asks_in lines.now endpoint }
{
    lines
        .iter()
        .filter(|line| asks_at(endpoint, &line.saying))
        .count()
}

/// Whether it may do something by itself.
pub fn has_budget(device: &Device) -> bool
    ensures { result ≡ budgets.has_budget device.now }
{
    let budget = device.budget;
    0 < budget.asks || 0 < budget.uses || 0 < budget.faults
}

/// Whether nothing can be made, since no PASID is ever on.
pub fn is_unstarted(lines: &[Line], endpoint: usize, device: &Device) -> bool
    ensures { result ≡ budgets.is_unstarted lines.now endpoint device.now }
{
    has_budget(device) && !is_started(lines, endpoint)
}

fn has_page(device: &Device) -> bool
    ensures { result ≡ budgets.has_page device.now }
{
    0 < device.pages.len()
}

/// Whether no ask or fault can be made, since there is no page.
pub fn is_pageless(device: &Device) -> bool
    ensures { result ≡ budgets.is_pageless device.now }
{
    (0 < device.budget.asks || 0 < device.budget.faults) && !has_page(device)
}

/// Whether no use can be made, since nothing is ever asked for.
pub fn is_unasked(lines: &[Line], endpoint: usize, device: &Device) -> bool
    ensures { result ≡ budgets.is_unasked lines.now endpoint device.now }
{
    0 < device.budget.uses
        && !(0 < device.budget.asks && has_page(device))
        && !is_asked(lines, endpoint)
}
