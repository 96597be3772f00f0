//! A world of its own for each test of loops, and the playing of lines on it.

ghost use Rattle.std.specs.Prelude.{◌≡◌, ◌+◌};

use crate::callbacks::{fails, invalid, refused_success, seventeen_uses, touches};
use crate::loops::{two_jobs, two_uses};
use crate::tokens::{job_in_hand, reset_in_use};
use std::alloc::Global;
use std::marker::Brand;
use std::process::Abort;
use std::sync::Wait;
use std::thread::Threads;
use sva_fabric::Fabric;
use sva_grammar::{Scenario, parse};
use sva_scenario::{
    Audit, Blanks, Device, Ended, Lease, Ledgers, Port, Ports, Tokens, UseTicket, endpoint_loop,
};
use sva_step::{Answer, Config, Refusal, Step};

/// What is played on a world.
#[derive(Clone, Copy)]
pub(crate) enum Tried {
    Touches,
    SeventeenUses,
    Fails,
    Invalid,
    RefusedSuccess,
    TwoUses,
    TwoJobs,
    ResetInUse,
    JobInHand,
}

/// The config of its world.
fn config_of(tried: Tried) -> Config {
    match tried {
        Tried::TwoUses => with(2, 1),
        Tried::TwoJobs => with(1, 2),
        _ => with(1, 1),
    }
}

/// Four frames, so many endpoints and so many workers.
fn with(endpoints: u64, workers: u64) -> Config {
    Config {
        endpoints,
        frames: 4,
        workers,
        first: 0,
    }
}

/// Keeps what it was told of the last use, and how often it was told.
#[derive(Drop)]
struct Keeping {
    touched: Option<(u32, bool)>,
    count: u64,
}

impl Device for Keeping {
    fn touch(&mut self, frame: u32, write: bool) {
        self.touched = Some((frame, write));
        self.count = self.count.wrapping_add(1);
    }
}

/// What is seen of a loop.
#[derive(Drop)]
pub(crate) struct Seen {
    /// What the device was told last.
    pub(crate) touched: Option<(u32, bool)>,
    /// How often it was told.
    pub(crate) count: u64,
    /// How many turns weren't used.
    pub(crate) turns_left: u64,
}

/// The config and the steps of a scenario.
pub(crate) fn scenario<R: Abort>(rt: &R, alloc: Global, text: &str) -> Scenario {
    match parse(alloc, text.as_bytes()) {
        Ok(scenario) => scenario,
        Err(_) => panic!(rt; "it can be read"),
    }
}

/// What a port's last call answered.
pub(crate) fn last_answer<C: Ledgers>(port: &Port<C>) -> Option<Result<Answer, Refusal>> {
    port.last().map(|receipt| receipt.answer)
}

/// Whether the last call of each of some ports was answered so, and each has made so many calls, if that is asked.
pub(crate) fn each_ends<C: Ledgers>(ports: &[Port<C>], answer: Answer, calls: Option<u64>) -> bool {
    ports.iter().all(|port| {
        last_answer(port) == Some(Ok(answer)) && calls.is_none_or(|calls| port.calls() == calls)
    })
}

/// The calls of all ports.
fn calls_of<C: Ledgers>(ports: &Ports<C>) -> u64 {
    let mut calls = ports.host.calls().wrapping_add(ports.link.calls());
    calls = calls.wrapping_add(ports.service.calls());
    for port in ports.endpoints.iter().chain(ports.workers.iter()) {
        calls = calls.wrapping_add(port.calls());
    }
    calls
}

/// Puts some tickets to others.
fn append<C: Ledgers, R: Abort>(rt: &R, from: Vec<UseTicket<C>>, into: &mut Vec<UseTicket<C>>) {
    let mut from = from;
    while let Some(ticket) = from.pop() {
        assert!(rt; into.reserve(1).is_ok());
        into.push_reserved(ticket);
    }
    from.destroy_empty();
}

/// How many turns a loop that didn't want memory has left, and how many tickets, which are put to others.
pub(crate) fn left_of<C: Ledgers, R: Abort>(
    rt: &R,
    ended: Ended<C>,
    tickets: &mut Vec<UseTicket<C>>,
) -> (u64, usize) {
    let Ended {
        turns_left,
        out_of_memory,
        tickets: own,
    } = ended;
    assert!(rt; !out_of_memory);
    let count = own.len();
    append(rt, own, tickets);
    (turns_left, count)
}

/// Plays lines by a port in so many turns. The tickets are put to others.
pub(crate) fn plays<C: Ledgers, R: Wait + Abort>(
    rt: &R,
    alloc: Global,
    fabric: &Fabric<C>,
    port: &mut Port<C>,
    lines: &[Step],
    turns: u64,
    tickets: &mut Vec<UseTicket<C>>,
) -> Seen {
    let mut device = Keeping {
        touched: None,
        count: 0,
    };
    let ended = endpoint_loop(fabric, rt, alloc, port, &mut device, lines, turns);
    let Keeping { touched, count } = device;
    Seen {
        touched,
        count,
        turns_left: left_of(rt, ended, tickets).0,
    }
}

/// Plays the lines of a text, each of which is accepted at its first try.
pub(crate) fn sets<C: Ledgers, R: Wait + Abort>(
    rt: &R,
    alloc: Global,
    fabric: &Fabric<C>,
    port: &mut Port<C>,
    text: &str,
    tickets: &mut Vec<UseTicket<C>>,
) -> Seen {
    let script = scenario(rt, alloc, text).steps;
    let lines = script.as_slice();
    let seen = plays(rt, alloc, fabric, port, lines, lines.len() as u64, tickets);
    assert!(rt; seen.turns_left == 0);
    assert!(rt; port.last().is_some_and(|receipt| receipt.answer.is_ok()));
    seen
}

/// Binds a space to an endpoint.
fn binds<C: Ledgers, R: Wait + Abort>(
    rt: &R,
    fabric: &Fabric<C>,
    port: &mut Port<C>,
    endpoint: u64,
    space: u64,
    leases: &mut Vec<Lease<C>>,
) {
    assert!(rt; leases.reserve(1).is_ok());
    match fabric.bind(rt, port, endpoint, space) {
        Ok(lease) => leases.push_reserved(lease),
        Err(_) => panic!(rt; "it binds"),
    }
}

/// What comes before the part of a test that is looked at.
pub(crate) struct Setting {
    /// The host's lines.
    pub(crate) mapped: &'static str,
    /// The endpoints that are bound then, each with its space.
    pub(crate) bound: &'static [(u64, u64)],
    /// The lines that the link's port plays then.
    pub(crate) moved: &'static str,
}

/// Sets a world up.
pub(crate) fn set_up<C: Ledgers, R: Wait + Abort>(
    rt: &R,
    alloc: Global,
    fabric: &Fabric<C>,
    ports: &mut Ports<C>,
    setting: &Setting,
    tokens: &mut Tokens<C>,
) {
    let Ports { host, link, .. } = ports;
    let Tokens {
        leases,
        tickets,
        ..
    } = tokens;
    let _host = sets(rt, alloc, fabric, host, setting.mapped, tickets);
    for (endpoint, space) in setting.bound {
        binds(rt, fabric, host, *endpoint, *space, leases);
    }
    let _link = sets(rt, alloc, fabric, link, setting.moved, tickets);
}

/// Plays on a world of a config. Its audit, which counts each call of the ports.
fn plays_on<C: Ledgers + Send + Sync, R: Threads + Wait + Abort + Sync>(
    rt: &R,
    alloc: Global,
    tried: Tried,
    config: Config,
    blanks: Blanks,
) -> Audit
    requires name { blanks.calls.name ≡ C.name }
    requires parts { blanks.calls.parts ≡ C.parts }
    requires ports { blanks.calls.parts ≡ 3 + config.endpoints + config.workers }
    requires bindings { blanks.bindings.name ≡ C.bindings }
    requires uses { blanks.uses.name ≡ C.uses }
    requires config { C.config ≡ config }
{
    let Ok((fabric, ports)) = Fabric::<C>::open(alloc, config, blanks) else {
        panic!(rt; "it opens");
    };
    let (ports, tokens) = played(rt, alloc, tried, &fabric, ports);
    let sum = calls_of(&ports);
    let Ok(audit) = fabric.finish(ports, tokens) else {
        panic!(rt; "its audit is good");
    };
    assert!(rt; audit.calls == sum);
    audit
}

/// Plays on a world. Its ports and tokens at the end.
fn played<C: Ledgers + Send + Sync, R: Threads + Wait + Abort + Sync>(
    rt: &R,
    alloc: Global,
    tried: Tried,
    fabric: &Fabric<C>,
    ports: Ports<C>,
) -> (Ports<C>, Tokens<C>) {
    let mut ports = ports;
    let mut tokens = Tokens::new(alloc);
    match tried {
        Tried::Touches => touches(rt, alloc, fabric, &mut ports, &mut tokens),
        Tried::SeventeenUses => seventeen_uses(rt, alloc, fabric, &mut ports, &mut tokens),
        Tried::Fails => fails(rt, alloc, fabric, &mut ports, &mut tokens),
        Tried::Invalid => invalid(rt, alloc, fabric, &mut ports, &mut tokens),
        Tried::RefusedSuccess => refused_success(rt, alloc, fabric, &mut ports, &mut tokens),
        Tried::TwoUses => two_uses(rt, alloc, fabric, &mut ports, &mut tokens),
        Tried::TwoJobs => two_jobs(rt, alloc, fabric, &mut ports, &mut tokens),
        Tried::ResetInUse => return reset_in_use(rt, alloc, fabric, ports, tokens),
        Tried::JobInHand => job_in_hand(rt, alloc, fabric, &mut ports, &mut tokens),
    }
    (ports, tokens)
}

/// Plays on a world of its own. How many of its frames are free, mapped and withheld at the end.
pub(crate) fn plays_alone<R: Threads + Wait + Abort + Sync>(
    rt: &R,
    alloc: Global,
    tried: Tried,
) -> (u32, u32, u32) {
    let config = config_of(tried);
    assert!(rt; config.fits());
    let blanks = Blanks::new(&config);
    let audit = plays_on::<Brand, R>(rt, alloc, tried, config, blanks);
    (audit.free, audit.mapped, audit.withheld)
}
