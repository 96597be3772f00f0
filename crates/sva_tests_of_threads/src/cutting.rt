//! A cut: a part falls silent behind some of its lines, and what holds once all threads are joined.

ghost use Rattle.std.specs.Prelude.{◌≡◌, ◌+◌};

use crate::lines::{ONE, PARTS, lines_of};
use crate::thread_states::{Cut, Pace, ThreadState, run_all};
use crate::worlds::answered;
use std::alloc::Global;
use std::marker::Brand;
use std::process::Abort;
use std::sync::Wait;
use std::thread::Threads;
use sva_fabric::{Blanks, Fabric, Ledgers, Port, Ports, Tokens, UseTicket};
use sva_step::{Answer, Step};

/// How many uses are in hand at the end.
#[derive(Drop)]
pub(crate) struct Left {
    /// Those whose frame isn't free.
    pub(crate) held: u64,
    /// Those whose frame is free.
    pub(crate) dead: u64,
}

/// Puts some values to others.
fn append<R: Abort, T>(rt: &R, from: Vec<T>, into: &mut Vec<T>) {
    let mut from = from;
    while let Some(one) = from.pop() {
        assert!(rt; into.reserve(1).is_ok());
        into.push_reserved(one);
    }
    from.destroy_empty();
}

/// Takes a state apart: its tokens are put to the others'.
fn take_apart<C: Ledgers, R: Abort>(rt: &R, state: ThreadState<C>, all: &mut Tokens<C>) -> Port<C> {
    let (
        port,
        Tokens {
            leases,
            leavings,
            tickets,
        },
    ) = state.leave();
    append(rt, leases, &mut all.leases);
    append(rt, leavings, &mut all.leavings);
    append(rt, tickets, &mut all.tickets);
    port
}

/// Where a frame is, as the host sees it.
fn is_free<C: Ledgers, R: Wait + Abort>(
    rt: &R,
    fabric: &Fabric<C>,
    host: &mut Port<C>,
    frame: u32,
) -> bool {
    let frame = frame.into();
    answered(rt, fabric, host, &Step::Look { frame }) == Ok(Answer::Free)
}

/// Looks at the frames of the uses in hand. A use whose frame is free isn't running any more. The other tickets are kept.
fn judge<C: Ledgers, R: Wait + Abort>(
    rt: &R,
    alloc: Global,
    fabric: &Fabric<C>,
    host: &mut Port<C>,
    endpoint: &mut Port<C>,
    tickets: Vec<UseTicket<C>>,
) -> (Vec<UseTicket<C>>, Left) {
    let mut tickets = tickets;
    let mut kept = Vec::new(alloc);
    let mut left = Left { held: 0, dead: 0 };
    while let Some(ticket) = tickets.pop() {
        if is_free(rt, fabric, host, ticket.frame()) {
            match fabric.end(rt, endpoint, ticket) {
                Ok(answer) => assert!(rt; answer == Answer::Dead),
                Err(_) => panic!(rt; "it ends"),
            }
            left.dead = left.dead.wrapping_add(1);
        } else {
            assert!(rt; kept.reserve(1).is_ok());
            kept.push_reserved(ticket);
            left.held = left.held.wrapping_add(1);
        }
    }
    tickets.destroy_empty();
    (kept, left)
}

/// Ends the sharing: the audit finds each receipt, no other calls, and each token; and each frame is at one place.
fn ends<C: Ledgers, R: Abort>(rt: &R, fabric: Fabric<C>, ports: Ports<C>, tokens: Tokens<C>) {
    let mut sum = ports.host.calls().wrapping_add(ports.link.calls());
    sum = sum.wrapping_add(ports.service.calls());
    for port in ports.endpoints.iter().chain(ports.workers.iter()) {
        sum = sum.wrapping_add(port.calls());
    }
    let Ok(audit) = fabric.finish(ports, tokens) else {
        panic!(rt; "the audit is good");
    };
    assert!(rt; audit.calls == sum);
    let frames = u64::from(audit.free) + u64::from(audit.mapped) + u64::from(audit.withheld);
    assert!(rt; frames == ONE.frames);
}

/// Adds the state of a port.
fn add<C: Ledgers, R: Abort>(
    rt: &R,
    alloc: Global,
    port: Port<C>,
    cut: &Cut<'_>,
    states: &mut Vec<ThreadState<C>>,
) {
    assert!(rt; states.reserve(1).is_ok());
    states.push_reserved(ThreadState::new(rt, alloc, port, cut));
}

/// The states of all ports, by their numbers.
fn states_of<C: Ledgers, R: Abort>(
    rt: &R,
    alloc: Global,
    ports: Ports<C>,
    cut: &Cut<'_>,
) -> Vec<ThreadState<C>> {
    let Ports {
        host,
        link,
        service,
        endpoints,
        workers,
    } = ports;
    let mut states = Vec::new(alloc);
    add(rt, alloc, host, cut, &mut states);
    add(rt, alloc, link, cut, &mut states);
    add(rt, alloc, service, cut, &mut states);
    for endpoint in endpoints {
        add(rt, alloc, endpoint, cut, &mut states);
    }
    for worker in workers {
        add(rt, alloc, worker, cut, &mut states);
    }
    states
}

/// Takes all states apart: their ports from the last one on.
fn take_all_apart<C: Ledgers, R: Abort>(
    rt: &R,
    alloc: Global,
    states: Vec<ThreadState<C>>,
    all: &mut Tokens<C>,
) -> Vec<Port<C>> {
    let mut states = states;
    let mut ports = Vec::new(alloc);
    while let Some(state) = states.pop() {
        let port = take_apart(rt, state, all);
        assert!(rt; ports.push(port).is_ok());
    }
    states.destroy_empty();
    ports
}

/// The port that stands last.
fn next<C: Ledgers, R: Abort>(rt: &R, ports: &mut Vec<Port<C>>) -> Port<C> {
    match ports.pop() {
        Some(port) => port,
        None => panic!(rt; "there is one"),
    }
}

/// The ports by their parts.
fn ports_by_part<C: Ledgers, R: Abort>(rt: &R, alloc: Global, ports: Vec<Port<C>>) -> Ports<C> {
    let mut ports = ports;
    let host = next(rt, &mut ports);
    let link = next(rt, &mut ports);
    let service = next(rt, &mut ports);
    let mut endpoints = Vec::new(alloc);
    assert!(rt; endpoints.push(next(rt, &mut ports)).is_ok());
    Ports {
        host,
        link,
        service,
        endpoints,
        workers: ports,
    }
}

/// Judges the uses that are in hand once all threads are joined, and ends the sharing.
fn judge_all<C: Ledgers, R: Wait + Abort>(
    rt: &R,
    alloc: Global,
    fabric: Fabric<C>,
    states: Vec<ThreadState<C>>,
) -> Left {
    let mut tokens = Tokens::new(alloc);
    let ports = take_all_apart(rt, alloc, states, &mut tokens);
    let mut ports = ports_by_part(rt, alloc, ports);
    let Tokens {
        leases,
        leavings,
        tickets,
    } = tokens;
    let Ports {
        host,
        endpoints,
        ..
    } = &mut ports;
    let [endpoint] = endpoints.as_mut_slice() else {
        panic!(rt; "there is one");
    };
    let (tickets, left) = judge(rt, alloc, &fabric, host, endpoint, tickets);
    let tokens = Tokens {
        leases,
        leavings,
        tickets,
    };
    ends(rt, fabric, ports, tokens);
    left
}

fn cut_with<C: Ledgers + Send + Sync, R: Threads + Wait + Abort + Sync>(
    rt: &R,
    alloc: Global,
    cut: &Cut<'_>,
    pace: Pace,
    blanks: Blanks,
) -> Left
    requires name { blanks.calls.name ≡ C.name }
    requires parts { (blanks.calls.parts ≡ C.parts) × (blanks.calls.parts ≡ 5) }
    requires bindings { blanks.bindings.name ≡ C.bindings }
    requires uses { blanks.uses.name ≡ C.uses }
    requires config { C.config ≡ ONE }
{
    let Ok((fabric, ports)) = Fabric::<C>::open(alloc, ONE, blanks) else {
        panic!(rt; "it opens");
    };
    let mut states = states_of(rt, alloc, ports, cut);
    run_all(rt, &fabric, states.as_mut_slice(), pace);
    judge_all(rt, alloc, fabric, states)
}

/// Plays the steps of a cut, on a world of its own.
fn cut<R: Threads + Wait + Abort + Sync>(rt: &R, alloc: Global, cut: &Cut<'_>, pace: Pace) -> Left {
    cut_with::<Brand, R>(rt, alloc, cut, pace, Blanks::new(&ONE))
}

/// Plays steps with each part silent behind each of its lines. Tells how many cuts there were, and what they left.
pub(crate) fn cut_all<R: Threads + Wait + Abort + Sync>(
    rt: &R,
    alloc: Global,
    steps: &[Step],
    pace: Pace,
) -> (u64, Left) {
    let mut cuts = 0u64;
    let mut all = Left { held: 0, dead: 0 };
    for part in 0..PARTS {
        let lines = lines_of(rt, alloc, steps, part, steps.len()).len();
        for length in 0..lines.wrapping_add(1) {
            let one = cut(
                rt,
                alloc,
                &Cut {
                    steps,
                    part,
                    length,
                },
                pace,
            );
            cuts = cuts.wrapping_add(1);
            all.held = all.held.wrapping_add(one.held);
            all.dead = all.dead.wrapping_add(one.dead);
        }
    }
    (cuts, all)
}
