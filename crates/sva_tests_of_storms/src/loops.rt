//! That one port's use or job doesn't hold up another's.

use crate::meetings::Marks;
use crate::worlds::{Setting, Tried, each_ends, left_of, plays_alone, scenario, set_up, sets};
use std::alloc::Global;
use std::process::Abort;
use std::sync::{Barrier, Wait};
use std::thread;
use std::thread::Threads;
use sva_fabric::Fabric;
use sva_scenario::{Ended, Ledgers, Port, Ports, Tokens, endpoint_loop, fault_loop};
use sva_step::Answer;

const ASKED: Setting = Setting {
    mapped: "config 2 4 1\nspace\nmap 0 16 w\n",
    bound: &[(0, 0), (1, 0)],
    moved: "config 2 4 1
deliver 0
deliver 1
ask 0 1 16
ask 1 1 16
deliver 2
deliver 3
deliver 4
deliver 5
",
};

const MAPPED: &str = "config 2 4 1\nmap 0 17 w\nask 0 1 17\ndeliver 6\ndeliver 7\nuse 0 1 17 w\n";

const ONE_USES: &str = "config 2 4 1\nuse 0 1 16 w\nend 0 1\n";

const TWO_USES: &str = "config 2 4 1\nuse 1 1 16 w\n";

/// Two endpoints, each with a translation of page 16 in hand, use it at the same time.
fn use_at_once<C: Ledgers + Send + Sync, R: Threads + Wait + Abort + Sync>(
    rt: &R,
    alloc: Global,
    fabric: &Fabric<C>,
    first: &mut Port<C>,
    second: &mut Port<C>,
) -> (Ended<C>, Ended<C>) {
    let one_uses = scenario(rt, alloc, ONE_USES).steps;
    let two_uses = scenario(rt, alloc, TWO_USES).steps;
    let (lines_one, lines_two) = (one_uses.as_slice(), two_uses.as_slice());
    let marks = Marks::new();
    let (mut one, mut two) = (marks.first(10_000), marks.second(10_000));
    let barrier = Barrier::new(2);
    let meet = &barrier;
    let ended = thread::join(
        rt,
        || {
            meet.wait(rt);
            endpoint_loop(fabric, rt, alloc, first, &mut one, lines_one, 100)
        },
        || {
            meet.wait(rt);
            endpoint_loop(fabric, rt, alloc, second, &mut two, lines_two, 100)
        },
    );
    marks.have_met(rt);
    ended
}

/// A page is mapped and then used by one port. Two others use a page at the same time: their turns and tickets tell that both did.
pub(crate) fn two_uses<C: Ledgers + Send + Sync, R: Threads + Wait + Abort + Sync>(
    rt: &R,
    alloc: Global,
    fabric: &Fabric<C>,
    ports: &mut Ports<C>,
    tokens: &mut Tokens<C>,
) {
    set_up(rt, alloc, fabric, ports, &ASKED, tokens);
    let Tokens { tickets, .. } = tokens;
    let Ports {
        service,
        endpoints,
        ..
    } = ports;
    let seen = sets(rt, alloc, fabric, service, MAPPED, tickets);
    assert!(rt; seen.touched == Some((1, true)));
    let mapped = service.receipts().first().map(|receipt| receipt.answer);
    assert!(rt; mapped == Some(Ok(Answer::Frame { frame: 1 })));
    let [first, second] = endpoints.as_mut_slice() else {
        panic!(rt; "there are two");
    };
    let (first, second) = use_at_once(rt, alloc, fabric, first, second);
    assert!(rt; left_of(rt, first, tickets) == (98, 0));
    assert!(rt; left_of(rt, second, tickets) == (99, 1));
}

#[test]
fn two_uses_at_once(rt: HostRuntime) {
    assert!(rt; plays_alone(&rt, rt.alloc(), Tried::TwoUses) == (2, 2, 0));
}

const JOBS: Setting = Setting {
    mapped: "config 1 4 2\nspace\n",
    bound: &[(0, 0)],
    moved: "config 1 4 2
deliver 0
fault 0 1 32 r new last
fault 0 1 33 r new last
deliver 1
deliver 2
serve 0
serve 0
",
};

/// Two workers with a job each decide at the same time.
fn decide_at_once<C: Ledgers + Send + Sync, R: Threads + Wait + Abort + Sync>(
    rt: &R,
    alloc: Global,
    fabric: &Fabric<C>,
    first: &mut Port<C>,
    second: &mut Port<C>,
) -> (Ended<C>, Ended<C>) {
    let marks = Marks::new();
    let (mut one, mut two) = (marks.first(10_000), marks.second(10_000));
    let barrier = Barrier::new(2);
    let meet = &barrier;
    let ended = thread::join(
        rt,
        || {
            meet.wait(rt);
            fault_loop(fabric, rt, alloc, first, 0, &mut one, 2)
        },
        || {
            meet.wait(rt);
            fault_loop(fabric, rt, alloc, second, 1, &mut two, 2)
        },
    );
    marks.have_met(rt);
    ended
}

/// Two workers have a job each.
pub(crate) fn two_jobs<C: Ledgers + Send + Sync, R: Threads + Wait + Abort + Sync>(
    rt: &R,
    alloc: Global,
    fabric: &Fabric<C>,
    ports: &mut Ports<C>,
    tokens: &mut Tokens<C>,
) {
    set_up(rt, alloc, fabric, ports, &JOBS, tokens);
    let Tokens { tickets, .. } = tokens;
    let [first, second] = ports.workers.as_mut_slice() else {
        panic!(rt; "there are two");
    };
    let (one, two) = decide_at_once(rt, alloc, fabric, first, second);
    assert!(rt; left_of(rt, one, tickets) == (0, 0));
    assert!(rt; left_of(rt, two, tickets) == (0, 0));
    assert!(rt; each_ends(ports.workers.as_slice(), Answer::Success { pages: 1 }, None));
}

#[test]
fn two_jobs_at_once(rt: HostRuntime) {
    assert!(rt; plays_alone(&rt, rt.alloc(), Tried::TwoJobs) == (2, 2, 0));
}
