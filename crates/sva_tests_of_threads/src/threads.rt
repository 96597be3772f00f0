//! Two threads that take turns, and three at once.

use crate::worlds::{Tried, answered, ends_so, map, takes};
use std::process::Abort;
use std::sync::{Barrier, Wait};
use std::thread;
use std::thread::Threads;
use sva_fabric::{Audit, Fabric, Ledgers, Port, Ports};
use sva_step::{Answer, Refusal, Step};

/// Each of two threads takes a step of its own, in turns: a barrier stands between one turn and the next.
pub(crate) fn in_turns<C: Ledgers + Send + Sync, R: Threads + Wait + Abort + Sync>(
    rt: &R,
    fabric: &Fabric<C>,
    ports: &mut Ports<C>,
) {
    let Ports { host, link, .. } = ports;
    let barrier = Barrier::new(2);
    let meet = &barrier;
    thread::join(
        rt,
        || {
            takes(rt, fabric, host, Step::Space, Answer::Space { space: 0 });
            meet.wait(rt);
            meet.wait(rt);
            takes(rt, fabric, host, map(17), Answer::Frame { frame: 1 });
        },
        || {
            meet.wait(rt);
            takes(rt, fabric, link, map(16), Answer::Frame { frame: 0 });
            meet.wait(rt);
        },
    );
    assert!(rt; ports.host.calls() == 2 && ports.link.calls() == 1);
}

#[test]
fn two_threads_take_turns(rt: HostRuntime) {
    let audit = Audit {
        calls: 3,
        free: 2,
        mapped: 2,
        withheld: 0,
    };
    assert!(rt; ends_so(&rt, rt.alloc(), Tried::Turns, audit));
}

/// What a look at one of five frames answers, of which there are four.
fn look_answer(frame: u64) -> Result<Answer, Refusal> {
    if frame < 4 {
        Ok(Answer::Free)
    } else {
        Err(Refusal::NoFrame)
    }
}

/// One look, whose answer is known.
fn look<C: Ledgers, R: Wait + Abort>(rt: &R, fabric: &Fabric<C>, port: &mut Port<C>, frame: u64) {
    let looked = answered(rt, fabric, port, &Step::Look { frame });
    assert!(rt; looked == look_answer(frame));
}

/// As many looks as the turns.
fn look_often<C: Ledgers, R: Wait + Abort>(
    rt: &R,
    fabric: &Fabric<C>,
    port: &mut Port<C>,
    turns: u64,
) {
    for turn in 0..turns {
        look(rt, fabric, port, turn % 5);
    }
}

/// A thread for each endpoint, and one for each worker.
pub(crate) fn at_once<C: Ledgers + Send + Sync, R: Threads + Wait + Abort + Sync>(
    rt: &R,
    fabric: &Fabric<C>,
    ports: &mut Ports<C>,
) {
    let Ports {
        endpoints,
        workers,
        ..
    } = ports;
    thread::scope(thread::scope_env(), rt, |scope| {
        for port in endpoints.iter_mut() {
            let started = scope.spawn(move || look_often(rt, fabric, port, 1000));
            assert!(rt; started.is_ok());
        }
        for port in workers.iter_mut() {
            let started = scope.spawn(move || look_often(rt, fabric, port, 500));
            assert!(rt; started.is_ok());
        }
    });
}

#[test]
fn three_threads_at_once(rt: HostRuntime) {
    let audit = Audit {
        calls: 2500,
        free: 4,
        mapped: 0,
        withheld: 0,
    };
    assert!(rt; ends_so(&rt, rt.alloc(), Tried::Looks, audit));
}
