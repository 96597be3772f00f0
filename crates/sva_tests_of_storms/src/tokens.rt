//! What becomes of tokens where a loop meets a reset, or ends with a job in hand.

use crate::callbacks::HELD;
use crate::worlds::{Setting, Tried, last_answer, left_of, plays_alone, scenario, set_up, sets};
use std::alloc::Global;
use std::process::Abort;
use std::sync::Wait;
use sva_fabric::{Fabric, Leaving, Moved};
use sva_scenario::{
    Device, Lease, Ledgers, Pager, Port, Ports, Tokens, UseTicket, endpoint_loop, fault_loop,
};
use sva_step::{Answer, Refusal, Step, Verdict};

/// A device whose endpoint is reset while it is touched, by the ports of host and link.
#[derive(Drop)]
struct Resets<'a, C: Ledgers, R> {
    fabric: &'a Fabric<C>,
    rt: &'a R,
    host: Port<C>,
    link: Port<C>,
    frame: Option<u32>,
}

impl<'a, C: Ledgers, R: Wait> Device for Resets<'a, C, R> {
    fn touch(&mut self, frame: u32, _write: bool) {
        self.frame = Some(frame);
        let _asked = self
            .fabric
            .step(self.rt, &mut self.host, &Step::Reset { endpoint: 0 });
        // Start, request and completion were 0 to 2.
        for message in 3..5 {
            let _moved = self
                .fabric
                .step(self.rt, &mut self.link, &Step::Deliver { message });
        }
    }
}

/// How often it was asked.
#[derive(Drop)]
struct Counting {
    asked: u64,
}

impl Pager for Counting {
    fn decide(&mut self, _binding: u64, _group: u8, _pages: u32) -> Verdict {
        self.asked = self.asked.wrapping_add(1);
        Verdict::Success
    }
}

const USES: &str = "config 1 4 1\nuse 0 1 16 w\nend 0 0\n";

/// A use is touched by a device that resets its endpoint, and is dead when it ends.
fn uses<C: Ledgers, R: Wait + Abort>(
    rt: &R,
    alloc: Global,
    fabric: &Fabric<C>,
    ports: Ports<C>,
    tickets: &mut Vec<UseTicket<C>>,
) -> Ports<C> {
    let script = scenario(rt, alloc, USES).steps;
    let lines = script.as_slice();
    let Ports {
        host,
        link,
        service,
        mut endpoints,
        workers,
    } = ports;
    let [endpoint] = endpoints.as_mut_slice() else {
        panic!(rt; "there is one");
    };
    let mut device = Resets {
        fabric,
        rt,
        host,
        link,
        frame: None,
    };
    let ended = endpoint_loop(fabric, rt, alloc, endpoint, &mut device, lines, 10);
    assert!(rt; device.frame == Some(1));
    assert!(rt; left_of(rt, ended, tickets) == (8, 0));
    assert!(rt; last_answer(endpoint) == Some(Ok(Answer::Dead)));
    let Resets { host, link, .. } = device;
    Ports {
        host,
        link,
        service,
        endpoints,
        workers,
    }
}

/// A use that is reset while it runs.
pub(crate) fn reset_in_use<C: Ledgers, R: Wait + Abort>(
    rt: &R,
    alloc: Global,
    fabric: &Fabric<C>,
    ports: Ports<C>,
    tokens: Tokens<C>,
) -> (Ports<C>, Tokens<C>) {
    let (mut ports, mut tokens) = (ports, tokens);
    set_up(rt, alloc, fabric, &mut ports, &HELD, &mut tokens);
    let ports = uses(rt, alloc, fabric, ports, &mut tokens.tickets);
    assert!(rt; last_answer(&ports.host) == Some(Ok(Answer::Resetting)));
    assert!(rt; last_answer(&ports.link) == Some(Ok(Answer::ResetDone)));
    (ports, tokens)
}

#[test]
fn a_reset_in_a_use(rt: HostRuntime) {
    assert!(rt; plays_alone(&rt, rt.alloc(), Tried::ResetInUse) == (2, 2, 0));
}

const JOB: Setting = Setting {
    mapped: "config 1 4 1\nspace\n",
    bound: &[(0, 0)],
    moved: "config 1 4 1\ndeliver 0\nfault 0 1 32 r new last\ndeliver 1\nserve 0\n",
};

const MARKED: &str = "config 1 4 1\ndeliver 2\nquit 0 1\ndeliver 3\n";

const PUMP: &str = "config 1 4 1\npump 0\n";

/// The worker takes the job in its one turn, and its pager decides.
fn takes<C: Ledgers, R: Wait + Abort>(
    rt: &R,
    alloc: Global,
    fabric: &Fabric<C>,
    workers: &mut [Port<C>],
    tickets: &mut Vec<UseTicket<C>>,
) {
    let [worker] = workers else {
        panic!(rt; "there is one");
    };
    let mut pager = Counting { asked: 0 };
    let ended = fault_loop(fabric, rt, alloc, worker, 0, &mut pager, 1);
    assert!(rt; left_of(rt, ended, tickets) == (0, 0));
    assert!(rt; pager.asked == 1);
    let job = Answer::JobTaken {
        binding: 0,
        group: 0,
        pages: 1,
    };
    assert!(rt; last_answer(worker) == Some(Ok(job)));
}

/// Begins to take the one binding back.
fn unbinds<C: Ledgers, R: Wait + Abort>(
    rt: &R,
    fabric: &Fabric<C>,
    port: &mut Port<C>,
    leases: &mut Vec<Lease<C>>,
) -> Leaving<C> {
    let Some(lease) = leases.pop() else {
        panic!(rt; "it was bound");
    };
    match fabric.unbind(rt, port, lease) {
        Ok(leaving) => leaving,
        Err(_) => panic!(rt; "it unbinds"),
    }
}

/// Asks for the next stage, and compares the answer.
fn advances<C: Ledgers, R: Wait + Abort>(
    rt: &R,
    fabric: &Fabric<C>,
    port: &mut Port<C>,
    leaving: Leaving<C>,
    answer: Result<Answer, Refusal>,
) -> Leaving<C> {
    let leaving = match fabric.advance(rt, port, leaving) {
        Ok(Moved::Again(leaving)) => leaving,
        Ok(Moved::Gone) => panic!(rt; "it stays"),
        Err((leaving, _)) => leaving,
    };
    assert!(rt; last_answer(port) == Some(answer));
    leaving
}

/// Moves the binding to Draining, where the job in hand keeps it, also after its wait.
fn drains<C: Ledgers, R: Wait + Abort>(
    rt: &R,
    alloc: Global,
    fabric: &Fabric<C>,
    ports: &mut Ports<C>,
    leases: &mut Vec<Lease<C>>,
    tickets: &mut Vec<UseTicket<C>>,
) -> Leaving<C> {
    let Ports { host, service, .. } = ports;
    let leaving = unbinds(rt, fabric, host, leases);
    let _none = sets(rt, alloc, fabric, service, MARKED, tickets);
    let leaving = advances(rt, fabric, host, leaving, Ok(Answer::Draining));
    let _none = sets(rt, alloc, fabric, service, PUMP, tickets);
    assert!(rt; last_answer(service) == Some(Ok(Answer::WaitDone)));
    advances(rt, fabric, host, leaving, Err(Refusal::NotYet))
}

/// A binding whose job is in hand is taken back.
pub(crate) fn job_in_hand<C: Ledgers, R: Wait + Abort>(
    rt: &R,
    alloc: Global,
    fabric: &Fabric<C>,
    ports: &mut Ports<C>,
    tokens: &mut Tokens<C>,
) {
    set_up(rt, alloc, fabric, ports, &JOB, tokens);
    let Tokens {
        leases,
        leavings,
        tickets,
    } = tokens;
    takes(rt, alloc, fabric, ports.workers.as_mut_slice(), tickets);
    let leaving = drains(rt, alloc, fabric, ports, leases, tickets);
    assert!(rt; leavings.reserve(1).is_ok());
    leavings.push_reserved(leaving);
}

#[test]
fn a_job_in_hand(rt: HostRuntime) {
    assert!(rt; plays_alone(&rt, rt.alloc(), Tried::JobInHand) == (4, 0, 0));
}
