//! What a device and a pager are told, what becomes of what a pager says, and how many uses a loop has in hand.

use crate::worlds::{
    Setting, Tried, each_ends, last_answer, plays, plays_alone, scenario, set_up, sets,
};
use std::alloc::Global;
use std::process::Abort;
use std::sync::Wait;
use sva_fabric::Fabric;
use sva_scenario::{Ended, Ledgers, Pager, Port, Ports, Tokens, fault_loop};
use sva_step::{Answer, Refusal, Verdict};

/// Says the same of each job, and keeps what it was told of the last one, and how often it was asked.
#[derive(Drop)]
struct Saying {
    verdict: Verdict,
    told: Option<(u64, u8, u32)>,
    asked: u64,
}

impl Pager for Saying {
    fn decide(&mut self, binding: u64, group: u8, pages: u32) -> Verdict {
        self.told = Some((binding, group, pages));
        self.asked = self.asked.wrapping_add(1);
        self.verdict
    }
}

/// The endpoint has the translation of page 16 in hand, whose frame is the second one.
pub(crate) const HELD: Setting = Setting {
    mapped: "config 1 4 1\nspace\nmap 0 17 w\nmap 0 16 w\n",
    bound: &[(0, 0)],
    moved: "config 1 4 1\ndeliver 0\nask 0 1 16\ndeliver 1\ndeliver 2\n",
};

const READS: &str = "config 1 4 1\nuse 0 1 16 r\n";

const WRITES: &str = "config 1 4 1\nuse 0 1 16 w\n";

/// A device is told the frame, and whether the use writes.
pub(crate) fn touches<C: Ledgers, R: Wait + Abort>(
    rt: &R,
    alloc: Global,
    fabric: &Fabric<C>,
    ports: &mut Ports<C>,
    tokens: &mut Tokens<C>,
) {
    set_up(rt, alloc, fabric, ports, &HELD, tokens);
    let Tokens { tickets, .. } = tokens;
    let read = sets(rt, alloc, fabric, &mut ports.link, READS, tickets);
    assert!(rt; (read.touched, read.count) == (Some((1, false)), 1));
    let written = sets(rt, alloc, fabric, &mut ports.link, WRITES, tickets);
    assert!(rt; (written.touched, written.count) == (Some((1, true)), 1));
}

#[test]
fn what_a_device_is_told(rt: HostRuntime) {
    assert!(rt; plays_alone(&rt, rt.alloc(), Tried::Touches) == (2, 2, 0));
}

const USES: &str = "config 1 4 1
use 0 1 16 r
use 0 1 16 r
use 0 1 16 r
use 0 1 16 r
use 0 1 16 r
use 0 1 16 r
use 0 1 16 r
use 0 1 16 r
use 0 1 16 r
use 0 1 16 r
use 0 1 16 r
use 0 1 16 r
use 0 1 16 r
use 0 1 16 r
use 0 1 16 r
use 0 1 16 r
use 0 1 16 r
";

/// An endpoint has 16 use slots: the line of the seventeenth use is a turn without a call, four times.
pub(crate) fn seventeen_uses<C: Ledgers, R: Wait + Abort>(
    rt: &R,
    alloc: Global,
    fabric: &Fabric<C>,
    ports: &mut Ports<C>,
    tokens: &mut Tokens<C>,
) {
    set_up(rt, alloc, fabric, ports, &HELD, tokens);
    let script = scenario(rt, alloc, USES).steps;
    let Tokens { tickets, .. } = tokens;
    let service = &mut ports.service;
    let seen = plays(rt, alloc, fabric, service, script.as_slice(), 20, tickets);
    assert!(rt; (seen.touched, seen.count, seen.turns_left) == (Some((1, false)), 16, 0));
    assert!(rt; (service.calls(), tickets.len()) == (16, 16));
}

#[test]
fn seventeen_uses_at_once(rt: HostRuntime) {
    assert!(rt; plays_alone(&rt, rt.alloc(), Tried::SeventeenUses) == (2, 2, 0));
}

/// Two groups of PASID 1 are begun, and one of PASID 2 has three pages.
const THIRD_GROUP: Setting = Setting {
    mapped: "config 1 4 1\nspace\nspace\n",
    bound: &[(0, 0), (0, 1)],
    moved: "config 1 4 1
deliver 0
deliver 1
fault 0 1 40 r new more
fault 0 1 41 r new more
fault 0 2 32 r new more
fault 0 2 33 r 2 more
fault 0 2 34 r 2 last
deliver 2
deliver 3
deliver 4
deliver 5
deliver 6
serve 0
serve 0
serve 0
serve 0
serve 0
",
};

const RESPONSE: &str = "config 1 4 1\ndeliver 7\n";

const FAULTS: &str = "config 1 4 1\nfault 0 2 35 r new last\n";

/// A pager is told binding, group and pages; its failure disables the endpoint's page request interface.
pub(crate) fn fails<C: Ledgers, R: Wait + Abort>(
    rt: &R,
    alloc: Global,
    fabric: &Fabric<C>,
    ports: &mut Ports<C>,
    tokens: &mut Tokens<C>,
) {
    set_up(rt, alloc, fabric, ports, &THIRD_GROUP, tokens);
    let Tokens { tickets, .. } = tokens;
    let Ports { link, workers, .. } = ports;
    assert!(rt; last_answer(link) == Some(Ok(Answer::Job)));
    let told = says(rt, alloc, fabric, workers, Verdict::Failure, 2);
    assert!(rt; told == Some((1, 2, 3)));
    assert!(rt; each_ends(workers.as_slice(), Answer::Failure, None));
    let _link = sets(rt, alloc, fabric, link, RESPONSE, tickets);
    assert!(rt; last_answer(link) == Some(Ok(Answer::Answered)));
    let faults = scenario(rt, alloc, FAULTS).steps;
    let _refused = plays(rt, alloc, fabric, link, faults.as_slice(), 1, tickets);
    assert!(rt; last_answer(link) == Some(Err(Refusal::PriDisabled)));
}

#[test]
fn a_failure(rt: HostRuntime) {
    assert!(rt; plays_alone(&rt, rt.alloc(), Tried::Fails) == (4, 0, 0));
}

/// The worker has so many turns with a pager that says this of its one job, and is asked once. Tells what the pager was told.
fn says<C: Ledgers, R: Wait + Abort>(
    rt: &R,
    alloc: Global,
    fabric: &Fabric<C>,
    workers: &mut [Port<C>],
    verdict: Verdict,
    turns: u64,
) -> Option<(u64, u8, u32)> {
    let [worker] = workers else {
        panic!(rt; "there is one");
    };
    let mut pager = Saying {
        verdict,
        told: None,
        asked: 0,
    };
    let Ended {
        turns_left,
        out_of_memory,
        tickets,
    } = fault_loop(fabric, rt, alloc, worker, 0, &mut pager, turns);
    tickets.destroy_empty();
    assert!(rt; (turns_left, out_of_memory, pager.asked) == (0, false, 1));
    pager.told
}

const READ_ONLY: Setting = Setting {
    mapped: "config 1 4 1\nspace\nmap 0 32 r\n",
    bound: &[(0, 0)],
    moved: "config 1 4 1\ndeliver 0\nfault 0 1 32 w new last\ndeliver 1\nserve 0\n",
};

/// Whether a port's second call was refused BadVerdict.
fn is_refused_second<C: Ledgers>(port: &Port<C>) -> bool {
    let second = port.receipts().get(1).map(|receipt| receipt.answer);
    second == Some(Err(Refusal::BadVerdict))
}

/// A success that is refused is answered `Invalid`.
pub(crate) fn refused_success<C: Ledgers, R: Wait + Abort>(
    rt: &R,
    alloc: Global,
    fabric: &Fabric<C>,
    ports: &mut Ports<C>,
    tokens: &mut Tokens<C>,
) {
    set_up(rt, alloc, fabric, ports, &READ_ONLY, tokens);
    let Ports { workers, .. } = ports;
    let told = says(rt, alloc, fabric, workers, Verdict::Success, 3);
    assert!(rt; told == Some((0, 0, 1)));
    assert!(rt; each_ends(workers.as_slice(), Answer::Invalid, Some(3)));
    assert!(rt; workers.iter().all(is_refused_second));
}

#[test]
fn a_success_that_is_refused(rt: HostRuntime) {
    assert!(rt; plays_alone(&rt, rt.alloc(), Tried::RefusedSuccess) == (3, 1, 0));
}

/// A page that was asked for, and may be mapped.
const ASKED_FOR: Setting = Setting {
    mapped: "config 1 4 1\nspace\n",
    bound: &[(0, 0)],
    moved: "config 1 4 1\ndeliver 0\nfault 0 1 32 w new last\ndeliver 1\nserve 0\n",
};

/// A pager's `Invalid` is answered `Invalid`, and the endpoint may ask again then.
pub(crate) fn invalid<C: Ledgers, R: Wait + Abort>(
    rt: &R,
    alloc: Global,
    fabric: &Fabric<C>,
    ports: &mut Ports<C>,
    tokens: &mut Tokens<C>,
) {
    set_up(rt, alloc, fabric, ports, &ASKED_FOR, tokens);
    let Tokens { tickets, .. } = tokens;
    let Ports { link, workers, .. } = ports;
    let told = says(rt, alloc, fabric, workers, Verdict::Invalid, 2);
    assert!(rt; told == Some((0, 0, 1)));
    assert!(rt; each_ends(workers.as_slice(), Answer::Invalid, Some(2)));
    let _link = sets(rt, alloc, fabric, link, ASKS_AGAIN, tickets);
}

const ASKS_AGAIN: &str = "config 1 4 1\ndeliver 2\nfault 0 1 32 w new last\n";

#[test]
fn a_job_that_is_invalid(rt: HostRuntime) {
    assert!(rt; plays_alone(&rt, rt.alloc(), Tried::Invalid) == (4, 0, 0));
}
