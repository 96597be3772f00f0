//! Whole storms.

ghost use Rattle.std.specs.Prelude.{◌≡◌, vec_len};

use crate::meetings::Marks;
use crate::worlds::scenario;
use std::alloc::Global;
use std::process::Abort;
use std::sync::Wait;
use std::sync::atomic::{AtomicU64, Ordering};
use std::thread::Threads;
use sva_scenario::{Audit, Device, Pager, StormFault, storm};
use sva_step::Verdict;

/// A device and a pager that do nothing else.
#[derive(Clone, Copy)]
struct Plain;

impl Device for Plain {
    fn touch(&mut self, _frame: u32, _write: bool) {}
}

impl Pager for Plain {
    fn decide(&mut self, _binding: u64, _group: u8, _pages: u32) -> Verdict {
        Verdict::Success
    }
}

/// Some of one kind.
fn some<R: Abort, T: Copy>(rt: &R, alloc: Global, one: T, count: u64) -> Vec<T>
    ensures { vec_len result ≡ count }
{
    let mut all = Vec::new(alloc);
    assert!(rt; all.resize(count as usize, one).is_ok());
    all
}

/// A storm of a text whose devices and pagers do nothing else.
fn storms<R: Threads + Wait + Abort + Sync>(
    rt: &R,
    alloc: Global,
    text: &str,
    turns: u64,
) -> Result<Audit, StormFault> {
    let scenario = scenario(rt, alloc, text);
    let devices = some(rt, alloc, Plain, scenario.config.endpoints);
    let pagers = some(rt, alloc, Plain, scenario.config.workers);
    storm(rt, alloc, &scenario, turns, devices, pagers)
}

/// The audit of a storm, which is good.
fn audited<R: Abort>(rt: &R, storm: Result<Audit, StormFault>) -> Audit {
    match storm {
        Ok(audit) => audit,
        Err(_) => panic!(rt; "its audit is good"),
    }
}

/// How many frames an audit found free, mapped and withheld.
fn counts(audit: Audit) -> (u32, u32, u32) {
    (audit.free, audit.mapped, audit.withheld)
}

const FIRST: &str = "config 1 4 1\nspace\nmap 0 16 w\nunmap 0 16\nmap 0 16 r\n";

#[test]
fn the_first_scenario(rt: HostRuntime) {
    let audit = audited(&rt, storms(&rt, rt.alloc(), FIRST, 100));
    assert!(rt; counts(audit) == (3, 1, 0));
    // Link, service and worker use all their turns, the host one for each line, and the endpoint none.
    assert!(rt; audit.calls == 304);
}

#[test]
fn a_config_out_of_its_limits(rt: HostRuntime) {
    let text = "config 1 4097 1\nspace\n";
    assert!(rt; storms(&rt, rt.alloc(), text, 100) == Err(StormFault::Config));
}

#[test]
fn no_turns(rt: HostRuntime) {
    let audit = audited(&rt, storms(&rt, rt.alloc(), FIRST, 0));
    assert!(rt; counts(audit) == (4, 0, 0));
}

const UNBINDS: &str = "config 2 4 1
space
map 0 16 w
bind 0 0
bind 1 0
unmap 0 16
unbind 0
unbind 1
advance 0
advance 0
advance 0
advance 0
advance 1
advance 1
advance 1
advance 1
drop 0
space
map 1 17 r
finish 0 00000001 1
quit 0 1
finish 0 00000001 1
finish 1 00000001 1
quit 1 1
finish 1 00000001 1
";

/// Does a storm with so many turns release both bindings? The first space went then, and the page of the second one has its frame.
fn releases<R: Threads + Wait + Abort + Sync>(rt: &R, alloc: Global, turns: u64) -> bool {
    match storms(rt, alloc, UNBINDS, turns) {
        Ok(audit) => counts(audit) == (3, 1, 0),
        Err(_) => false,
    }
}

#[test]
fn two_bindings_are_released(rt: HostRuntime) {
    // On a busy machine a thread may spend its turns before the others come: then all have more.
    let is_released = releases(&rt, rt.alloc(), 100_000)
        || releases(&rt, rt.alloc(), 300_000)
        || releases(&rt, rt.alloc(), 1_000_000);
    assert!(rt; is_released);
}

const DEVICES: &str =
    "config 2 4 1\nspace\nmap 0 16 w\nbind 0 0\nbind 1 0\nask 0 1 16\nask 1 1 16\nuse 0 1 16 w\nuse 1 1 16 r\n";

/// A storm in which the two devices wait for each other's first call, and the pager does nothing else.
fn devices_meet<R: Threads + Wait + Abort + Sync>(
    rt: &R,
    alloc: Global,
    marks: &Marks,
) -> Result<Audit, StormFault> {
    let scenario = scenario(rt, alloc, DEVICES);
    assert!(rt; scenario.config.endpoints == 2);
    let mut devices = Vec::new(alloc);
    assert!(rt; devices.push(marks.first(1_000_000)).is_ok());
    assert!(rt; devices.push(marks.second(1_000_000)).is_ok());
    let pagers = some(rt, alloc, Plain, scenario.config.workers);
    storm(rt, alloc, &scenario, 100_000, devices, pagers)
}

const PAGERS: &str =
    "config 1 4 2\nspace\nbind 0 0\nfault 0 1 32 r new last\nfault 0 1 33 r new last\n";

/// The same of the two pagers, beside a device.
fn pagers_meet<R: Threads + Wait + Abort + Sync>(
    rt: &R,
    alloc: Global,
    marks: &Marks,
) -> Result<Audit, StormFault> {
    let scenario = scenario(rt, alloc, PAGERS);
    assert!(rt; scenario.config.workers == 2);
    let mut pagers = Vec::new(alloc);
    assert!(rt; pagers.push(marks.first(1_000_000)).is_ok());
    assert!(rt; pagers.push(marks.second(1_000_000)).is_ok());
    let devices = some(rt, alloc, Plain, scenario.config.endpoints);
    storm(rt, alloc, &scenario, 100_000, devices, pagers)
}

const APART: &str = "config 2 4 1
space
map 0 16 w
map 0 17 w
bind 0 0
bind 1 0
ask 0 1 16
ask 1 1 17
use 0 1 16 w
use 1 1 17 r
";

/// Notes what it was told of a use.
#[derive(Drop)]
struct Noting<'a> {
    told: &'a AtomicU64,
}

impl<'a> Device for Noting<'a> {
    fn touch(&mut self, frame: u32, write: bool) {
        self.told.store(noted(frame, write), Ordering::SeqCst);
    }
}

/// What is noted of a use. Where none was told of, 0 is.
fn noted(frame: u32, write: bool) -> u64 {
    let number = u64::from(frame) * 2 + 2;
    if write { number + 1 } else { number }
}

/// A storm in which the device of each endpoint notes its use.
fn notes<R: Threads + Wait + Abort + Sync>(
    rt: &R,
    alloc: Global,
    one: &AtomicU64,
    two: &AtomicU64,
) -> Result<Audit, StormFault> {
    let scenario = scenario(rt, alloc, APART);
    assert!(rt; scenario.config.endpoints == 2);
    let mut devices = Vec::new(alloc);
    assert!(rt; devices.push(Noting { told: one }).is_ok());
    assert!(rt; devices.push(Noting { told: two }).is_ok());
    let pagers = some(rt, alloc, Plain, scenario.config.workers);
    storm(rt, alloc, &scenario, 100_000, devices, pagers)
}

/// Each endpoint has its own device: it is told the frame of its own page.
#[test]
fn two_devices_apart(rt: HostRuntime) {
    let (one, two) = (AtomicU64::new(0), AtomicU64::new(0));
    assert!(rt; frames(&rt, notes(&rt, rt.alloc(), &one, &two)) == 4);
    assert!(rt; one.load(Ordering::SeqCst) == noted(0, true));
    assert!(rt; two.load(Ordering::SeqCst) == noted(1, false));
}

/// How many frames the audit of a storm counts.
fn frames<R: Abort>(rt: &R, storm: Result<Audit, StormFault>) -> u64 {
    let (free, mapped, withheld) = counts(audited(rt, storm));
    u64::from(free) + u64::from(mapped) + u64::from(withheld)
}

#[test]
fn two_devices_meet(rt: HostRuntime) {
    let marks = Marks::new();
    assert!(rt; frames(&rt, devices_meet(&rt, rt.alloc(), &marks)) == 4);
    marks.have_met(&rt);
}

#[test]
fn two_pagers_meet(rt: HostRuntime) {
    let marks = Marks::new();
    assert!(rt; frames(&rt, pagers_meet(&rt, rt.alloc(), &marks)) == 4);
    marks.have_met(&rt);
}
