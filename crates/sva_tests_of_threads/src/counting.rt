//! Counts are told behind two steps, to a port that has made no call too, and are no call.

use crate::worlds::{Tried, ends_so, map, takes};
use std::process::Abort;
use std::sync::Wait;
use sva_fabric::{Audit, Fabric, Ledgers, Port, Ports};
use sva_step::{Answer, Step};

pub(crate) fn counted<C: Ledgers, R: Wait + Abort>(
    rt: &R,
    fabric: &Fabric<C>,
    ports: &mut Ports<C>,
) {
    let host = &mut ports.host;
    takes(rt, fabric, host, Step::Space, Answer::Space { space: 0 });
    takes(rt, fabric, host, map(16), Answer::Frame { frame: 0 });
    assert!(rt; tells(rt, fabric, &ports.host) == (3, 1, 0));
    assert!(rt; tells(rt, fabric, &ports.link) == (3, 1, 0));
    assert!(rt; (ports.host.calls(), ports.link.calls()) == (2, 0));
}

/// How many frames are free, mapped and withheld, as a port is told.
fn tells<C: Ledgers, R: Wait + Abort>(
    rt: &R,
    fabric: &Fabric<C>,
    port: &Port<C>,
) -> (u32, u32, u32) {
    let Ok(counts) = fabric.counts(rt, port) else {
        panic!(rt; "they are told");
    };
    (counts.free, counts.mapped, counts.withheld)
}

#[test]
fn counts_behind_two_steps(rt: HostRuntime) {
    let audit = Audit {
        calls: 2,
        free: 3,
        mapped: 1,
        withheld: 0,
    };
    assert!(rt; ends_so(&rt, rt.alloc(), Tried::Counts, audit));
}
