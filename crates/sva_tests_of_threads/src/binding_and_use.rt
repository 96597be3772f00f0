//! A binding and a use, by the calls that make, move and spend their tokens.

use crate::lines::{LINK, part_of, steps_of};
use crate::tries::try_line;
use crate::worlds::{CONFIG, Tried, ends_so};
use std::alloc::Global;
use std::process::Abort;
use std::sync::Wait;
use sva_fabric::{Audit, Fabric, Ledgers, Port, Ports, Tokens};
use sva_step::Step;

/// The endpoint is reset while its use runs.
const STEPS: &str = "config 2 4 1
space
map 0 16 w
bind 0 0
deliver 0
ask 0 1 16
deliver 1
deliver 2
use 0 1 16 w
reset 0
deliver 3
deliver 4
end 0 0
unbind 0
advance 0
";

const ANSWERS: &str = "space 0
frame 0
binding 0 pasid 1
started
tag 0
completion
held
use 0 frame 0
resetting
reset
reset done
dead
quiet
released
";

/// What is asked of tokens: the one binding has number 0 and PASID 1, and the one use endpoint 0, slot 0 and frame 0.
fn are_numbered<C: Ledgers>(tokens: &Tokens<C>) -> bool {
    for lease in tokens.leases.iter() {
        if lease.binding() != 0 || lease.pasid() != 1 {
            return false;
        }
    }
    for leaving in tokens.leavings.iter() {
        if leaving.binding() != 0 {
            return false;
        }
    }
    for ticket in tokens.tickets.iter() {
        if ticket.endpoint() != 0 || ticket.slot() != 0 || ticket.frame() != 0 {
            return false;
        }
    }
    true
}

/// Appends the line of a port's last answer.
fn tell<C: Ledgers>(port: &Port<C>, told: &mut Vec<u8>) -> bool {
    let Some(receipt) = port.last() else {
        return false;
    };
    match receipt.answer {
        Ok(answer) => answer.write(told).is_ok() && told.push(b'\n').is_ok(),
        Err(_) => false,
    }
}

/// Plays a line, which is accepted, and tells its answer.
fn plays<C: Ledgers, R: Wait + Abort>(
    rt: &R,
    fabric: &Fabric<C>,
    port: &mut Port<C>,
    tokens: &mut Tokens<C>,
    step: &Step,
    told: &mut Vec<u8>,
) {
    assert!(rt; try_line(rt, fabric, port, tokens, step));
    assert!(rt; are_numbered(tokens) && tell(port, told));
}

/// The link's port delivers, and the host's does all else, also what is an endpoint's.
pub(crate) fn tokens_spent<C: Ledgers, R: Wait + Abort>(
    rt: &R,
    alloc: Global,
    fabric: &Fabric<C>,
    ports: &mut Ports<C>,
    tokens: &mut Tokens<C>,
) {
    let Ports { host, link, .. } = ports;
    let mut told = Vec::new(alloc);
    let steps = steps_of(rt, alloc, STEPS, CONFIG);
    for step in steps.iter() {
        if part_of(step) == LINK {
            plays(rt, fabric, link, tokens, step, &mut told);
        } else {
            plays(rt, fabric, host, tokens, step, &mut told);
        }
    }
    assert!(rt; told.as_slice() == ANSWERS.as_bytes());
}

#[test]
fn a_binding_and_a_use(rt: HostRuntime) {
    let audit = Audit {
        calls: 14,
        free: 3,
        mapped: 1,
        withheld: 0,
    };
    assert!(rt; ends_so(&rt, rt.alloc(), Tried::Tokens, audit));
}
