//! What is turned on and off at an endpoint, and how it goes.

ghost use Rattle.std.specs.Prelude.{◌≡◌, map};
ghost use Rattle.sva_search.specs.Rules.{IsStep};
ghost use Rattle.sva_open.specs.Devices as device;

use crate::deliveries::switch_off;
use sva_open::{Control, Part, Request};

pub(crate) fn turn(part: &mut Part, control: Control, on: bool)
    ensures { part.new ≡ device.turned part.old control on }
{
    match control {
        Control::Ats => turn_ats(part, on),
        Control::PageRequests => turn_requests(part, on),
        Control::Mastering => part.is_master = on,
    }
}

/// Once ATS is off nothing is held, and what is asked for won't be.
fn turn_ats(part: &mut Part, on: bool)
    ensures { part.new ≡ device.turned_ats part.old on }
{
    if on {
        part.has_ats = true;
    } else {
        part.has_ats = false;
        part.held.clear();
        end_requests(part.requests.as_mut_slice());
    }
}

/// That a response has failed is forgotten where page requests are turned on from off.
fn turn_requests(part: &mut Part, on: bool)
    ensures { part.new ≡ device.turned_requests part.old on }
{
    if on {
        part.is_enabled = part.is_enabled || !part.has_requests;
        part.has_requests = true;
    } else {
        part.has_requests = false;
    }
}

fn over(request: Option<Request>) -> Option<Request>
    ensures { result ≡ device.over request }
{
    match request {
        None => None,
        Some(request) => Some(Request {
            is_doomed: true,
            ..request
        }),
    }
}

/// Dooms each request that is out.
fn end_requests(requests: &mut [Option<Request>])
    ensures { requests.new ≡ map device.over requests.old }
{
    for request in requests.iter_mut() {
        *request = over(*request);
    }
}

/// The endpoint is gone, and with it what it had.
pub(crate) fn leave(part: &mut Part) -> bool
    ensures { IsStep (device.leave part.old) result part.old part.new }
{
    if part.is_gone {
        return false;
    }
    switch_off(part.rows.as_mut_slice());
    part.requests.clear();
    part.held.clear();
    part.works.clear();
    part.groups.clear();
    part.is_gone = true;
    true
}
