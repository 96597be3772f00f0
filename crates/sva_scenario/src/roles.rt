//! What the threads of a storm are given to play.

ghost use Rattle.std.specs.Prelude.{◌≡◌, vec_len, IfOk};
ghost use Rattle.sva_scenario.specs.Lines.{lines_of_endpoints, lines_of_owner};
ghost use Rattle.sva_scenario.specs.declared.lines.Owner.TheVariants as owner;

use crate::lines::{Lines, Owner};
use std::alloc::{AllocError, Global};
use sva_step::Step;

/// The lines of the host, those of each endpoint with its device, and the workers' pagers.
#[derive(Drop)]
pub(crate) struct Roles<D, P> {
    pub(crate) host: Lines,
    pub(crate) endpoints: Vec<Lines>,
    pub(crate) devices: Vec<D>,
    pub(crate) pagers: Vec<P>,
}

impl<D: Drop, P: Drop> Roles<D, P> {
    /// Those of a scenario's steps, for so many endpoints as there are devices, and so many workers as there are pagers.
    pub(crate) fn new(
        alloc: Global,
        steps: &[Step],
        devices: Vec<D>,
        pagers: Vec<P>,
    ) -> Result<Roles<D, P>, AllocError>
        ensures host { IfOk result (λ roles. roles.host ≡ lines_of_owner owner.Host steps.now) }
        ensures endpoints { IfOk result (λ roles. roles.endpoints.items ≡ lines_of_endpoints steps.now (vec_len devices)) }
        ensures line_count { IfOk result (λ roles. vec_len roles.endpoints ≡ vec_len devices) }
        ensures devices { IfOk result (λ roles. vec_len roles.devices ≡ vec_len devices) }
        ensures pagers { IfOk result (λ roles. vec_len roles.pagers ≡ vec_len pagers) }
    {
        let host = Lines::of(alloc, steps, Owner::Host)?;
        let endpoints = endpoint_lines(alloc, steps, devices.len() as u64)?;
        Ok(Roles {
            host,
            endpoints,
            devices,
            pagers,
        })
    }
}

/// The lines of each of so many endpoints.
#[tactic(auto, using(crate::proofs::Rows::no_lines, crate::proofs::Rows::lines_more))]
fn endpoint_lines(alloc: Global, steps: &[Step], count: u64) -> Result<Vec<Lines>, AllocError>
    ensures lines { IfOk result (λ all. all.items ≡ lines_of_endpoints steps.now count) }
    ensures len { IfOk result (λ all. vec_len all ≡ count) }
{
    let mut all = Vec::new(alloc);
    for endpoint in 0..count {
        all.push(Lines::of(alloc, steps, Owner::Endpoint(endpoint))?)?;
    }
    Ok(all)
}
