//! The law that labels are names: each step by numbers and labels is the step of the definitions, and what a host
//! keeps is as the calls of its parts need it, after every list of steps. Beside it stand runs that are worked out by
//! hand: by names those of the themes that `sva_model` doesn't keep for its own edits, and by labels all of them.
#![tactic(auto)]

mod by_labels;
mod by_names;

ghost use Rattle.sva_refinement.specs.Refinement.{LabelsAreNames, RunsByLabels, AlwaysSound, AlwaysHaveSpaces};
ghost use Rattle.sva_refinement.specs.Found.{SpacesFound, PagesFound, FramesFound};
ghost use Rattle.sva_refinement.specs.Responses.{AlwaysFindsFinished};
ghost use Rattle.sva_refinement.specs.Tallies.{AlwaysTallied};

pub use by_labels::{
    boundaries_by_labels, deliveries_by_labels, final_rules_by_labels, invalidations_by_labels,
    kept_in_reset_by_labels, limits_by_labels, names_by_labels, own_causes_by_labels,
    page_requests_by_labels, readings_by_labels, refusals_by_labels, resets_by_labels,
    translations_by_labels, what_stays_by_labels, wrong_rules_by_labels,
};
pub use by_names::{
    answers, boundaries, deliveries, kept_in_reset, names, own_causes, readings, refusals,
    what_stays, wrong_rules,
};

/// By the rule of one PASID for each space: at each world that a list of steps leads to, each step by labels answers what the
/// step by names answers, and leaves what the next world is seen as. So a list of steps by labels, from what a host keeps
/// before the first step, gives the answers of the definitions, and ends with what the last world is seen as.
pub fn steps_by_labels()
    ensures by_labels { LabelsAreNames }
    ensures runs { RunsByLabels }
{}

/// What a host keeps, looked up by number, is what the definitions find, at each world that a list of steps leads to: the
/// pages of a live space, what stands at one of its pages, and the lowest frame that is free.
pub fn found_by_number()
    ensures spaces { SpacesFound }
    ensures pages { PagesFound }
    ensures frames { FramesFound }
{}

/// What a host keeps, at each world that a list of steps leads to, is as the calls of the parts need it.
pub fn always_sound()
    ensures { AlwaysSound }
{}

/// The space of each binding is there, at each world that a list of steps leads to: a space that is bound isn't dropped.
pub fn bindings_have_spaces()
    ensures { AlwaysHaveSpaces }
{}

/// How many bindings are unreleased, and how many use slots are taken: a step changes these by what its answer says, and by
/// no more.
pub fn always_tallied()
    ensures { AlwaysTallied }
{}

/// A response in flight finds by its index a group of its PASID whose last page request was sent. So none is in flight to
/// a group that isn't finished, and where the page requests of its endpoint are disabled only a reset helps.
pub fn responses_are_found()
    ensures { AlwaysFindsFinished }
{}
