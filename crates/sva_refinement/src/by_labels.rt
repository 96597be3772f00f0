//! Each of these runs by labels too, those of `sva_model` among them. One function for each theme, so that an edit of a definition
//! is judged by the runs of its own.

ghost use Rattle.sva_refinement.specs.ByLabels.{TranslationsByLabels, InvalidationsByLabels, ResetsByLabels};
ghost use Rattle.sva_refinement.specs.ByLabels.{PageRequestsByLabels, FinalRulesByLabels, DeliveriesByLabels};
ghost use Rattle.sva_refinement.specs.ByLabels.{RefusalsByLabels, ReadingsByLabels, LimitsByLabels, BoundariesByLabels};
ghost use Rattle.sva_refinement.specs.ByLabels.{NamesByLabels, WrongRulesByLabels, WhatStaysByLabels};
ghost use Rattle.sva_refinement.specs.ByLabels.{OwnCausesByLabels, KeptInResetByLabels};

/// Spaces, bindings, translations, and pages unmapped while they are in use.
pub fn translations_by_labels()
    ensures { TranslationsByLabels }
{}

/// Invalidations, their tags and completions, and bindings that are taken back.
pub fn invalidations_by_labels()
    ensures { InvalidationsByLabels }
{}

/// Function level resets and endpoints that are silent.
pub fn resets_by_labels()
    ensures { ResetsByLabels }
{}

/// Page requests, their groups, jobs and responses.
pub fn page_requests_by_labels()
    ensures { PageRequestsByLabels }
{}

/// Ranges of pages, and one PASID for each space.
pub fn final_rules_by_labels()
    ensures { FinalRulesByLabels }
{}

/// What each delivery answers.
pub fn deliveries_by_labels()
    ensures { DeliveriesByLabels }
{}

/// The causes of each step.
pub fn refusals_by_labels()
    ensures { RefusalsByLabels }
{}

/// What is easily read otherwise.
pub fn readings_by_labels()
    ensures { ReadingsByLabels }
{}

/// The limits of the tables and of the numbers.
pub fn limits_by_labels()
    ensures { LimitsByLabels }
{}

/// The last that is accepted before a limit.
pub fn boundaries_by_labels()
    ensures { BoundariesByLabels }
{}

/// Numbers that differ from kind to kind.
pub fn names_by_labels()
    ensures { NamesByLabels }
{}

/// What wrong rules would answer otherwise.
pub fn wrong_rules_by_labels()
    ensures { WrongRulesByLabels }
{}

/// What a step leaves alone.
pub fn what_stays_by_labels()
    ensures { WhatStaysByLabels }
{}

/// What isn't refused for what another has.
pub fn own_causes_by_labels()
    ensures { OwnCausesByLabels }
{}

/// The runs that are read for what a host keeps of a reset, a stale group and a disabled interface.
pub fn kept_in_reset_by_labels()
    ensures { KeptInResetByLabels }
{}
