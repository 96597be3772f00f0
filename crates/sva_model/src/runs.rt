//! Runs that are worked out by hand: the definitions give these answers, line by line, and these counts of frames. Those of
//! further themes are in `sva_refinement`.

ghost use Rattle.sva_model.specs.RunsOfWire.{InvalidationsUnderWay, GroupsUnderWay, TwoTargets, Drained};
ghost use Rattle.sva_model.specs.RunsOfWire.{RangesQueued, JobsQueued};
ghost use Rattle.sva_model.specs.RunsOfAnswers.{AnswersOfInvalidationsUnderWay, AnswersOfGroupsUnderWay};
ghost use Rattle.sva_model.specs.RunsOfAnswers.{AnswersOfTwoTargets, AnswersOfDrained, AnswersOfRangesQueued};
ghost use Rattle.sva_model.specs.RunsOfAnswers.{AnswersOfJobsQueued};
ghost use Rattle.sva_model.specs.RunsOfFinalRules.{RangeOfEight, CausesOfUnmapRange, OnePasidForEachSpace};
ghost use Rattle.sva_model.specs.RunsOfFinalRules.{FirstReleaseOfTwo};
ghost use Rattle.sva_model.specs.RunsOfRanges.{RangeIntoAFullQueue, CookiesOfARange, RangeAtTwoEndpoints};
ghost use Rattle.sva_model.specs.RunsOfRanges.{RangeAtTheFirst, RangeAtTheSecond, RangeInReset};
ghost use Rattle.sva_model.specs.RunsOfRanges.{RangeWhileInvalidating, RangeOf512, RangeOf512AsSent};
ghost use Rattle.sva_model.specs.RunsOfRanges.{RangeOfTheLastPages};
ghost use Rattle.sva_model.specs.RunsOfTranslations.{SpacesAndFrames, PagesOfASpace, TwoBindings, DropOfASpace};
ghost use Rattle.sva_model.specs.RunsOfTranslations.{Translations, FirstTranslation, HeldBackByAUse, LateAnswer};
ghost use Rattle.sva_model.specs.RunsOfTranslations.{AnswersCrossed};
ghost use Rattle.sva_model.specs.RunsOfInvalidations.{CountOfEight, OneVectorForThree, AllTagsBusy};
ghost use Rattle.sva_model.specs.RunsOfInvalidations.{UnbindStageByStage, UnmapWhileInvalidating};
ghost use Rattle.sva_model.specs.RunsOfResets.{SilentEndpoint, ResetAndTags, OldJob, ResetOfALiveBinding};
ghost use Rattle.sva_model.specs.RunsOfResets.{TwoEndpointsOneSilent};
ghost use Rattle.sva_model.specs.RunsOfPageRequests.{PageRequestGroup, StaleGroup, DrainOfTwoRequests, Verdicts};
ghost use Rattle.sva_model.specs.RunsOfPageRequests.{EachKindAtAnOpenUnit, JobsOfTwoEndpoints};
ghost use Rattle.sva_model.specs.RunsOfLimits.{FramesPastTheLimit, RequestTagsSpent, UseSlotsSpent, CacheFull};
ghost use Rattle.sva_model.specs.RunsOfLimits.{PasidsSpent, PageNumbers, PageRequestsSpent, QueueOfSixtyFour};
ghost use Rattle.sva_model.specs.RunsOfLimits.{SpacesSpent, PagesOfAnUnmap, NumbersSpentAtTheEnd};

/// What a host keeps after a run.
pub fn kept()
    ensures invalidations_under_way { InvalidationsUnderWay }
    ensures groups_under_way { GroupsUnderWay }
    ensures two_targets { TwoTargets }
    ensures drained { Drained }
    ensures ranges_queued { RangesQueued }
    ensures jobs_queued { JobsQueued }
{}

/// The answers of the runs that are read for what a host keeps, for what was sent or for what was ordered.
pub fn answers()
    ensures invalidations_under_way { AnswersOfInvalidationsUnderWay }
    ensures groups_under_way { AnswersOfGroupsUnderWay }
    ensures two_targets { AnswersOfTwoTargets }
    ensures drained { AnswersOfDrained }
    ensures ranges_queued { AnswersOfRangesQueued }
    ensures jobs_queued { AnswersOfJobsQueued }
{}

/// Ranges of pages, and one PASID for each space.
pub fn final_rules()
    ensures range_of_eight { RangeOfEight }
    ensures causes_of_unmap_range { CausesOfUnmapRange }
    ensures one_pasid_for_each_space { OnePasidForEachSpace }
    ensures first_release_of_two { FirstReleaseOfTwo }
{}

/// Ranges that are unmapped: what they need at each unit, what their frames wait for, the largest and the last of them.
pub fn ranges()
    ensures range_into_a_full_queue { RangeIntoAFullQueue }
    ensures cookies_of_a_range { CookiesOfARange }
    ensures range_at_two_endpoints { RangeAtTwoEndpoints }
    ensures range_at_the_first { RangeAtTheFirst }
    ensures range_at_the_second { RangeAtTheSecond }
    ensures range_in_reset { RangeInReset }
    ensures range_while_invalidating { RangeWhileInvalidating }
    ensures range_of_512 { RangeOf512 }
    ensures range_of_512_as_sent { RangeOf512AsSent }
    ensures range_of_the_last_pages { RangeOfTheLastPages }
{}

/// Spaces, bindings, translations, and pages unmapped while they are in use.
pub fn translations()
    ensures spaces_and_frames { SpacesAndFrames }
    ensures pages_of_a_space { PagesOfASpace }
    ensures two_bindings { TwoBindings }
    ensures drop_of_a_space { DropOfASpace }
    ensures translations { Translations }
    ensures first_translation { FirstTranslation }
    ensures held_back_by_a_use { HeldBackByAUse }
    ensures late_answer { LateAnswer }
    ensures answers_crossed { AnswersCrossed }
{}

/// Invalidations, their tags and completions, and bindings that are taken back.
pub fn invalidations()
    ensures count_of_eight { CountOfEight }
    ensures one_vector_for_three { OneVectorForThree }
    ensures all_tags_busy { AllTagsBusy }
    ensures unbind_stage_by_stage { UnbindStageByStage }
    ensures unmap_while_invalidating { UnmapWhileInvalidating }
{}

/// Function level resets and endpoints that are silent.
pub fn resets()
    ensures silent_endpoint { SilentEndpoint }
    ensures reset_and_tags { ResetAndTags }
    ensures old_job { OldJob }
    ensures reset_of_a_live_binding { ResetOfALiveBinding }
    ensures two_endpoints_one_silent { TwoEndpointsOneSilent }
{}

/// Page requests, their groups, jobs and responses.
pub fn page_requests()
    ensures page_request_group { PageRequestGroup }
    ensures stale_group { StaleGroup }
    ensures drain_of_two_requests { DrainOfTwoRequests }
    ensures verdicts { Verdicts }
    ensures each_kind_at_an_open_unit { EachKindAtAnOpenUnit }
    ensures jobs_of_two_endpoints { JobsOfTwoEndpoints }
{}

/// The limits of the tables and of the numbers.
pub fn limits()
    ensures frames_past_the_limit { FramesPastTheLimit }
    ensures request_tags_spent { RequestTagsSpent }
    ensures use_slots_spent { UseSlotsSpent }
    ensures cache_full { CacheFull }
    ensures pasids_spent { PasidsSpent }
    ensures page_numbers { PageNumbers }
    ensures page_requests_spent { PageRequestsSpent }
    ensures queue_of_sixty_four { QueueOfSixtyFour }
    ensures spaces_spent { SpacesSpent }
    ensures pages_of_an_unmap { PagesOfAnUnmap }
    ensures numbers_spent_at_the_end { NumbersSpentAtTheEnd }
{}
