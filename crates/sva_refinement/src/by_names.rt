//! Runs that are worked out by hand: the definitions give these answers, line by line, and these counts of frames.

ghost use Rattle.sva_refinement.specs.RunsOfAnswers.{AnswersOfUnmappedWhileInvalidating, AnswersOfOneOfTwoAnswered};
ghost use Rattle.sva_refinement.specs.RunsOfAnswers.{AnswersOfUseBehindAnInvalidation, AnswersOfCachedByPasid};
ghost use Rattle.sva_refinement.specs.RunsOfAnswers.{AnswersOfGroupFiledInPart, AnswersOfSecondGroupOfAnIndex};
ghost use Rattle.sva_refinement.specs.RunsOfAnswers.{AnswersOfCookiesByUnit, AnswersOfNoTranslation};
ghost use Rattle.sva_refinement.specs.RunsOfRefusals.{CausesOfSpace, CausesOfDropSpace, CausesOfMap, CausesOfUnmap};
ghost use Rattle.sva_refinement.specs.RunsOfRefusals.{FullQueueWhileStopping, FullQueueWhileDraining, CausesOfBind};
ghost use Rattle.sva_refinement.specs.RunsOfRefusals.{BindInReset, CausesOfUnbind, CausesOfAdvance, CausesAtAUnit};
ghost use Rattle.sva_refinement.specs.RunsOfRefusals.{CausesOfWorkers, CausesOfAsk, CausesOfBeginUse};
ghost use Rattle.sva_refinement.specs.RunsOfRefusals.{CausesOfEndUseAndEvict, CausesOfFault, FaultWhereDisabled};
ghost use Rattle.sva_refinement.specs.RunsOfRefusals.{CausesOfFinish, CausesOfQuit, CausesOfDeliver, CausesOfLook};
ghost use Rattle.sva_refinement.specs.RunsOfFullSpaces.{FullSpaceReached, FullSpaceWithoutFrames, FullSpaceWithoutNumbers};
ghost use Rattle.sva_refinement.specs.RunsOfSpentNumbers.{UnbindWithoutNumbers, QuitWithoutNumbers, NoNumberAtAll};
ghost use Rattle.sva_refinement.specs.RunsOfSpentNumbers.{BindingsSpent, CookiesOfTwoUnits, CookiesOfARange, CookiesWhileDraining};
ghost use Rattle.sva_refinement.specs.RunsOfSpentNumbers.{PumpWithoutNumbers, PumpWithoutTagsAndNumbers};
ghost use Rattle.sva_refinement.specs.RunsOfSpentNumbers.{VerdictsWithoutNumbers, DroppedWithoutNumbers};
ghost use Rattle.sva_refinement.specs.RunsOfSpentNumbers.{LostWithoutNumbers};
ghost use Rattle.sva_refinement.specs.RunsOfDeliveries.{StartAndStopInReset, StartBeforeTheReset, InvalidateInReset};
ghost use Rattle.sva_refinement.specs.RunsOfDeliveries.{ResponseInReset, StaleResponseInReset, CompletionsInReset};
ghost use Rattle.sva_refinement.specs.RunsOfDeliveries.{CompletionsAtAnOpenUnit, DoomedWithoutTranslation};
ghost use Rattle.sva_refinement.specs.RunsOfDeliveries.{CacheFullInReset, ResponsesByCode, MessagesUpInReset};
ghost use Rattle.sva_refinement.specs.RunsOfDeliveries.{VectorsOfTwoCounts, OwnReset, EachKindAsSent, CountFieldsAsSent};
ghost use Rattle.sva_refinement.specs.RunsOfLinkOrder.{LastRequestPastAMarker, MarkerPastAMarker};
ghost use Rattle.sva_refinement.specs.RunsOfLinkOrder.{RequestWithoutLIsNotOrdered, FailureBeforeTheStop};
ghost use Rattle.sva_refinement.specs.RunsOfLinkOrder.{OrdersDownStayInOrder, StopBehindAnInvalidate};
ghost use Rattle.sva_refinement.specs.RunsOfReadings.{AdvanceOfALiveBinding, AdvanceOfALostBinding, OneNumberOfEachKind};
ghost use Rattle.sva_refinement.specs.RunsOfReadings.{UnmapPastTheLastPage, RangePastTheLastPage, UnmapWhileDrainedInReset};
ghost use Rattle.sva_refinement.specs.RunsOfReadings.{UnmapWhileInvalidatingInReset, UnmapWhileInvalidatingOneThatStarted};
ghost use Rattle.sva_refinement.specs.RunsOfReadings.{UnmapAfterTheInvalidation, SecondReset, DoomedRequestsAreOut};
ghost use Rattle.sva_refinement.specs.RunsOfReadings.{EarlierWaitsInReset};
ghost use Rattle.sva_refinement.specs.RunsOfGroups.{PageNamedTwice, PageRequestForNeither, OtherVerdictsNeedNoFrame};
ghost use Rattle.sva_refinement.specs.RunsOfGroups.{SuccessThatIsNone, JobOfALostBinding, DrainWaitsForOtherPasids};
ghost use Rattle.sva_refinement.specs.RunsOfGroups.{WaitOfAnUnmapDoesNotDrain, StaleGroupsKeepTheirRequests};
ghost use Rattle.sva_refinement.specs.RunsOfGroups.{UnfinishedWhereDisabled, UnfinishedWithoutCredit, GroupWhileStopping};
ghost use Rattle.sva_refinement.specs.RunsOfGroups.{GroupOfAnotherPasid};
ghost use Rattle.sva_refinement.specs.RunsOfEarlyReuse.{NotFreeWhenSent, NotFreeWhenTaken, NotFreeAtTheReset};
ghost use Rattle.sva_refinement.specs.RunsOfEarlyReuse.{NotFreeWhenUnmappedInReset, NotFreedAtTheFirstOfTwo};
ghost use Rattle.sva_refinement.specs.RunsOfEarlyReuse.{NotNoneOfEight, DoomedAnswerNotKept, DoomedAnswerNotKeptLater};
ghost use Rattle.sva_refinement.specs.RunsOfEarlyReuse.{DoomedTagNotGivenBack, NotWithheldPastTheLastWait};
ghost use Rattle.sva_refinement.specs.RunsOfEarlyReuse.{NotFreeWhileInvalidating, NotReleasedWhileInvalidating};
ghost use Rattle.sva_refinement.specs.RunsOfEarlyReuse.{NotReleasedWhileQuiet, NoUseLeftByAReset, NoIndexGivenBackByAQuit};
ghost use Rattle.sva_refinement.specs.RunsOfWrongRules.{NotFinishedWhileAUseRuns, NoUseHeldAgainstAnother};
ghost use Rattle.sva_refinement.specs.RunsOfWrongRules.{NoDrainPastAPageRequest, NoResponseByAnUnbind, NoResponseInReset};
ghost use Rattle.sva_refinement.specs.RunsOfWrongRules.{NoPageInvalidationWhileInvalidating, NoResetDonePastOlderMessages};
ghost use Rattle.sva_refinement.specs.RunsOfWrongRules.{NoMarkerPastPageRequests, NoWaitPastABusyTag, NoQuitWhileAUseRuns};
ghost use Rattle.sva_refinement.specs.RunsOfWrongRules.{NoQuitWhileARequestIsOut, NoTranslationWhileStopping};
ghost use Rattle.sva_refinement.specs.RunsOfWrongRules.{NoTranslationOfAnotherSpace, NothingElseInvalidated};
ghost use Rattle.sva_refinement.specs.RunsOfWrongRules.{NothingOfAPasidLeft};
ghost use Rattle.sva_refinement.specs.RunsOfNumbersApart.{NumbersApart, NumbersApartAsSent, NumbersApartAsOrdered};
ghost use Rattle.sva_refinement.specs.RunsOfNumbersApart.{OtherEndpointAsOrdered, NumbersApartAsAsked};
ghost use Rattle.sva_refinement.specs.RunsOfNames.{CookiesOfTheFirst, CookiesOfTheOneInReset, CookiesOfTheLast};
ghost use Rattle.sva_refinement.specs.RunsOfNames.{NoTranslationAsSent, FullQueueOfOneUnit, NumbersBelowTheFirst};
ghost use Rattle.sva_refinement.specs.RunsOfNames.{QuitOfOneOfTwo, SecondJobOfAnEndpoint, FullQueueOfABinding};
ghost use Rattle.sva_refinement.specs.RunsOfNames.{PastOlderMessages, NewerAnswerInPlace, SecondUnmap, TagsGivenBack};
ghost use Rattle.sva_refinement.specs.RunsOfBoundaries.{MessagesSpentBeforeBindings, LastNumberOfAReset};
ghost use Rattle.sva_refinement.specs.RunsOfBoundaries.{LastNumberOfACompletion, LastCookieOfADrain};
ghost use Rattle.sva_refinement.specs.RunsOfBoundaries.{LastCookieOfAnInvalidation, NoCookieInReset, QuietNeedsNoRoom};
ghost use Rattle.sva_refinement.specs.RunsOfBoundaries.{FullSpaceAndAnother, LastPageAndLastFrame, GreatestPage};
ghost use Rattle.sva_refinement.specs.RunsOfBoundaries.{HeldBeforeWritable, LastSlotAndLastTag, NoStep, LimitsOfAConfig};
ghost use Rattle.sva_refinement.specs.RunsOfStages.{StagesInReset, UnmapInEachStage, UnmapWhileStoppingInReset};
ghost use Rattle.sva_refinement.specs.RunsOfStages.{WaitsAfterAnEarlyReset, CreditAfterAReset, OrdersOverAfterAReset};
ghost use Rattle.sva_refinement.specs.RunsOfStages.{LabelsBackInReset, EvictInReset};
ghost use Rattle.sva_refinement.specs.RunsOfWhatStays.{SamePageOfTwoPasids, EvictOfOnePage, NoTranslationBesideAnOlder};
ghost use Rattle.sva_refinement.specs.RunsOfWhatStays.{CacheFullOfTwo, DoomedAnswerBesideANewer, UnmappedWhileInvalidating};
ghost use Rattle.sva_refinement.specs.RunsOfWhatStays.{OneOfTwoAnswered, UseBehindAnInvalidation, CachedByPasid};
ghost use Rattle.sva_refinement.specs.RunsOfWhatStays.{GroupFiledInPart, SecondGroupOfAnIndex, NothingElseIsOrdered};
ghost use Rattle.sva_refinement.specs.RunsOfOwnCauses.{FullQueueOfRanges, OpenBesideAReset, QuietBesideAReset};
ghost use Rattle.sva_refinement.specs.RunsOfOwnCauses.{SuccessOfAFullSpace, ReadBesideAWrite, LostBesideAFullQueue};
ghost use Rattle.sva_refinement.specs.RunsOfOwnCauses.{DropBesideAJob, QuitBesideAStaleGroup, RoomAtTheSecondUnit, CreditOfADroppedRequest};
ghost use Rattle.sva_refinement.specs.RunsOfOwnCauses.{BearersAtThreeEndpoints, BearerByNumber, GreatestPasid};
ghost use Rattle.sva_refinement.specs.WiresInReset.{AnswersOfBusyUnit, UnitInReset, EndpointReset, ResetEnded};
ghost use Rattle.sva_refinement.specs.WiresInReset.{AnswersOfToldToStop, EndingAndStale, AnswersOfFailedGroup, DisabledInterface};

/// The answers of the runs that are read for what a host keeps, for what was sent or for what was ordered.
pub fn answers()
    ensures unmapped_while_invalidating { AnswersOfUnmappedWhileInvalidating }
    ensures one_of_two_answered { AnswersOfOneOfTwoAnswered }
    ensures use_behind_an_invalidation { AnswersOfUseBehindAnInvalidation }
    ensures cached_by_pasid { AnswersOfCachedByPasid }
    ensures group_filed_in_part { AnswersOfGroupFiledInPart }
    ensures second_group_of_an_index { AnswersOfSecondGroupOfAnIndex }
    ensures cookies_by_unit { AnswersOfCookiesByUnit }
    ensures no_translation { AnswersOfNoTranslation }
{}

/// Each cause of a refusal, and which cause is answered where two hold.
pub fn refusals()
    ensures causes_of_space { CausesOfSpace }
    ensures causes_of_drop_space { CausesOfDropSpace }
    ensures causes_of_map { CausesOfMap }
    ensures full_space_reached { FullSpaceReached }
    ensures full_space_without_frames { FullSpaceWithoutFrames }
    ensures full_space_without_numbers { FullSpaceWithoutNumbers }
    ensures causes_of_unmap { CausesOfUnmap }
    ensures full_queue_while_stopping { FullQueueWhileStopping }
    ensures full_queue_while_draining { FullQueueWhileDraining }
    ensures causes_of_bind { CausesOfBind }
    ensures bind_in_reset { BindInReset }
    ensures causes_of_unbind { CausesOfUnbind }
    ensures unbind_without_numbers { UnbindWithoutNumbers }
    ensures causes_of_advance { CausesOfAdvance }
    ensures causes_at_a_unit { CausesAtAUnit }
    ensures causes_of_workers { CausesOfWorkers }
    ensures causes_of_ask { CausesOfAsk }
    ensures causes_of_begin_use { CausesOfBeginUse }
    ensures causes_of_end_use_and_evict { CausesOfEndUseAndEvict }
    ensures causes_of_fault { CausesOfFault }
    ensures fault_where_disabled { FaultWhereDisabled }
    ensures causes_of_finish { CausesOfFinish }
    ensures causes_of_quit { CausesOfQuit }
    ensures quit_without_numbers { QuitWithoutNumbers }
    ensures causes_of_deliver { CausesOfDeliver }
    ensures causes_of_look { CausesOfLook }
    ensures no_number_at_all { NoNumberAtAll }
    ensures bindings_spent { BindingsSpent }
    ensures cookies_of_two_units { CookiesOfTwoUnits }
    ensures cookies_of_a_range { CookiesOfARange }
    ensures cookies_while_draining { CookiesWhileDraining }
    ensures pump_without_numbers { PumpWithoutNumbers }
    ensures pump_without_tags_and_numbers { PumpWithoutTagsAndNumbers }
    ensures verdicts_without_numbers { VerdictsWithoutNumbers }
    ensures dropped_without_numbers { DroppedWithoutNumbers }
    ensures lost_without_numbers { LostWithoutNumbers }
{}

/// What each kind of message does where it is delivered, at an open unit and at one in reset.
pub fn deliveries()
    ensures start_and_stop_in_reset { StartAndStopInReset }
    ensures start_before_the_reset { StartBeforeTheReset }
    ensures invalidate_in_reset { InvalidateInReset }
    ensures response_in_reset { ResponseInReset }
    ensures stale_response_in_reset { StaleResponseInReset }
    ensures completions_in_reset { CompletionsInReset }
    ensures completions_at_an_open_unit { CompletionsAtAnOpenUnit }
    ensures doomed_without_translation { DoomedWithoutTranslation }
    ensures cache_full_in_reset { CacheFullInReset }
    ensures responses_by_code { ResponsesByCode }
    ensures messages_up_in_reset { MessagesUpInReset }
    ensures vectors_of_two_counts { VectorsOfTwoCounts }
    ensures own_reset { OwnReset }
    ensures each_kind_as_sent { EachKindAsSent }
    ensures count_fields_as_sent { CountFieldsAsSent }
{}

/// How a rule is read where it could be read in two ways, and what follows from the rules and may surprise.
pub fn readings()
    ensures last_request_past_a_marker { LastRequestPastAMarker }
    ensures marker_past_a_marker { MarkerPastAMarker }
    ensures request_without_l_is_not_ordered { RequestWithoutLIsNotOrdered }
    ensures advance_of_a_live_binding { AdvanceOfALiveBinding }
    ensures advance_of_a_lost_binding { AdvanceOfALostBinding }
    ensures one_number_of_each_kind { OneNumberOfEachKind }
    ensures unmap_past_the_last_page { UnmapPastTheLastPage }
    ensures range_past_the_last_page { RangePastTheLastPage }
    ensures unmap_while_drained_in_reset { UnmapWhileDrainedInReset }
    ensures unmap_while_invalidating_in_reset { UnmapWhileInvalidatingInReset }
    ensures unmap_while_invalidating_one_that_started { UnmapWhileInvalidatingOneThatStarted }
    ensures unmap_after_the_invalidation { UnmapAfterTheInvalidation }
    ensures page_named_twice { PageNamedTwice }
    ensures page_request_for_neither { PageRequestForNeither }
    ensures other_verdicts_need_no_frame { OtherVerdictsNeedNoFrame }
    ensures success_that_is_none { SuccessThatIsNone }
    ensures job_of_a_lost_binding { JobOfALostBinding }
    ensures drain_waits_for_other_pasids { DrainWaitsForOtherPasids }
    ensures wait_of_an_unmap_does_not_drain { WaitOfAnUnmapDoesNotDrain }
    ensures stale_groups_keep_their_requests { StaleGroupsKeepTheirRequests }
    ensures unfinished_where_disabled { UnfinishedWhereDisabled }
    ensures unfinished_without_credit { UnfinishedWithoutCredit }
    ensures group_while_stopping { GroupWhileStopping }
    ensures group_of_another_pasid { GroupOfAnotherPasid }
    ensures second_reset { SecondReset }
    ensures doomed_requests_are_out { DoomedRequestsAreOut }
    ensures failure_before_the_stop { FailureBeforeTheStop }
    ensures earlier_waits_in_reset { EarlierWaitsInReset }
    ensures orders_down_stay_in_order { OrdersDownStayInOrder }
    ensures stop_behind_an_invalidate { StopBehindAnInvalidate }
{}

/// Each is a short run in which a wrong rule would answer otherwise, and is named by what doesn't happen.
pub fn wrong_rules()
    ensures not_free_when_sent { NotFreeWhenSent }
    ensures not_free_when_taken { NotFreeWhenTaken }
    ensures not_free_at_the_reset { NotFreeAtTheReset }
    ensures not_free_when_unmapped_in_reset { NotFreeWhenUnmappedInReset }
    ensures not_freed_at_the_first_of_two { NotFreedAtTheFirstOfTwo }
    ensures not_none_of_eight { NotNoneOfEight }
    ensures doomed_answer_not_kept { DoomedAnswerNotKept }
    ensures doomed_answer_not_kept_later { DoomedAnswerNotKeptLater }
    ensures doomed_tag_not_given_back { DoomedTagNotGivenBack }
    ensures not_finished_while_a_use_runs { NotFinishedWhileAUseRuns }
    ensures no_use_held_against_another { NoUseHeldAgainstAnother }
    ensures no_drain_past_a_page_request { NoDrainPastAPageRequest }
    ensures no_response_by_an_unbind { NoResponseByAnUnbind }
    ensures no_response_in_reset { NoResponseInReset }
    ensures not_withheld_past_the_last_wait { NotWithheldPastTheLastWait }
    ensures no_page_invalidation_while_invalidating { NoPageInvalidationWhileInvalidating }
    ensures not_free_while_invalidating { NotFreeWhileInvalidating }
    ensures no_reset_done_past_older_messages { NoResetDonePastOlderMessages }
    ensures not_released_while_invalidating { NotReleasedWhileInvalidating }
    ensures not_released_while_quiet { NotReleasedWhileQuiet }
    ensures no_marker_past_page_requests { NoMarkerPastPageRequests }
    ensures no_wait_past_a_busy_tag { NoWaitPastABusyTag }
    ensures no_use_left_by_a_reset { NoUseLeftByAReset }
    ensures no_index_given_back_by_a_quit { NoIndexGivenBackByAQuit }
    ensures no_quit_while_a_use_runs { NoQuitWhileAUseRuns }
    ensures no_quit_while_a_request_is_out { NoQuitWhileARequestIsOut }
    ensures no_translation_while_stopping { NoTranslationWhileStopping }
    ensures no_translation_of_another_space { NoTranslationOfAnotherSpace }
    ensures nothing_else_invalidated { NothingElseInvalidated }
    ensures nothing_of_a_pasid_left { NothingOfAPasidLeft }
{}

/// Runs in which endpoints, spaces, bindings, groups, requests and messages have different numbers, so that one taken for
/// another would show.
pub fn names()
    ensures numbers_apart { NumbersApart }
    ensures numbers_apart_as_sent { NumbersApartAsSent }
    ensures numbers_apart_as_ordered { NumbersApartAsOrdered }
    ensures other_endpoint_as_ordered { OtherEndpointAsOrdered }
    ensures cookies_of_the_first { CookiesOfTheFirst }
    ensures cookies_of_the_one_in_reset { CookiesOfTheOneInReset }
    ensures cookies_of_the_last { CookiesOfTheLast }
    ensures no_translation_as_sent { NoTranslationAsSent }
    ensures full_queue_of_one_unit { FullQueueOfOneUnit }
    ensures numbers_below_the_first { NumbersBelowTheFirst }
    ensures quit_of_one_of_two { QuitOfOneOfTwo }
    ensures second_job_of_an_endpoint { SecondJobOfAnEndpoint }
    ensures full_queue_of_a_binding { FullQueueOfABinding }
    ensures past_older_messages { PastOlderMessages }
    ensures newer_answer_in_place { NewerAnswerInPlace }
    ensures second_unmap { SecondUnmap }
    ensures tags_given_back { TagsGivenBack }
    ensures numbers_apart_as_asked { NumbersApartAsAsked }
{}

/// The last that is accepted before a limit, and each stage of a binding where it is unmapped, advanced or reset; and which
/// configs fit.
pub fn boundaries()
    ensures limits_of_a_config { LimitsOfAConfig }
    ensures messages_spent_before_bindings { MessagesSpentBeforeBindings }
    ensures last_number_of_a_reset { LastNumberOfAReset }
    ensures last_number_of_a_completion { LastNumberOfACompletion }
    ensures last_cookie_of_a_drain { LastCookieOfADrain }
    ensures last_cookie_of_an_invalidation { LastCookieOfAnInvalidation }
    ensures no_cookie_in_reset { NoCookieInReset }
    ensures quiet_needs_no_room { QuietNeedsNoRoom }
    ensures full_space_and_another { FullSpaceAndAnother }
    ensures last_page_and_last_frame { LastPageAndLastFrame }
    ensures greatest_page { GreatestPage }
    ensures held_before_writable { HeldBeforeWritable }
    ensures last_slot_and_last_tag { LastSlotAndLastTag }
    ensures stages_in_reset { StagesInReset }
    ensures unmap_in_each_stage { UnmapInEachStage }
    ensures unmap_while_stopping_in_reset { UnmapWhileStoppingInReset }
    ensures waits_after_an_early_reset { WaitsAfterAnEarlyReset }
    ensures credit_after_a_reset { CreditAfterAReset }
    ensures orders_over_after_a_reset { OrdersOverAfterAReset }
    ensures labels_back_in_reset { LabelsBackInReset }
    ensures no_step { NoStep }
    ensures evict_in_reset { EvictInReset }
{}

/// What a step leaves alone that stands beside what it changes: other pages, other PASIDs, what was noted or answered before.
pub fn what_stays()
    ensures same_page_of_two_pasids { SamePageOfTwoPasids }
    ensures evict_of_one_page { EvictOfOnePage }
    ensures no_translation_beside_an_older { NoTranslationBesideAnOlder }
    ensures cache_full_of_two { CacheFullOfTwo }
    ensures doomed_answer_beside_a_newer { DoomedAnswerBesideANewer }
    ensures unmapped_while_invalidating { UnmappedWhileInvalidating }
    ensures one_of_two_answered { OneOfTwoAnswered }
    ensures use_behind_an_invalidation { UseBehindAnInvalidation }
    ensures cached_by_pasid { CachedByPasid }
    ensures group_filed_in_part { GroupFiledInPart }
    ensures second_group_of_an_index { SecondGroupOfAnIndex }
    ensures nothing_else_is_ordered { NothingElseIsOrdered }
{}

/// What isn't refused: a step for what another endpoint, space or binding has, or for what its own has besides; what is, for
/// the second of two units, and for page requests that a unit in reset drops; and who bears a PASID.
pub fn own_causes()
    ensures full_queue_of_ranges { FullQueueOfRanges }
    ensures open_beside_a_reset { OpenBesideAReset }
    ensures quiet_beside_a_reset { QuietBesideAReset }
    ensures success_of_a_full_space { SuccessOfAFullSpace }
    ensures read_beside_a_write { ReadBesideAWrite }
    ensures lost_beside_a_full_queue { LostBesideAFullQueue }
    ensures drop_beside_a_job { DropBesideAJob }
    ensures quit_beside_a_stale_group { QuitBesideAStaleGroup }
    ensures room_at_the_second_unit { RoomAtTheSecondUnit }
    ensures credit_of_a_dropped_request { CreditOfADroppedRequest }
    ensures bearers_at_three_endpoints { BearersAtThreeEndpoints }
    ensures bearer_by_number { BearerByNumber }
    ensures greatest_pasid { GreatestPasid }
{}

/// What a host keeps, whole, of a unit in reset, before and after its endpoint has reset itself, and when the reset has
/// ended; and what an endpoint keeps of a PASID that is told to stop, of a stale group and of a disabled interface. Beside
/// them the answers of these runs.
pub fn kept_in_reset()
    ensures busy_unit { AnswersOfBusyUnit }
    ensures unit_in_reset { UnitInReset }
    ensures endpoint_reset { EndpointReset }
    ensures reset_ended { ResetEnded }
    ensures told_to_stop { AnswersOfToldToStop }
    ensures ending_and_stale { EndingAndStale }
    ensures failed_group { AnswersOfFailedGroup }
    ensures disabled_interface { DisabledInterface }
{}
