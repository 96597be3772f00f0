//! The laws of the definitions of host, endpoints and link, over every list of steps.
#![tactic(auto)]

ghost use Rattle.sva_model.specs.Claims.{AlwaysAgrees};
ghost use Rattle.sva_laws.specs.Laws.{AlwaysOwned, AlwaysPresentOrWithheld, AlwaysByTheLatest, AlwaysMatched};
ghost use Rattle.sva_laws.specs.Laws.{AlwaysDivided, AlwaysAddsUp, AlwaysWithheldExactly};
ghost use Rattle.sva_laws.specs.Laws.{FreeByTheLastAnswer, AlwaysTold, AlwaysToldOfRange, AlwaysGiven};
ghost use Rattle.sva_laws.specs.LabelLaws.{AlwaysLabelled, AlwaysFound, AlwaysCarried, AlwaysFindsMappings};
ghost use Rattle.sva_laws.specs.UnderWay.{AlwaysHoldsJobs, AlwaysUnderWay, NeverOccurring};
ghost use Rattle.sva_laws.specs.LimitLaws.{AlwaysLimited, AlwaysKeepsLimits};
ghost use Rattle.sva_laws.specs.Answers.{AlwaysFinishes, AlwaysUses, AlwaysLooks, AlwaysFrees, AlwaysSucceeds};
ghost use Rattle.sva_laws.specs.Asked.{AlwaysMapsWhatIsAsked, AlwaysMapsInOrder, AlwaysRepliesBy};
ghost use Rattle.sva_laws.specs.Steps.{AlwaysChangesOnePart, AlwaysDropsApart, AlwaysAnswersBy, AlwaysKeepsLatest, AlwaysKeepsBooks};
ghost use Rattle.sva_laws.specs.Runs.{AlwaysLegalInFront, AlwaysLegalByAnswer, SameForOneEndpoint};
ghost use Rattle.sva_laws.specs.Waits.{AlwaysHasFront, AlwaysFitsDebts, AlwaysAwaitsTargets, AlwaysAnswersByUnit};
ghost use Rattle.sva_laws.specs.Fronts.{AlwaysFrontOf, AlwaysKeepsTargets};
ghost use Rattle.sva_laws.specs.Untouched.{AlwaysEvicts, AlwaysTakes, AlwaysStops, AlwaysQuits, AlwaysAsks, AlwaysDisables, AlwaysCutsOff};
ghost use Rattle.sva_laws.specs.Untouched.{AlwaysDrainsOnce, AlwaysBrings, AlwaysGoesOnInReset, AlwaysStaysDisabled};
ghost use Rattle.sva_laws.specs.InReset.{AlwaysAnswersInReset, AlwaysInReset};
ghost use Rattle.sva_laws.specs.Bearers.{AlwaysTellsBearer};
ghost use Rattle.sva_laws.specs.Given.{AlwaysGivesLowest, AlwaysPumps};
ghost use Rattle.sva_laws.specs.EndpointCauses.{AlwaysHasCause, AlwaysStays};
ghost use Rattle.sva_laws.specs.FirstCauses.{AlwaysAnswersFirst};
ghost use Rattle.sva_laws.specs.UnitSteps.{AlwaysCountsResetDones, AlwaysChangesOrders, AlwaysVoidByReset, AlwaysNotesMarkers, AlwaysGivesCookies};

/// The headline. After every list of steps, however late messages come in a permitted order: each translation that an
/// endpoint may still use has an unreleased owner, is the present one of its page or leads to a withheld frame, and leads to
/// its frame by the last mapping of that frame; page requests and responses are matched to the binding that asked; each frame is at exactly one page of one live space, or
/// withheld, or free; it is withheld exactly while an endpoint that was bound at its unmapping hasn't answered; two
/// unreleased bindings of an endpoint have two PASIDs; and, by the rule of one PASID for each space, any two have one
/// PASID exactly where they have one space.
pub fn headline()
    ensures always { AlwaysAgrees }
{}

/// Usable translations: each has an unreleased owner, is present or leads to a withheld frame, and leads to its frame by the last
/// mapping of that frame.
pub fn translations()
    ensures owned { AlwaysOwned }
    ensures safe { AlwaysPresentOrWithheld }
    ensures latest { AlwaysByTheLatest }
{}

/// Page requests, groups, jobs, markers and responses stand under the binding that asked; hands, groups and the job table
/// agree; and what a host keeps stays within its limits.
pub fn page_requests()
    ensures matched { AlwaysMatched }
    ensures hands { AlwaysHoldsJobs }
    ensures limited { AlwaysLimited }
    ensures limits { AlwaysKeepsLimits }
{}

/// Frames: in exactly one place; withheld exactly as long as an endpoint owes an answer, and free after the very step that
/// ends it. An unmapping answers truly which frames it took out, or how many, and whether they are free or withheld after it; a mapping
/// answers a frame that was free before it, and is at the page after it.
pub fn frames()
    ensures divided { AlwaysDivided }
    ensures adds_up { AlwaysAddsUp }
    ensures withheld { AlwaysWithheldExactly }
    ensures freed { FreeByTheLastAnswer }
    ensures told { AlwaysTold }
    ensures told_of_range { AlwaysToldOfRange }
    ensures given { AlwaysGiven }
{}

/// Labels: each is borne by at most one record, and finds the record that a step or a message speaks of; a message in
/// flight carries the labels of the records that it was sent for; what is awaited
/// at an open unit is on its way, once; and what can't occur at a delivery doesn't. A space and a page find the mapping that is
/// present there, and a frame the last mapping that led to it.
pub fn labels_and_deliveries()
    ensures labelled { AlwaysLabelled }
    ensures found { AlwaysFound }
    ensures carried { AlwaysCarried }
    ensures under_way { AlwaysUnderWay }
    ensures never { NeverOccurring }
    ensures mappings { AlwaysFindsMappings }
{}

/// One step at an endpoint with its unit: the counter of reset-dones rises by one exactly where it delivers one; an order
/// becomes done exactly by the pump that answers so, or by the delivery of the last completion that it is owed, and void
/// exactly by a reset; and a marker is noted exactly by its own delivery. No two waits have the same cookie.
pub fn orders_and_resets()
    ensures counted { AlwaysCountsResetDones }
    ensures ended { AlwaysChangesOrders }
    ensures void { AlwaysVoidByReset }
    ensures noted { AlwaysNotesMarkers }
    ensures cookies { AlwaysGivesCookies }
{}

/// Waits and the front of a unit: cookies rise in order of submission; a wait is done, unless a reset made it void, exactly
/// where its cookie is below the front; what an endpoint owes for a mapping that was taken out fits the orders of its unit;
/// what it still waits for is a wait that is queued, or void by a reset that hasn't ended, or the end of that reset; and it has
/// answered exactly where the look back over the list says so. The front is one more than the greatest cookie of a wait that was
/// taken, or is void by a reset that has ended; and what a host keeps of a target is the very wait, or reset's end, that it awaits.
pub fn waits_and_fronts()
    ensures fronts { AlwaysHasFront }
    ensures debts { AlwaysFitsDebts }
    ensures targets { AlwaysAwaitsTargets }
    ensures by_unit { AlwaysAnswersByUnit }
    ensures front_of { AlwaysFrontOf }
    ensures awaited { AlwaysKeepsTargets }
{}

/// What isn't done: a step that is refused leaves the world as it was, and has the cause of its refusal, which is about
/// the endpoint, the space, the binding or the message that the step itself names. It is refused exactly where one of its causes
/// holds, by the first of them; so one that names what isn't there is answered so, whatever else holds.
pub fn refusals()
    ensures stays { AlwaysStays }
    ensures causes { AlwaysHasCause }
    ensures first { AlwaysAnswersFirst }
{}

/// Resets: a unit is in reset exactly while its Reset, and then the endpoint's reset-done, is in flight; and what each of
/// them clears is clear until it ends. What the endpoint does itself, and what comes to it, is answered meanwhile as at an
/// open unit.
pub fn what_a_reset_clears()
    ensures clear { AlwaysInReset }
    ensures answered { AlwaysAnswersInReset }
{}

/// What is given out and told: a label that a step gives out is the lowest free one; a bearer is told of each PASID, with
/// its space and how many bindings bear it; and a pump's answer tells what it found at the head of the unit's queue: a
/// wait is done only where no order bears an ITag and, if it drains, the page request queue is empty.
pub fn labels_and_turns()
    ensures lowest { AlwaysGivesLowest }
    ensures bearers { AlwaysTellsBearer }
    ensures pumps { AlwaysPumps }
{}

/// Journals and rules: what a legal journal begins with is legal, and one entry more is legal exactly where it says what its
/// step answers. For one endpoint both rules of PASIDs give the same answers over every list of steps.
pub fn journals_and_rules()
    ensures fronts { AlwaysLegalInFront }
    ensures entries { AlwaysLegalByAnswer }
    ensures rules { SameForOneEndpoint }
{}

/// Answers: a finish of so many completions leaves each order that it names owed that many, and sends that many; a use
/// answers the frame of the translation that is cached; a look answers the frame's place; a completion that is counted
/// answers how many orders the step makes done; and a worker's success answers how many pages it maps, which are those that its
/// job's page requests ask for and that weren't mapped, in the order in which they were first asked for, each to the lowest
/// free frame. A reply is answered by the verdict where the job's binding is Live.
pub fn what_answers_tell()
    ensures finishes { AlwaysFinishes }
    ensures uses { AlwaysUses }
    ensures looks { AlwaysLooks }
    ensures frees { AlwaysFrees }
    ensures succeeds { AlwaysSucceeds }
    ensures asked { AlwaysMapsWhatIsAsked }
    ensures order { AlwaysMapsInOrder }
    ensures replies { AlwaysRepliesBy }
{}

/// What one step changes: one endpoint with its unit at most, unless it takes pages out of a space; and the drop of a space
/// changes none. What a frame waits for at an endpoint changes only at a pump that passes that wait, or at the delivery of the
/// endpoint's reset-done. How many bindings are unreleased, and how many use slots are taken, is told by the steps and answers.
pub fn what_steps_change()
    ensures one_part { AlwaysChangesOnePart }
    ensures apart { AlwaysDropsApart }
    ensures answers { AlwaysAnswersBy }
    ensures latest { AlwaysKeepsLatest }
    ensures books { AlwaysKeepsBooks }
{}

/// What steps at an endpoint leave as it was: an evict takes one translation out of the cache, an invalidation that is taken drops
/// what it covers and dooms the requests that it covers, a translation that is kept replaces the older ones of its page, a Stop, a
/// quit and a translation request touch no translation, a completion ends its request and frees its tag, and each changes nothing else of the
/// endpoint and its unit: of the messages in flight the one alone that is delivered, or sent. A Response
/// Failure alone disables page requests, and they stay so until the endpoint takes its Reset; a reset-done leaves a Live binding Lost, and Quiet one that was told to stop; and of the
/// two waits of a binding that ends the first alone drains. What an endpoint does itself isn't refused because its unit is in reset.
pub fn what_steps_leave()
    ensures evicts { AlwaysEvicts }
    ensures takes { AlwaysTakes }
    ensures brings { AlwaysBrings }
    ensures stops { AlwaysStops }
    ensures quits { AlwaysQuits }
    ensures asks { AlwaysAsks }
    ensures disables { AlwaysDisables }
    ensures stays_disabled { AlwaysStaysDisabled }
    ensures cuts_off { AlwaysCutsOff }
    ensures drains { AlwaysDrainsOnce }
    ensures goes_on { AlwaysGoesOnInReset }
{}
