//! This project's own host beside the open world.

ghost use Rattle.sva_open_laws.specs.AsActs.{StepsAreActs};
ghost use Rattle.sva_open_laws.specs.Covered.{ScopesAreOne};
ghost use Rattle.sva_open_laws.specs.LinkOrders.{DeliveriesAreOne, OrdersAreOne};
ghost use Rattle.sva_open_laws.specs.Queues.{CompletionsAreOne, PumpsAreOne, ResetsAreOne, StrikesAreOne, UnitsAreOne};

/// After every list of steps, an accepted step that makes a space, maps a page, binds a space, pumps, asks for a
/// translation, begins a use while no invalidation is taken, ends one, evicts a translation, looks, or delivers a
/// start, a response, a page request, a translation request, an invalidation behind which no newer one is taken, or the
/// answer to a translation request, but one that comes to a full cache or behind a newer one that is held, is so many
/// acts of the open world: each is permitted where it comes, in the world seen as an open one, and they leave all that
/// the step leaves.
pub fn steps_are_acts()
    ensures { StepsAreActs }
{}

/// Of two messages of an endpoint, read off a world, the newer one stays behind the older one in the open world exactly
/// where it does by the rules of the link. So after every list of steps each message in flight, but for a reset-done,
/// may be delivered in the open world exactly where it may by these.
pub fn orders_are_one()
    ensures pairs { OrdersAreOne }
    ensures deliveries { DeliveriesAreOne }
{}

/// After every list of steps an invalidation covers in the open world, of what unreleased bindings have, just what it
/// covers by names.
pub fn scopes_are_one()
    ensures { ScopesAreOne }
{}

/// After every list of steps, at each unit: at the head of the open world's invalidation queue stands the oldest
/// descriptor that is queued by names; an ITag is busy there where an invalidation bears it, and the lowest that isn't
/// is given next; a wait may leave the queue, draining or not, where it may by the rules of the host; and there is room
/// for so many descriptors where there is by these.
pub fn units_are_one()
    ensures { UnitsAreOne }
{}

/// After every list of steps the open world's unit takes the head of its queue exactly where a pump does that is
/// accepted and is neither idle nor blocked, and then leaves of the endpoint all that this leaves; in reset it takes
/// nothing.
pub fn pumps_are_one()
    ensures { PumpsAreOne }
{}

/// After every list of steps an invalidation that is delivered strikes what is held, and dooms the requests that are
/// out, as the open world's does.
pub fn strikes_are_one()
    ensures { StrikesAreOne }
{}

/// After every list of steps a completion that is delivered at an open unit frees just the ITags of the invalidations
/// of which it is the last, as those of the open world do one after another; at a unit in reset it frees none.
pub fn completions_are_one()
    ensures { CompletionsAreOne }
{}

/// After every list of steps a reset-done that is delivered leaves the unit open, nothing queued and all ITags free, as
/// the open world's opening of a unit does.
pub fn resets_are_one()
    ensures { ResetsAreOne }
{}
