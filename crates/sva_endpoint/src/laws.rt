//! The laws of an endpoint, over every list of its calls.

ghost use Rattle.sva_endpoint.specs.Laws.{AlwaysSound, TagsStayTaken, DoomedNeverHeld, FinishWaits, NotesExactly, InUseExactly, DeadUsesStay};
ghost use Rattle.sva_endpoint.specs.Laws.{ResetsEndUses, StaleGroupsStay, GroupsStay};

/// What holds of an endpoint over every list of permitted calls: its limits; that a request's tag stays taken until its
/// completion or a reset comes; that the answer to a doomed request is never cached; that no completion names an
/// invalidation while a use runs that it covered when it was taken; that an invalidation waits for exactly these uses, and
/// a completion is refused as in use exactly while one of them runs; that a use that a reset ended keeps its slot, dead,
/// until it is told of its end; and that a group, stale or not, keeps its index and its requests until its response or a
/// reset comes. A reset, or another invalidation under the ITag, ends what is said of an invalidation and of its waiting;
/// the endpoint doesn't refuse the second, which a host that keeps an ITag until its completion never sends.
pub fn endpoint_laws()
    ensures sound { AlwaysSound }
    ensures tags { TagsStayTaken }
    ensures doomed { DoomedNeverHeld }
    ensures waits { FinishWaits }
    ensures notes { NotesExactly }
    ensures in_use { InUseExactly }
    ensures dead { DeadUsesStay }
    ensures resets { ResetsEndUses }
    ensures stale { StaleGroupsStay }
    ensures groups { GroupsStay }
{}
