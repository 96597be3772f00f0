//! The laws of the page request queue and of the groups, over every list of their calls.

ghost use Rattle.sva_prq.specs.Queue.{IsFirstInFirstOut, NeverOverflows};
ghost use Rattle.sva_prq.specs.GroupCalls.{JobsHoldTheirRequests, GroupsAreBounded, UnfinishedGroupsDiffer, OpenGroupsAreSeen, SerialsAreNew};
ghost use Rattle.sva_prq.specs.GroupCalls.{SerialsDiffer, OpenIsExact};

/// What holds of a page request queue after every list of permitted calls.
pub fn queue_laws()
    ensures in_order { IsFirstInFirstOut }
    ensures bounded { NeverOverflows }
{}

/// What holds of the open groups after every list of permitted calls.
pub fn group_laws()
    ensures jobs { JobsHoldTheirRequests }
    ensures bounded { GroupsAreBounded }
    ensures unfinished { UnfinishedGroupsDiffer }
    ensures seen { OpenGroupsAreSeen }
    ensures new { SerialsAreNew }
    ensures serials { SerialsDiffer }
    ensures exact { OpenIsExact }
{}
