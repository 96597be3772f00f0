//! The laws of the lines of `why` beside those of refusals with several causes (`sva_why`): each thing that blocks a pump,
//! for which a withheld frame waits, or that takes up a limit has its line.
#![tactic(auto)]

ghost use Rattle.sva_why_laws.specs.Blocked.{BlockedStand};
ghost use Rattle.sva_why_laws.specs.Lacking.{LackingStand};
ghost use Rattle.sva_why_laws.specs.Withheld.{WithheldStand};

/// Of a blocked pump: each busy ITag that a wait or an invalidation needs, and the page requests that a drain waits for.
pub fn blocked_stand()
    ensures { BlockedStand }
{}

/// Of frames that are withheld: each wait, and each end of a reset, for which they wait.
pub fn withheld_stand()
    ensures { WithheldStand }
{}

/// Of what lacks: each tag, use, job, group and space that takes up a limit, each withheld frame and each space that has
/// pages where none is free, the space that is full, each binding that bears a PASID, each request for a translation that
/// isn't held, and the disabled page requests.
pub fn lacking_stand()
    ensures { LackingStand }
{}
