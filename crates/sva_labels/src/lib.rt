//! General lemmas, on which both halves of the proof stand (proofs/), and every step by numbers and labels, as a host
//! takes them that keeps no names: definitions, and what the calls of the parts need.
#![tactic(auto)]

ghost use Rattle.sva_labels.specs.Waiting.{FiledInTurn};

/// Of every host, whether some list of steps leads to it or not: each page request that a step files waited before, in flight or
/// in a page request queue, and each that waits anew took the number of a message. So no more are ever filed than messages are
/// numbered.
pub fn filed_in_turn()
    ensures { FiledInTurn }
{}
