//! The law that numbers of messages don't matter: two hosts that keep the same, but for the numbers of messages in
//! flight, can't be told apart. A step is answered alike by both, and leaves what is alike; messages in flight are then
//! named by their endpoint and age.
#![tactic(auto)]

ghost use Rattle.sva_renumbering.specs.Laws.{StepsAlike, DeliveriesAlike, SameStepAlike, RunsAlike};
ghost use Rattle.sva_renumbering.specs.Laws.{NamesGoOn, SentAlike, UnsentAlike};
ghost use Rattle.sva_renumbering.specs.Laws.{PlacesNamed, AsManyPlaces, OldestAlike, AnyAlike};
ghost use Rattle.sva_renumbering.specs.Laws.{AlikeItself, AlikeTurned, AlikeThrough};
ghost use Rattle.sva_renumbering.specs.Laws.{NamesItself, NamesTurned, NamesThrough};
ghost use Rattle.sva_renumbering.specs.Laws.{AlikeByEndpoint, NumberedFirst, NumberedAfter, NumberedWhereSound};

/// Of two hosts that are alike but for the numbers of messages in flight: a step that is no delivery is answered alike
/// by both, and leaves what is alike. So is the delivery of one message, by the number that it has in each, and of a
/// number that names none in either. And so are lists of such steps.
pub fn steps_alike()
    ensures steps { StepsAlike }
    ensures deliveries { DeliveriesAlike }
    ensures same { SameStepAlike }
    ensures runs { RunsAlike }
{}

/// Numbers that name the same message in both do so after the same step of both, until it is delivered in both. The
/// messages that the step sends are the same in both, one by one. And a number that isn't given yet names none in
/// either.
pub fn names_go_on()
    ensures kept { NamesGoOn }
    ensures sent { SentAlike }
    ensures unsent { UnsentAlike }
{}

/// The number at a place, by endpoint and age, names the message there; as many places are taken in hosts that are
/// alike, and the oldest message of an endpoint that passes a test is the same one, if there is one.
pub fn places_named()
    ensures named { PlacesNamed }
    ensures as_many { AsManyPlaces }
    ensures oldest { OldestAlike }
    ensures any { AnyAlike }
{}

/// To be alike, and to name the same message, goes from each host to itself, both ways, and on through a third. Where
/// what is kept is sound, it is enough to compare what is in flight at the endpoints that the host has.
pub fn alike_is_equivalence()
    ensures itself { AlikeItself }
    ensures turned { AlikeTurned }
    ensures through { AlikeThrough }
    ensures names_itself { NamesItself }
    ensures names_turned { NamesTurned }
    ensures names_through { NamesThrough }
    ensures by_endpoint { AlikeByEndpoint }
{}

/// Messages in flight are numbered in the order of sending: before the first step, after each step of a host of which
/// that is so, and wherever what is kept is sound.
pub fn always_numbered()
    ensures first { NumberedFirst }
    ensures after { NumberedAfter }
    ensures where_sound { NumberedWhereSound }
{}
