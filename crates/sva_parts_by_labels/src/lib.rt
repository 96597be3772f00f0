//! What the parts of a host keep, seen as the definitions by labels see it.
#![tactic(auto)]

ghost use Rattle.sva_parts_by_labels.specs.Bindings.{BindingsAreSeen};
ghost use Rattle.sva_parts_by_labels.specs.Flights.{FlightLaws};
ghost use Rattle.sva_parts_by_labels.specs.JobTable.{JobTableIsSeen};
ghost use Rattle.sva_parts_by_labels.specs.JobTableLaws.{FilingIsPermitted, JobTableAnswers, SoundIsKept};
ghost use Rattle.sva_parts_by_labels.specs.DeviceLaws.{RequestsAreSeen, UsesAreSeen, GroupsAreSeen, CompletionsAreSeen, DeliveriesAreSeen};

/// What an endpoint refuses, gives out, answers and keeps, by its tables, is what the definitions by labels say of its
/// device: for each step of an endpoint, and for each message that a host sends to it.
pub fn device_laws()
    ensures requests { RequestsAreSeen }
    ensures uses { UsesAreSeen }
    ensures groups { GroupsAreSeen }
    ensures completions { CompletionsAreSeen }
    ensures deliveries { DeliveriesAreSeen }
{}

/// What is looked up in a table of bindings and what is changed there, is what the definitions by labels look up among the
/// bindings of a host and what they change.
pub fn binding_laws()
    ensures { BindingsAreSeen }
{}

/// What is looked up among the messages in flight, whether one may be delivered, what is sent and what is taken out, is what
/// the definitions by labels say of them.
pub fn flight_laws()
    ensures { FlightLaws }
{}

/// What the table of jobs keeps, and what is changed there where a request is filed, a job taken or answered, or a
/// unit reset, is what the definitions by labels say of the open groups of each endpoint, of the jobs and of the hands; they say
/// when a request may be filed; and each call keeps the table of jobs sound.
pub fn job_table_laws()
    ensures seen { JobTableIsSeen }
    ensures permits { FilingIsPermitted }
    ensures answers { JobTableAnswers }
    ensures sound { SoundIsKept }
{}
