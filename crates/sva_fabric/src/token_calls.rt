//! The calls that make, move or spend tokens.

ghost use Rattle.std.specs.Prelude.{◌≡◌, IfOk, IfErr, IfSome, IfNone, OnErr, Ok, Some};
ghost use Rattle.sva_step.specs.declared.answers.Answer.TheVariants as answer;
ghost use Rattle.sva_step.specs.declared.steps.Step.TheVariants as step;
ghost use Rattle.sva_core.specs.Suiting.{SuitsStep, IsBinding, IsUse, IsOver};
ghost use Rattle.sva_core.specs.Books.{IsHandedIn, IsHandedOut};
ghost use Rattle.sva_fabric.specs.Tokens.{HasCalled, HasUnbound, IsAdvance, IsFault};

use crate::fabric::Fabric;
use crate::faults::Fault;
use crate::port::Port;
use crate::tokens::{Lease, Leaving, Moved, UseTicket};
use std::sync::Wait;
use sva_core::{CallTokens, Ledgers};
use sva_step::{Answer, Step};

impl<C: Ledgers> Fabric<C> {
    /// Binds a space to an endpoint. The lease is the binding's, until `unbind` takes it.
    pub fn bind<R: Wait>(
        &self,
        rt: &R,
        port: &mut Port<C>,
        endpoint: u64,
        space: u64,
    ) -> Result<Lease<C>, Fault>
        ensures bound { IfOk result (λ lease. HasCalled C.config port.old port.new (step.Bind endpoint space)
            (Ok (answer.Binding lease.binding lease.pasid))) }
        ensures fault { IfErr result (λ f. IsFault C.config port.old port.new (step.Bind endpoint space) f) }
    {
        let mut held = CallTokens::none();
        let answer = self.answer(rt, port, &mut held, &Step::Bind { endpoint, space })?;
        let Some((binding, pasid)) = binding_in(&answer) else {
            unreachable!()
        };
        let Some(part) = held.into_binding() else {
            unreachable!()
        };
        Ok(Lease {
            binding,
            pasid,
            part,
        })
    }

    /// Begins to take a binding back. Where that isn't answered, or refused, the lease comes back.
    pub fn unbind<R: Wait>(
        &self,
        rt: &R,
        port: &mut Port<C>,
        lease: Lease<C>,
    ) -> Result<Leaving<C>, (Lease<C>, Fault)>
        ensures leaving { IfOk result (λ leaving. (leaving ≡ lease.binding) × HasUnbound C.config port.old port.new lease.binding) }
        ensures fault { IfErr result (λ e. (e.0 ≡ lease) × IsFault C.config port.old port.new (step.Unbind lease.binding) e.1) }
    {
        let binding = lease.binding();
        let mut none = CallTokens::none();
        match self.answer(rt, port, &mut none, &Step::Unbind { binding }) {
            Ok(_) => {
                let Lease {
                    binding,
                    pasid: _,
                    part,
                } = lease;
                Ok(Leaving { binding, part })
            }
            Err(fault) => Err((lease, fault)),
        }
    }

    /// Moves a binding to its next stage, which may release it. Where that isn't answered, or refused, the leaving comes back.
    pub fn advance<R: Wait>(
        &self,
        rt: &R,
        port: &mut Port<C>,
        leaving: Leaving<C>,
    ) -> Result<Moved<C>, (Leaving<C>, Fault)>
        ensures moved { IfOk result (λ moved. IsAdvance C.config port.old port.new leaving moved) }
        ensures fault { IfErr result (λ e. (e.0 ≡ leaving) × IsFault C.config port.old port.new (step.Advance leaving) e.1) }
    {
        let Leaving { binding, part } = leaving;
        let mut held = CallTokens::of_binding(part);
        let answered = self.answer(rt, port, &mut held, &Step::Advance { binding });
        let Some(part) = held.into_binding() else {
            return Ok(Moved::Gone);
        };
        let leaving = Leaving { binding, part };
        match answered {
            Ok(_) => Ok(Moved::Again(leaving)),
            Err(fault) => Err((leaving, fault)),
        }
    }

    /// Begins to use a cached translation. The ticket is the slot's, until `end` takes it.
    pub fn begin<R: Wait>(
        &self,
        rt: &R,
        port: &mut Port<C>,
        endpoint: u64,
        pasid: u64,
        page: u64,
        write: bool,
    ) -> Result<UseTicket<C>, Fault>
        ensures endpoint { IfOk result (λ ticket. ticket.endpoint ≡ endpoint) }
        ensures begun { IfOk result (λ ticket. HasCalled C.config port.old port.new (step.BeginUse endpoint pasid page write)
            (Ok (answer.Use ticket.slot ticket.frame))) }
        ensures fault { IfErr result (λ f. IsFault C.config port.old port.new (step.BeginUse endpoint pasid page write) f) }
    {
        let asked = Step::BeginUse {
            endpoint,
            pasid,
            page,
            write,
        };
        let mut held = CallTokens::none();
        let answer = self.answer(rt, port, &mut held, &asked)?;
        let Some((slot, frame)) = use_in(&answer) else {
            unreachable!()
        };
        let Some(part) = held.into_use() else {
            unreachable!()
        };
        Ok(UseTicket {
            endpoint,
            slot,
            frame,
            part,
        })
    }

    /// Ends a use: `Ended`, or `Dead` where a reset had ended it. Where that isn't answered, or refused, the ticket comes back.
    pub fn end<R: Wait>(
        &self,
        rt: &R,
        port: &mut Port<C>,
        ticket: UseTicket<C>,
    ) -> Result<Answer, (UseTicket<C>, Fault)>
        ensures ended { IfOk result (λ a. HasCalled C.config port.old port.new (step.EndUse ticket.endpoint ticket.slot) (Ok a)) }
        ensures over { IfOk result IsOver }
        ensures fault { IfErr result (λ e. (e.0 ≡ ticket)
            × IsFault C.config port.old port.new (step.EndUse ticket.endpoint ticket.slot) e.1) }
    {
        let UseTicket {
            endpoint,
            slot,
            frame,
            part,
        } = ticket;
        let mut held = CallTokens::of_use(part);
        let asked = Step::EndUse {
            endpoint,
            slot: slot.into(),
        };
        let fault = match self.answer(rt, port, &mut held, &asked) {
            Ok(answer) => return Ok(answer),
            Err(fault) => fault,
        };
        let Some(part) = held.into_use() else {
            unreachable!()
        };
        let ticket = UseTicket {
            endpoint,
            slot,
            frame,
            part,
        };
        Err((ticket, fault))
    }

    /// Takes a step, and tells its answer where it isn't refused.
    fn answer<R: Wait>(
        &self,
        rt: &R,
        port: &mut Port<C>,
        held: &mut CallTokens<C>,
        asked: &Step,
    ) -> Result<Answer, Fault>
        requires held { IsHandedIn asked.now held.old }
        ensures handed { IfOk result (λ a. IsHandedOut held.old held.new (Ok a)) }
        ensures unhanded { OnErr result (held.new ≡ held.old) }
        ensures called { IfOk result (λ a. HasCalled C.config port.old port.new asked.now (Ok a)) }
        ensures suits { IfOk result (λ a. SuitsStep asked.now a) }
        ensures fault { IfErr result (λ f. IsFault C.config port.old port.new asked.now f) }
    {
        let receipt = self.call(rt, port, held, asked)?;
        match receipt.answer {
            Ok(answer) => Ok(answer),
            Err(refusal) => Err(Fault::Refused { refusal }),
        }
    }
}

/// The binding that an answer tells of, and its PASID.
fn binding_in(said: &Answer) -> Option<(u64, u32)>
    ensures some { IfSome result (λ b. said.now ≡ answer.Binding b.0 b.1) }
    ensures none { IfNone result (IsBinding said.now → ⊥) }
{
    match said {
        Answer::Binding { binding, pasid } => Some((*binding, *pasid)),
        _ => None,
    }
}

/// The slot that an answer tells of, and the frame.
fn use_in(said: &Answer) -> Option<(u8, u32)>
    ensures some { IfSome result (λ u. said.now ≡ answer.Use u.0 u.1) }
    ensures none { IfNone result (IsUse said.now → ⊥) }
{
    match said {
        Answer::Use { slot, frame } => Some((*slot, *frame)),
        _ => None,
    }
}
