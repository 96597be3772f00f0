//! The shared world: a lock, and the calls that take it.

ghost use Rattle.std.specs.Prelude.{◌≡◌, ◌+◌, ◌↔◌, ◌++◌, ◌∷◌, [], true, vec_len, IfOk, IfErr, OnErr, Err};
ghost use Rattle.sva_step.specs.Steps.{is_plain};
ghost use Rattle.sva_step.specs.declared.refusals.Refusal.TheVariants as refusal;
ghost use Rattle.sva_step.specs.Limits.{Fits};
ghost use Rattle.sva_core.specs.Reached.{IsOpenRefusal};
ghost use Rattle.sva_core.specs.Suiting.{Suits};
ghost use Rattle.sva_fabric.specs.Receipts.{last_of, IsAnswered, IsRefused, IsCounted, IsAstray};
ghost use Rattle.sva_core.specs.Books.{IsHandedIn, IsHandedOut};
ghost use Rattle.sva_fabric.specs.Audits.{held_by, used_by, states_of, IsFinished, new_ports};

use crate::auditing::audit;
use crate::audits::{Audit, FirstBadReceipt};
use crate::gathering::{gather, gather_tokens};
use crate::opening::open_ports;
use crate::port::Port;
use crate::ports::Ports;
use crate::tokens::Tokens;
use std::alloc::Global;
use std::sync::{Mutex, Wait};
use sva_core::{Blanks, CallTokens, Ledgers, Receipt, Running, StepFault, Strayed};
use sva_frames::Counts;
use sva_step::{Config, Refusal, Step};

/// One world that several threads share. Each calls it by a port of its own.
#[derive(Drop)]
pub struct Fabric<C: Ledgers> {
    running: Mutex<Running<C>>,
}

impl<C: Ledgers> Fabric<C> {
    /// A world of a config, of which nothing was asked, and its ports. A config out of its limits is `BadConfig`; the only other
    /// refusal is `OutOfMemory`. The blanks are those that `Blanks::new` makes for the config.
    pub fn open(
        alloc: Global,
        config: Config,
        blanks: Blanks,
    ) -> Result<(Fabric<C>, Ports<C>), Refusal>
        requires config { config ≡ C.config }
        requires name { blanks.calls.name ≡ C.name }
        requires parts { blanks.calls.parts ≡ C.parts }
        requires ports { Fits config → blanks.calls.parts ≡ 3 + config.endpoints + config.workers }
        requires bindings { blanks.bindings.name ≡ C.bindings }
        requires uses { blanks.uses.name ≡ C.uses }
        ensures ok { IfOk result (λ opened. (Fits config) × (states_of opened.1 ≡ new_ports config)) }
        ensures ports { IfOk result (λ opened. (vec_len opened.1.endpoints ≡ config.endpoints) × (vec_len opened.1.workers ≡ config.workers)) }
        ensures bad { (result ≡ Err refusal.BadConfig) ↔ (Fits config → ⊥) }
        ensures memory { IfErr result IsOpenRefusal }
    {
        let (books, shares) = blanks.open::<C>();
        let running = Running::open(alloc, config, books)?;
        let Ok(ports) = open_ports(alloc, &config, shares) else {
            return Err(Refusal::OutOfMemory);
        };
        let fabric = Fabric {
            running: Mutex::new(running),
        };
        Ok((fabric, ports))
    }

    /// Takes one step that needs no token. The port keeps the receipt. The growth of its receipts comes before the lock.
    pub fn step<R: Wait>(
        &self,
        rt: &R,
        port: &mut Port<C>,
        step: &Step,
    ) -> Result<Receipt, StepFault>
        requires plain { is_plain step.now ≡ true }
        ensures answered { IfOk result (λ r. IsAnswered C.config port.old.number (last_of port.old.receipts) step.now r) }
        ensures kept { IfOk result (λ r. port.new ≡ record port.old { receipts = port.old.receipts ++ r ∷ [] }) }
        ensures err { OnErr result (port.new ≡ port.old) }
        ensures fault { IfErr result (λ f. IsRefused C.config port.old.number (last_of port.old.receipts) f) }
    {
        self.call(rt, port, &mut CallTokens::none(), step)
    }

    /// Takes one step, of whatever kind, with the token that it spends.
    pub(crate) fn call<R: Wait>(
        &self,
        rt: &R,
        port: &mut Port<C>,
        held: &mut CallTokens<C>,
        step: &Step,
    ) -> Result<Receipt, StepFault>
        requires held { IsHandedIn step.now held.old }
        ensures handed { IfOk result (λ r. IsHandedOut held.old held.new r.answer) }
        ensures unhanded { OnErr result (held.new ≡ held.old) }
        ensures answered { IfOk result (λ r. IsAnswered C.config port.old.number (last_of port.old.receipts) step.now r) }
        ensures kept { IfOk result (λ r. port.new ≡ record port.old { receipts = port.old.receipts ++ r ∷ [] }) }
        ensures suits { IfOk result (λ r. Suits step.now r.answer) }
        ensures err { OnErr result (port.new ≡ port.old) }
        ensures fault { IfErr result (λ f. IsRefused C.config port.old.number (last_of port.old.receipts) f) }
    {
        let last = port.last();
        let Port {
            number,
            receipts,
            calls,
        } = port;
        if receipts.reserve(1).is_err() {
            return Err(StepFault::Memory);
        }
        let receipt = self
            .running
            .lock(rt)
            .step(*number, last, calls, held, step)?;
        let kept = receipt;
        receipts.push_reserved(kept);
        Ok(receipt)
    }

    /// How many frames are free, mapped and withheld, at a world whose journal holds the port's last receipt. It isn't journaled, counts
    /// as no call, and takes no memory.
    pub fn counts<R: Wait>(&self, rt: &R, port: &Port<C>) -> Result<Counts, Strayed>
        ensures counted { IfOk result (IsCounted C.config port.now.number (last_of port.now.receipts)) }
        ensures fault { IfErr result (IsAstray C.config port.now.number (last_of port.now.receipts)) }
    {
        self.running.lock(rt).counts(port.number(), port.last())
    }

    /// Ends the sharing. It compares the receipts of all ports with the journal, and the tokens that are left with its world's
    /// unreleased bindings and taken use slots.
    pub fn finish(self, ports: Ports<C>, tokens: Tokens<C>) -> Result<Audit, FirstBadReceipt>
        ensures audit { IsFinished C.config C.parts (states_of ports) (held_by tokens) (used_by tokens) result }
    {
        let mut running = self.running.into_inner();
        let result = audit(running.journaled(), &ports, &tokens);
        let (mut held, mut used) = running.empty_shares();
        gather_tokens(&mut held, &mut used, tokens);
        running.spend(held, used);
        let mut calls = gather(ports);
        running.compare(&mut calls);
        result
    }
}
