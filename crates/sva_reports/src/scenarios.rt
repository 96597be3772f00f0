//! What a text begins with: its scenario, or its line fault.

ghost use Rattle.std.specs.Prelude.{◌≡◌, IfOk, IfSome, Err};
ghost use Rattle.sva_grammar.specs.Grammar.{scenario_of};
ghost use Rattle.sva_reports.specs.Report.{HandedOut};
ghost use Rattle.sva_streams.specs.Streams.{IsNew, Tells};

use crate::report::write_fault;
use std::alloc::Global;
use std::io::Write;
use sva_grammar::{ParseFault, Scenario, parse};
use sva_streams::{DriveFault, Told};

/// Hands out the scenario of a text, and writes nothing. A line fault is written, and there is none to be handed out then.
/// After `Write` a prefix of that line was written, after `Memory` nothing.
pub fn scenario_or_fault<W: Write>(
    alloc: Global,
    text: &[u8],
    writer: &mut Told<W>,
) -> Result<Option<Scenario>, DriveFault>
    requires { IsNew writer.old }
    ensures handed { HandedOut (scenario_of text.now) (W.contents writer.old.inner) (W.contents writer.new.inner) result }
    ensures unwritten { IfOk result (λ given. IfSome given (λ _. writer.new ≡ writer.old)) }
    ensures told { Tells writer.old writer.new result }
    ensures memory { result ≡ Err DriveFault.Memory → writer.new ≡ writer.old }
{
    match parse(alloc, text) {
        Ok(scenario) => Ok(Some(scenario)),
        Err(ParseFault::Line(fault)) => {
            let mut line = Vec::new(alloc);
            write_fault(&mut line, &fault, writer)?;
            Ok(None)
        }
        Err(ParseFault::Memory) => Err(DriveFault::Memory),
    }
}
