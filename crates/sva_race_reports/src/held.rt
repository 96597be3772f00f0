//! What of a witness's own steps was refused, blocked or withheld: what `why` says of its scenario.

ghost use Rattle.std.specs.Prelude.{◌≡◌, ◌++◌, OnOk};
ghost use Rattle.sva_script_reports.specs.Whys.{whys_of};
ghost use Rattle.sva_race_reports.specs.Held.{held_below, held_in, held_line};

use crate::witnesses::put_scenario;
use std::alloc::{AllocError, Global};
use sva_race::{Choice, Race};
use sva_script::is;
use sva_script_reading::put_number;
use sva_script_reports::why;
use sva_snapshot::Explains;

/// What `why` says where no step was held back.
const NOTHING: &[u8] = b"nothing was refused, blocked or withheld\n";

/// Appends the line above what was held back in a witness.
fn put_held_line(out: &mut Vec<u8>, number: u64) -> Result<(), AllocError>
    ensures { OnOk result (out.new.items ≡ out.old.items ++ held_line number) }
{
    out.extend_from_slice(b"held back in witness ")?;
    put_number(out, number)?;
    out.extend_from_slice(b":\n")
}

/// Appends what `why` says, below that line.
fn put_said(out: &mut Vec<u8>, number: u64, said: &[u8]) -> Result<(), AllocError>
    ensures { OnOk result (out.new.items ≡ out.old.items ++ (held_line number ++ said.now)) }
{
    put_held_line(out, number)?;
    out.extend_from_slice(said)
}

/// Appends it, unless it says that nothing was held back.
fn put_held_below(out: &mut Vec<u8>, number: u64, said: &[u8]) -> Result<(), AllocError>
    ensures { OnOk result (out.new.items ≡ out.old.items ++ held_below number said.now) }
{
    if is(said, NOTHING) {
        Ok(())
    } else {
        put_said(out, number, said)
    }
}

/// Appends what `why` says of a scenario, below that line.
fn put_cases<E: Explains>(
    alloc: Global,
    out: &mut Vec<u8>,
    number: u64,
    scenario: &[u8],
) -> Result<(), AllocError>
    ensures { OnOk result (out.new.items ≡ out.old.items ++ held_below number (whys_of E.explained scenario.now).text) }
{
    let mut said = Vec::new(alloc);
    why::<E>(alloc, scenario, &mut said)?;
    put_held_below(out, number, said.as_slice())
}

/// Appends what of a witness's own steps was held back.
pub(crate) fn put_held_in<E: Explains>(
    alloc: Global,
    out: &mut Vec<u8>,
    race: &Race,
    threads: &[Vec<u8>],
    number: u64,
    choices: &[Choice],
) -> Result<(), AllocError>
    ensures { OnOk result (out.new.items ≡ out.old.items ++ held_in E.explained race.now threads.now number choices.now) }
{
    let mut scenario = Vec::new(alloc);
    put_scenario(alloc, &mut scenario, race, threads, choices)?;
    put_cases::<E>(alloc, out, number, scenario.as_slice())
}
