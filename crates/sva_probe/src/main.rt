//! Takes the steps of a scenario, and prints what `svahost replay` prints. But where a step is refused for want of memory, that is its
//! line, and the next step is taken: `replay` ends there. scripts/refused-memory needs such a program.
//!     sva_probe           takes the steps by `run`
//!     sva_probe shared    takes them on a world under a lock, each by the port of its own part and tokens by the calls that make, move and
//!                       spend them, and ends with the audit
//! Where memory lacks and no step is to blame, its fault names the call that wanted it.
#![tactic(auto)]

mod parts;
mod shared;
mod token_calls;

ghost use Rattle.std.specs.Prelude.{◌≡◌, ◌+◌};
ghost use Rattle.sva_streams.specs.Streams.{IsNew};

use crate::shared::take_shared;
use std::alloc::{AllocError, Global};
use std::io::{self, Read, Write};
use std::process::ExitCode;
use std::rt::Env;
use std::sync::Wait;
use sva_core::{World, run};
use sva_frames::Counts;
use sva_grammar::{ParseFault, parse};
use sva_step::{Answer, Config, Refusal, Step};
use sva_streams::{DriveFault, Told, read_all, write_all};

/// The report was made.
const DONE: u8 = 0;

/// A line fault, a config out of its limits, a call or an audit that tells of another world, or a fault of a stream or of memory.
const FAULT: u8 = 1;

/// What the steps were answered, and the counts of frames behind them.
#[derive(Drop)]
struct Taken {
    answers: Vec<Result<Answer, Refusal>>,
    counts: Counts,
}

/// Why there is no `Taken`.
#[derive(Drop)]
enum Fault {
    /// Memory lacked, and no step is to blame.
    Memory(Wanted),
    /// The config is out of its limits.
    Config,
    /// A call was told that its port isn't of this world, a token is missing, or the audit is bad.
    Astray,
}

/// The call that memory lacked for.
#[derive(Drop)]
enum Wanted {
    /// The list of the command line's words.
    Words,
    /// The reading of the input.
    Read,
    /// `parse`.
    Parse,
    /// `World::open`, or `Fabric::open`.
    Open,
    /// `run`: its own world, and the list of its answers.
    Run,
    /// The places of answers and tokens on a shared world.
    Places,
    /// The texts of the answers.
    Texts,
}

impl Wanted {
    /// The fault that names the call.
    fn fault(&self) -> &'static str {
        match self {
            Wanted::Words => "sva_probe: out of memory: words\n",
            Wanted::Read => "sva_probe: out of memory: read\n",
            Wanted::Parse => "sva_probe: out of memory: parse\n",
            Wanted::Open => "sva_probe: out of memory: open\n",
            Wanted::Run => "sva_probe: out of memory: run\n",
            Wanted::Places => "sva_probe: out of memory: places\n",
            Wanted::Texts => "sva_probe: out of memory: texts\n",
        }
    }
}

/// Why there is no report.
#[derive(Drop)]
enum Lost {
    /// Memory lacked.
    Memory(Wanted),
    /// The input can't be read.
    Input,
}

fn main(rt: HostRuntime) -> ExitCode {
    let mut reader = Told::new(rt.stdin());
    let mut writer = Told::new(rt.stdout());
    let mut errors = Told::new(rt.stderr());
    let mut report = Vec::new(rt.alloc());
    let made = match is_shared(&rt) {
        Ok(shared) => report_all(&rt, rt.alloc(), shared, &mut reader, &mut report),
        Err(_) => Err(Lost::Memory(Wanted::Words)),
    };
    let status = match made {
        Ok(status) => match write_all(&mut writer, report.as_slice()) {
            Ok(()) => status,
            Err(_) => FAULT,
        },
        Err(Lost::Memory(wanted)) => {
            let _ = write_all(&mut errors, wanted.fault().as_bytes());
            FAULT
        }
        Err(Lost::Input) => FAULT,
    };
    ExitCode::from(status)
}

/// Whether the steps are taken on a world under a lock: a word behind the program's name says so.
fn is_shared<R: Env + AllocGlobal>(rt: &R) -> io::Result<bool> {
    let words = std::env::args(rt)?.collect::<Vec<String>>(rt.alloc())?;
    Ok(words.len() > 1)
}

/// Reads a scenario to its end, takes its steps, and appends its report: the status to exit with.
fn report_all<X: Wait, R: Read>(
    rt: &X,
    alloc: Global,
    shared: bool,
    reader: &mut Told<R>,
    report: &mut Vec<u8>,
) -> Result<u8, Lost>
    requires { IsNew reader.old }
{
    let text = match read_all(alloc, reader) {
        Ok(text) => text,
        Err(DriveFault::Memory) => return Err(Lost::Memory(Wanted::Read)),
        Err(_) => return Err(Lost::Input),
    };
    let scenario = match parse(alloc, text.as_slice()) {
        Ok(scenario) => scenario,
        Err(ParseFault::Line(fault)) => {
            let put = fault.write(report);
            return ended(put, report, FAULT);
        }
        Err(ParseFault::Memory) => return Err(Lost::Memory(Wanted::Parse)),
    };
    let steps = scenario.steps.as_slice();
    let taken = if shared {
        take_shared(rt, alloc, scenario.config, steps)
    } else {
        take_all(alloc, scenario.config, steps)
    };
    report_taken(alloc, taken, report)
}

/// Takes the steps by `run`. A world is opened alone before, so that its want of memory is told from that of `run`.
fn take_all(alloc: Global, config: Config, steps: &[Step]) -> Result<Taken, Fault> {
    match World::open(alloc, config) {
        Ok(_unused) => {}
        Err(Refusal::BadConfig) => return Err(Fault::Config),
        Err(_) => return Err(Fault::Memory(Wanted::Open)),
    }
    match run(alloc, config, steps) {
        Ok((world, answers)) => Ok(Taken {
            answers,
            counts: world.counts(),
        }),
        Err(Refusal::BadConfig) => Err(Fault::Config),
        Err(_) => Err(Fault::Memory(Wanted::Run)),
    }
}

/// Appends a line for each step and that of the counts, or why there are none.
fn report_taken(
    alloc: Global,
    taken: Result<Taken, Fault>,
    report: &mut Vec<u8>,
) -> Result<u8, Lost> {
    match taken {
        Ok(taken) => {
            for answer in taken.answers.as_slice() {
                let put = put_reply(answer, report);
                ended(put, report, DONE)?;
            }
            let put = put_counts(alloc, taken.counts, report);
            ended(put, report, DONE)
        }
        Err(Fault::Config) => {
            let put = Refusal::BadConfig.write(report);
            ended(put, report, FAULT)
        }
        Err(Fault::Astray) => {
            let put = report.extend_from_slice(b"astray");
            ended(put, report, FAULT)
        }
        Err(Fault::Memory(wanted)) => Err(Lost::Memory(wanted)),
    }
}

/// Ends a line of which the words were put so, and passes the status on.
fn ended(put: Result<(), AllocError>, report: &mut Vec<u8>, status: u8) -> Result<u8, Lost> {
    if put.is_err() || report.push(b'\n').is_err() {
        return Err(Lost::Memory(Wanted::Texts));
    }
    Ok(status)
}

/// Appends an answer or a refusal.
fn put_reply(reply: &Result<Answer, Refusal>, report: &mut Vec<u8>) -> Result<(), AllocError> {
    match reply {
        Ok(answer) => answer.write(report),
        Err(refusal) => refusal.write(report),
    }
}

/// Appends how many frames are free, mapped and withheld.
fn put_counts(alloc: Global, counts: Counts, report: &mut Vec<u8>) -> Result<(), AllocError> {
    let (free, mapped, withheld) = (counts.free, counts.mapped, counts.withheld);
    let line = format!(in alloc; "free {free} mapped {mapped} withheld {withheld}")?;
    report.extend_from_slice(line.as_bytes())
}
