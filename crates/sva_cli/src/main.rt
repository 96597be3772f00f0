//! The program svahost: it hands its words, its streams and the files that it names to the commands.
#![tactic(auto)]

mod cutting;
mod files;
mod inputs;
mod reading;
mod telling;

ghost use Rattle.std.specs.Prelude.{◌≤◌};

use crate::files::{Files, files_in};
use crate::reading::Disk;
use crate::telling::{mistaken, run_one, search_on, tell_topic};
use std::io;
use std::io::IsTerminal;
use std::process::ExitCode;
use std::rt::Env;
use std::thread::{Threads, available_parallelism};
use sva_program::{Told, faulted, main_with, unread};
use sva_several::{Progress, Searched};
use sva_streams::DriveFault;

/// The words of the command line, the program's name first.
fn words<R: Env + AllocGlobal>(rt: &R) -> io::Result<Vec<String>> {
    let words = std::env::args(rt)?.collect(rt.alloc())?;
    Ok(words)
}

/// How many processors there are for this program, as far as that is known, and at least one.
fn processors<R: Threads>(rt: &R) -> u64
    ensures { 1 ≤ result }
{
    match available_parallelism(rt) {
        Ok(count) => count.get() as u64,
        Err(_) => 1,
    }
}

fn main(rt: HostRuntime) -> ExitCode {
    let alloc = rt.alloc();
    let mut errors = Told::new(rt.stderr());
    let words = match words(&rt) {
        Ok(words) => words,
        Err(error) => return ExitCode::from(unread(&error, &mut errors)),
    };
    let is_terminal = rt.stderr().is_terminal();
    let mut watch = Progress::new(alloc, rt.stderr(), &rt, is_terminal);
    let mut output = Told::new(rt.stdout());
    let disk = Disk { rt: &rt };
    let out = &mut output;
    let told = &mut errors;
    let status = match files_in(alloc, processors(&rt), words) {
        Ok(Files::Input { own }) => {
            let mut input = Told::new(rt.stdin());
            main_with(&rt, own.as_slice(), &mut input, out, told, &mut watch)
        }
        Ok(Files::One(one)) => {
            let mut input = Told::new(rt.stdin());
            run_one(&rt, &disk, &one, &mut input, out, told, &mut watch)
        }
        Ok(Files::Several(several)) => {
            let count = several.names.len();
            let meter = Searched::new(&rt, alloc, count, rt.stderr(), &rt, is_terminal);
            let mut input = Told::new(rt.stdin());
            search_on(&rt, &disk, &several, &mut input, out, told, &meter)
        }
        Ok(Files::Topic(topic)) => tell_topic(alloc, topic, out, told),
        Ok(Files::Wrong { said }) => mistaken(Ok(said), told),
        Err(_) => faulted(DriveFault::Memory, told),
    };
    ExitCode::from(status)
}
