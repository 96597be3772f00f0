//! The state of a part's thread: its port, its lines, its turns and its tokens.

use crate::lines::{Line, lines_of, turns_of};
use crate::tries::try_line;
use std::alloc::Global;
use std::process::Abort;
use std::sync::{Barrier, Wait};
use std::thread;
use std::thread::{Threads, yield_now};
use sva_fabric::{Fabric, Ledgers, Port, Tokens};
use sva_step::Step;

/// In which steps the threads go. In each phase they play the lines of the next places of the text, at the same time.
#[derive(Clone, Copy)]
pub(crate) struct Pace {
    /// How many places a phase has.
    pub(crate) places: u64,
    /// How often a line is tried before the next one is.
    pub(crate) tries: u64,
    /// How many tries a phase has.
    pub(crate) turns: u64,
    /// How many phases there are that have lines.
    pub(crate) phases: u64,
}

/// How many phases follow in which a part has turns, whatever its lines are.
const ROUNDS: u64 = 4;

/// The part of a text that falls silent, and behind how many of its lines.
#[derive(Clone, Copy)]
pub(crate) struct Cut<'a> {
    /// The text's steps.
    pub(crate) steps: &'a [Step],
    /// The number of the part's port.
    pub(crate) part: u64,
    /// How many of its lines it plays.
    pub(crate) length: usize,
}

/// The state of a thread.
pub(crate) struct ThreadState<C: Ledgers> {
    port: Port<C>,
    lines: Vec<Line>,
    turns: Vec<Step>,
    tokens: Tokens<C>,
    next: usize,
    tried: u64,
}

impl<C: Ledgers> ThreadState<C> {
    /// A part's state. That of the silent part has no turns.
    pub(crate) fn new<R: Abort>(
        rt: &R,
        alloc: Global,
        port: Port<C>,
        cut: &Cut<'_>,
    ) -> ThreadState<C> {
        let part = port.number();
        let (most, turns) = if part == cut.part {
            (cut.length, Vec::new(alloc))
        } else {
            (cut.steps.len(), turns_of(rt, alloc, part))
        };
        ThreadState {
            port,
            lines: lines_of(rt, alloc, cut.steps, part, most),
            turns,
            tokens: Tokens::new(alloc),
            next: 0,
            tried: 0,
        }
    }

    /// Plays the lines, a phase after another, and then the turns.
    fn run<R: Wait + Abort>(&mut self, rt: &R, fabric: &Fabric<C>, meet: &Barrier, pace: Pace) {
        let Pace { places, phases, .. } = pace;
        let mut end = 0u64;
        for phase in 0..phases.wrapping_add(ROUNDS) {
            meet.wait(rt);
            end = end.wrapping_add(places);
            self.play(rt, fabric, end, pace);
            if phase >= phases {
                self.take_turns(rt, fabric);
            }
        }
    }

    /// Plays the lines before a place.
    fn play<R: Wait + Abort>(&mut self, rt: &R, fabric: &Fabric<C>, end: u64, pace: Pace) {
        let ThreadState {
            port,
            lines,
            tokens,
            next,
            tried,
            ..
        } = self;
        for _turn in 0..pace.turns {
            let Some(line) = lines.get(*next) else {
                return;
            };
            if line.place >= end {
                return;
            }
            *tried = tried.wrapping_add(1);
            if try_line(rt, fabric, port, tokens, &line.step) || *tried >= pace.tries {
                *next = next.wrapping_add(1);
                *tried = 0;
            } else {
                yield_now();
            }
        }
    }

    /// Takes each turn once.
    fn take_turns<R: Wait + Abort>(&mut self, rt: &R, fabric: &Fabric<C>) {
        let ThreadState {
            port,
            turns,
            tokens,
            ..
        } = self;
        for step in turns.iter() {
            let _accepted = try_line(rt, fabric, port, tokens, step);
            yield_now();
        }
    }

    /// Takes the state apart.
    pub(crate) fn leave(self) -> (Port<C>, Tokens<C>) {
        let ThreadState {
            port,
            lines: _,
            turns: _,
            tokens,
            next: _,
            tried: _,
        } = self;
        (port, tokens)
    }
}

/// Starts a thread for each of the states, and joins them.
pub(crate) fn run_all<C: Ledgers + Send + Sync, R: Threads + Wait + Abort + Sync>(
    rt: &R,
    fabric: &Fabric<C>,
    states: &mut [ThreadState<C>],
    pace: Pace,
) {
    let barrier = Barrier::new(states.len());
    let meet = &barrier;
    let states = states.iter_mut();
    thread::scope(thread::scope_env(), rt, move |scope| {
        for state in states {
            let started = scope
                .spawn(move || state.run(rt, fabric, meet, pace))
                .is_ok();
            assert!(rt; started);
        }
    });
}
