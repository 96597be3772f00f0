//! What a world answers to lists of steps, where memory is refused too, and which configs it refuses. Steps and answers are told by their texts.
//! All that a scenario can write stands in runs/.

use std::alloc::{AllocError, Global};
use std::process::Abort;
use sva_core::{World, run};
use sva_grammar::parse;
use sva_step::{Answer, Config, Refusal, Step};

/// A config of so many endpoints and frames, with one worker.
fn config(endpoints: u64, frames: u64) -> Config {
    Config {
        endpoints,
        frames,
        workers: 1,
        first: 0,
    }
}

/// Are these the counts of a world?
fn has_counts(world: &World, (free, mapped, withheld): (u32, u32, u32)) -> bool {
    let counts = world.counts();
    counts.free == free && counts.mapped == mapped && counts.withheld == withheld
}

/// Opens a world. Where memory is refused once, the same call again opens it.
fn open<R: Abort>(rt: &R, alloc: Global, config: Config) -> World {
    match World::open(alloc, config) {
        Ok(world) => world,
        Err(refusal) => {
            assert!(rt; refusal == Refusal::OutOfMemory);
            match World::open(alloc, config) {
                Ok(world) => world,
                Err(_) => panic!(rt; "memory is refused once"),
            }
        }
    }
}

/// The steps that a text writes. Where memory is refused once, the same text is read again.
fn steps_of<R: Abort>(rt: &R, alloc: Global, text: &str) -> Vec<Step> {
    match parse(alloc, text.as_bytes()) {
        Ok(scenario) => scenario.steps,
        Err(_) => match parse(alloc, text.as_bytes()) {
            Ok(scenario) => scenario.steps,
            Err(_) => panic!(rt; "it can be read"),
        },
    }
}

/// Takes a step: what that promises is forgotten here, so that the tests are cheap.
fn answered(world: &mut World, step: &Step) -> Result<Answer, Refusal> {
    world.apply(step)
}

/// Takes a step. Where memory is refused once, the counts are as they were, and the same step again is answered.
fn apply<R: Abort>(rt: &R, world: &mut World, step: &Step) -> Result<Answer, Refusal> {
    let before = world.counts();
    let result = answered(world, step);
    if result != Err(Refusal::OutOfMemory) {
        return result;
    }
    assert!(rt; world.counts() == before);
    answered(world, step)
}

/// Appends a line of an answer or a refusal.
fn tell(answered: &Result<Answer, Refusal>, told: &mut Vec<u8>) -> Result<(), AllocError> {
    match answered {
        Ok(answer) => answer.write(told)?,
        Err(refusal) => refusal.write(told)?,
    }
    told.push(b'\n')?;
    Ok(())
}

/// Takes the steps of a text one after another. Are these their answers, a line for each?
fn go_on<R: Abort>(
    rt: &R,
    alloc: Global,
    world: &mut World,
    text: &str,
    answers: &str,
) -> Result<bool, AllocError> {
    let steps = steps_of(rt, alloc, text);
    let mut told = Vec::new(alloc);
    for step in steps.iter() {
        tell(&apply(rt, world, step), &mut told)?;
    }
    Ok(told.as_slice() == answers.as_bytes())
}

/// The same, and are these the counts at the end?
fn go_to_end<R: Abort>(
    rt: &R,
    alloc: Global,
    world: &mut World,
    (text, answers): (&str, &str),
    last: (u32, u32, u32),
) -> Result<bool, AllocError> {
    Ok(go_on(rt, alloc, world, text, answers)? && has_counts(world, last))
}

/// Takes the steps of a text in a new world, in which sixty pages are mapped before if so wanted. Are these their answers, and these the counts at the
/// end? No other function has a world: each that does is dear to prove.
fn ends_so<R: Abort>(
    rt: &R,
    alloc: Global,
    config: Config,
    has_sixty: bool,
    play: (&str, &str),
    last: (u32, u32, u32),
) -> Result<bool, AllocError> {
    let mut world = open(rt, alloc, config);
    if has_sixty {
        map_sixty(rt, &mut world);
    }
    go_to_end(rt, alloc, &mut world, play, last)
}

/// A page is mapped, unmapped and mapped again.
const ONE_PAGE: (&str, &str) = (
    "config 1 4 1
space
map 0 16 w
unmap 0 16
map 0 16 r
",
    "space 0
frame 0
free 0
frame 0
",
);

#[test]
fn maps_unmaps_and_maps(rt: HostRuntime) -> Result<(), AllocError> {
    assert!(rt; ends_so(&rt, rt.alloc(), config(1, 4), false, ONE_PAGE, (3, 1, 0))?);
    Ok(())
}

const FOUR_STEPS: &str = "config 1 4 1
space
map 0 16 w
unmap 0 16
look 4
";

const FOUR_ANSWERS: &str = "space 0
frame 0
free 0
refused 8 NoFrame
";

/// Are these the answers to the four steps, a line for each, and is no frame mapped at the end?
fn are_four(
    alloc: Global,
    world: &World,
    found: &[Result<Answer, Refusal>],
) -> Result<bool, AllocError> {
    let mut told = Vec::new(alloc);
    for answered in found {
        tell(answered, &mut told)?;
    }
    Ok(told.as_slice() == FOUR_ANSWERS.as_bytes() && has_counts(world, (4, 0, 0)))
}

/// Does `run`, which opens a world itself, answer the four steps so?
fn runs_four(alloc: Global, steps: &[Step]) -> Result<bool, AllocError> {
    match run(alloc, config(1, 4), steps) {
        Ok(ran) => are_four(alloc, &ran.0, ran.1.as_slice()),
        Err(_) => Ok(false),
    }
}

/// Where memory is refused once, the next call answers all steps.
#[test]
fn runs_a_list_of_steps(rt: HostRuntime) -> Result<(), AllocError> {
    let steps = steps_of(&rt, rt.alloc(), FOUR_STEPS);
    assert!(rt;
        runs_four(rt.alloc(), steps.as_slice())? || runs_four(rt.alloc(), steps.as_slice())?
    );
    Ok(())
}

/// Is a config out of its limits refused, by `open` and by `run`?
fn is_refused(alloc: Global, config: Config) -> bool {
    World::open(alloc, config).err() == Some(Refusal::BadConfig)
        && run(alloc, config, &[Step::Space]).err() == Some(Refusal::BadConfig)
}

#[test]
fn refuses_4097_frames(rt: HostRuntime) {
    assert!(rt; is_refused(rt.alloc(), config(1, 4097)) && is_refused(rt.alloc(), config(9, 4)));
}

/// The last number is given, and then none is left.
const LAST_NUMBER: (&str, &str) = (
    "config 1 4 1
space
space
",
    "space 9223372036854775807
refused 38 NumbersSpent
",
);

/// Spaces, bindings, messages and cookies are counted apart, so the last number of each is given once, and then none of
/// the kind is left. What takes no number goes on, and what is refused for another cause first is told that one.
const LAST_NUMBERS: (&str, &str) = (
    "config 1 4 1
space
space
map 9223372036854775807 16 r
bind 0 9223372036854775807
unmap 9223372036854775807 16
map 9223372036854775807 16 r
unmap 9223372036854775807 16
unmap 9223372036854775807 17
unbind 9223372036854775807
advance 9223372036854775807
pump 0
serve 0
reset 0
ask 0 1 16
deliver 9223372036854775807
deliver 9223372036854775807
ask 0 1 16
fault 0 1 16 r new last
fault 0 1 16 r 0 last
take 0
drop 9223372036854775807
look 0
",
    "space 9223372036854775807
refused 38 NumbersSpent
frame 0
binding 9223372036854775807 pasid 1
withheld 0
frame 1
refused 38 NumbersSpent
refused 7 NotMapped
refused 38 NumbersSpent
refused 15 NotYet
refused 38 NumbersSpent
empty
refused 38 NumbersSpent
refused 18 NotStarted
started
refused 32 NoSuchMessage
refused 38 NumbersSpent
refused 38 NumbersSpent
refused 25 NoSuchGroup
refused 36 NoJob
refused 12 StillBound
withheld
",
);

/// A config whose first number of each kind is the last one.
const LAST: Config = Config {
    endpoints: 1,
    frames: 4,
    workers: 1,
    first: 9223372036854775807,
};

#[test]
fn spends_the_last_number(rt: HostRuntime) -> Result<(), AllocError> {
    assert!(rt; ends_so(&rt, rt.alloc(), LAST, false, LAST_NUMBER, (4, 0, 0))?);
    assert!(rt; ends_so(&rt, rt.alloc(), LAST, false, LAST_NUMBERS, (2, 1, 1))?);
    Ok(())
}

/// Begins the space of this number.
fn begins<R: Abort>(rt: &R, world: &mut World, space: u64) -> bool {
    apply(rt, world, &Step::Space) == Ok(Answer::Space { space })
}

/// The step that maps a page to be written.
fn map(space: u64, page: u64) -> Step {
    Step::Map {
        space,
        page,
        write: true,
    }
}

/// Maps a page of a space to this frame.
fn maps<R: Abort>(rt: &R, world: &mut World, space: u64, page: u64, frame: u32) -> bool {
    apply(rt, world, &map(space, page)) == Ok(Answer::Frame { frame })
}

/// Begins five spaces, for which each list and tree grows at least once.
fn begins_five<R: Abort>(rt: &R, world: &mut World) -> bool {
    for space in 0..5 {
        if !begins(rt, world, space) {
            return false;
        }
    }
    true
}

/// Maps twelve pages of each of five spaces, to the frames in order.
fn maps_sixty<R: Abort>(rt: &R, world: &mut World) -> bool {
    for frame in 0..60u32 {
        let number = u64::from(frame);
        if !maps(rt, world, number / 12, number % 12, frame) {
            return false;
        }
    }
    true
}

/// Begins the spaces, maps the pages, and compares the counts.
fn map_sixty<R: Abort>(rt: &R, world: &mut World) {
    assert!(rt; begins_five(rt, world) && maps_sixty(rt, world));
    assert!(rt; has_counts(world, (4, 60, 0)));
}

/// With five spaces of twelve pages.
const SIXTY_MAPPED: (&str, &str) = (
    "config 1 64 1
unmap 4 10 2
unmapr 3 0 4
drop 2
",
    "free 58 59
range free 12
gone
",
);

#[test]
fn goes_on_where_memory_was_refused(rt: HostRuntime) -> Result<(), AllocError> {
    assert!(rt;
        ends_so(
            &rt,
            rt.alloc(),
            config(1, 64),
            true,
            SIXTY_MAPPED,
            (30, 34, 0)
        )?
    );
    Ok(())
}

/// Takes what may go to another thread, and else doesn't compile.
fn sent<T: Send + Drop>(_value: T) {}

#[test]
fn may_go_to_another_thread(rt: HostRuntime) {
    sent(open(&rt, rt.alloc(), config(1, 4)));
}
