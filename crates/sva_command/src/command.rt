//! The command line.

ghost use Rattle.std.specs.Prelude.{◌≡◌, ◌∷◌, [], IfOk, codes, false, is_some};
ghost use Rattle.clap.specs.Words.{FailsBy, app_of, found_of, new_app, rows_of, rule_of, subcommand_rows_of, with_rule, with_subcommand};
ghost use Rattle.sva_command.specs.Command.{Asks, IsReadable, IsWritten, asked_by, beside_in, clash, faults_of, flag_rule, is_any, is_clash, is_given, is_more, judge_app, no_commands, own_faults};
ghost use Rattle.sva_command.specs.Flags.{AddsBeside, AddsTelling};
ghost use Rattle.sva_command.specs.Command.{most_by, most_rule, most_text, svahost, texts, turns_by, turns_rule, turns_text, within};

use crate::help::{
    ABOUT, ALL, ALL_CHART, ALL_NEEDED, ALL_PLATFORMS, ALL_RUN, CHART, CHART_ENDS, CHART_NEEDED,
    CHART_PLATFORMS, CHART_RUN, CHART_USAGE, CHECK, CHECK_ENDS, CHECK_USAGE, DRAWN, ENDS, EXPLORE,
    EXPLORE_ENDS, EXPLORE_USAGE, JUDGE, JUDGE_ENDS, JUDGE_USAGE, LIVE, MOST, NEEDED, NEEDED_RUN,
    PLAIN, PLAIN_ENDS, PLAIN_USAGE, PLATFORMS, PLATFORMS_NEEDED, PLATFORMS_RUN, REPLAY,
    REPLAY_ENDS, REPLAY_USAGE, RUN, SHOW, SHOW_ENDS, SHOW_USAGE, STORM, STORM_ENDS, STORM_USAGE,
    STRICT, STRICT_CHART, STRICT_NEEDED, STRICT_PLATFORMS, STRICT_RUN, SVG, TEST, TEST_ENDS,
    TEST_USAGE, TOPICS, TRACE, TRACE_ENDS, TRACE_USAGE, TURNS, VERSION, WAITS, WHY, WHY_ENDS,
    WHY_USAGE, WHYS,
};
use clap::builder::ValueParser;
use clap::error::ErrorKind;
use clap::{Arg, ArgAction, ArgMatches, Command, Error};
use std::alloc::{AllocError, Global};

/// How many turns each thread of a storm has at most.
const MOST_TURNS: u64 = 1_000_000;

/// How many it has where nothing is said of them. clap is given the same number as a text.
const USUAL_TURNS: u64 = 10_000;

/// How many moments of a race are looked at at most.
const MOST_MOMENTS: u64 = 1_000_000_000;

/// How many are looked at where nothing is said of them. clap is given the same number as a text.
const USUAL_MOMENTS: u64 = 1_000_000;

/// What is asked of a driver beside its verdict: other texts are made of its own, and judged; or its witness is drawn. A
/// command that is meant asks one of these at most.
#[derive(Clone, Copy, PartialEq, Eq)]
pub struct Beside {
    /// Is each line left out in turn?
    pub needed: bool,
    /// Are other platforms set?
    pub platforms: bool,
    /// Is the witness drawn?
    pub chart: bool,
}

/// A command of the program.
#[derive(Clone, Copy, PartialEq, Eq)]
pub enum Asked {
    /// The report of a run of the steps.
    Replay,
    /// How many steps there are.
    Check,
    /// The audit of a storm of threads.
    Storm {
        /// How many turns each thread has: 1 to 1000000.
        turns: u64,
    },
    /// The scenario that a script stands for.
    Plain,
    /// Whether a script's answers are as expected.
    Test,
    /// What the host keeps behind the last line of a script.
    Show,
    /// What holds the steps of a script back that were refused, blocked or withheld.
    Why,
    /// The run of a script as a sequence chart.
    Chart {
        /// Is it a picture, and not text?
        svg: bool,
    },
    /// What every order of a race comes to.
    Explore {
        /// How many moments are looked at at most: 1 to 1000000000.
        most: u64,
        /// Is it said behind each witness what holds its own steps back, and the lines that wait where it ends?
        whys: bool,
        /// Are no more than 20 texts of ends told?
        few_ends: bool,
    },
    /// Whether each order of a driver is safe.
    Judge {
        /// Are the lines taken one after another, and no other order?
        run: bool,
        /// How many moments are looked at at most: 1 to 1000000000.
        most: u64,
        /// Does a verdict that says nothing have a status of its own? Not where the lines are taken one after another.
        strict: bool,
        /// Are all findings told, but for what is behind one? Not where the lines are taken one after another.
        all: bool,
        /// What is asked beside the verdict? Nothing with `run`, `strict` or `all`.
        beside: Beside,
    },
    /// Each step of a script with its answer and its messages, as it comes.
    Trace {
        /// Is a column ended by a tab, and not padded?
        live: bool,
        /// Is it said behind a step that was refused, blocked or withheld what holds it back?
        whys: bool,
    },
}

/// What the help of a command says behind its options: files, statuses and an example. The texts are long, and a body that
/// names a constant has it written out in its proof: so this one alone does.
fn ends_of(command: &str) -> &'static str {
    match command {
        "replay" => REPLAY_ENDS,
        "check" => CHECK_ENDS,
        "storm" => STORM_ENDS,
        "plain" => PLAIN_ENDS,
        "test" => TEST_ENDS,
        "show" => SHOW_ENDS,
        "why" => WHY_ENDS,
        "chart" => CHART_ENDS,
        "explore" => EXPLORE_ENDS,
        "judge" => JUDGE_ENDS,
        "trace" => TRACE_ENDS,
        _ => TOPICS,
    }
}

/// The option `--turns`.
fn turns_option<'a>(alloc: Global) -> Arg<'a>
    ensures rule { rule_of result ≡ turns_rule }
    ensures local { result.global ≡ false }
{
    Arg::new(alloc, "turns")
        .long("turns")
        .action(ArgAction::Set)
        .value_name("N")
        .default_value("10000")
        .help(TURNS)
        .value_parser(ValueParser::unsigned(1, MOST_TURNS))
}

/// The program with a command more, which takes no arguments.
fn with_bare<'a>(
    svahost: Command<'a>,
    alloc: Global,
    name: &'a str,
    about: &'a str,
    usage: &'a str,
) -> Result<Command<'a>, AllocError>
    ensures { IfOk result (λ command. app_of command ≡ with_subcommand (app_of svahost.entry) (new_app name.entry.now).top) }
{
    let command = Command::new(alloc, name)
        .about(about)
        .override_usage(usage)
        .after_help(ends_of(name));
    svahost.subcommand(command)
}

/// The program with its command `storm`.
fn with_storm<'a>(svahost: Command<'a>, alloc: Global) -> Result<Command<'a>, AllocError>
    ensures { IfOk result (λ command. app_of command ≡ with_subcommand (app_of svahost.entry) (with_rule (new_app (codes "storm")) turns_rule).top) }
{
    let storm = Command::new(alloc, "storm")
        .about(STORM)
        .override_usage(STORM_USAGE)
        .after_help(ends_of("storm"));
    let with_turns = storm.arg(turns_option(alloc))?;
    svahost.subcommand(with_turns)
}

/// The option `--most`.
fn most_option<'a>(alloc: Global) -> Arg<'a>
    ensures rule { rule_of result ≡ most_rule }
    ensures local { result.global ≡ false }
{
    Arg::new(alloc, "most")
        .long("most")
        .action(ArgAction::Set)
        .value_name("N")
        .default_value("1000000")
        .help(MOST)
        .value_parser(ValueParser::unsigned(1, MOST_MOMENTS))
}

/// The program with its command `explore`.
fn with_explore<'a>(svahost: Command<'a>, alloc: Global) -> Result<Command<'a>, AllocError>
    ensures { IfOk result (λ command. app_of command
        ≡ with_subcommand (app_of svahost.entry) (with_rule (with_rule (with_rule (new_app (codes "explore")) most_rule)
        (flag_rule (codes "why"))) (flag_rule (codes "ends"))).top) }
{
    let explore = Command::new(alloc, "explore")
        .about(EXPLORE)
        .override_usage(EXPLORE_USAGE)
        .after_help(ends_of("explore"));
    let with_most = explore.arg(most_option(alloc))?;
    let with_why = with_most.arg(flag(alloc, "why", WAITS))?;
    let with_ends = with_why.arg(flag(alloc, "ends", ENDS))?;
    svahost.subcommand(with_ends)
}

/// An option that is a flag.
fn flag<'a>(alloc: Global, name: &'a str, about: &'a str) -> Arg<'a>
    ensures rule { rule_of result ≡ flag_rule name.entry.now }
    ensures local { result.global ≡ false }
{
    Arg::new(alloc, name)
        .long(name)
        .action(ArgAction::SetTrue)
        .help(about)
}

/// A command with the flags that ask something of a driver beside its verdict.
fn with_beside<'a>(judge: Command<'a>, alloc: Global) -> Result<Command<'a>, AllocError>
    ensures { IfOk result (λ command. AddsBeside judge.entry command) }
{
    let with_needed = judge.arg(flag(alloc, "needed", NEEDED))?;
    let with_platforms = with_needed.arg(flag(alloc, "platforms", PLATFORMS))?;
    with_platforms.arg(flag(alloc, "chart", DRAWN))
}

/// A command with the flags that say what is told of drivers.
fn with_telling<'a>(judge: Command<'a>, alloc: Global) -> Result<Command<'a>, AllocError>
    ensures { IfOk result (λ command. AddsTelling judge.entry command) }
{
    let with_all = judge.arg(flag(alloc, "all", ALL))?;
    with_beside(with_all, alloc)
}

/// The program with its command `judge`.
fn with_judge<'a>(svahost: Command<'a>, alloc: Global) -> Result<Command<'a>, AllocError>
    ensures { IfOk result (λ command. app_of command ≡ with_subcommand (app_of svahost.entry) judge_app.top) }
{
    let judge = Command::new(alloc, "judge")
        .about(JUDGE)
        .override_usage(JUDGE_USAGE)
        .after_help(ends_of("judge"));
    let with_most = judge.arg(most_option(alloc))?;
    let with_run = with_most.arg(flag(alloc, "run", RUN))?;
    let with_strict = with_run.arg(flag(alloc, "strict", STRICT))?;
    let telling = with_telling(with_strict, alloc)?;
    svahost.subcommand(telling)
}

/// The program with its command `trace`.
fn with_trace<'a>(svahost: Command<'a>, alloc: Global) -> Result<Command<'a>, AllocError>
    ensures { IfOk result (λ command. app_of command
        ≡ with_subcommand (app_of svahost.entry) (with_rule (with_rule (new_app (codes "trace"))
        (flag_rule (codes "live"))) (flag_rule (codes "why"))).top) }
{
    let trace = Command::new(alloc, "trace")
        .about(TRACE)
        .override_usage(TRACE_USAGE)
        .after_help(ends_of("trace"));
    let with_live = trace.arg(flag(alloc, "live", LIVE))?;
    let with_why = with_live.arg(flag(alloc, "why", WHYS))?;
    svahost.subcommand(with_why)
}

/// The program with its command `chart`.
fn with_chart<'a>(svahost: Command<'a>, alloc: Global) -> Result<Command<'a>, AllocError>
    ensures { IfOk result (λ command. app_of command ≡ with_subcommand (app_of svahost.entry) (with_rule (new_app (codes "chart")) (flag_rule (codes "svg"))).top) }
{
    let chart = Command::new(alloc, "chart")
        .about(CHART)
        .override_usage(CHART_USAGE)
        .after_help(ends_of("chart"));
    let with_svg = chart.arg(flag(alloc, "svg", SVG))?;
    svahost.subcommand(with_svg)
}

/// The program before its commands.
fn without_commands<'a>(alloc: Global) -> Result<Command<'a>, AllocError>
    ensures { IfOk result (λ command. app_of command ≡ no_commands) }
{
    let named = Command::new(alloc, "svahost").bin_name("svahost")?;
    Ok(
        named
            .version(VERSION)
            .about(ABOUT)
            .after_help(ends_of("svahost"))
            .subcommand_required(true)
            .disable_help_subcommand(true),
    )
}

/// The command line of svahost.
fn command<'a>(alloc: Global) -> Result<Command<'a>, AllocError>
    ensures { IfOk result (λ command. app_of command ≡ svahost) }
{
    let bare = without_commands(alloc)?;
    let replaying = with_bare(bare, alloc, "replay", REPLAY, REPLAY_USAGE)?;
    let checking = with_bare(replaying, alloc, "check", CHECK, CHECK_USAGE)?;
    let storming = with_storm(checking, alloc)?;
    let plain_too = with_bare(storming, alloc, "plain", PLAIN, PLAIN_USAGE)?;
    let testing = with_bare(plain_too, alloc, "test", TEST, TEST_USAGE)?;
    let showing = with_bare(testing, alloc, "show", SHOW, SHOW_USAGE)?;
    let explaining = with_bare(showing, alloc, "why", WHY, WHY_USAGE)?;
    let charting = with_chart(explaining, alloc)?;
    let exploring = with_explore(charting, alloc)?;
    let judging = with_judge(exploring, alloc)?;
    with_trace(judging, alloc)
}

/// The command that the words ask for. A call for help or for the version is an `Err` too, as clap has it.
pub fn parse(alloc: Global, words: &[String]) -> Result<Asked, Error>
    ensures fails { FailsBy (faults_of (texts words.now)) result }
    ensures asked { IfOk result (λ asked. Asks asked (texts words.now)) }
{
    match command(alloc)?.try_get_matches_from(words) {
        Ok(matches) => meant(alloc, entered(&matches)),
        Err(error) => Err(error),
    }
}

/// That two options of `judge` can't be meant together.
fn conflict(alloc: Global, told: &'static str) -> Result<Asked, Error>
    ensures { FailsBy (ErrorKind.ArgumentConflict ∷ []) result }
{
    let mut judge = Command::new(alloc, "judge").override_usage(JUDGE_USAGE);
    Err(judge.error(ErrorKind::ArgumentConflict, told)?)
}

/// Whether something is asked of a driver beside its verdict.
pub fn is_any(beside: Beside) -> bool
    ensures { result ≡ is_any beside }
{
    beside.needed || beside.platforms || beside.chart
}

/// What can't be meant with `--run`: there is no verdict on all orders.
fn clash_run(beside: Beside) -> Option<&'static str>
    ensures { is_some result ≡ is_any beside }
{
    if beside.needed {
        Some(NEEDED_RUN)
    } else if beside.platforms {
        Some(PLATFORMS_RUN)
    } else if beside.chart {
        Some(CHART_RUN)
    } else {
        None
    }
}

/// What can't be meant with `--strict`: it is no matter what was tried.
fn clash_strict(beside: Beside) -> Option<&'static str>
    ensures { is_some result ≡ is_any beside }
{
    if beside.needed {
        Some(STRICT_NEEDED)
    } else if beside.platforms {
        Some(STRICT_PLATFORMS)
    } else if beside.chart {
        Some(STRICT_CHART)
    } else {
        None
    }
}

/// What can't be meant with `--all`: no finding is told.
fn clash_all(beside: Beside) -> Option<&'static str>
    ensures { is_some result ≡ is_any beside }
{
    if beside.needed {
        Some(ALL_NEEDED)
    } else if beside.platforms {
        Some(ALL_PLATFORMS)
    } else if beside.chart {
        Some(ALL_CHART)
    } else {
        None
    }
}

/// What can't be meant at a time.
fn clash_more(beside: Beside) -> Option<&'static str>
    ensures { is_some result ≡ is_more beside }
{
    match (beside.needed, beside.platforms, beside.chart) {
        (true, true, _) => Some(PLATFORMS_NEEDED),
        (true, _, true) => Some(CHART_NEEDED),
        (_, true, true) => Some(CHART_PLATFORMS),
        _ => None,
    }
}

/// Which two options of `judge` can't be meant together, if there are such.
fn clash(run: bool, strict: bool, all: bool, beside: Beside) -> Option<&'static str>
    ensures { is_some result ≡ clash run strict all beside }
{
    match (run, strict, all) {
        (true, true, _) => Some(STRICT_RUN),
        (true, _, true) => Some(ALL_RUN),
        (true, _, _) => clash_run(beside),
        (_, true, _) => clash_strict(beside),
        (_, _, true) => clash_all(beside),
        _ => clash_more(beside),
    }
}

/// The two options of `judge` that were given and can't be meant together, if there are such.
fn clash_of(asked: Asked) -> Option<&'static str>
    ensures { is_some result ≡ is_clash asked }
{
    match asked {
        Asked::Judge {
            run,
            strict,
            all,
            beside,
            ..
        } => clash(run, strict, all, beside),
        _ => None,
    }
}

/// A command that was entered, unless two of its options can't be meant together.
fn meant(alloc: Global, asked: Asked) -> Result<Asked, Error>
    ensures fails { FailsBy (own_faults asked) result }
    ensures asked { IfOk result (λ meant. meant ≡ asked) }
{
    match clash_of(asked) {
        Some(told) => conflict(alloc, told),
        None => Ok(asked),
    }
}

/// The command that clap entered. It enters no other than these, and one of them where it takes the words.
fn entered(matches: &ArgMatches<'_>) -> Asked
    ensures { IsReadable (subcommand_rows_of matches.now) → result ≡ asked_by (subcommand_rows_of matches.now) }
{
    match matches.subcommand() {
        Some(("check", _)) => Asked::Check,
        Some(("storm", below)) => Asked::Storm {
            turns: turns(below),
        },
        Some(("plain", _)) => Asked::Plain,
        Some(("test", _)) => Asked::Test,
        Some(("show", _)) => Asked::Show,
        Some(("why", _)) => Asked::Why,
        Some(("chart", below)) => Asked::Chart {
            svg: is_given(below, "svg"),
        },
        Some(("explore", below)) => Asked::Explore {
            most: most(below),
            whys: wants_whys(below),
            few_ends: is_given(below, "ends"),
        },
        Some(("judge", below)) => Asked::Judge {
            run: is_given(below, "run"),
            most: most(below),
            strict: is_given(below, "strict"),
            all: is_given(below, "all"),
            beside: beside_in(below),
        },
        Some(("trace", below)) => Asked::Trace {
            live: is_given(below, "live"),
            whys: is_given(below, "why"),
        },
        _ => Asked::Replay,
    }
}

/// What is asked of a driver beside its verdict.
fn beside_in(below: &ArgMatches<'_>) -> Beside
    ensures { result ≡ beside_in (rows_of (found_of below.now)) }
{
    Beside {
        needed: is_given(below, "needed"),
        platforms: is_given(below, "platforms"),
        chart: is_given(below, "chart"),
    }
}

/// How many turns were asked for.
fn turns(storm: &ArgMatches<'_>) -> u64
    ensures { IsWritten (turns_text (rows_of (found_of storm.now))) → result ≡ turns_by (turns_text (rows_of (found_of storm.now))) }
{
    storm.get_one::<u64>("turns").unwrap_or(USUAL_TURNS)
}

/// How many moments are to be looked at. clap takes no number that is out of its limits.
fn most(explore: &ArgMatches<'_>) -> u64
    ensures { result ≡ most_by (most_text (rows_of (found_of explore.now))) }
{
    within(explore.get_one::<u64>("most"))
}

/// The number of moments that was found, where it is within its limits.
fn within(found: Option<u64>) -> u64
    ensures { result ≡ within found }
{
    match found {
        Some(most) if 1 <= most && most <= MOST_MOMENTS => most,
        _ => USUAL_MOMENTS,
    }
}

/// Is it wanted what holds the steps of witnesses back, and the lines that wait where they end?
fn wants_whys(explore: &ArgMatches<'_>) -> bool
    ensures { result ≡ is_given (codes "why") (rows_of (found_of explore.now)) }
{
    is_given(explore, "why")
}

/// Was a flag given?
fn is_given(trace: &ArgMatches<'_>, flag: &str) -> bool
    ensures { result ≡ is_given flag.now (rows_of (found_of trace.now)) }
{
    match trace.get_str(flag) {
        Some(text) => text == "true",
        None => false,
    }
}
