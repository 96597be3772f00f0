//! Help: of the program, of a command, and on a topic, whose text is some passages of all that help has.

ghost use Rattle.std.specs.Prelude.{◌≡◌, IfOk, option_map, string_bytes};
ghost use Rattle.sva_command.specs.Command.{texts};
ghost use Rattle.sva_command.specs.Help as helped;

use crate::files::{behind, is_command};
use crate::passages as text;
use std::alloc::{AllocError, Global};
use sva_script::{is, is_near};

/// What help is on, beside the commands.
#[derive(Clone, Copy, PartialEq, Eq)]
pub enum Topic {
    /// What a scenario is: its steps, and the messages that these send.
    Scenarios,
    /// What a script is, and its steps.
    Scripts,
    /// What a race is, and its steps.
    Races,
    /// What a driver is, its acts and its settings.
    Drivers,
    /// The statuses that the program ends with.
    Statuses,
    /// All that help has.
    All,
}

/// A passage of what help has, by what it is about.
#[derive(Clone, Copy, PartialEq, Eq)]
pub enum Passage {
    /// The program.
    Program,
    /// Drivers.
    Drivers,
    /// Scenarios.
    Scenarios,
    /// How the program is built.
    Building,
    /// What is made of a scenario.
    Running,
    /// Scripts.
    Scripts,
    /// Races.
    Races,
    /// Files.
    Files,
    /// The config, and the steps.
    Steps,
    /// The acts of a driver, and its settings.
    Acts,
    /// Messages, bindings and frames.
    Messages,
    /// The statuses.
    Statuses,
    /// Where more is said.
    More,
}

/// What a command line asks for as to help.
#[derive(Drop)]
pub enum Called {
    /// Nothing, or what the command line itself answers by these words: of help on a command they are that command, and
    /// `--help` behind it.
    Own {
        /// The words, the program's name first.
        words: Vec<String>,
    },
    /// Help on a topic.
    On(Topic),
    /// What can't be meant.
    Wrong {
        /// What is told of that.
        said: Vec<u8>,
    },
}

/// The passages of a topic, in order.
fn passages_of(alloc: Global, topic: Topic) -> Result<Vec<Passage>, AllocError>
    ensures { IfOk result (λ list. list.items ≡ helped.passages_of topic) }
{
    use Passage::{
        Acts, Building, Drivers, Files, Messages, More, Program, Races, Running, Scenarios,
        Scripts, Statuses, Steps,
    };
    match topic {
        Topic::Scenarios => Ok(vec![in alloc; Scenarios, Running, Steps, Messages, More]?),
        Topic::Scripts => Ok(vec![in alloc; Scripts, Steps, Messages, More]?),
        Topic::Races => Ok(vec![in alloc; Races, Steps, More]?),
        Topic::Drivers => Ok(vec![in alloc; Drivers, Acts, More]?),
        Topic::Statuses => Ok(vec![in alloc; Statuses]?),
        Topic::All => Ok(vec![in alloc;
            Program, Drivers, Scenarios, Building, Running, Scripts, Races, Files, Steps, Acts,
            Messages, Statuses, More,
        ]?),
    }
}

/// The text of a passage. It begins with an empty line.
fn text_of(passage: Passage) -> &'static str {
    match passage {
        Passage::Program => text::PROGRAM,
        Passage::Drivers => text::DRIVERS,
        Passage::Scenarios => text::SCENARIOS,
        Passage::Building => text::BUILDING,
        Passage::Running => text::RUNNING,
        Passage::Scripts => text::SCRIPTS,
        Passage::Races => text::RACES,
        Passage::Files => text::NAMED,
        Passage::Steps => text::STEPS,
        Passage::Acts => text::ACTS,
        Passage::Messages => text::MESSAGES,
        Passage::Statuses => text::STATUSES,
        Passage::More => text::MORE,
    }
}

/// What help says on a topic: its passages, each but the first behind an empty line.
pub fn help_on(alloc: Global, topic: Topic) -> Result<Vec<u8>, AllocError> {
    let mut said = Vec::new(alloc);
    for passage in passages_of(alloc, topic)?.as_slice() {
        let text = text_of(*passage).as_bytes();
        let is_first = said.is_empty();
        let more = if is_first { behind(1, text) } else { text };
        said.extend_from_slice(more)?;
    }
    Ok(said)
}

/// The topic of a name, if it is one of a topic.
fn topic_of(word: &[u8]) -> Option<Topic>
    ensures { result ≡ helped.topic_of word.now }
{
    if is(word, b"scenarios") {
        Some(Topic::Scenarios)
    } else if is(word, b"scripts") {
        Some(Topic::Scripts)
    } else if is(word, b"races") {
        Some(Topic::Races)
    } else if is(word, b"drivers") {
        Some(Topic::Drivers)
    } else if is(word, b"statuses") {
        Some(Topic::Statuses)
    } else if is(word, b"all") {
        Some(Topic::All)
    } else {
        None
    }
}

/// What is told of the name of a topic that is near to a word, if one is.
fn near_told(word: &[u8]) -> &'static str
    ensures { result.now ≡ helped.near_told word.now }
{
    if is_near(b"scenarios", word) {
        " (scenarios?)"
    } else if is_near(b"scripts", word) {
        " (scripts?)"
    } else if is_near(b"races", word) {
        " (races?)"
    } else if is_near(b"drivers", word) {
        " (drivers?)"
    } else if is_near(b"statuses", word) {
        " (statuses?)"
    } else if is_near(b"all", word) {
        " (all?)"
    } else {
        ""
    }
}

/// That there is no help on a word.
fn no_help(alloc: Global, word: &[u8]) -> Result<Called, AllocError>
    ensures { IfOk result (λ called. helped.means called ≡ helped.Wrong (helped.no_help word.now)) }
{
    let mut said = Vec::from_slice(alloc, b"svahost: there is no help on '")?;
    said.extend_from_slice(word)?;
    said.extend_from_slice(b"'")?;
    said.extend_from_slice(near_told(word).as_bytes())?;
    said.extend_from_slice(
        b"; there is on each command, and on scenarios, scripts, races, drivers, statuses, all\n",
    )?;
    Ok(Called::Wrong { said })
}

/// That help is asked for on a further word.
fn one_more(alloc: Global, word: &[u8]) -> Result<Called, AllocError>
    ensures { IfOk result (λ called. helped.means called ≡ helped.Wrong (helped.one_more word.now)) }
{
    let mut said = Vec::from_slice(alloc, b"svahost: help is on one word, and not one more, '")?;
    said.extend_from_slice(word)?;
    said.extend_from_slice(b"'\n")?;
    Ok(Called::Wrong { said })
}

/// Help on the program.
fn help_of_program(alloc: Global, name: &str) -> Result<Called, AllocError>
    ensures { IfOk result (λ called. helped.means called ≡ helped.of_program name.now) }
{
    let mut words = Vec::new(alloc);
    words.push(String::from_str(alloc, name)?)?;
    words.push(String::from_str(alloc, "--help")?)?;
    Ok(Called::Own { words })
}

/// Help on a command.
fn help_of_command(alloc: Global, name: &str, command: &str) -> Result<Called, AllocError>
    ensures { IfOk result (λ called. helped.means called ≡ helped.of_command name.now command.now) }
{
    let mut words = Vec::new(alloc);
    words.push(String::from_str(alloc, name)?)?;
    words.push(String::from_str(alloc, command)?)?;
    words.push(String::from_str(alloc, "--help")?)?;
    Ok(Called::Own { words })
}

/// Whether a word itself asks for help.
fn asks_help(word: &[u8]) -> bool
    ensures { result ≡ helped.asks_help word.now }
{
    is(word, b"--help") || is(word, b"-h")
}

/// Help on a word.
fn help_of_word(alloc: Global, name: &str, word: &str) -> Result<Called, AllocError>
    ensures { IfOk result (λ called. helped.means called ≡ helped.of_word name.now word.now) }
{
    if is_command(word.as_bytes()) {
        return help_of_command(alloc, name, word);
    }
    if asks_help(word.as_bytes()) {
        return help_of_program(alloc, name);
    }
    match topic_of(word.as_bytes()) {
        Some(topic) => Ok(Called::On(topic)),
        None => no_help(alloc, word.as_bytes()),
    }
}

/// What the words behind `help` ask for.
fn help_by(alloc: Global, name: &str, words: &[String]) -> Result<Called, AllocError>
    ensures { IfOk result (λ called. helped.means called ≡ helped.called_by name.now (texts words.now)) }
{
    match words {
        [] => help_of_program(alloc, name),
        [word] => help_of_word(alloc, name, word.as_str()),
        [_, next, ..] => one_more(alloc, next.as_str().as_bytes()),
    }
}

/// Whether the word behind the program's name is `help`.
fn is_call(words: &[String]) -> bool
    ensures { result ≡ helped.is_call (texts words.now) }
{
    match words {
        [_, command, ..] => is(command.as_str().as_bytes(), b"help"),
        _ => false,
    }
}

/// What the words of a command line ask for, where the second is `help`.
fn help_behind(alloc: Global, words: &[String]) -> Result<Called, AllocError>
    ensures { IfOk result (λ called. helped.means called ≡ helped.called_behind (texts words.now)) }
{
    match words {
        [name, _, rest @ ..] => help_by(alloc, name.as_str(), rest),
        _ => Ok(Called::Own {
            words: Vec::new(alloc),
        }),
    }
}

/// What a command line asks for as to help, by its words, the program's name first: `help` alone is `--help`, behind it
/// stands a command or a topic, and each other line is its own.
pub fn help_in(alloc: Global, words: Vec<String>) -> Result<Called, AllocError>
    ensures { IfOk result (λ called. helped.means called ≡ helped.called (texts words.items)) }
{
    if is_call(words.as_slice()) {
        help_behind(alloc, words.as_slice())
    } else {
        Ok(Called::Own { words })
    }
}
