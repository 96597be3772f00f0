//! The files that a command names, the part of them that is taken, how many are taken at once, and the line behind which
//! `show` looks.

ghost use Rattle.std.specs.Prelude.{◌≡◌, ◌≤◌, ◌+◌, IfOk, IfSome, MatchOption, OnOk, Ok, drop, length, map, option_map, string_bytes, take, true};
ghost use Rattle.std.specs.List.{position};
ghost use Rattle.sva_command.specs.Command.{texts};
ghost use Rattle.sva_command.specs.Files as files;
ghost use Rattle.sva_command.specs.Help as helped;

use std::alloc::{AllocError, Global};
use std::marker::Model;
use sva_grammar::{Cause, number_in};
use sva_script::is;

/// How many parts there are at most.
const MOST_PARTS: u64 = 999_999;

/// How many files are searched at once at most.
const MOST_JOBS: u64 = 256;

/// The last line behind which `show` can look.
const MOST_LINE: u64 = 999_999_999;

/// Which files a command takes, and which options of files.
#[derive(Clone, Copy, PartialEq, Eq)]
pub enum Takes {
    /// Any number of them, with `--part` and `--jobs`.
    Many,
    /// One.
    One,
    /// One, with `--after`: so does `show`.
    Shown,
}

/// What the next word is.
#[derive(Clone, Copy)]
pub enum Awaited {
    /// An option, or a file.
    Word,
    /// The value of an option that is left for the command line.
    Value,
    /// The part behind `--part`.
    Part,
    /// The number behind `--jobs`.
    Jobs,
    /// The number behind `--after`.
    After,
    /// A file, whatever it looks like, since `--` came before.
    File,
}

/// What a word is where an option or a file may stand.
#[derive(Clone, Copy)]
pub enum Kind {
    /// `--`.
    Files,
    /// `--most` or `--turns`.
    Value,
    /// `--part`.
    Part,
    /// `--part=` with the part.
    PartIs,
    /// `--jobs`.
    Jobs,
    /// `--jobs=` with the number.
    JobsIs,
    /// `--after`.
    After,
    /// `--after=` with the number.
    AfterIs,
    /// Another option.
    Own,
    /// A file.
    File,
}

/// Whether a text begins with another.
fn begins(text: &[u8], with: &[u8]) -> bool
    ensures begins { result ≡ files.begins text.now with.now }
    ensures within { result ≡ true → length with.now ≤ length text.now }
{
    with.len() <= text.len() && is(&text[..with.len()], with)
}

/// What an option is of a command that takes any number of files.
fn kind_of_many(word: &[u8]) -> Kind
    ensures { result ≡ files.kind_of_many word.now }
{
    if is(word, b"--part") {
        Kind::Part
    } else if begins(word, b"--part=") {
        Kind::PartIs
    } else if is(word, b"--jobs") {
        Kind::Jobs
    } else if begins(word, b"--jobs=") {
        Kind::JobsIs
    } else {
        Kind::Own
    }
}

/// What an option of `show` is.
fn kind_of_shown(word: &[u8]) -> Kind
    ensures { result ≡ files.kind_of_shown word.now }
{
    if is(word, b"--after") {
        Kind::After
    } else if begins(word, b"--after=") {
        Kind::AfterIs
    } else {
        Kind::Own
    }
}

/// What an option is.
fn kind_of_option(takes: Takes, word: &[u8]) -> Kind
    ensures { result ≡ files.kind_of_option takes word.now }
{
    match takes {
        Takes::Many => kind_of_many(word),
        Takes::One => Kind::Own,
        Takes::Shown => kind_of_shown(word),
    }
}

/// What a word is where an option or a file may stand.
fn kind_of(takes: Takes, word: &[u8]) -> Kind
    ensures { result ≡ files.kind_of takes word.now }
{
    if is(word, b"--") {
        Kind::Files
    } else if is(word, b"-") {
        Kind::File
    } else if is(word, b"--most") || is(word, b"--turns") {
        Kind::Value
    } else if begins(word, b"-") {
        kind_of_option(takes, word)
    } else {
        Kind::File
    }
}

/// The words of a command that takes files, with these apart.
#[derive(Drop)]
pub struct Named {
    /// The words that are left for the command line, the program's name first.
    pub own: Vec<String>,
    /// The files, in order, as they are named.
    pub files: Vec<String>,
    /// What stands behind `--part`; of several the last one.
    pub part: Option<Vec<u8>>,
    /// What stands behind `--jobs`; of several the last one.
    pub jobs: Option<Vec<u8>>,
    /// What stands behind `--after`; of several the last one.
    pub after: Option<Vec<u8>>,
    /// Which files the command takes.
    pub takes: Takes,
    /// What a further word would be.
    pub awaited: Awaited,
}

impl Model for Named {
    ghost use Rattle.std.specs.Prelude.{option_map};
    ghost use Rattle.sva_command.specs.Command.{texts};
    ghost use Rattle.sva_command.specs.Files as kept;

    ghost Value = { kept.Named };

    ghost view = { λ named. record {
      own = texts named.own.items;
      files = texts named.files.items;
      part = option_map (λ part. part.items) named.part;
      jobs = option_map (λ jobs. jobs.items) named.jobs;
      after = option_map (λ after. after.items) named.after;
      takes = named.takes;
      awaited = named.awaited;
    } };
}

impl Named {
    /// Before the words behind a command.
    fn begun(alloc: Global, takes: Takes, name: &str, command: &str) -> Result<Named, AllocError>
        ensures { IfOk result (λ named. named ≡ files.begun takes name.now command.now) }
    {
        let mut own = Vec::new(alloc);
        own.push(String::from_str(alloc, name)?)?;
        own.push(String::from_str(alloc, command)?)?;
        Ok(Named {
            own,
            files: Vec::new(alloc),
            part: None,
            jobs: None,
            after: None,
            takes,
            awaited: Awaited::Word,
        })
    }

    /// A word is left for the command line.
    fn keep(&mut self, alloc: Global, word: &str) -> Result<(), AllocError>
        ensures { OnOk result (self.new ≡ files.with_own self.old word.now) }
    {
        self.own.push(String::from_str(alloc, word)?)?;
        Ok(())
    }

    /// A word names a file.
    fn name(&mut self, alloc: Global, word: &str) -> Result<(), AllocError>
        ensures { OnOk result (self.new ≡ files.with_file self.old word.now) }
    {
        self.files.push(String::from_str(alloc, word)?)?;
        Ok(())
    }

    /// A text says which part.
    fn set_part(&mut self, alloc: Global, text: &[u8]) -> Result<(), AllocError>
        ensures { OnOk result (self.new ≡ files.with_part self.old text.now) }
    {
        self.part = Some(Vec::from_slice(alloc, text)?);
        Ok(())
    }

    /// A text says how many are searched at once.
    fn set_jobs(&mut self, alloc: Global, text: &[u8]) -> Result<(), AllocError>
        ensures { OnOk result (self.new ≡ files.with_jobs self.old text.now) }
    {
        self.jobs = Some(Vec::from_slice(alloc, text)?);
        Ok(())
    }

    /// A text says behind which line.
    fn set_after(&mut self, alloc: Global, text: &[u8]) -> Result<(), AllocError>
        ensures { OnOk result (self.new ≡ files.with_after self.old text.now) }
    {
        self.after = Some(Vec::from_slice(alloc, text)?);
        Ok(())
    }

    /// Says what the next word is.
    fn await_next(&mut self, next: Awaited)
        ensures { self.new ≡ files.awaiting self.old next }
    {
        self.awaited = next;
    }

    /// Takes a word of a kind.
    fn take_kind(&mut self, alloc: Global, kind: Kind, word: &str) -> Result<(), AllocError>
        ensures { OnOk result (self.new ≡ files.with_kind kind self.old word.now) }
    {
        match kind {
            Kind::Files => {
                self.keep(alloc, word)?;
                self.await_next(Awaited::File);
                Ok(())
            }
            Kind::Value => {
                self.keep(alloc, word)?;
                self.await_next(Awaited::Value);
                Ok(())
            }
            Kind::Part => {
                self.await_next(Awaited::Part);
                Ok(())
            }
            Kind::PartIs => self.set_part(alloc, behind(7, word.as_bytes())),
            Kind::Jobs => {
                self.await_next(Awaited::Jobs);
                Ok(())
            }
            Kind::JobsIs => self.set_jobs(alloc, behind(7, word.as_bytes())),
            Kind::After => {
                self.await_next(Awaited::After);
                Ok(())
            }
            Kind::AfterIs => self.set_after(alloc, behind(8, word.as_bytes())),
            Kind::Own => self.keep(alloc, word),
            Kind::File => self.name(alloc, word),
        }
    }

    /// Takes the next word.
    fn take(&mut self, alloc: Global, word: &str) -> Result<(), AllocError>
        ensures { OnOk result (self.new ≡ files.with_word self.old word.now) }
    {
        let awaited = self.awaited;
        match awaited {
            Awaited::Word => self.take_kind(alloc, kind_of(self.takes, word.as_bytes()), word),
            Awaited::Value => {
                self.await_next(Awaited::Word);
                self.keep(alloc, word)
            }
            Awaited::Part => {
                self.await_next(Awaited::Word);
                self.set_part(alloc, word.as_bytes())
            }
            Awaited::Jobs => {
                self.await_next(Awaited::Word);
                self.set_jobs(alloc, word.as_bytes())
            }
            Awaited::After => {
                self.await_next(Awaited::Word);
                self.set_after(alloc, word.as_bytes())
            }
            Awaited::File => self.name(alloc, word),
        }
    }

    /// Takes the words behind a command.
    fn take_all(&mut self, alloc: Global, words: &[String]) -> Result<(), AllocError>
        ensures { OnOk result (self.new ≡ files.with_words self.old (texts words.now)) }
    {
        for place in 0..words.len() {
            self.take(alloc, words[place].as_str())?;
        }
        Ok(())
    }
}

/// What stands behind the name of an option and `=`, which are so many bytes.
pub(crate) fn behind(count: usize, word: &[u8]) -> &[u8]
    ensures { result.now ≡ drop count word.entry.now }
{
    match word.get(count..) {
        Some(text) => text,
        None => &[],
    }
}

/// Whether a command takes any number of files.
fn takes_many(command: &[u8]) -> bool
    ensures { result ≡ files.takes_many command.now }
{
    is(command, b"check")
        || is(command, b"test")
        || is(command, b"why")
        || is(command, b"explore")
        || is(command, b"judge")
}

/// Whether a command takes one file.
fn takes_one(command: &[u8]) -> bool
    ensures { result ≡ files.takes_one command.now }
{
    is(command, b"replay")
        || is(command, b"plain")
        || is(command, b"chart")
        || is(command, b"trace")
        || is(command, b"storm")
}

/// Which files a command takes; `None` of a word that is no command.
fn takes_of(command: &[u8]) -> Option<Takes>
    ensures { result ≡ files.takes_of command.now }
{
    if takes_many(command) {
        Some(Takes::Many)
    } else if takes_one(command) {
        Some(Takes::One)
    } else if is(command, b"show") {
        Some(Takes::Shown)
    } else {
        None
    }
}

/// Whether a word is a command.
pub(crate) fn is_command(word: &[u8]) -> bool
    ensures { result ≡ helped.is_command word.now }
{
    takes_of(word).is_some()
}

/// The words behind a command that takes these files.
fn named_by(
    alloc: Global,
    takes: Takes,
    name: &str,
    command: &str,
    words: &[String],
) -> Result<Named, AllocError>
    ensures { IfOk result (λ named. named ≡ files.named_by takes name.now command.now (texts words.now)) }
{
    let mut named = Named::begun(alloc, takes, name, command)?;
    named.take_all(alloc, words)?;
    Ok(named)
}

/// The words of a command, with the files that it takes apart; `None` where the first is no command.
pub fn named_in(alloc: Global, words: &[String]) -> Result<Option<Named>, AllocError>
    ensures { IfOk result (λ named. named ≡ files.named_in (texts words.now)) }
{
    match words {
        [name, command, rest @ ..] => match takes_of(command.as_bytes()) {
            Some(takes) => {
                let named = named_by(alloc, takes, name.as_str(), command.as_str(), rest)?;
                Ok(Some(named))
            }
            None => Ok(None),
        },
        _ => Ok(None),
    }
}

/// A part of a list of files.
#[derive(Clone, Copy, PartialEq, Eq)]
pub struct Part {
    /// Which part it is, from 1 on.
    pub index: u64,
    /// How many there are: 1 to 999999.
    pub count: u64,
}

/// The part by its two numbers.
fn part_by(one: Result<u64, Cause>, other: Result<u64, Cause>) -> Option<Part>
    ensures { result ≡ files.part_by one other }
{
    match (one, other) {
        (Ok(index), Ok(count)) if 1 <= index && index <= count && count <= MOST_PARTS => Some(Part {
            index,
            count,
        }),
        _ => None,
    }
}

/// The part that a text says, as `2/3`, if it says one.
pub fn part_of(text: &[u8]) -> Option<Part>
    ensures { result ≡ files.part_of text.now }
{
    match text.iter().position(|byte| *byte == b'/') {
        Some(at) => part_by(number_in(&text[..at]), number_in(&text[at + 1..])),
        None => None,
    }
}

/// A number of files that are searched at once.
fn jobs_by(found: Result<u64, Cause>) -> Option<u64>
    ensures { result ≡ files.jobs_by found }
{
    match found {
        Ok(jobs) if 1 <= jobs && jobs <= MOST_JOBS => Some(jobs),
        _ => None,
    }
}

/// How many files a text says that are searched at once, if it says it: 1 to 256.
pub fn jobs_of(text: &[u8]) -> Option<u64>
    ensures { result ≡ files.jobs_of text.now }
{
    jobs_by(number_in(text))
}

/// A number of a line behind which is looked.
fn after_by(found: Result<u64, Cause>) -> Option<u64>
    ensures { result ≡ files.after_by found }
{
    match found {
        Ok(line) if 1 <= line && line <= MOST_LINE => Some(line),
        _ => None,
    }
}

/// Behind which line of a script a text says that is looked, if it says it: 1 to 999999999.
pub fn after_of(text: &[u8]) -> Option<u64>
    ensures { result ≡ files.after_of text.now }
{
    after_by(number_in(text))
}

/// The files of a part: every N-th, from the K-th on.
pub fn files_of(alloc: Global, part: Part, names: &[String]) -> Result<Vec<String>, AllocError>
    ensures { IfOk result (λ list. texts list.items ≡ files.files_of part (texts names.now)) }
{
    let mut list = Vec::new(alloc);
    let mut before = part.index.saturating_sub(1);
    for place in 0..names.len() {
        let name = names[place].as_str();
        if before == 0 {
            list.push(String::from_str(alloc, name)?)?;
            before = part.count.saturating_sub(1);
        } else {
            before -= 1;
        }
    }
    Ok(list)
}
