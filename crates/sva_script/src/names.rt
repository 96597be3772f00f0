//! Names, and the numbers that they stand for.

ghost use Rattle.std.specs.Prelude.{◌≡◌, ◌==◌, ◌<◌, IfSome, length, position, ◌∷◌, [], ◌++◌, None, OnOk, OnErr, option_map};
ghost use Rattle.std.specs.List.{list_all};
ghost use Rattle.sva_script.specs.Names.{begins_name, frames_in, given_of, is_name, is_name_byte, message_at, name_and_nth, name_by, nth_of, number_at};
ghost use Rattle.sva_script.specs.Names.{near_name, number_told, numbers_in};

use crate::given::{Given, Told};
use crate::nearest::is_near;
use crate::places::Field;
use crate::reserved::is_reserved;
use indexmap::IndexMap;
use std::alloc::{AllocError, Global};
use std::marker::Model;
use sva_grammar::{Cause, number_in, vector_in};
use sva_step::Answer;

/// The names of the lines so far.
#[derive(Drop)]
pub struct Names {
    given: IndexMap<Vec<u8>, Given>,
}

impl Model for Names {
    ghost use Rattle.std.specs.Prelude.{map};
    ghost use Rattle.sva_script.specs.Names.{Known};

    ghost Value = { Known };

    ghost view = { λ n. map (λ entry. (entry.0.items, entry.1)) n.given.entries };
}

impl Names {
    /// No names.
    pub fn new(alloc: Global) -> Self
        ensures { result ≡ [] }
    {
        Names {
            given: IndexMap::new(alloc),
        }
    }

    /// What the line of this name came to; `None` where no line so far has it.
    pub fn get(&self, name: &[u8]) -> Option<Given>
        ensures { result ≡ given_of name.now self.now }
    {
        self.given.get(name).copied()
    }

    /// Gives a name, which no line has yet, to a line. Where memory is refused, nothing changes.
    pub fn put(&mut self, alloc: Global, name: &[u8], given: Given) -> Result<(), AllocError>
        requires { given_of name.now self.old ≡ None }
        ensures ok { OnOk result (self.new ≡ self.old ++ (name.now, given) ∷ []) }
        ensures err { OnErr result (self.new ≡ self.old) }
    {
        let mut own = Vec::new(alloc);
        own.extend_from_slice(name)?;
        if self.given.insert(own, given).is_err() {
            return Err(AllocError);
        }
        Ok(())
    }
}

/// May the word be a name: a small letter, then letters, digits, `-` and `_`, and no word of the format?
pub fn is_name(word: &[u8]) -> bool
    ensures { result ≡ is_name word.now }
{
    begins_name(word) && are_name_bytes(word) && vector_in(word).is_err() && !is_reserved(word)
}

/// Are all bytes letters, digits, `-` or `_`?
fn are_name_bytes(word: &[u8]) -> bool
    ensures { result ≡ list_all is_name_byte word.now }
{
    word.iter().all(|byte| is_name_byte(*byte))
}

/// Is the byte a letter, a digit, `-` or `_`?
fn is_name_byte(byte: u8) -> bool
    ensures { result ≡ is_name_byte byte }
{
    byte.is_ascii_alphanumeric() || byte == b'-' || byte == b'_'
}

/// Does the word begin as names do?
pub(crate) fn begins_name(word: &[u8]) -> bool
    ensures { result ≡ begins_name word.now }
{
    match word {
        [] => false,
        [first, ..] => first.is_ascii_lowercase(),
    }
}

/// The number that an answer has at a place, of several the nth.
fn answered_at(place: Field, answer: &Answer, nth: u64) -> Option<u64>
    ensures { result ≡ nth_of nth (numbers_in place answer.now) }
{
    if place == Field::Frame {
        return frame_at(answer, nth);
    }
    if nth != 1 {
        return None;
    }
    match (place, answer) {
        (Field::Space, Answer::Space { space }) => Some(*space),
        (Field::Space, Answer::Bearer { space, .. }) => Some(*space),
        (Field::Binding, Answer::Binding { binding, .. }) => Some(*binding),
        (Field::Binding, Answer::JobTaken { binding, .. }) => Some(*binding),
        (Field::Pasid, Answer::Binding { pasid, .. }) => Some(u64::from(*pasid)),
        (Field::Slot, Answer::Use { slot, .. }) => Some(u64::from(*slot)),
        (Field::Group, Answer::Group { group }) => Some(u64::from(*group)),
        (Field::Group, Answer::JobTaken { group, .. }) => Some(u64::from(*group)),
        (Field::Tag, Answer::Tag { tag }) => Some(u64::from(*tag)),
        (Field::Itag | Field::Itags, Answer::Itag { itag }) => Some(u64::from(*itag)),
        _ => None,
    }
}

/// The frame of an answer, of several the nth.
fn frame_at(answer: &Answer, nth: u64) -> Option<u64>
    ensures { result ≡ nth_of nth (frames_in answer.now) }
{
    match answer {
        Answer::Frame { frame } if nth == 1 => Some(u64::from(*frame)),
        Answer::Use { frame, .. } if nth == 1 => Some(u64::from(*frame)),
        Answer::FreeFrames { frames } => nth_frame(frames.as_slice(), nth),
        Answer::WithheldFrames { frames } => nth_frame(frames.as_slice(), nth),
        _ => None,
    }
}

/// One of the frames, which are counted from 1.
fn nth_frame(frames: &[u32], nth: u64) -> Option<u64>
    ensures { result ≡ nth_of nth frames.now }
{
    if nth == 0 {
        return None;
    }
    let place = nth - 1;
    if place >= frames.len() as u64 {
        return None;
    }
    Some(u64::from(frames[place as usize]))
}

/// The number that a name stands for at a place, of several the nth. As long as lines are only read, it is 0.
pub(crate) fn number_at(place: Field, given: &Given, nth: u64) -> Option<u64>
    ensures { result ≡ number_at place given.now nth }
{
    match given.told {
        None => Some(0),
        Some(told) => number_by(place, &told, nth),
    }
}

/// The number that a line which was taken has at a place, of several the nth.
fn number_by(place: Field, told: &Told, nth: u64) -> Option<u64>
    ensures { result ≡ number_told place nth told.now }
{
    match place {
        Field::Message => message_at(told, nth),
        _ => match &told.reply {
            Ok(answer) => answered_at(place, answer, nth),
            Err(_) => None,
        },
    }
}

/// The number of the nth message that a step sent.
fn message_at(told: &Told, nth: u64) -> Option<u64>
    ensures { result ≡ message_at told.now nth }
{
    if nth == 0 || nth > told.next.saturating_sub(told.first) {
        return None;
    }
    Some(told.first + (nth - 1))
}

/// A word as a name, and which of its numbers is meant: `NAME` is the first, `NAME.2` the second.
pub fn name_and_nth(word: &[u8]) -> Option<(&[u8], u64)>
    ensures { option_map (λ name. (name.0.now, name.1)) result ≡ name_and_nth word.now }
{
    match dot_in(word) {
        None => Some((word, 1)),
        Some(dot) => name_by(&word[..dot], number_in(&word[dot + 1..])),
    }
}

/// Where the first dot of a word is.
fn dot_in(word: &[u8]) -> Option<usize>
    ensures at { result ≡ position (λ byte. byte == 46) word.now }
    ensures within { IfSome result (λ dot. dot < length word.now) }
{
    word.iter().position(|byte| *byte == b'.')
}

/// A name with the number behind its dot, which counts from 1.
fn name_by(name: &[u8], nth: Result<u64, Cause>) -> Option<(&[u8], u64)>
    ensures { option_map (λ name. (name.0.now, name.1)) result ≡ name_by name.now nth }
{
    match nth {
        Ok(nth) if nth > 0 => Some((name, nth)),
        _ => None,
    }
}

/// How many names are looked through for one that is near to a word.
const MOST_COMPARED: usize = 1000;

impl Names {
    /// A name that is near to a word, of the last 1000 the first such; `None` where none of them is.
    pub fn near(&self, word: &[u8]) -> Option<&[u8]>
        ensures { option_map (λ near. near.now) result ≡ near_name self.now word.now }
    {
        let len = self.given.len();
        for place in len.saturating_sub(MOST_COMPARED)..len {
            if let Some((name, _)) = self.given.get_index(place) {
                if is_near(name.as_slice(), word) {
                    return Some(name.as_slice());
                }
            }
        }
        None
    }
}
