//! A step, found by the first letter of its name.

ghost use Rattle.std.specs.Prelude.{◌≡◌};
ghost use Rattle.sva_grammar.specs.Grammar.{step_of, words_of};
ghost use Rattle.sva_grammar.specs.Letters.{step_with_a, step_with_b, step_with_d, step_with_e, step_with_f};
ghost use Rattle.sva_grammar.specs.Letters.{step_with_l, step_with_m, step_with_p, step_with_q, step_with_r};
ghost use Rattle.sva_grammar.specs.Letters.{step_with_s, step_with_t, step_with_u};

use crate::faults::Cause;
use crate::forms::{
    advance_in, answer_in, ask_in, bearer_in, bind_in, deliver_in, drop_in, end_in, evict_in,
    fault_in, finish_in, look_in, map_in, pump_in, quit_in, reset_in, serve_in, space_in, take_in,
    unbind_in, unmap_in, unmapr_in, use_in,
};
use crate::words::Words;
use sva_step::Step;

/// The step that a line writes. A name's first letter leaves four names at most.
pub(crate) fn step_in(words: &Words<'_>) -> Result<Step, Cause>
    ensures { result ≡ step_of (words_of words.now) }
{
    match words.letter() {
        b'a' => step_with_a(words),
        b'b' => step_with_b(words),
        b'd' => step_with_d(words),
        b'e' => step_with_e(words),
        b'f' => step_with_f(words),
        b'l' => step_with_l(words),
        b'm' => step_with_m(words),
        b'p' => step_with_p(words),
        b'q' => step_with_q(words),
        b'r' => step_with_r(words),
        b's' => step_with_s(words),
        b't' => step_with_t(words),
        b'u' => step_with_u(words),
        _ => Err(Cause::UnknownStep),
    }
}

/// A step whose name begins with `a`.
#[tactic(auto, unfolding(crate::specs::Letters::step_with_a))]
fn step_with_a(words: &Words<'_>) -> Result<Step, Cause>
    ensures { result ≡ step_with_a (words_of words.now) }
{
    if words.begins_with(b"advance") {
        return advance_in(words);
    }
    if words.begins_with(b"answer") {
        return answer_in(words);
    }
    if words.begins_with(b"ask") {
        return ask_in(words);
    }
    Err(Cause::UnknownStep)
}

/// A step whose name begins with `b`.
#[tactic(auto, unfolding(crate::specs::Letters::step_with_b))]
fn step_with_b(words: &Words<'_>) -> Result<Step, Cause>
    ensures { result ≡ step_with_b (words_of words.now) }
{
    if words.begins_with(b"bearer") {
        return bearer_in(words);
    }
    if words.begins_with(b"bind") {
        return bind_in(words);
    }
    Err(Cause::UnknownStep)
}

/// A step whose name begins with `d`.
#[tactic(auto, unfolding(crate::specs::Letters::step_with_d))]
fn step_with_d(words: &Words<'_>) -> Result<Step, Cause>
    ensures { result ≡ step_with_d (words_of words.now) }
{
    if words.begins_with(b"drop") {
        return drop_in(words);
    }
    if words.begins_with(b"deliver") {
        return deliver_in(words);
    }
    Err(Cause::UnknownStep)
}

/// A step whose name begins with `e`.
#[tactic(auto, unfolding(crate::specs::Letters::step_with_e))]
fn step_with_e(words: &Words<'_>) -> Result<Step, Cause>
    ensures { result ≡ step_with_e (words_of words.now) }
{
    if words.begins_with(b"end") {
        return end_in(words);
    }
    if words.begins_with(b"evict") {
        return evict_in(words);
    }
    Err(Cause::UnknownStep)
}

/// A step whose name begins with `f`.
#[tactic(auto, unfolding(crate::specs::Letters::step_with_f))]
fn step_with_f(words: &Words<'_>) -> Result<Step, Cause>
    ensures { result ≡ step_with_f (words_of words.now) }
{
    if words.begins_with(b"fault") {
        return fault_in(words);
    }
    if words.begins_with(b"finish") {
        return finish_in(words);
    }
    Err(Cause::UnknownStep)
}

/// A step whose name begins with `l`.
#[tactic(auto, unfolding(crate::specs::Letters::step_with_l))]
fn step_with_l(words: &Words<'_>) -> Result<Step, Cause>
    ensures { result ≡ step_with_l (words_of words.now) }
{
    if words.begins_with(b"look") {
        return look_in(words);
    }
    Err(Cause::UnknownStep)
}

/// A step whose name begins with `m`.
#[tactic(auto, unfolding(crate::specs::Letters::step_with_m))]
fn step_with_m(words: &Words<'_>) -> Result<Step, Cause>
    ensures { result ≡ step_with_m (words_of words.now) }
{
    if words.begins_with(b"map") {
        return map_in(words);
    }
    Err(Cause::UnknownStep)
}

/// A step whose name begins with `p`.
#[tactic(auto, unfolding(crate::specs::Letters::step_with_p))]
fn step_with_p(words: &Words<'_>) -> Result<Step, Cause>
    ensures { result ≡ step_with_p (words_of words.now) }
{
    if words.begins_with(b"pump") {
        return pump_in(words);
    }
    Err(Cause::UnknownStep)
}

/// A step whose name begins with `q`.
#[tactic(auto, unfolding(crate::specs::Letters::step_with_q))]
fn step_with_q(words: &Words<'_>) -> Result<Step, Cause>
    ensures { result ≡ step_with_q (words_of words.now) }
{
    if words.begins_with(b"quit") {
        return quit_in(words);
    }
    Err(Cause::UnknownStep)
}

/// A step whose name begins with `r`.
#[tactic(auto, unfolding(crate::specs::Letters::step_with_r))]
fn step_with_r(words: &Words<'_>) -> Result<Step, Cause>
    ensures { result ≡ step_with_r (words_of words.now) }
{
    if words.begins_with(b"reset") {
        return reset_in(words);
    }
    Err(Cause::UnknownStep)
}

/// A step whose name begins with `s`.
#[tactic(auto, unfolding(crate::specs::Letters::step_with_s))]
fn step_with_s(words: &Words<'_>) -> Result<Step, Cause>
    ensures { result ≡ step_with_s (words_of words.now) }
{
    if words.begins_with(b"space") {
        return space_in(words);
    }
    if words.begins_with(b"serve") {
        return serve_in(words);
    }
    Err(Cause::UnknownStep)
}

/// A step whose name begins with `t`.
#[tactic(auto, unfolding(crate::specs::Letters::step_with_t))]
fn step_with_t(words: &Words<'_>) -> Result<Step, Cause>
    ensures { result ≡ step_with_t (words_of words.now) }
{
    if words.begins_with(b"take") {
        return take_in(words);
    }
    Err(Cause::UnknownStep)
}

/// A step whose name begins with `u`.
#[tactic(auto, unfolding(crate::specs::Letters::step_with_u))]
fn step_with_u(words: &Words<'_>) -> Result<Step, Cause>
    ensures { result ≡ step_with_u (words_of words.now) }
{
    if words.begins_with(b"unmap") {
        return unmap_in(words);
    }
    if words.begins_with(b"unmapr") {
        return unmapr_in(words);
    }
    if words.begins_with(b"unbind") {
        return unbind_in(words);
    }
    if words.begins_with(b"use") {
        return use_in(words);
    }
    Err(Cause::UnknownStep)
}
