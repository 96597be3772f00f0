//! The form of each line: which config or which step its words write.

ghost use Rattle.std.specs.Prelude.{◌≡◌};
ghost use Rattle.sva_grammar.specs.Grammar.{config_of, config_counts};
ghost use Rattle.sva_grammar.specs.Grammar.{space_step, drop_step, map_step, unmap_step, unmapr_step, look_step, bearer_step};
ghost use Rattle.sva_grammar.specs.Grammar.{bind_step, unbind_step, advance_step, pump_step, serve_step, reset_step, take_step, answer_step};
ghost use Rattle.sva_grammar.specs.Grammar.{ask_step, use_step, end_step, evict_step, fault_step, finish_step, quit_step, deliver_step, words_of};

use crate::faults::Cause;
use crate::words::Words;
use sva_step::{Config, Step};

/// The config that a line writes.
#[tactic(auto, unfolding(crate::specs::Grammar::config_of))]
pub(crate) fn config_in(words: &Words<'_>) -> Result<Config, Cause>
    ensures { result ≡ config_of (words_of words.now) }
{
    if words.begins_with(b"config") {
        counts_in(words)
    } else {
        Err(Cause::NoConfig)
    }
}

/// `config E N W`.
#[tactic(auto, unfolding(crate::specs::Grammar::config_counts))]
fn counts_in(words: &Words<'_>) -> Result<Config, Cause>
    ensures { result ≡ config_counts (words_of words.now) }
{
    words.exactly(4)?;
    let endpoints = words.number(1)?;
    let frames = words.number(2)?;
    let workers = words.number(3)?;
    let first = 0;
    Ok(Config {
        endpoints,
        frames,
        workers,
        first,
    })
}

/// `space`.
#[tactic(auto, unfolding(crate::specs::Grammar::space_step))]
pub(crate) fn space_in(words: &Words<'_>) -> Result<Step, Cause>
    ensures { result ≡ space_step (words_of words.now) }
{
    words.exactly(1)?;
    Ok(Step::Space)
}

/// `drop S`.
#[tactic(auto, unfolding(crate::specs::Grammar::drop_step))]
pub(crate) fn drop_in(words: &Words<'_>) -> Result<Step, Cause>
    ensures { result ≡ drop_step (words_of words.now) }
{
    let space = words.one_number()?;
    Ok(Step::DropSpace { space })
}

/// `map S PAGE r` or `map S PAGE w`.
#[tactic(auto, unfolding(crate::specs::Grammar::map_step))]
pub(crate) fn map_in(words: &Words<'_>) -> Result<Step, Cause>
    ensures { result ≡ map_step (words_of words.now) }
{
    words.exactly(4)?;
    let space = words.number(1)?;
    let page = words.number(2)?;
    let write = words.access(3)?;
    Ok(Step::Map { space, page, write })
}

/// `unmap S PAGE`, of one page, or `unmap S PAGE COUNT`.
#[tactic(auto, unfolding(crate::specs::Grammar::unmap_step))]
pub(crate) fn unmap_in(words: &Words<'_>) -> Result<Step, Cause>
    ensures { result ≡ unmap_step (words_of words.now) }
{
    words.either(3, 4)?;
    let space = words.number(1)?;
    let page = words.number(2)?;
    let count = if words.has(4) { words.number(3)? } else { 1 };
    Ok(Step::Unmap { space, page, count })
}

/// `unmapr S PAGE K`.
#[tactic(auto, unfolding(crate::specs::Grammar::unmapr_step))]
pub(crate) fn unmapr_in(words: &Words<'_>) -> Result<Step, Cause>
    ensures { result ≡ unmapr_step (words_of words.now) }
{
    words.exactly(4)?;
    let space = words.number(1)?;
    let page = words.number(2)?;
    let order = words.number(3)?;
    Ok(Step::UnmapRange { space, page, order })
}

/// `look F`.
#[tactic(auto, unfolding(crate::specs::Grammar::look_step))]
pub(crate) fn look_in(words: &Words<'_>) -> Result<Step, Cause>
    ensures { result ≡ look_step (words_of words.now) }
{
    let frame = words.one_number()?;
    Ok(Step::Look { frame })
}

/// `bearer P`.
#[tactic(auto, unfolding(crate::specs::Grammar::bearer_step))]
pub(crate) fn bearer_in(words: &Words<'_>) -> Result<Step, Cause>
    ensures { result ≡ bearer_step (words_of words.now) }
{
    let pasid = words.one_number()?;
    Ok(Step::Bearer { pasid })
}

/// `bind E S`.
#[tactic(auto, unfolding(crate::specs::Grammar::bind_step))]
pub(crate) fn bind_in(words: &Words<'_>) -> Result<Step, Cause>
    ensures { result ≡ bind_step (words_of words.now) }
{
    words.exactly(3)?;
    let endpoint = words.number(1)?;
    let space = words.number(2)?;
    Ok(Step::Bind { endpoint, space })
}

/// `unbind B`.
#[tactic(auto, unfolding(crate::specs::Grammar::unbind_step))]
pub(crate) fn unbind_in(words: &Words<'_>) -> Result<Step, Cause>
    ensures { result ≡ unbind_step (words_of words.now) }
{
    let binding = words.one_number()?;
    Ok(Step::Unbind { binding })
}

/// `advance B`.
#[tactic(auto, unfolding(crate::specs::Grammar::advance_step))]
pub(crate) fn advance_in(words: &Words<'_>) -> Result<Step, Cause>
    ensures { result ≡ advance_step (words_of words.now) }
{
    let binding = words.one_number()?;
    Ok(Step::Advance { binding })
}

/// `pump E`.
#[tactic(auto, unfolding(crate::specs::Grammar::pump_step))]
pub(crate) fn pump_in(words: &Words<'_>) -> Result<Step, Cause>
    ensures { result ≡ pump_step (words_of words.now) }
{
    let endpoint = words.one_number()?;
    Ok(Step::Pump { endpoint })
}

/// `serve E`.
#[tactic(auto, unfolding(crate::specs::Grammar::serve_step))]
pub(crate) fn serve_in(words: &Words<'_>) -> Result<Step, Cause>
    ensures { result ≡ serve_step (words_of words.now) }
{
    let endpoint = words.one_number()?;
    Ok(Step::Serve { endpoint })
}

/// `reset E`.
#[tactic(auto, unfolding(crate::specs::Grammar::reset_step))]
pub(crate) fn reset_in(words: &Words<'_>) -> Result<Step, Cause>
    ensures { result ≡ reset_step (words_of words.now) }
{
    let endpoint = words.one_number()?;
    Ok(Step::Reset { endpoint })
}

/// `take W`.
#[tactic(auto, unfolding(crate::specs::Grammar::take_step))]
pub(crate) fn take_in(words: &Words<'_>) -> Result<Step, Cause>
    ensures { result ≡ take_step (words_of words.now) }
{
    let worker = words.one_number()?;
    Ok(Step::Take { worker })
}

/// `answer W V`.
#[tactic(auto, unfolding(crate::specs::Grammar::answer_step))]
pub(crate) fn answer_in(words: &Words<'_>) -> Result<Step, Cause>
    ensures { result ≡ answer_step (words_of words.now) }
{
    words.exactly(3)?;
    let worker = words.number(1)?;
    let verdict = words.verdict(2)?;
    Ok(Step::Reply { worker, verdict })
}

/// `ask E P PAGE`.
#[tactic(auto, unfolding(crate::specs::Grammar::ask_step))]
pub(crate) fn ask_in(words: &Words<'_>) -> Result<Step, Cause>
    ensures { result ≡ ask_step (words_of words.now) }
{
    words.exactly(4)?;
    let endpoint = words.number(1)?;
    let pasid = words.number(2)?;
    let page = words.number(3)?;
    Ok(Step::Ask {
        endpoint,
        pasid,
        page,
    })
}

/// `use E P PAGE r` or `use E P PAGE w`.
#[tactic(auto, unfolding(crate::specs::Grammar::use_step))]
pub(crate) fn use_in(words: &Words<'_>) -> Result<Step, Cause>
    ensures { result ≡ use_step (words_of words.now) }
{
    words.exactly(5)?;
    let endpoint = words.number(1)?;
    let pasid = words.number(2)?;
    let page = words.number(3)?;
    let write = words.access(4)?;
    Ok(Step::BeginUse {
        endpoint,
        pasid,
        page,
        write,
    })
}

/// `end E U`.
#[tactic(auto, unfolding(crate::specs::Grammar::end_step))]
pub(crate) fn end_in(words: &Words<'_>) -> Result<Step, Cause>
    ensures { result ≡ end_step (words_of words.now) }
{
    words.exactly(3)?;
    let endpoint = words.number(1)?;
    let slot = words.number(2)?;
    Ok(Step::EndUse { endpoint, slot })
}

/// `evict E P PAGE`.
#[tactic(auto, unfolding(crate::specs::Grammar::evict_step))]
pub(crate) fn evict_in(words: &Words<'_>) -> Result<Step, Cause>
    ensures { result ≡ evict_step (words_of words.now) }
{
    words.exactly(4)?;
    let endpoint = words.number(1)?;
    let pasid = words.number(2)?;
    let page = words.number(3)?;
    Ok(Step::Evict {
        endpoint,
        pasid,
        page,
    })
}

/// `fault E P PAGE A G L`.
#[tactic(auto, unfolding(crate::specs::Grammar::fault_step))]
pub(crate) fn fault_in(words: &Words<'_>) -> Result<Step, Cause>
    ensures { result ≡ fault_step (words_of words.now) }
{
    words.exactly(7)?;
    let endpoint = words.number(1)?;
    let pasid = words.number(2)?;
    let page = words.number(3)?;
    let (read, write) = words.flags(4)?;
    let group = words.group(5)?;
    let last = words.is_last(6)?;
    Ok(Step::Fault {
        endpoint,
        pasid,
        page,
        read,
        write,
        group,
        last,
    })
}

/// `finish E VECTOR COUNT`.
#[tactic(auto, unfolding(crate::specs::Grammar::finish_step))]
pub(crate) fn finish_in(words: &Words<'_>) -> Result<Step, Cause>
    ensures { result ≡ finish_step (words_of words.now) }
{
    words.exactly(4)?;
    let endpoint = words.number(1)?;
    let vector = words.vector(2)?;
    let count = words.number(3)?;
    Ok(Step::Finish {
        endpoint,
        vector,
        count,
    })
}

/// `quit E P`.
#[tactic(auto, unfolding(crate::specs::Grammar::quit_step))]
pub(crate) fn quit_in(words: &Words<'_>) -> Result<Step, Cause>
    ensures { result ≡ quit_step (words_of words.now) }
{
    words.exactly(3)?;
    let endpoint = words.number(1)?;
    let pasid = words.number(2)?;
    Ok(Step::Quit { endpoint, pasid })
}

/// `deliver M`.
#[tactic(auto, unfolding(crate::specs::Grammar::deliver_step))]
pub(crate) fn deliver_in(words: &Words<'_>) -> Result<Step, Cause>
    ensures { result ≡ deliver_step (words_of words.now) }
{
    let message = words.one_number()?;
    Ok(Step::Deliver { message })
}
