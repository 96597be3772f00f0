//! The lines of what link, units and endpoints do.

ghost use Rattle.std.specs.Prelude.{◌≡◌, map};
ghost use Rattle.sva_driver_words.specs.Sayings as sayings;
ghost use Rattle.sva_driver_words.specs.Sayings.{read_seen};

use crate::acts::did;
use crate::faults::{DriverWanted, DriverWrong, judge_end};
use crate::fields::{
    asked_at, endpoint_at, has_word, index_at, kind_at, last_at, older_at, page_at, pasid_at,
    place_at, says,
};
use sva_open::{Act, LocalAct, Named, Saying};
use sva_step::Config;

/// Reads the end of `pump E N`.
fn pumped_at(endpoint: usize, words: &[&[u8]]) -> Result<Saying, DriverWrong>
    ensures { read_seen result ≡ sayings.pumped_at endpoint (map (λ word. word.now) words.now) }
{
    let place = place_at(words, 2)?;
    judge_end(words, 3)?;
    Ok(did(endpoint, LocalAct::PumpAt { place }))
}

/// Reads `pump E [N]`.
pub(crate) fn pump_line(config: &Config, words: &[&[u8]]) -> Result<Saying, DriverWrong>
    ensures { read_seen result ≡ sayings.pump_line config.now (map (λ word. word.now) words.now) }
{
    let endpoint = endpoint_at(config, words, 1)?;
    if has_word(words, 2) {
        pumped_at(endpoint, words)
    } else {
        Ok(did(endpoint, LocalAct::Pump))
    }
}

/// Reads the end of `fault .. new LAST`.
fn fault_begun(
    endpoint: usize,
    pasid: usize,
    page: u64,
    write: bool,
    words: &[&[u8]],
) -> Result<Saying, DriverWrong>
    ensures { read_seen result ≡ sayings.fault_begun endpoint pasid page write (map (λ word. word.now) words.now) }
{
    let last = last_at(words, 6)?;
    judge_end(words, 7)?;
    Ok(Saying::Does {
        act: Act::At {
            endpoint,
            act: LocalAct::Fault {
                pasid,
                page,
                write,
                last,
            },
        },
    })
}

/// Reads the end of `fault .. I LAST`.
fn fault_more(
    endpoint: usize,
    pasid: usize,
    page: u64,
    write: bool,
    words: &[&[u8]],
) -> Result<Saying, DriverWrong>
    ensures { read_seen result ≡ sayings.fault_more endpoint pasid page write (map (λ word. word.now) words.now) }
{
    let index = index_at(words, 5, DriverWanted::GroupOrNew)?;
    let last = last_at(words, 6)?;
    judge_end(words, 7)?;
    Ok(Saying::Names {
        endpoint,
        named: Named::More {
            pasid,
            index,
            page,
            write,
            last,
        },
    })
}

/// Reads `fault ..`.
pub(crate) fn fault_line(config: &Config, words: &[&[u8]]) -> Result<Saying, DriverWrong>
    ensures { read_seen result ≡ sayings.fault_line config.now (map (λ word. word.now) words.now) }
{
    let endpoint = endpoint_at(config, words, 1)?;
    let pasid = pasid_at(words, 2)?;
    let page = page_at(words, 3)?;
    let write = asked_at(words, 4)?;
    if says(words, 5, b"new") {
        fault_begun(endpoint, pasid, page, write, words)
    } else {
        fault_more(endpoint, pasid, page, write, words)
    }
}

/// Reads `end E [N]`.
pub(crate) fn end_line(config: &Config, words: &[&[u8]]) -> Result<Saying, DriverWrong>
    ensures { read_seen result ≡ sayings.end_line config.now (map (λ word. word.now) words.now) }
{
    let endpoint = endpoint_at(config, words, 1)?;
    let older = older_at(words, 2)?;
    judge_end(words, 3)?;
    Ok(Saying::Names {
        endpoint,
        named: Named::End { older },
    })
}

/// Reads `finish E [N]`.
pub(crate) fn finish_line(config: &Config, words: &[&[u8]]) -> Result<Saying, DriverWrong>
    ensures { read_seen result ≡ sayings.finish_line config.now (map (λ word. word.now) words.now) }
{
    let endpoint = endpoint_at(config, words, 1)?;
    let older = older_at(words, 2)?;
    judge_end(words, 3)?;
    Ok(Saying::Names {
        endpoint,
        named: Named::Finish { older },
    })
}

/// Reads `pass E [N]`.
pub(crate) fn pass_line(config: &Config, words: &[&[u8]]) -> Result<Saying, DriverWrong>
    ensures { read_seen result ≡ sayings.pass_line config.now (map (λ word. word.now) words.now) }
{
    let endpoint = endpoint_at(config, words, 1)?;
    let older = older_at(words, 2)?;
    judge_end(words, 3)?;
    Ok(Saying::Names {
        endpoint,
        named: Named::Pass { older },
    })
}

/// Reads `deliver KIND E [N]`.
pub(crate) fn deliver_line(config: &Config, words: &[&[u8]]) -> Result<Saying, DriverWrong>
    ensures { read_seen result ≡ sayings.deliver_line config.now (map (λ word. word.now) words.now) }
{
    let kind = kind_at(words, 1)?;
    let endpoint = endpoint_at(config, words, 2)?;
    let older = older_at(words, 3)?;
    judge_end(words, 4)?;
    Ok(Saying::Names {
        endpoint,
        named: Named::Deliver { kind, older },
    })
}

/// Reads the end of `forget E P PAGE`.
fn page_forgotten(endpoint: usize, pasid: usize, words: &[&[u8]]) -> Result<Saying, DriverWrong>
    ensures { read_seen result ≡ sayings.page_forgotten endpoint pasid (map (λ word. word.now) words.now) }
{
    let page = page_at(words, 3)?;
    judge_end(words, 4)?;
    Ok(Saying::Names {
        endpoint,
        named: Named::Forget { pasid, page },
    })
}

/// Reads `forget E P [PAGE]`.
pub(crate) fn forget_line(config: &Config, words: &[&[u8]]) -> Result<Saying, DriverWrong>
    ensures { read_seen result ≡ sayings.forget_line config.now (map (λ word. word.now) words.now) }
{
    let endpoint = endpoint_at(config, words, 1)?;
    let pasid = pasid_at(words, 2)?;
    if has_word(words, 3) {
        page_forgotten(endpoint, pasid, words)
    } else {
        Ok(Saying::Names {
            endpoint,
            named: Named::ForgetEntry { pasid },
        })
    }
}
