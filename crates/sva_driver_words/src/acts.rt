//! The lines of acts whose words say all.

ghost use Rattle.std.specs.Prelude.{◌≡◌, map};
ghost use Rattle.sva_driver_words.specs.Sayings as sayings;
ghost use Rattle.sva_driver_words.specs.Sayings.{act_seen, read_seen, saying_seen};
ghost use Rattle.sva_open.specs.declared.acts.Act.TheVariants as variants;

use crate::faults::{DriverWanted, DriverWrong, judge_end};
use crate::fields::{
    access_at, endpoint_at, fails_at, frame_at, has_word, index_at, page_at, pasid_at, says,
    some_pasid_at, space_at,
};
use sva_open::{Act, Barrier, LocalAct, Saying};
use sva_race_texts::word_at;
use sva_script::is;
use sva_step::Config;

/// Reads `mark`.
pub(crate) fn mark_line(words: &[&[u8]]) -> Result<Saying, DriverWrong>
    ensures { read_seen result ≡ sayings.mark_line (map (λ word. word.now) words.now) }
{
    judge_end(words, 1)?;
    Ok(Saying::Does { act: Act::Mark })
}

/// Whether an endpoint alone stands behind it.
pub(crate) fn takes_endpoint(word: &[u8]) -> bool
    ensures { result ≡ sayings.takes_endpoint word.now }
{
    is(word, b"reset")
        || is(word, b"serve")
        || is(word, b"close")
        || is(word, b"open")
        || is(word, b"skip")
        || is(word, b"resume")
        || is(word, b"gone")
        || is(word, b"write")
}

/// An act at an endpoint.
pub(crate) fn did(endpoint: usize, act: LocalAct) -> Saying
    ensures { saying_seen result ≡ act_seen (variants.At endpoint act) }
{
    Saying::Does {
        act: Act::At { endpoint, act },
    }
}

/// What it says of an endpoint.
fn of_endpoint(word: &[u8], endpoint: usize) -> Saying
    ensures { saying_seen result ≡ sayings.of_endpoint word.now endpoint }
{
    if is(word, b"reset") {
        return did(endpoint, LocalAct::Reset);
    }
    if is(word, b"serve") {
        return did(endpoint, LocalAct::Serve);
    }
    if is(word, b"close") {
        return did(endpoint, LocalAct::Close);
    }
    if is(word, b"open") {
        return did(endpoint, LocalAct::Reopen);
    }
    if is(word, b"skip") {
        return did(endpoint, LocalAct::Skip);
    }
    if is(word, b"resume") {
        return did(endpoint, LocalAct::Resume);
    }
    if is(word, b"gone") {
        return did(endpoint, LocalAct::Leave);
    }
    did(endpoint, LocalAct::Write)
}

/// Reads a line with an endpoint alone.
pub(crate) fn endpoint_line(config: &Config, words: &[&[u8]]) -> Result<Saying, DriverWrong>
    ensures { read_seen result ≡ sayings.endpoint_line config.now (map (λ word. word.now) words.now) }
{
    let endpoint = endpoint_at(config, words, 1)?;
    judge_end(words, 2)?;
    Ok(of_endpoint(word_at(words, 0), endpoint))
}

/// Whether an endpoint and a PASID stand behind it.
pub(crate) fn takes_pasid(word: &[u8]) -> bool
    ensures { result ≡ sayings.takes_pasid word.now }
{
    is(word, b"start") || is(word, b"stop") || is(word, b"barrier") || is(word, b"quit")
}

/// What it says of a PASID, as the line at a place of a thread.
fn of_pasid(word: &[u8], endpoint: usize, pasid: usize, thread: usize, place: usize) -> Saying
    ensures { saying_seen result ≡ sayings.of_pasid word.now endpoint pasid thread place }
{
    if is(word, b"barrier") {
        let barrier = Barrier {
            pasid,
            thread,
            name: place,
        };
        return did(endpoint, LocalAct::Barrier { barrier });
    }
    if is(word, b"start") {
        return Saying::Does {
            act: Act::At {
                endpoint,
                act: LocalAct::Start { pasid },
            },
        };
    }
    if is(word, b"stop") {
        return Saying::Does {
            act: Act::At {
                endpoint,
                act: LocalAct::Stop { pasid },
            },
        };
    }
    Saying::Does {
        act: Act::At {
            endpoint,
            act: LocalAct::Quit { pasid },
        },
    }
}

/// Reads a line with an endpoint and a PASID, at a place, of a thread.
pub(crate) fn pasid_line(
    config: &Config,
    thread: usize,
    place: usize,
    words: &[&[u8]],
) -> Result<Saying, DriverWrong>
    ensures { read_seen result ≡ sayings.pasid_line config.now thread place (map (λ word. word.now) words.now) }
{
    let endpoint = endpoint_at(config, words, 1)?;
    let pasid = pasid_at(words, 2)?;
    judge_end(words, 3)?;
    Ok(of_pasid(word_at(words, 0), endpoint, pasid, thread, place))
}

/// Whether an endpoint, a PASID and a page stand behind it.
pub(crate) fn takes_page(word: &[u8]) -> bool
    ensures { result ≡ sayings.takes_page word.now }
{
    is(word, b"ask") || is(word, b"use") || is(word, b"evict")
}

/// What it says of a page.
fn of_page(word: &[u8], endpoint: usize, pasid: usize, page: u64) -> Saying
    ensures { saying_seen result ≡ sayings.of_page word.now endpoint pasid page }
{
    if is(word, b"ask") {
        return Saying::Does {
            act: Act::At {
                endpoint,
                act: LocalAct::Ask { pasid, page },
            },
        };
    }
    if is(word, b"use") {
        return Saying::Does {
            act: Act::At {
                endpoint,
                act: LocalAct::Use { pasid, page },
            },
        };
    }
    Saying::Does {
        act: Act::At {
            endpoint,
            act: LocalAct::Evict { pasid, page },
        },
    }
}

/// Reads a line with an endpoint, a PASID and a page.
pub(crate) fn page_line(config: &Config, words: &[&[u8]]) -> Result<Saying, DriverWrong>
    ensures { read_seen result ≡ sayings.page_line config.now (map (λ word. word.now) words.now) }
{
    let endpoint = endpoint_at(config, words, 1)?;
    let pasid = pasid_at(words, 2)?;
    let page = page_at(words, 3)?;
    judge_end(words, 4)?;
    Ok(of_page(word_at(words, 0), endpoint, pasid, page))
}

/// Reads the end of `pte S PAGE none`.
fn cleared(space: u64, page: u64, words: &[&[u8]]) -> Result<Saying, DriverWrong>
    ensures { read_seen result ≡ sayings.cleared space page (map (λ word. word.now) words.now) }
{
    judge_end(words, 4)?;
    Ok(Saying::Does {
        act: Act::ClearPage { space, page },
    })
}

/// Reads the end of `pte S PAGE F r` and `pte S PAGE F w`.
fn led(config: &Config, space: u64, page: u64, words: &[&[u8]]) -> Result<Saying, DriverWrong>
    ensures { read_seen result ≡ sayings.led config.now space page (map (λ word. word.now) words.now) }
{
    let frame = frame_at(config, words, 3, DriverWanted::FrameOrNone)?;
    let write = access_at(words, 4)?;
    judge_end(words, 5)?;
    Ok(Saying::Does {
        act: Act::SetPage {
            space,
            page,
            frame,
            write,
        },
    })
}

/// Reads `pte ..`.
pub(crate) fn table_line(config: &Config, words: &[&[u8]]) -> Result<Saying, DriverWrong>
    ensures { read_seen result ≡ sayings.table_line config.now (map (λ word. word.now) words.now) }
{
    let space = space_at(words, 1, DriverWanted::Space)?;
    let page = page_at(words, 2)?;
    if says(words, 3, b"none") {
        cleared(space, page, words)
    } else {
        led(config, space, page, words)
    }
}

/// Reads the end of `entry E P none`.
fn entry_cleared(endpoint: usize, pasid: usize, words: &[&[u8]]) -> Result<Saying, DriverWrong>
    ensures { read_seen result ≡ sayings.entry_cleared endpoint pasid (map (λ word. word.now) words.now) }
{
    judge_end(words, 4)?;
    Ok(Saying::Does {
        act: Act::At {
            endpoint,
            act: LocalAct::ClearEntry { pasid },
        },
    })
}

/// Reads the end of `entry E P S`.
fn entry_set(endpoint: usize, pasid: usize, words: &[&[u8]]) -> Result<Saying, DriverWrong>
    ensures { read_seen result ≡ sayings.entry_set endpoint pasid (map (λ word. word.now) words.now) }
{
    let space = space_at(words, 3, DriverWanted::SpaceOrNone)?;
    judge_end(words, 4)?;
    Ok(Saying::Does {
        act: Act::At {
            endpoint,
            act: LocalAct::SetEntry { pasid, space },
        },
    })
}

/// Reads `entry ..`.
pub(crate) fn entry_line(config: &Config, words: &[&[u8]]) -> Result<Saying, DriverWrong>
    ensures { read_seen result ≡ sayings.entry_line config.now (map (λ word. word.now) words.now) }
{
    let endpoint = endpoint_at(config, words, 1)?;
    let pasid = pasid_at(words, 2)?;
    if says(words, 3, b"none") {
        entry_cleared(endpoint, pasid, words)
    } else {
        entry_set(endpoint, pasid, words)
    }
}

/// Reads `replace E P S`.
pub(crate) fn replace_line(config: &Config, words: &[&[u8]]) -> Result<Saying, DriverWrong>
    ensures { read_seen result ≡ sayings.replace_line config.now (map (λ word. word.now) words.now) }
{
    let endpoint = endpoint_at(config, words, 1)?;
    let pasid = pasid_at(words, 2)?;
    let space = space_at(words, 3, DriverWanted::Space)?;
    judge_end(words, 4)?;
    Ok(Saying::Does {
        act: Act::At {
            endpoint,
            act: LocalAct::Replace { pasid, space },
        },
    })
}

/// Reads the end of `respond all E CODE`.
fn all_responded(endpoint: usize, words: &[&[u8]]) -> Result<Saying, DriverWrong>
    ensures { read_seen result ≡ sayings.all_responded endpoint (map (λ word. word.now) words.now) }
{
    let fails = fails_at(words, 3)?;
    judge_end(words, 4)?;
    Ok(Saying::Does {
        act: Act::At {
            endpoint,
            act: LocalAct::RespondAll { pasid: None, fails },
        },
    })
}

/// Reads the end of `respond all E P CODE`.
fn all_responded_under(endpoint: usize, words: &[&[u8]]) -> Result<Saying, DriverWrong>
    ensures { read_seen result ≡ sayings.all_responded_under endpoint (map (λ word. word.now) words.now) }
{
    let pasid = pasid_at(words, 3)?;
    let fails = fails_at(words, 4)?;
    judge_end(words, 5)?;
    Ok(Saying::Does {
        act: Act::At {
            endpoint,
            act: LocalAct::RespondAll {
                pasid: Some(pasid),
                fails,
            },
        },
    })
}

/// Reads `respond all E [P] CODE`.
fn respond_all_line(config: &Config, words: &[&[u8]]) -> Result<Saying, DriverWrong>
    ensures { read_seen result ≡ sayings.respond_all_line config.now (map (λ word. word.now) words.now) }
{
    let endpoint = endpoint_at(config, words, 2)?;
    if has_word(words, 4) {
        all_responded_under(endpoint, words)
    } else {
        all_responded(endpoint, words)
    }
}

/// Reads `discard E [P]`.
pub(crate) fn discard_line(config: &Config, words: &[&[u8]]) -> Result<Saying, DriverWrong>
    ensures { read_seen result ≡ sayings.discard_line config.now (map (λ word. word.now) words.now) }
{
    let endpoint = endpoint_at(config, words, 1)?;
    let pasid = some_pasid_at(words, 2)?;
    judge_end(words, 3)?;
    Ok(Saying::Does {
        act: Act::At {
            endpoint,
            act: LocalAct::Discard { pasid },
        },
    })
}

/// Reads `respond ..`.
pub(crate) fn respond_line(config: &Config, words: &[&[u8]]) -> Result<Saying, DriverWrong>
    ensures { read_seen result ≡ sayings.respond_line config.now (map (λ word. word.now) words.now) }
{
    if says(words, 1, b"all") {
        respond_all_line(config, words)
    } else {
        respond_one(config, words)
    }
}

/// Reads `respond E P I CODE`.
fn respond_one(config: &Config, words: &[&[u8]]) -> Result<Saying, DriverWrong>
    ensures { read_seen result ≡ sayings.respond_one config.now (map (λ word. word.now) words.now) }
{
    let endpoint = endpoint_at(config, words, 1)?;
    let pasid = pasid_at(words, 2)?;
    let index = index_at(words, 3, DriverWanted::Index)?;
    let fails = fails_at(words, 4)?;
    judge_end(words, 5)?;
    Ok(Saying::Does {
        act: Act::At {
            endpoint,
            act: LocalAct::Respond {
                pasid,
                index,
                fails,
            },
        },
    })
}

/// Reads `free F`.
fn frame_freed(config: &Config, words: &[&[u8]]) -> Result<Saying, DriverWrong>
    ensures { read_seen result ≡ sayings.frame_freed config.now (map (λ word. word.now) words.now) }
{
    let frame = frame_at(config, words, 1, DriverWanted::Freed)?;
    judge_end(words, 2)?;
    Ok(Saying::Does {
        act: Act::FreeFrame { frame },
    })
}

/// Reads `free space S`.
fn space_freed(words: &[&[u8]]) -> Result<Saying, DriverWrong>
    ensures { read_seen result ≡ sayings.space_freed (map (λ word. word.now) words.now) }
{
    let space = space_at(words, 2, DriverWanted::Space)?;
    judge_end(words, 3)?;
    Ok(Saying::Does {
        act: Act::FreeSpace { space },
    })
}

/// Reads `free domain S`.
fn domain_freed(words: &[&[u8]]) -> Result<Saying, DriverWrong>
    ensures { read_seen result ≡ sayings.domain_freed (map (λ word. word.now) words.now) }
{
    let space = space_at(words, 2, DriverWanted::Space)?;
    judge_end(words, 3)?;
    Ok(Saying::Does {
        act: Act::FreeDomain { space },
    })
}

/// Reads `free pasid P E`.
fn pasid_freed(config: &Config, words: &[&[u8]]) -> Result<Saying, DriverWrong>
    ensures { read_seen result ≡ sayings.pasid_freed config.now (map (λ word. word.now) words.now) }
{
    let pasid = pasid_at(words, 2)?;
    let endpoint = endpoint_at(config, words, 3)?;
    judge_end(words, 4)?;
    Ok(Saying::Does {
        act: Act::At {
            endpoint,
            act: LocalAct::FreePasid { pasid },
        },
    })
}

/// Reads `free ..`.
pub(crate) fn free_line(config: &Config, words: &[&[u8]]) -> Result<Saying, DriverWrong>
    ensures { read_seen result ≡ sayings.free_line config.now (map (λ word. word.now) words.now) }
{
    if says(words, 1, b"space") {
        return space_freed(words);
    }
    if says(words, 1, b"domain") {
        return domain_freed(words);
    }
    if says(words, 1, b"pasid") {
        return pasid_freed(config, words);
    }
    frame_freed(config, words)
}

/// Reads `freeze F`.
pub(crate) fn freeze_line(config: &Config, words: &[&[u8]]) -> Result<Saying, DriverWrong>
    ensures { read_seen result ≡ sayings.freeze_line config.now (map (λ word. word.now) words.now) }
{
    let frame = frame_at(config, words, 1, DriverWanted::Frame)?;
    judge_end(words, 2)?;
    Ok(Saying::Does {
        act: Act::Freeze { frame },
    })
}
