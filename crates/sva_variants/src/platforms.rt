//! The texts of a driver on other platforms.

ghost use Rattle.std.specs.Prelude.{◌≡◌, ◌++◌, IfOk, OnOk, map};
ghost use Rattle.sva_variants.specs.Platforms as spec;

use std::alloc::{AllocError, Global};
use sva_script::{is, split};
use sva_script_reading::{Lines, put_words};

/// A platform on which a driver is judged again: Intel VT-d, or that with one setting by which less is left open.
#[derive(Clone, Copy, PartialEq, Eq)]
pub enum Platform {
    /// Intel VT-d on PCI Express.
    VtD,
    /// With `waits fence`.
    WaitsFence,
    /// With `drain empty`.
    DrainEmpty,
    /// With `caches off`.
    CachesOff,
    /// With `order queue`.
    OrderQueue,
}

/// What a platform is called, in a column of its own.
pub(crate) fn label_of(platform: Platform) -> &'static str
    ensures { result.now ≡ spec.label_of platform }
{
    match platform {
        Platform::VtD => "vt-d               ",
        Platform::WaitsFence => "vt-d, waits fence  ",
        Platform::DrainEmpty => "vt-d, drain empty  ",
        Platform::CachesOff => "vt-d, caches off   ",
        Platform::OrderQueue => "vt-d, order queue  ",
    }
}

/// The lines of a platform.
pub(crate) fn settings_of(platform: Platform) -> &'static str
    ensures { result.now ≡ spec.settings_of platform }
{
    match platform {
        Platform::VtD => "platform vt-d\n",
        Platform::WaitsFence => "platform vt-d\nwaits fence\n",
        Platform::DrainEmpty => "platform vt-d\ndrain empty\n",
        Platform::CachesOff => "platform vt-d\ncaches off\n",
        Platform::OrderQueue => "platform vt-d\norder queue\n",
    }
}

/// Whether a word begins a platform, or a setting that a platform sets.
fn is_of_platform(word: &[u8]) -> bool
    ensures { result ≡ spec.is_of_platform word.now }
{
    is(word, b"platform")
        || is(word, b"link")
        || is(word, b"waits")
        || is(word, b"drain")
        || is(word, b"caches")
        || is(word, b"order")
}

/// Whether a line is a driver's own platform, or a setting that a platform sets.
fn is_own(words: &[&[u8]]) -> bool
    ensures { result ≡ spec.is_own (map (λ word. word.now) words.now) }
{
    match words {
        [] => false,
        [word, ..] => is_of_platform(word),
    }
}

/// Whether a line is the config.
fn is_config(words: &[&[u8]]) -> bool
    ensures { result ≡ spec.is_config (map (λ word. word.now) words.now) }
{
    match words {
        [] => false,
        [word, ..] => is(word, b"config"),
    }
}

/// Appends the words of a line, where that is the driver's own platform or setting of one.
fn put_own(out: &mut Vec<u8>, words: &[&[u8]]) -> Result<(), AllocError>
    ensures { OnOk result (out.new.items ≡ out.old.items ++ spec.own_words (map (λ word. word.now) words.now)) }
{
    if !is_own(words) {
        return Ok(());
    }
    put_words(out, words)?;
    out.extend_from_slice(b"\n")
}

/// The driver's own lines of a platform, as they would be written for one.
pub(crate) fn own_settings(alloc: Global, text: &[u8]) -> Result<Vec<u8>, AllocError>
    ensures { IfOk result (λ own. own.items ≡ spec.own_settings text.now) }
{
    let mut lines = Lines::new(text);
    let mut out = Vec::new(alloc);
    let mut words = Vec::new(alloc);
    while let Some((_number, line)) = lines.next() {
        split(line, &mut words)?;
        put_own(&mut out, words.as_slice())?;
    }
    Ok(out)
}

/// Appends the settings, behind the config.
fn put_settings(out: &mut Vec<u8>, words: &[&[u8]], settings: &[u8]) -> Result<(), AllocError>
    ensures { OnOk result (out.new.items ≡ out.old.items ++ spec.settings_behind settings.now (map (λ word. word.now) words.now)) }
{
    if is_config(words) {
        out.extend_from_slice(settings)?;
    }
    Ok(())
}

/// Appends a line: none of the driver's own platform, and the settings behind the config.
fn put_under(
    out: &mut Vec<u8>,
    words: &[&[u8]],
    line: &[u8],
    settings: &[u8],
) -> Result<(), AllocError>
    ensures { OnOk result (out.new.items ≡ out.old.items
        ++ spec.worded_under settings.now line.now (map (λ word. word.now) words.now)) }
{
    if is_own(words) {
        return Ok(());
    }
    out.extend_from_slice(line)?;
    out.extend_from_slice(b"\n")?;
    put_settings(out, words, settings)
}

/// A driver's text with other settings in place of its own.
pub(crate) fn under(alloc: Global, settings: &[u8], text: &[u8]) -> Result<Vec<u8>, AllocError>
    ensures { IfOk result (λ other. other.items ≡ spec.under settings.now text.now) }
{
    let mut lines = Lines::new(text);
    let mut out = Vec::new(alloc);
    let mut words = Vec::new(alloc);
    while let Some((_number, line)) = lines.next() {
        split(line, &mut words)?;
        put_under(&mut out, words.as_slice(), line, settings)?;
    }
    Ok(out)
}

/// Notes a platform, unless its lines are the driver's own.
fn note_other(others: &mut Vec<Platform>, own: &[u8], platform: Platform) -> Result<(), AllocError>
    ensures { OnOk result (others.new.items ≡ others.old.items ++ spec.other_if own.now platform) }
{
    if !is(own, settings_of(platform).as_bytes()) {
        others.push(platform)?;
    }
    Ok(())
}

/// The platforms on which a driver is judged beside its own.
pub(crate) fn others_of(alloc: Global, own: &[u8]) -> Result<Vec<Platform>, AllocError>
    ensures { IfOk result (λ others. others.items ≡ spec.others_of own.now) }
{
    let mut others = Vec::new(alloc);
    note_other(&mut others, own, Platform::VtD)?;
    note_other(&mut others, own, Platform::WaitsFence)?;
    note_other(&mut others, own, Platform::DrainEmpty)?;
    note_other(&mut others, own, Platform::CachesOff)?;
    note_other(&mut others, own, Platform::OrderQueue)?;
    Ok(others)
}
