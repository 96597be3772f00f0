//! The front of a witness: its config, its settings, which units are shared, how workers answer, what endpoints are
//! like, and the lines before `race`.

ghost use Rattle.std.specs.Prelude.{◌≡◌, ◌++◌, OnOk};
ghost use Rattle.sva_driver_reports.specs.Witness as witness;

use crate::witness::{Event, event_of, put_front_line};
use std::alloc::{AllocError, Global};
use sva_driver_texts::Text;
use sva_driver_words::{put_endpoint, put_one, put_places, put_units};
use sva_judge::{Choice, Doing, Spot, take};
use sva_open::{Link, Part, Settings, Stopped, Timeouts, Workers};
use sva_step::Config;

/// Appends a text, where it is so.
pub(crate) fn put_if(out: &mut Vec<u8>, so: bool, text: &[u8]) -> Result<(), AllocError>
    ensures { OnOk result (out.new.items ≡ out.old.items ++ witness.said_if so text.now) }
{
    if so {
        return out.extend_from_slice(text);
    }
    Ok(())
}

fn link_text(link: Link) -> &'static str
    ensures { result.now ≡ witness.link_text link }
{
    match link {
        Link::Free => "",
        Link::Posted => "link posted\n",
    }
}

fn stopped_text(stopped: Stopped) -> &'static str
    ensures { result.now ≡ witness.stopped_text stopped }
{
    match stopped {
        Stopped::Marker => "",
        Stopped::Status => "stopped status\n",
        Stopped::Known => "stopped known\n",
    }
}

fn timeouts_text(timeouts: Timeouts) -> &'static str
    ensures { result.now ≡ witness.timeouts_text timeouts }
{
    match timeouts {
        Timeouts::Off => "",
        Timeouts::On => "timeouts on\n",
        Timeouts::Stop => "timeouts stop\n",
    }
}

/// Appends the settings of a pair that aren't those that hold where nothing is said.
fn put_pairs(out: &mut Vec<u8>, settings: &Settings) -> Result<(), AllocError>
    ensures { OnOk result (out.new.items ≡ out.old.items ++ witness.pairs_text settings.now) }
{
    out.extend_from_slice(link_text(settings.link).as_bytes())?;
    put_if(out, !settings.all_fence, b"waits plain\n")?;
    put_if(out, !settings.drain_empties, b"drain arrived\n")?;
    put_if(out, settings.has_caches, b"caches on\n")?;
    out.extend_from_slice(stopped_text(settings.stopped).as_bytes())?;
    put_if(out, settings.is_loose, b"order loose\n")?;
    Ok(())
}

/// Appends the settings that are told only where they are said.
fn put_unpaired(out: &mut Vec<u8>, settings: &Settings) -> Result<(), AllocError>
    ensures { OnOk result (out.new.items ≡ out.old.items ++ witness.unpaired_text settings.now) }
{
    put_if(out, settings.clears_controls, b"enables cleared\n")?;
    out.extend_from_slice(timeouts_text(settings.timeouts).as_bytes())?;
    put_if(out, settings.refuses_drain, b"refuses drain\n")?;
    put_if(out, settings.allows_no_group, b"allow no-group\n")?;
    put_places(out, settings.places, b"", b"\n")?;
    Ok(())
}

/// Appends the settings that aren't those that hold where nothing is said.
fn put_settings(out: &mut Vec<u8>, settings: &Settings) -> Result<(), AllocError>
    ensures { OnOk result (out.new.items ≡ out.old.items ++ witness.settings_text settings.now) }
{
    put_pairs(out, settings)?;
    put_unpaired(out, settings)?;
    Ok(())
}

/// Appends the line that says how workers answer.
fn put_workers_line(out: &mut Vec<u8>, workers: Workers) -> Result<(), AllocError>
    ensures { OnOk result (out.new.items ≡ out.old.items ++ witness.workers_line workers) }
{
    out.extend_from_slice(b"workers")?;
    put_if(out, workers.answer, b" success")?;
    put_if(out, workers.fail, b" failure")?;
    out.extend_from_slice(b"\n")?;
    Ok(())
}

/// Appends how workers answer, where there are any.
fn put_workers(out: &mut Vec<u8>, workers: Workers) -> Result<(), AllocError>
    ensures { OnOk result (out.new.items ≡ out.old.items ++ witness.workers_text workers) }
{
    if workers.are_there {
        return put_workers_line(out, workers);
    }
    Ok(())
}

/// Appends the line that says what an endpoint is like.
fn put_conduct_line(out: &mut Vec<u8>, endpoint: usize, part: &Part) -> Result<(), AllocError>
    ensures { OnOk result (out.new.items ≡ out.old.items ++ witness.conduct_line endpoint part.now) }
{
    put_endpoint(out, b"device", endpoint)?;
    put_if(out, part.lies, b" lies")?;
    put_if(out, part.awaits, b" awaits")?;
    out.extend_from_slice(b"\n")?;
    Ok(())
}

/// Appends what an endpoint is like, where that has to be said.
fn put_conduct(out: &mut Vec<u8>, endpoint: usize, part: &Part) -> Result<(), AllocError>
    ensures { OnOk result (out.new.items ≡ out.old.items ++ witness.conduct_text endpoint part.now) }
{
    if part.lies || part.awaits {
        return put_conduct_line(out, endpoint, part);
    }
    Ok(())
}

/// Appends what each endpoint is like, where that has to be said.
fn put_conducts(out: &mut Vec<u8>, parts: &[Part]) -> Result<(), AllocError>
    ensures { OnOk result (out.new.items ≡ out.old.items ++ witness.conducts_from 0 parts.now) }
{
    for endpoint in 0..parts.len() {
        put_conduct(out, endpoint, &parts[endpoint])?;
    }
    Ok(())
}

/// Appends the event of a line, if there is one and it was taken.
fn put_taken(out: &mut Vec<u8>, event: Option<Event>, taken: bool) -> Result<(), AllocError>
    ensures { OnOk result (out.new.items ≡ out.old.items ++ witness.told_if taken event) }
{
    match event {
        Some(event) if taken => put_front_line(out, &event),
        _ => Ok(()),
    }
}

/// Takes the line at a place before `race`, if its thread hasn't gone past it, and appends it then.
fn put_before(
    alloc: Global,
    out: &mut Vec<u8>,
    text: &Text,
    spot: &mut Spot,
    place: usize,
) -> Result<(), AllocError>
    ensures text { OnOk result (out.new.items ≡ out.old.items ++ witness.before_text text.now spot.old place) }
    ensures spot { OnOk result (spot.new ≡ witness.behind_place text.now spot.old place) }
{
    let choice = Choice {
        doing: Doing::Line,
        at: 0,
        number: place,
    };
    let event = event_of(alloc, text, spot, choice)?;
    let taken = take(&text.driver, spot, choice)?;
    put_taken(out, event, taken)?;
    Ok(())
}

/// Appends the lines before `race`.
fn put_befores(alloc: Global, out: &mut Vec<u8>, text: &Text) -> Result<(), AllocError>
    ensures { OnOk result (out.new.items ≡ out.old.items ++ witness.befores text.now text.now.before) }
{
    let mut spot = text.opened.copy(alloc)?;
    for place in 0..text.before {
        put_before(alloc, out, text, &mut spot, place)?;
    }
    Ok(())
}

fn put_config(out: &mut Vec<u8>, config: &Config) -> Result<(), AllocError>
    ensures { OnOk result (out.new.items ≡ out.old.items ++ witness.config_text config.now) }
{
    out.extend_from_slice(b"config")?;
    put_one(out, config.endpoints)?;
    put_one(out, config.frames)?;
    put_one(out, config.workers)?;
    out.extend_from_slice(b"\n")
}

/// Appends what stands before the events.
pub(crate) fn put_front(alloc: Global, out: &mut Vec<u8>, text: &Text) -> Result<(), AllocError>
    ensures { OnOk result (out.new.items ≡ out.old.items ++ witness.front_text text.now) }
{
    put_config(out, &text.config)?;
    put_settings(out, &text.driver.start.settings)?;
    put_units(out, text.driver.start.units.as_slice(), b"", b"\n")?;
    put_workers(out, text.driver.workers)?;
    put_conducts(out, text.driver.start.parts.as_slice())?;
    put_befores(alloc, out, text)?;
    out.extend_from_slice(b"# race\n")?;
    Ok(())
}
