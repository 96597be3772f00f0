//! What a safe verdict is limited to: its platform, and what wasn't asked.

ghost use Rattle.std.specs.Prelude.{◌≡◌, ◌++◌, OnOk};
ghost use Rattle.sva_driver_reports.specs.Limits as limits;
ghost use Rattle.sva_driver_texts.specs.Budgets as budgets;

use std::alloc::AllocError;
use sva_driver_texts::{Text, asks_in, has_budget};
use sva_driver_words::{put_endpoint, put_not_asked, put_platform};
use sva_open::{Device, Line};

/// Which ask comes behind so many.
fn next_ask(asks: u64) -> &'static str
    ensures { result.now ≡ limits.next_ask asks }
{
    match asks {
        0 => "a first",
        1 => "a second",
        _ => "a third",
    }
}

/// Appends that the ask behind so many wasn't made at an endpoint.
fn put_next_ask(out: &mut Vec<u8>, endpoint: usize, asks: u64) -> Result<(), AllocError>
    ensures { OnOk result (out.new.items ≡ out.old.items ++ limits.next_ask_line endpoint asks) }
{
    out.extend_from_slice(b"not asked: ")?;
    out.extend_from_slice(next_ask(asks).as_bytes())?;
    put_endpoint(out, b" ask at endpoint", endpoint)?;
    out.extend_from_slice(
        b": with caches on one may leave an entry kept, one a translation, and one meet both\n",
    )?;
    Ok(())
}

/// How many translations are asked for at an endpoint, by itself and by lines, where they are fewer than three.
fn few_asks(lines: &[Line], endpoint: usize, device: &Device) -> Option<u64>
    ensures { result ≡ limits.few (budgets.asks_of lines.now endpoint device.now) }
{
    let asks = device
        .budget
        .asks
        .saturating_add(asks_in(lines, endpoint) as u64);
    if asks < 3 { Some(asks) } else { None }
}

/// Appends the ask that an endpoint doesn't make, where that would find more.
fn put_ask(
    out: &mut Vec<u8>,
    has_caches: bool,
    lines: &[Line],
    endpoint: usize,
    device: &Device,
) -> Result<(), AllocError>
    ensures { OnOk result (out.new.items
        ≡ out.old.items ++ limits.ask_text has_caches lines.now endpoint device.now) }
{
    if !has_caches || !has_budget(device) {
        return Ok(());
    }
    match few_asks(lines, endpoint, device) {
        None => Ok(()),
        Some(asks) => put_next_ask(out, endpoint, asks),
    }
}

fn put_all_asks(
    out: &mut Vec<u8>,
    has_caches: bool,
    lines: &[Line],
    devices: &[Device],
) -> Result<(), AllocError>
    ensures { OnOk result (out.new.items
        ≡ out.old.items ++ limits.asks_from has_caches lines.now 0 devices.now) }
{
    for endpoint in 0..devices.len() {
        put_ask(out, has_caches, lines, endpoint, &devices[endpoint])?;
    }
    Ok(())
}

/// Appends a line for each endpoint that asks fewer than three times, where units keep what they read:
/// `not asked: a third ask at endpoint 0: ..`.
fn put_asks(out: &mut Vec<u8>, text: &Text) -> Result<(), AllocError>
    ensures { OnOk result (out.new.items ≡ out.old.items ++ limits.asks_text text.now) }
{
    put_all_asks(
        out,
        text.driver.start.settings.has_caches,
        text.driver.lines.as_slice(),
        text.driver.devices.as_slice(),
    )
}

/// Appends the platform, what leaves more open than its settings do, and the asks that lack.
pub(crate) fn put_limits(out: &mut Vec<u8>, text: &Text) -> Result<(), AllocError>
    ensures { OnOk result (out.new.items ≡ out.old.items ++ limits.limits_text text.now) }
{
    let units = text.driver.start.units.as_slice();
    put_platform(out, &text.driver.start.settings, units)?;
    put_not_asked(out, &text.driver.start.settings)?;
    put_asks(out, text)
}
