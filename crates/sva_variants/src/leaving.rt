//! The text of a driver without some lines.

ghost use Rattle.std.specs.Prelude.{◌≡◌, ◌++◌, ◌∷◌, [], IfOk, OnOk, option_map};
ghost use Rattle.std.specs.List.{list_any};
ghost use Rattle.sva_variants.specs.Cuts as cuts;

use crate::cuts::Cut;
use std::alloc::{AllocError, Global};
use sva_script::{name_in, split};
use sva_script_reading::Lines;

/// Whether a line goes with another one that is left out.
fn is_among(others: &[u64], number: u64) -> bool
    ensures { result ≡ cuts.is_among number others.now }
{
    others.iter().any(|other| *other == number)
}

/// Whether a line is left out.
fn is_gone(cut: &Cut, number: u64) -> bool
    ensures { result ≡ cuts.is_gone number (cuts.cut_seen cut.now) }
{
    number == cut.number || is_among(cut.others.as_slice(), number)
}

/// Appends what stands for a line that is left out: where it has a name, one that does nothing.
fn put_mark(out: &mut Vec<u8>, name: Option<&[u8]>) -> Result<(), AllocError>
    ensures { OnOk result (out.new.items ≡ out.old.items ++ cuts.named_mark (option_map (λ name. name.now) name.entry)) }
{
    match name {
        None => Ok(()),
        Some(name) => {
            out.extend_from_slice(name)?;
            out.extend_from_slice(b": mark")?;
            Ok(())
        }
    }
}

/// Appends what stands for a line that is left out.
fn put_left(alloc: Global, out: &mut Vec<u8>, line: &[u8]) -> Result<(), AllocError>
    ensures { OnOk result (out.new.items ≡ out.old.items ++ cuts.left_of line.now) }
{
    let mut words = Vec::new(alloc);
    split(line, &mut words)?;
    put_mark(out, name_in(words.as_slice()))
}

/// Appends a line, or what stands for it where it is left out.
fn put_line(alloc: Global, out: &mut Vec<u8>, gone: bool, line: &[u8]) -> Result<(), AllocError>
    ensures { OnOk result (out.new.items ≡ out.old.items ++ cuts.line_if gone line.now) }
{
    if gone {
        return put_left(alloc, out, line);
    }
    out.extend_from_slice(line)
}

/// Appends a line with its end.
fn put_kept(
    alloc: Global,
    out: &mut Vec<u8>,
    cut: &Cut,
    number: u64,
    line: &[u8],
) -> Result<(), AllocError>
    ensures { OnOk result (out.new.items ≡ out.old.items ++ cuts.kept_of (cuts.cut_seen cut.now) (number, line.now)) }
{
    put_line(alloc, out, is_gone(cut, number), line)?;
    out.extend_from_slice(b"\n")
}

/// A text without a line, and without those that go with it. Their numbers stay those of the others.
pub(crate) fn without(alloc: Global, cut: &Cut, text: &[u8]) -> Result<Vec<u8>, AllocError>
    ensures { IfOk result (λ left. left.items ≡ cuts.without (cuts.cut_seen cut.now) text.now) }
{
    let mut lines = Lines::new(text);
    let mut out = Vec::new(alloc);
    while let Some((number, line)) = lines.next() {
        put_kept(alloc, &mut out, cut, number, line)?;
    }
    Ok(out)
}
