//! A text, or its first line, behind the name of its file.

ghost use Rattle.std.specs.Prelude.{◌≡◌, ◌++◌, ◌≤◌, OnOk, length, take, true};
ghost use Rattle.sva_several.specs.Lines as lines;

use std::alloc::AllocError;

/// The first line of a text, with its end.
pub(crate) fn first_line(text: &[u8]) -> &[u8]
    ensures { result.now ≡ lines.first_line text.entry.now }
{
    match text.iter().position(|byte| *byte == b'\n') {
        Some(at) => &text[..at + 1],
        None => text,
    }
}

/// Appends a name, where a line begins.
fn put_name(out: &mut Vec<u8>, name: &[u8], begins: bool) -> Result<(), AllocError>
    ensures { OnOk result (out.new.items ≡ out.old.items ++ lines.name_if name.now begins) }
{
    if !begins {
        return Ok(());
    }
    out.extend_from_slice(name)?;
    out.extend_from_slice(b": ")
}

/// Appends a text with the name before each of its lines.
pub(crate) fn put_named(out: &mut Vec<u8>, name: &[u8], text: &[u8]) -> Result<(), AllocError>
    ensures { OnOk result (out.new.items ≡ out.old.items ++ lines.named name.now true text.now) }
{
    let mut begins = true;
    for place in 0..text.len() {
        let byte = text[place];
        put_name(out, name, begins)?;
        out.push(byte)?;
        begins = byte == b'\n';
    }
    Ok(())
}
