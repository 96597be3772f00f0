//! The front of a text, up to a line.

ghost use Rattle.std.specs.Prelude.{◌≡◌, ◌-◌, ◌==◌, IfOk};
ghost use Rattle.sva_cli.specs.Cutting as cutting;

use std::alloc::{AllocError, Global};

/// How many lines are left behind a byte.
fn left_behind(left: u64, byte: u8) -> u64
    ensures { result ≡ cutting.left_behind left byte }
{
    if byte == b'\n' {
        left.saturating_sub(1)
    } else {
        left
    }
}

/// The first lines of a text, so many.
pub fn first_lines(alloc: Global, count: u64, text: &[u8]) -> Result<Vec<u8>, AllocError>
    ensures { IfOk result (λ front. front.items ≡ cutting.first_lines count text.now) }
{
    let mut front = Vec::new(alloc);
    let mut left = count;
    for place in 0..text.len() {
        if left == 0 {
            return Ok(front);
        }
        let byte = text[place];
        front.push(byte)?;
        left = left_behind(left, byte);
    }
    Ok(front)
}

/// The text up to the line that is said; where none is, all of it.
pub fn cut(alloc: Global, after: Option<u64>, text: Vec<u8>) -> Result<Vec<u8>, AllocError>
    ensures { IfOk result (λ front. front.items ≡ cutting.cut after text.items) }
{
    match after {
        Some(count) => first_lines(alloc, count, text.as_slice()),
        None => Ok(text),
    }
}
