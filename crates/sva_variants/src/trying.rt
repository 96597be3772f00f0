//! The texts without a line, judged.

ghost use Rattle.std.specs.Prelude.{◌≡◌, IfOk};
ghost use Rattle.std.specs.List.{AllZip};
ghost use Rattle.sva_variants.specs.Needed as spec;

use crate::cuts::Cut;
use crate::leaving::without;
use crate::telling::{first_line, put_tried};
use std::alloc::{AllocError, Global};
use sva_driver_reports::{Ruling, Wanted, judge_text};
use sva_search::Watch;

/// What was said of a text without a line.
#[derive(Drop)]
pub struct Tried {
    /// What is said of it in a word; `None` where its lines are wrong.
    pub said: Option<Ruling>,
    /// What is told of the line, with its end.
    pub text: Vec<u8>,
}

/// What is wanted of each text: a nearest finding.
pub(crate) fn wanted_of(most: u64) -> Wanted
    ensures { result ≡ spec.wanted_of most }
{
    Wanted {
        most,
        all: false,
        lines_alone: false,
    }
}

/// Judges the text without a line.
fn try_one<P: Watch>(
    alloc: Global,
    most: u64,
    text: &[u8],
    cut: &Cut,
    watch: &mut P,
) -> Result<Tried, AllocError>
    ensures { IfOk result (λ tried. spec.IsTriedBy text.now most cut.now tried) }
{
    let left = without(alloc, cut, text)?;
    let mut report = Vec::new(alloc);
    let said = judge_text(alloc, wanted_of(most), left.as_slice(), &mut report, watch)?;
    let mut told = Vec::new(alloc);
    put_tried(&mut told, cut, said, first_line(report.as_slice()))?;
    Ok(Tried { said, text: told })
}

/// Judges the texts without each of some lines, one after another.
pub(crate) fn try_all<P: Watch>(
    alloc: Global,
    most: u64,
    text: &[u8],
    cuts: &[Cut],
    watch: &mut P,
) -> Result<Vec<Tried>, AllocError>
    ensures { IfOk result (λ all. AllZip (spec.IsTriedBy text.now most) cuts.now all.items) }
{
    let mut all = Vec::new(alloc);
    for place in 0..cuts.len() {
        let tried = try_one(alloc, most, text, &cuts[place], watch)?;
        all.push(tried)?;
    }
    Ok(all)
}
