//! The counts of the frames, as a text.

ghost use Rattle.std.specs.Prelude.{◌≡◌, ◌++◌, OnOk, decimal};
ghost use Rattle.sva_reports.specs.Report.{counts_text};

use itoa::Buffer;
use std::alloc::AllocError;
use sva_frames::Counts;

/// Appends `free X mapped Y withheld Z`.
pub fn put_counts(out: &mut Vec<u8>, counts: &Counts) -> Result<(), AllocError>
    ensures { OnOk result (out.new.items ≡ out.old.items
        ++ counts_text (record { free = counts.now.free; mapped = counts.now.mapped; withheld = counts.now.withheld })) }
{
    out.extend_from_slice(b"free ")?;
    put_number(out, u64::from(counts.free))?;
    out.extend_from_slice(b" mapped ")?;
    put_number(out, u64::from(counts.mapped))?;
    out.extend_from_slice(b" withheld ")?;
    put_number(out, u64::from(counts.withheld))
}

/// Appends a decimal number.
fn put_number(out: &mut Vec<u8>, number: u64) -> Result<(), AllocError>
    ensures { OnOk result (out.new.items ≡ out.old.items ++ decimal number) }
{
    out.extend_from_slice(Buffer::new().format(number).as_bytes())
}
