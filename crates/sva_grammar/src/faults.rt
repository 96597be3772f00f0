//! Why a text can't be read.

ghost use Rattle.std.specs.Prelude.{◌≡◌, ◌+◌, ◌≤◌, ◌++◌, length, OnOk, OnErr};
ghost use Rattle.sva_grammar.specs.Faults.{cause_name, line_fault_text};

use itoa::Buffer;
use std::alloc::AllocError;

/// Why a line of a scenario can't be read. In one line the earlier cause of this list comes first.
#[derive(Clone, Copy, Debug, PartialEq, Eq)]
pub enum Cause {
    /// The first line that isn't skipped doesn't begin with the word `config`, or there is none.
    NoConfig,
    /// The first word of a line is no step's.
    UnknownStep,
    /// The line has too many words or too few.
    WordCount,
    /// A word can't be read.
    BadWord,
    /// The text has more than 1,048,576 bytes or more than 65,536 lines. This comes before all others.
    TooLarge,
}

impl Cause {
    /// The cause's name, as a report has it.
    pub fn name(&self) -> &'static str
        ensures { result.now ≡ cause_name self.now }
    {
        match self {
            Cause::NoConfig => "NoConfig",
            Cause::UnknownStep => "UnknownStep",
            Cause::WordCount => "WordCount",
            Cause::BadWord => "BadWord",
            Cause::TooLarge => "TooLarge",
        }
    }
}

/// The first line of a scenario that can't be read.
#[derive(Clone, Copy, Debug)]
pub struct LineFault {
    /// The line's number, from 1 on. It is 0 where the text is too large.
    pub line: u64,
    /// Why it can't be read.
    pub cause: Cause,
}

impl LineFault {
    /// Appends `line L Cause`, with no line end. Where memory lacks, the items stay as they were.
    pub fn write(&self, out: &mut Vec<u8>) -> Result<(), AllocError>
        ensures ok { OnOk result (out.new.items ≡ out.old.items ++ line_fault_text self.now) }
        ensures short { OnOk result (length out.new.items ≤ length out.old.items + 64) }
        ensures err { OnErr result (out.new.items ≡ out.old.items) }
    {
        let mut digits = Buffer::new();
        let line = digits.format(self.line).as_bytes();
        let cause = self.cause.name().as_bytes();
        // The room is made at once, so that no later growth can fail.
        out.reserve(b"line ".len() + line.len() + b" ".len() + cause.len())?;
        out.extend_from_slice(b"line ")?;
        out.extend_from_slice(line)?;
        out.extend_from_slice(b" ")?;
        out.extend_from_slice(cause)
    }
}

/// Why there is no scenario.
#[derive(Clone, Copy, Debug)]
pub enum ParseFault {
    /// A line can't be read.
    Line(LineFault),
    /// Memory ran out.
    Memory,
}
