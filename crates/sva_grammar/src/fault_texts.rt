//! The faults of the reading as text, for whoever shows them.

use crate::faults::{Cause, LineFault, ParseFault};
use std::error::Error;
use std::fmt;
use std::fmt::Display;

impl Display for Cause {
    ghost use Rattle.std.specs.Prelude.{Some};
    ghost use Rattle.sva_grammar.specs.Faults.{cause_name};

    ghost output = { λ cause. Some (cause_name cause) };

    fn fmt<W: fmt::Write>(&self, f: &mut fmt::Formatter<W>) -> fmt::Result {
        f.write_str(self.name())
    }
}

impl Display for LineFault {
    ghost use Rattle.std.specs.Prelude.{Some};
    ghost use Rattle.sva_grammar.specs.Faults.{line_fault_text};

    ghost output = { λ fault. Some (line_fault_text fault) };

    fn fmt<W: fmt::Write>(&self, f: &mut fmt::Formatter<W>) -> fmt::Result {
        let LineFault { line, cause } = *self;
        write!(f, "line {line} {cause}")
    }
}

impl Error for LineFault {}

impl Display for ParseFault {
    ghost use Rattle.std.specs.Prelude.{Some};
    ghost use Rattle.sva_grammar.specs.Faults.{parse_fault_text};

    ghost output = { λ fault. Some (parse_fault_text fault) };

    fn fmt<W: fmt::Write>(&self, f: &mut fmt::Formatter<W>) -> fmt::Result {
        match self {
            ParseFault::Line(fault) => fault.fmt(f),
            ParseFault::Memory => f.write_str("out of memory"),
        }
    }
}

impl Error for ParseFault {}
