//! The faults of a call as text, for whoever shows them.

use crate::running::{StepFault, Strayed};
use std::error::Error;
use std::fmt;
use std::fmt::Display;

impl Display for Strayed {
    ghost use Rattle.std.specs.Prelude.{Some};
    ghost use Rattle.sva_core.specs.FaultTexts.{strayed_text};

    ghost output = { λ strayed. Some (strayed_text strayed) };

    fn fmt<W: fmt::Write>(&self, f: &mut fmt::Formatter<W>) -> fmt::Result {
        let place = self.place;
        write!(
            f,
            "the port's last receipt doesn't stand in the journal at place {place}"
        )
    }
}

impl Error for Strayed {}

impl Display for StepFault {
    ghost use Rattle.std.specs.Prelude.{Some};
    ghost use Rattle.sva_core.specs.FaultTexts.{step_fault_text};

    ghost output = { λ fault. Some (step_fault_text fault) };

    fn fmt<W: fmt::Write>(&self, f: &mut fmt::Formatter<W>) -> fmt::Result {
        match self {
            StepFault::Memory => f.write_str("out of memory"),
            StepFault::Strayed(strayed) => strayed.fmt(f),
        }
    }
}

impl Error for StepFault {}
