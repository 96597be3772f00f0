//! The faults of a call with a token, and of an audit, as text, for whoever shows them.

use crate::audits::FirstBadReceipt;
use crate::faults::Fault;
use std::error::Error;
use std::fmt;
use std::fmt::Display;

impl Display for Fault {
    ghost use Rattle.std.specs.Prelude.{Some};
    ghost use Rattle.sva_fabric.specs.FaultTexts.{fault_text};

    ghost output = { λ fault. Some (fault_text fault) };

    fn fmt<W: fmt::Write>(&self, f: &mut fmt::Formatter<W>) -> fmt::Result {
        match self {
            Fault::Refused { refusal } => {
                let (number, name) = (refusal.number(), refusal.name());
                write!(f, "refused {number} {name}")
            }
            Fault::Memory => f.write_str("out of memory"),
            Fault::Strayed(strayed) => strayed.fmt(f),
        }
    }
}

impl Error for Fault {}

impl Display for FirstBadReceipt {
    ghost use Rattle.std.specs.Prelude.{Some};
    ghost use Rattle.sva_fabric.specs.FaultTexts.{bad_receipt_text};

    ghost output = { λ bad. Some (bad_receipt_text bad) };

    fn fmt<W: fmt::Write>(&self, f: &mut fmt::Formatter<W>) -> fmt::Result {
        let FirstBadReceipt { port, place } = *self;
        write!(f, "the audit is bad at port {port}, place {place}")
    }
}

impl Error for FirstBadReceipt {}
