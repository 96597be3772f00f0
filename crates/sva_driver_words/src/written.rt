//! What is wrong with a definition, a call or a repeat.

ghost use Rattle.std.specs.Prelude.{◌≡◌};
ghost use Rattle.sva_driver_words.specs.Written.{written_text};

/// What was wanted where a line of a definition, a call or a repeat is wrong.
#[derive(Clone, Copy)]
pub enum WrittenWanted {
    /// A name of a definition or of a thread.
    Name,
    /// A name that no definition above has.
    NewName,
    /// A parameter.
    Parameter,
    /// A parameter that the definition doesn't have yet.
    NewParameter,
    /// No more parameters than there may be.
    FewParameters,
    /// No definition: this place is within a block.
    NoBlock,
    /// A line that may stand in a body.
    InBody,
    /// A parameter of the definition in which the line stands.
    OwnParameter,
    /// The name of a definition that is ended above.
    Defined,
    /// A word for each parameter.
    Given,
    /// How often lines are written out.
    Times,
    /// No more than may be written out.
    Few,
    /// An `end` below.
    End,
}

/// What was wanted, in words.
pub(crate) fn written_words(wanted: &WrittenWanted) -> &'static str
    ensures { result.now ≡ written_text wanted.now }
{
    match wanted {
        WrittenWanted::Name => "a name: a letter, then letters, digits, - or _",
        WrittenWanted::NewName => "a name that no definition above has",
        WrittenWanted::Parameter => "a parameter: $, a letter, then letters, digits, - or _",
        WrittenWanted::NewParameter => "a parameter that the definition doesn't have yet",
        WrittenWanted::FewParameters => "no more than 16 parameters",
        WrittenWanted::NoBlock => "another line: a definition stands in no block",
        WrittenWanted::InBody => "an act, else, end, repeat or call",
        WrittenWanted::OwnParameter => "a parameter of this definition",
        WrittenWanted::Defined => "the name of a definition above",
        WrittenWanted::Given => "a word for each parameter",
        WrittenWanted::Times => "a number, 1 to 65536",
        WrittenWanted::Few => "no more than 65536 lines or 1048576 bytes written out",
        WrittenWanted::End => "an end below",
    }
}
