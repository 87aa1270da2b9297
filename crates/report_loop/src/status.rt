//! How a run ended.

/// How a run ended. `code` tells the exit status of each, and `line` the line that tells why.
#[derive(Clone, Copy, Debug, PartialEq, Eq)]
pub enum Status {
    /// The input was read to its end, and no other status applies.
    Clean,
    /// The input was read to its end, and some verdict is `alarm`.
    Alarm,
    /// The words of the command line are refused.
    Words,
    /// The model's text is refused.
    Model,
    /// A read of the input or of a text of the shelf failed.
    ReadFault,
    /// A write of the output failed.
    WriteFault,
    /// Memory was wanted.
    Memory,
    /// The input was read to its end, no verdict is `alarm`, and some verdict is `overflow`.
    Overflow,
    /// As many bytes of the input were read as are read at most, and its end was not seen.
    Limit,
    /// The text of a run that was to be replayed is none, or is no run of the log.
    NotARun,
    /// The text of a certificate that was to be verified is none, or proves nothing of the log.
    NotACert,
    /// The variable whose range was asked for is none of the automaton.
    UnknownVar,
    /// The text of a saved session is refused.
    SavedText,
}

impl Status {
    ghost use Rattle.std.specs.Prelude.{◌≡◌};
    ghost use Rattle.report_loop.specs.Codes.{code_of, line_of};

    /// The exit status of the program, 0 to 12.
    pub fn code(self) -> u8
        ensures { result ≡ code_of self }
    {
        match self {
            Status::Clean => 0,
            Status::Alarm => 1,
            Status::Words => 2,
            Status::Model => 3,
            Status::ReadFault => 4,
            Status::WriteFault => 5,
            Status::Memory => 6,
            Status::Overflow => 7,
            Status::Limit => 8,
            Status::NotARun => 9,
            Status::NotACert => 10,
            Status::UnknownVar => 11,
            Status::SavedText => 12,
        }
    }

    /// The line on standard error that tells why a run ended so; empty where none does, and where it tells what is wrong with a
    /// text, which the status alone does not say.
    pub fn line(self) -> &'static str
        ensures { result.now ≡ line_of self }
    {
        match self {
            Status::Clean | Status::Alarm | Status::Overflow => "",
            Status::NotARun | Status::NotACert => "",
            Status::Model | Status::SavedText => "",
            Status::Words => "hamon: words\n",
            Status::ReadFault => "hamon: read fault\n",
            Status::WriteFault => "hamon: write fault\n",
            Status::Memory => "hamon: memory\n",
            Status::Limit => "hamon: limit\n",
            Status::UnknownVar => "hamon: range: unknown\n",
        }
    }
}
