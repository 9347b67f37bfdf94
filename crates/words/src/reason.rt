// Why a line of a script is no command.
ghost use Rattle.std.specs.Prelude.{◌≡◌, Some};
ghost use Rattle.words.specs.Reasons.{explained};

use std::fmt;

#[derive(Clone, Copy, Debug)]
pub enum Reason {
    UnknownCommand,
    UnknownKind,
    LateKind,
    UnknownOperation,
    UnknownQuestion,
    NotDate,
    NotUnsigned,
    NotSigned,
}

impl Reason {
    fn text(self) -> &'static str
        ensures { result.now ≡ explained self }
    {
        match self {
            Reason::UnknownCommand => "no such command, or not its number of words",
            Reason::UnknownKind => "dates are days or survey",
            Reason::LateKind => "the kind of date is named before the first call",
            Reason::UnknownOperation => "no such operation, or not its number of words",
            Reason::UnknownQuestion => "no such question, or not its number of words",
            Reason::NotDate => "not a date of the script's kind",
            Reason::NotUnsigned => "not a number from 0 to 65535",
            Reason::NotSigned => "not a number from -2147483648 to 2147483647",
        }
    }
}

impl fmt::Display for Reason {
    ghost output = { λ reason. Some (explained reason) };

    fn fmt<W: fmt::Write>(&self, f: &mut fmt::Formatter<W>) -> fmt::Result {
        f.write_str(self.text())
    }
}
