// The calls that the words of a line name.
ghost use Rattle.std.specs.Prelude.{◌≡◌, Ok};
ghost use Rattle.script.specs.Commands.{call};
ghost use Rattle.words.specs.Operations.{with};
ghost use Rattle.words.specs.Text.{spelled};
ghost use Rattle.words.specs.declared.reason.Reason.TheVariants.{NotDate};

use crate::written::WrittenDate;
use book::Call;
use dates::NoSuchDate;
use words::{Reason, read_operation, read_question};

// A date that does not exist is no error of the script.
fn read_date<D: WrittenDate>(word: &str) -> Result<Result<D, NoSuchDate>, Reason>
    ensures { result ≡ with (D.written word.now) NotDate (λ date. Ok date) }
{
    D::read(word).ok_or(Reason::NotDate)
}

// A call on a date that does not exist is refused for it.
pub fn read_call<D: WrittenDate>(words: &[&str]) -> Result<Result<Call<D>, NoSuchDate>, Reason>
    ensures { result ≡ call D.written (spelled words.now) }
{
    match words {
        ["enter", date, operation @ ..] => {
            let date = read_date(date)?;
            let operation = read_operation(operation)?;
            Ok(date.map(|date| Call::Enter(date, operation)))
        }
        ["ask", date, question @ ..] => {
            let date = read_date(date)?;
            let question = read_question(question)?;
            Ok(date.map(|date| Call::Ask(date, question)))
        }
        ["dates", ..] => Err(Reason::LateKind),
        _ => Err(Reason::UnknownCommand),
    }
}
