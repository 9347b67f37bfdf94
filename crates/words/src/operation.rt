// The operations and questions that words name.
//
// Each has a form of its own for what an editor writes, which stands for the raw form of three numbers.
ghost use Rattle.std.specs.Prelude.{◌≡◌};
ghost use Rattle.words.specs.Operations.{of_numbers, operation, question, raw_operation, raw_question};
ghost use Rattle.words.specs.Text.{spelled};

use crate::number::read_number;
use crate::reason::Reason;
use machines::{Operation, Question};

// The three numbers of a raw form.
fn raw_numbers(code: &str, place: &str, last: &str) -> Result<(u16, u16, i32), Reason>
    ensures { result ≡ of_numbers (λ c p l. (c, p, l)) code.now place.now last.now }
{
    let code = read_number(code).ok_or(Reason::NotUnsigned)?;
    let place = read_number(place).ok_or(Reason::NotUnsigned)?;
    let last = read_number(last).ok_or(Reason::NotSigned)?;
    Ok((code, place, last))
}

fn operation_of(code: &str, place: &str, amount: &str) -> Result<Operation, Reason>
    ensures { result ≡ raw_operation code.now place.now amount.now }
{
    raw_numbers(code, place, amount).map(|(code, place, amount)| Operation {
        code,
        place,
        amount,
    })
}

// As `operation_of`, of the other type: what the two share is `raw_numbers`.
fn question_of(code: &str, place: &str, index: &str) -> Result<Question, Reason>
    ensures { result ≡ raw_question code.now place.now index.now }
{
    raw_numbers(code, place, index).map(|(code, place, index)| Question { code, place, index })
}

// The operation that an entering names.
pub fn read_operation(words: &[&str]) -> Result<Operation, Reason>
    ensures { result ≡ operation (spelled words.now) }
{
    match words {
        ["change", cell, amount] => operation_of("1", cell, amount),
        ["order", job] => operation_of("2", "0", job),
        ["draw"] => operation_of("3", "0", "0"),
        ["set", path, status] => operation_of("4", path, status),
        ["op", code, place, amount] => operation_of(code, place, amount),
        _ => Err(Reason::UnknownOperation),
    }
}

// The question that an asking names.
pub fn read_question(words: &[&str]) -> Result<Question, Reason>
    ensures { result ≡ question (spelled words.now) }
{
    match words {
        ["count", cell] => question_of("1", cell, "0"),
        ["waiting"] => question_of("2", "0", "0"),
        ["job", index] => question_of("3", "0", index),
        ["status", path] => question_of("4", path, "0"),
        ["question", code, place, index] => question_of(code, place, index),
        _ => Err(Reason::UnknownQuestion),
    }
}
