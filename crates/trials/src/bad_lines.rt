// Scripts that cannot be read: the first bad line is named, with the reason.
use script::{ScriptFault, parse};
use std::process::Abort;
use std::test::Fail;

const NO_COMMAND: &str = "no such command, or not its number of words";

const NO_KIND: &str = "dates are days or survey";

const LATE_KIND: &str = "the kind of date is named before the first call";

const NO_OPERATION: &str = "no such operation, or not its number of words";

const NO_QUESTION: &str = "no such question, or not its number of words";

const NO_DATE: &str = "not a date of the script's kind";

const NOT_UNSIGNED: &str = "not a number from 0 to 65535";

const NOT_SIGNED: &str = "not a number from -2147483648 to 2147483647";

// The script has this line as its first bad one, for this reason.
fn assert_bad_line(
    rt: &(impl Abort + AllocGlobal),
    text: &str,
    line: usize,
    reason: &str,
) -> Result<(), Fail> {
    match parse(rt.alloc(), text) {
        Ok(_) => Err(Fail::new(format_args!("{text}: the script is read"))),
        Err(ScriptFault::NoMemory) => Err(Fail::new(format_args!("{text}: no memory"))),
        Err(ScriptFault::BadLine(number, found)) => {
            assert_eq!(rt; number, line, "{text}");
            assert_eq!(rt; found.to_string(rt.alloc())?.as_str(), reason, "{text}");
            Ok(())
        }
    }
}

// Each of the scripts has this line as its first bad one, for this reason.
fn assert_bad_lines(
    rt: &(impl Abort + AllocGlobal),
    line: usize,
    reason: &str,
    texts: &[&str],
) -> Result<(), Fail> {
    for text in texts {
        assert_bad_line(rt, text, line, reason)?;
    }
    Ok(())
}

#[test]
fn a_command_is_enter_or_ask_with_a_date(rt: HostRuntime) -> Result<(), Fail> {
    assert_bad_lines(
        &rt,
        1,
        NO_COMMAND,
        &[
            "leave 10 draw",
            "Enter 10 draw",
            "enter",
            "ask",
            "10",
            "\u{fc}",
        ],
    )
}

#[test]
fn the_kinds_of_date_are_days_and_survey(rt: HostRuntime) -> Result<(), Fail> {
    assert_bad_lines(
        &rt,
        1,
        NO_KIND,
        &[
            "dates moons",
            "dates",
            "dates days days",
            "dates survey days",
        ],
    )
}

#[test]
fn the_kind_of_date_is_not_named_after_a_call(rt: HostRuntime) -> Result<(), Fail> {
    assert_bad_lines(
        &rt,
        2,
        LATE_KIND,
        &["enter 10 draw\ndates days", "ask 10 waiting\ndates moons"],
    )
}

#[test]
fn an_operation_has_its_number_of_words(rt: HostRuntime) -> Result<(), Fail> {
    assert_bad_lines(
        &rt,
        1,
        NO_OPERATION,
        &[
            "enter 10",
            "enter 10 move 1 5",
            "enter 10 change 1",
            "enter 10 change 1 5 5",
            "enter 10 order",
            "enter 10 order 1 1",
            "enter 10 draw 0",
            "enter 10 set 1",
            "enter 10 set 1 2 3",
            "enter 10 op 1 2",
            "enter 10 op 1 2 3 4",
            "enter 10 count 1",
        ],
    )
}

#[test]
fn a_question_has_its_number_of_words(rt: HostRuntime) -> Result<(), Fail> {
    assert_bad_lines(
        &rt,
        1,
        NO_QUESTION,
        &[
            "ask 10",
            "ask 10 which",
            "ask 10 count",
            "ask 10 count 1 0",
            "ask 10 waiting 0",
            "ask 10 job",
            "ask 10 job 1 1",
            "ask 10 status",
            "ask 10 status 1 0",
            "ask 10 question 1 2",
            "ask 10 question 1 2 3 4",
            "ask 10 draw",
        ],
    )
}

#[test]
fn a_code_and_a_place_are_0_to_65535(rt: HostRuntime) -> Result<(), Fail> {
    assert_bad_lines(
        &rt,
        1,
        NOT_UNSIGNED,
        &[
            "enter 10 change x 5",
            "enter 10 change 65536 5",
            "enter 10 change -1 5",
            "enter 10 op 65536 0 0",
            "enter 10 set 1.0 2",
            "ask 10 count 65536",
            "ask 10 status 0x1",
        ],
    )
}

#[test]
fn an_amount_and_an_index_are_numbers_of_32_bits(rt: HostRuntime) -> Result<(), Fail> {
    assert_bad_lines(
        &rt,
        1,
        NOT_SIGNED,
        &[
            "enter 10 change 0 x",
            "enter 10 change 0 2147483648",
            "enter 10 change 0 -2147483649",
            "enter 10 order 1,000",
            "enter 10 order -",
            "ask 10 job 2147483648",
        ],
    )
}

#[test]
fn a_day_is_a_number_of_32_bits(rt: HostRuntime) -> Result<(), Fail> {
    assert_bad_lines(
        &rt,
        1,
        NO_DATE,
        &[
            "enter x draw",
            "enter 2147483648 draw",
            "enter -2147483649 draw",
            "ask 1987-6-0 waiting",
        ],
    )
}

#[test]
fn a_survey_date_is_one_to_three_numbers_that_fit(rt: HostRuntime) -> Result<(), Fail> {
    assert_bad_lines(
        &rt,
        2,
        NO_DATE,
        &[
            "dates survey\nenter x draw",
            "dates survey\nenter 1987-6-0-1 draw",
            "dates survey\nenter 1987- draw",
            "dates survey\nenter -1987 draw",
            "dates survey\nenter 65536 draw",
            "dates survey\nask 1987-256 waiting",
            "dates survey\nask 1987-6-256 waiting",
        ],
    )
}

#[test]
fn the_date_is_read_before_the_operation(rt: HostRuntime) -> Result<(), Fail> {
    assert_bad_lines(
        &rt,
        1,
        NO_DATE,
        &["enter x", "enter x change x x", "ask x which"],
    )
}

#[test]
fn lines_are_numbered_from_1_with_blank_lines_and_comments(rt: HostRuntime) -> Result<(), Fail> {
    assert_bad_lines(
        &rt,
        3,
        NO_COMMAND,
        &[
            "enter 10 draw\nask 10 waiting\nleave",
            "# leave\n\nleave\nleave",
            "dates days\r\n\r\nleave\r\n",
        ],
    )
}
