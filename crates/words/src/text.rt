// A script's text, cut into lines and words.
ghost use Rattle.std.specs.Prelude.{◌≡◌, ◌-◌, ◌≤◌, ◌++◌, take, drop, IfOk, OnOk};
ghost use Rattle.std.specs.Str.{IsCharBoundary};
ghost use Rattle.words.specs.Text.{blank, complete, lines, spelled, words};

use std::alloc::{AllocError, Global};

// The lines of a text, without their line feeds.
pub fn lines_of(heap: Global, text: &str) -> Result<Vec<&str>, AllocError>
    ensures { IfOk result (λ found. spelled found.items ≡ lines text.now) }
{
    text.split('\n').collect(heap)
}

// Words are parted by blanks: spaces, tabs, and the carriage return of a line end.
fn is_blank(byte: u8) -> bool
    ensures { result ≡ blank byte }
{
    byte == b' ' || byte == b'\t' || byte == b'\r'
}

// Takes the bytes from start to end as a word, if there are any.
fn take_word<'a>(
    found: &mut Vec<&'a str>,
    line: &'a str,
    start: usize,
    end: usize,
) -> Result<(), AllocError>
    requires { (start ≤ end) × ((IsCharBoundary line.now start) × (IsCharBoundary line.now end)) }
    ensures { OnOk result (spelled found.new.items ≡ spelled found.old.items ++ complete (take (end - start) (drop start line.now))) }
{
    if start < end {
        found.push(&line[start..end])?;
    }
    Ok(())
}

// The words of a line, up to its comment. The loop stays: as a chain of `split_once`, `split` and `filter` it took from 1.3 to 3.4 times
// the time, since each blank then makes a piece that is thrown away.
pub fn words_of(heap: Global, line: &str) -> Result<Vec<&str>, AllocError>
    ensures { IfOk result (λ found. spelled found.items ≡ words line.now) }
{
    let bytes = line.as_bytes();
    let mut found = Vec::new(heap);
    let mut start = 0;
    let mut end = 0;
    while end < bytes.len() && bytes[end] != b'#' {
        if is_blank(bytes[end]) {
            take_word(&mut found, line, start, end)?;
            start = end + 1;
        }
        end += 1;
    }
    take_word(&mut found, line, start, end)?;
    Ok(found)
}
