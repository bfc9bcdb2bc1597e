//! Running a row, which is one call of the program, and comparing the results with what the row expects.

use crate::answer::{Answer, answer_to, answer_with, plain_answer_to};
use crate::failure::{Failure, same, same_number};
use crate::families::{judge_class, judge_report};
use crate::program::Program;
use crate::read::read_row;
use crate::row::{Calls, Expected, Form, Row, Saved, Setting, Writes, empty_row};
use crate::text::add_word;
use crate::tree::Places;
use std::alloc::{AllocError, Global};
use std::collections::BTreeSet;
use toml::Value;

/// Fails if the status is above 1.
fn ended_well(alloc: Global, status: u8) -> Result<(), Failure> {
    if status <= 1 {
        return Ok(());
    }
    Err(Failure::of(format!(in alloc; "a call without faults ends with status {status}")))
}

/// Makes a file of what a call wrote.
fn put_output(
    alloc: Global,
    answer: &Answer,
    save: &str,
    places: &mut Places,
) -> Result<(), Failure> {
    ended_well(alloc, answer.status)?;
    places.put_file(save, answer.out.bytes())?;
    Ok(())
}

/// Makes a call, and makes a file of what it wrote.
fn put_written<P: Program>(
    alloc: Global,
    program: &P,
    call: &Saved<'_>,
    places: &mut Places,
) -> Result<(), Failure> {
    let answer = plain_answer_to(alloc, program, &call.words, places)?;
    put_output(alloc, &answer, call.save.as_str(), places)
}

/// Makes the files that the row's call finds: `files`, then what the calls of `before` write, then `then`.
fn put_setting<P: Program>(
    alloc: Global,
    program: &P,
    setting: &Setting<'_>,
    places: &mut Places,
) -> Result<(), Failure> {
    places.put_all(&setting.files)?;
    for call in &setting.before {
        put_written(alloc, program, call, places)?;
    }
    places.put_all(&setting.then)?;
    Ok(())
}

/// Adds the words of a call of `verify` for the certificate that these words of `prove` ask for. `verify` takes the place of
/// `prove`.
fn add_words_of_verify(
    alloc: Global,
    words: &Vec<String>,
    others: &mut Vec<String>,
) -> Result<(), AllocError> {
    for (place, word) in words.iter().enumerate() {
        let word = if place == 0 { "verify" } else { word.as_str() };
        add_word(alloc, word, others)?;
    }
    add_word(alloc, "certificate.json", others)
}

/// Compares the result of `prove`, and makes a file of the certificate that it wrote.
fn put_made(alloc: Global, made: &Answer, places: &mut Places) -> Result<(), Failure> {
    same_number(alloc, "the status of prove", u64::from(made.status), 0)?;
    same(alloc, "standard error of prove", made.err.bytes(), &[])?;
    places.put_file("certificate.json", made.out.bytes())?;
    Ok(())
}

/// Makes the certificate that the words of `prove` ask for.
fn put_certificate<P: Program>(
    alloc: Global,
    program: &P,
    words: &Vec<String>,
    places: &mut Places,
) -> Result<(), Failure> {
    let made = plain_answer_to(alloc, program, words, places)?;
    put_made(alloc, &made, places)
}

/// Returns whether an output is one line that begins with this text.
fn is_line(output: &[u8], begins: &str) -> bool {
    let line_ends = output.iter().filter(|&&byte| byte == b'\n').count();
    output.starts_with(begins.as_bytes()) && output.ends_with(b"\n") && line_ends == 1
}

/// Compares standard output, in the form that the row expects.
fn judge_stdout<P: Program>(
    alloc: Global,
    program: &P,
    words: &Vec<String>,
    expected: &Expected<'_>,
    output: &[u8],
) -> Result<(), Failure> {
    let wanted = expected.stdout.as_slice();
    match expected.form {
        Form::Plain => same(alloc, "standard output", output, wanted),
        Form::Begins(begins) if is_line(output, begins.as_str()) => Ok(()),
        Form::Begins(begins) => same(alloc, "the line", output, begins.as_bytes()),
        Form::WithFamily(greatest) => judge_class(alloc, program, words, output, wanted, greatest),
        Form::WithFamilies => judge_report(alloc, program, output, wanted, &expected.families),
    }
}

/// Compares everything except standard output.
fn judge_rest(alloc: Global, expected: &Expected<'_>, answered: &Answer) -> Result<(), Failure> {
    let stderr = expected.stderr.as_slice();
    same(alloc, "standard error", answered.err.bytes(), stderr)?;
    let (status, wanted) = (u64::from(answered.status), u64::from(expected.status));
    same_number(alloc, "the status", status, wanted)?;
    match expected.tree_faults {
        Some(wanted) => same_number(alloc, "tree_faults", answered.tree_faults, wanted),
        None => Ok(()),
    }
}

/// Compares the answer to the row's call with these words.
fn judge_answer<P: Program>(
    alloc: Global,
    program: &P,
    row: &Row<'_>,
    words: &Vec<String>,
    answered: &Answer,
) -> Result<(), Failure> {
    judge_rest(alloc, &row.expected, answered)?;
    judge_stdout(alloc, program, words, &row.expected, answered.out.bytes())
}

/// Makes the row's call with these words, and compares the answer.
fn judge_call<P: Program>(
    alloc: Global,
    program: &P,
    row: &Row<'_>,
    words: &Vec<String>,
    places: &Places,
) -> Result<(), Failure> {
    let answered = answer_to(alloc, program, words, places, &row.faults)?;
    judge_answer(alloc, program, row, words, &answered)
}

/// Compares two answers to the row's call, which must be the same.
fn judge_answers<P: Program>(
    alloc: Global,
    program: &P,
    row: &Row<'_>,
    first: &Answer,
    second: &Answer,
) -> Result<(), Failure> {
    judge_answer(alloc, program, row, &row.words, first)?;
    judge_answer(alloc, program, row, &row.words, second)?;
    let (second, first) = (second.out.bytes(), first.out.bytes());
    same(alloc, "the second output", second, first)
}

/// Makes the row's call a second time, and compares both answers.
fn judge_again<P: Program>(
    alloc: Global,
    program: &P,
    row: &Row<'_>,
    places: &Places,
    first: &Answer,
) -> Result<(), Failure> {
    let second = answer_to(alloc, program, &row.words, places, &row.faults)?;
    judge_answers(alloc, program, row, first, &second)
}

/// Makes the row's call twice, and compares both answers.
fn judge_same<P: Program>(
    alloc: Global,
    program: &P,
    row: &Row<'_>,
    places: &Places,
) -> Result<(), Failure> {
    let first = answer_to(alloc, program, &row.words, places, &row.faults)?;
    judge_again(alloc, program, row, places, &first)
}

/// Returns the answer to the row's call if only this write to standard output fails.
fn answer_failing<P: Program>(
    alloc: Global,
    program: &P,
    row: &Row<'_>,
    places: &Places,
    write: u64,
) -> Result<Answer, Failure> {
    let failing = Vec::from_slice(alloc, &[write])?;
    let step = row.faults.out.step;
    let out = Writes { failing, step };
    answer_with(alloc, program, &row.words, places, &row.faults, &out)
}

/// Compares the answer to a call in which a write failed.
fn judge_piece(
    alloc: Global,
    expected: &Expected<'_>,
    answered: &Answer,
    cut: &[u8],
) -> Result<(), Failure> {
    same(alloc, "standard output", answered.out.bytes(), cut)?;
    judge_rest(alloc, expected, answered)
}

/// Makes the call in which the write of the byte after `cut` fails.
fn judge_cut<P: Program>(
    alloc: Global,
    program: &P,
    row: &Row<'_>,
    places: &Places,
    cut: &[u8],
) -> Result<(), Failure> {
    let write = (cut.len() as u64).saturating_add(1);
    let answered = answer_failing(alloc, program, row, places, write)?;
    judge_piece(alloc, &row.expected, &answered, cut)
}

/// Makes the call once for each byte of the whole output, which must have at least 100 bytes. In each of these calls the write
/// of that byte fails.
fn judge_cuts<P: Program>(
    alloc: Global,
    program: &P,
    row: &Row<'_>,
    places: &Places,
    whole: &Answer,
) -> Result<(), Failure> {
    ended_well(alloc, whole.status)?;
    let report = whole.out.bytes();
    if report.len() < 100 {
        return Err(Failure::with_message(alloc, "standard output has less than 100 bytes"));
    }
    for place in 0..report.len() {
        judge_cut(alloc, program, row, places, &report[..place])?;
    }
    Ok(())
}

/// Makes the call once for each byte that it writes. In each of these calls the write of that byte fails.
fn judge_each_write<P: Program>(
    alloc: Global,
    program: &P,
    row: &Row<'_>,
    places: &Places,
) -> Result<(), Failure> {
    let whole = plain_answer_to(alloc, program, &row.words, places)?;
    judge_cuts(alloc, program, row, places, &whole)
}

/// Has the certificate verified.
fn judge_made<P: Program>(
    alloc: Global,
    program: &P,
    row: &Row<'_>,
    places: &Places,
) -> Result<(), Failure> {
    let mut words = Vec::new(alloc);
    add_words_of_verify(alloc, &row.words, &mut words)?;
    judge_call(alloc, program, row, &words, places)
}

/// Makes the certificate, and has it verified.
fn judge_verified<P: Program>(
    alloc: Global,
    program: &P,
    row: &Row<'_>,
    places: &mut Places,
) -> Result<(), Failure> {
    put_certificate(alloc, program, &row.words, places)?;
    judge_made(alloc, program, row, places)
}

/// Makes the row's calls, and compares the answers.
fn judge_calls<P: Program>(
    alloc: Global,
    program: &P,
    row: &Row<'_>,
    places: &mut Places,
) -> Result<(), Failure> {
    put_setting(alloc, program, &row.setting, places)?;
    match row.calls {
        Calls::One => judge_call(alloc, program, row, &row.words, places),
        Calls::Same => judge_same(alloc, program, row, places),
        Calls::EachWrite => judge_each_write(alloc, program, row, places),
        Calls::Verified => judge_verified(alloc, program, row, places),
    }
}

/// Adds the name of a row. No other row may have the same name.
fn add_name(alloc: Global, name: &str, names: &mut BTreeSet<String>) -> Result<(), Failure> {
    let name = String::from_str(alloc, name)?;
    if names.insert(name)? {
        Ok(())
    } else {
        Err(Failure::with_message(alloc, "another row has this name"))
    }
}

/// Runs a row.
fn judge<P: Program>(alloc: Global, program: &P, row: &Row<'_>) -> Result<(), Failure> {
    let mut places = Places::new(alloc)?;
    judge_calls(alloc, program, row, &mut places)
}

/// Reads a row into `row`, which must be empty, and runs it.
fn read_and_judge<'a, P: Program>(
    alloc: Global,
    program: &P,
    names: &mut BTreeSet<String>,
    value: &'a Value,
    row: &mut Row<'a>,
) -> Result<(), Failure> {
    read_row(alloc, value, row)?;
    add_name(alloc, row.name, names)?;
    judge(alloc, program, row)
}

/// Reads the row that `value` holds, adds its name to `names`, which are the names of the rows before it, runs the row with
/// `program`, and fails unless the program answers as the row expects.
///
/// # Errors
/// [`Failure::Message`] if the value isn't a row, if another row has the same name, or if the program doesn't answer as the
/// row expects; [`Failure::OutOfMemory`] if memory runs out.
pub fn judge_value<P: Program>(
    alloc: Global,
    program: &P,
    names: &mut BTreeSet<String>,
    value: &Value,
) -> Result<(), Failure> {
    let mut row = empty_row(alloc);
    read_and_judge(alloc, program, names, value, &mut row)
}
