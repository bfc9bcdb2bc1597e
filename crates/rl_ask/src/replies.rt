//! Many questions, one on each line of an input, each with its reply.

ghost use Rattle.std.specs.Prelude.{◌≡◌, ◌++◌, Err, IfOk, IsUtf8, None, Some, codes, false, true};
ghost use Rattle.std.specs.Fmt.{decimal};
ghost use Rattle.std.specs.Io.BufRead.{ends_with_byte};
ghost use Rattle.std.specs.String.{string_bytes};
ghost use Rattle.serde_json.specs.Read.{read};
ghost use Rattle.serde_json.specs.View.{view};
ghost use Rattle.rl_asked.specs.Questions.{IsAskable, asked, message_of};
ghost use Rattle.rl_ask.specs.Answers.{IsRight};
ghost use Rattle.rl_ask.specs.Document.{error_text};
ghost use Rattle.rl_ask.specs.Lines.{IsReply, IsReplyTo, is_over};
ghost use Rattle.rl_ask.specs.Sinks.{sink_change};
ghost use Rattle.rl_ask.specs.internal.Replied.{AnswersWell, RepliesUntil, reply_bytes};
ghost use Rattle.rl_ask.specs.declared.limits.TheConstants.{MOST_LINE_BYTES};

use crate::answer::Answer;
use crate::answering::answer_to;
use crate::beyond::beyond_told;
use crate::document::{error_line, reply_line};
use crate::limits::MOST_LINE_BYTES;
use rl_asked::{Mistake, Question, question_of};
use rl_lists::{Bytes, OutOfMemory};
use rl_source::{Sink, write_all};
use serde_json::Value;
use std::alloc::Global;
use std::io::{BufRead, ErrorKind};

/// What is replied to a line.
#[derive(Drop)]
enum Reply {
    /// That there was no memory for another reply.
    NoMemory,
    /// A line that was made for this line.
    Made(Bytes),
}

impl Reply {
    /// Returns the bytes of the reply.
    fn as_bytes(&self) -> &[u8]
        ensures { result.now ≡ reply_bytes self.now }
    {
        match self {
            Reply::NoMemory => "{\"answer\":\"error\",\"message\":\"out of memory\"}\n".as_bytes(),
            Reply::Made(line) => line.as_slice(),
        }
    }
}

/// Where the replies to an input ended.
#[derive(Clone, Copy)]
pub(crate) enum RepliesEnd {
    /// At the end of the input.
    AtEnd,
    /// The input couldn't be read.
    Unreadable,
    /// A reply couldn't be written, or only in part.
    WriteFault,
    /// Out of memory for a line that was to be read.
    OutOfMemory,
}

/// Returns the line of a right answer to a question, with what is told of the question's patterns beside it.
fn told_line(alloc: Global, question: Question, answer: &Answer) -> Result<Bytes, OutOfMemory>
    requires { IsRight (asked question) answer.now }
    ensures { IfOk result (AnswersWell (asked question.entry)) }
{
    let told = beyond_told(alloc, question, answer)?;
    reply_line(alloc, question, told, answer)
}

/// Returns the line of the answer to a question, with its line feed.
fn answer_line(alloc: Global, question: Question) -> Result<Bytes, OutOfMemory>
    requires { IsAskable (asked question) }
    ensures { IfOk result (AnswersWell (asked question.entry)) }
{
    let answer = answer_to(alloc, question)?;
    let line = told_line(alloc, question, &answer);
    drop(answer);
    line
}

/// Returns the message on a mistake about a key.
fn key_message(alloc: Global, words: &str, key: &str) -> Result<String, OutOfMemory>
    ensures { IfOk result (λ message. string_bytes message ≡ words.now ++ key.now) }
{
    Ok(format!(in alloc; "{words}{key}")?)
}

/// Returns the line that says why a value asks no question because of a key.
fn key_line(alloc: Global, words: &str, key: &str) -> Result<Bytes, OutOfMemory>
    ensures { IfOk result (λ line. line ≡ error_text (words.now ++ key.now)) }
{
    let message = key_message(alloc, words, key)?;
    error_line(alloc, message.as_str())
}

/// Returns the line that says why a value asks no question.
fn mistake_line(alloc: Global, mistake: Mistake) -> Result<Bytes, OutOfMemory>
    ensures { IfOk result (λ line. line ≡ error_text (message_of mistake.entry)) }
{
    match mistake {
        Mistake::NoObject => error_line(alloc, "no object"),
        Mistake::UnknownKey(key) => key_line(alloc, "unknown key ", key),
        Mistake::MissingKey(key) => key_line(alloc, "missing key ", key),
        Mistake::WrongValue(key) => key_line(alloc, "wrong value of ", key),
    }
}

/// Returns the line of the reply to a value of JSON.
fn value_line(alloc: Global, value: &Value) -> Result<Bytes, OutOfMemory>
    ensures { IfOk result (IsReplyTo (view value.now)) }
{
    match question_of(value) {
        Ok(question) => answer_line(alloc, question),
        Err(mistake) => mistake_line(alloc, mistake),
    }
}

/// Why a line has no value.
#[derive(Clone, Copy, PartialEq, Eq)]
enum LineError {
    /// It isn't JSON.
    Refused,
    /// Out of memory.
    OutOfMemory,
}

/// Returns the value that a line is in JSON. The line may end in a line feed.
fn value_of(alloc: Global, line: &[u8]) -> Result<Value, LineError>
    ensures value { IfOk result (λ v. IsUtf8 line.now × (read line.now ≡ Some (view v))) }
    ensures refused { result ≡ Err LineError.Refused → IsUtf8 line.now → read line.now ≡ None }
{
    match Value::from_slice(alloc, line) {
        Ok(value) => Ok(value),
        Err(error) => {
            if error.is_memory() {
                Err(LineError::OutOfMemory)
            } else {
                Err(LineError::Refused)
            }
        }
    }
}

/// Returns the line of the reply to a line that isn't too long.
fn line_reply(alloc: Global, line: &[u8]) -> Result<Bytes, OutOfMemory>
    requires { is_over line.now ≡ false }
    ensures { IfOk result (IsReply line.now) }
{
    match value_of(alloc, line) {
        Ok(value) => {
            let reply = value_line(alloc, &value);
            drop(value);
            reply
        }
        Err(LineError::Refused) => error_line(alloc, "no JSON"),
        Err(LineError::OutOfMemory) => Err(OutOfMemory),
    }
}

/// Returns the message that a line is too long.
fn long_message(alloc: Global) -> Result<String, OutOfMemory>
    ensures { IfOk result (λ m. string_bytes m ≡ codes "line over " ++ (decimal MOST_LINE_BYTES ++ codes " bytes")) }
{
    Ok(format!(in alloc; "line over {MOST_LINE_BYTES} bytes")?)
}

/// Returns the line of the reply to a line that is too long.
fn long_reply(alloc: Global) -> Result<Bytes, OutOfMemory>
    ensures { IfOk result (λ line. line ≡ error_text (codes "line over " ++ (decimal MOST_LINE_BYTES ++ codes " bytes"))) }
{
    let message = long_message(alloc)?;
    error_line(alloc, message.as_str())
}

/// Returns whether the line ends in a line feed.
fn has_feed(line: &[u8]) -> bool
    ensures { result ≡ ends_with_byte 10 line.now }
{
    !line.is_empty() && line[line.len() - 1] == b'\n'
}

/// Returns whether a line has more than [`MOST_LINE_BYTES`] bytes, without its line feed.
fn is_over(line: &[u8]) -> bool
    ensures { result ≡ is_over line.now }
{
    if has_feed(line) {
        line.len() > MOST_LINE_BYTES + 1
    } else {
        line.len() > MOST_LINE_BYTES
    }
}

/// Returns the reply to a line, if there is memory for it.
fn reply_made(alloc: Global, line: &[u8]) -> Result<Bytes, OutOfMemory>
    ensures { IfOk result (IsReply line.now) }
{
    if is_over(line) {
        long_reply(alloc)
    } else {
        line_reply(alloc, line)
    }
}

/// Returns the reply to a line.
fn reply_to(alloc: Global, line: &[u8]) -> Reply
    ensures { IsReply line.now (reply_bytes result) }
{
    match reply_made(alloc, line) {
        Ok(line) => Reply::Made(line),
        Err(_) => Reply::NoMemory,
    }
}

/// Reads the lines of an input one by one, and writes the reply to each before it reads the next. Returns where it ended. A
/// line is read as a whole, as far as memory allows, even if it is too long to be a question.
pub(crate) fn reply_all<R: BufRead, O: Sink>(
    alloc: Global,
    input: &mut R,
    out: &mut O,
) -> RepliesEnd
    ensures { RepliesUntil (R.remaining input.old) (sink_change O.bytes O.fault_count out.old out.new) result }
{
    for _ in 0..u64::MAX {
        let mut line = Vec::new(alloc);
        match input.read_until(b'\n', &mut line) {
            Ok(0) => return RepliesEnd::AtEnd,
            Ok(_) => {
                let reply = reply_to(alloc, line.as_slice());
                if write_all(out, reply.as_bytes()).is_err() {
                    return RepliesEnd::WriteFault;
                }
            }
            Err(error) if error.kind() == ErrorKind::OutOfMemory => {
                return RepliesEnd::OutOfMemory;
            }
            Err(_) => return RepliesEnd::Unreadable,
        }
    }
    RepliesEnd::Unreadable
}
