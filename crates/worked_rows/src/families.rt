//! Families. No row spells them out: each is read from the line that shows it, and its texts must cost what the verdict says.

use crate::answer::{Answer, plain_answer_to};
use crate::failure::{Failure, same, same_number};
use crate::program::Program;
use crate::row::Printed;
use crate::text::add_word;
use crate::tree::Places;
use std::alloc::{AllocError, Global};

// The largest number of repetitions with which the texts of a report's families are tried.
const GREATEST: u64 = 6;

/// The line of a family, and the verdict on the line before it.
#[derive(Clone, Copy)]
struct Shown<'a> {
    verdict: &'a str,
    line: &'a str,
}

/// The lines of an output that don't show families, joined again, and the lines that do.
#[derive(Drop)]
struct Parted<'a> {
    rest: String,
    shown: Vec<Shown<'a>>,
}

/// Returns the verdict that the end of a line names: what follows its last `: `, or the whole line if it has none.
fn verdict_of(line: &str) -> &str {
    let line = line.trim_end_matches('\n');
    match line.rsplit_once(": ") {
        Some((_, verdict)) => verdict,
        None => line,
    }
}

impl<'a> Parted<'a> {
    /// Adds a line of the output; `before` is the line before it.
    fn add(&mut self, before: &'a str, line: &'a str) -> Result<(), AllocError> {
        if line.starts_with("  family ") {
            let verdict = verdict_of(before);
            self.shown.push(Shown { verdict, line })?;
        } else {
            self.rest.push_str(line)?;
        }
        Ok(())
    }
}

/// Returns the line before the one at this place, or an empty one if it is the first.
fn line_before<'a>(lines: &[&'a str], place: usize) -> &'a str {
    match place.checked_sub(1) {
        Some(before) => lines.get(before).copied().unwrap_or(""),
        None => "",
    }
}

/// Adds all lines of an output.
fn part_lines<'a>(lines: &[&'a str], parted: &mut Parted<'a>) -> Result<(), AllocError> {
    for (place, line) in lines.iter().enumerate() {
        parted.add(line_before(lines, place), *line)?;
    }
    Ok(())
}

/// Takes the lines of families out of an output.
fn part<'a>(alloc: Global, output: &'a str, parted: &mut Parted<'a>) -> Result<(), AllocError> {
    let lines: Vec<&str> = output.split_inclusive('\n').collect(alloc)?;
    part_lines(lines.as_slice(), parted)
}

/// The state of the reader of a line: between two texts, in a text without or with escapes, after a backslash, or in a number,
/// with the count of digits that are still to come.
#[derive(Clone, Copy)]
enum Reading {
    Between,
    Plain,
    Escaped,
    Escape,
    Digits(u32, u32),
}

/// Returns the number with one more hexadecimal digit at its end.
fn with_digit(number: u32, c: char) -> u32 {
    number
        .saturating_mul(16)
        .saturating_add(c.to_digit(16).unwrap_or(0))
}

/// Returns the reader's state after a character; `before` is the character before it.
fn after(reading: Reading, before: char, c: char) -> Reading {
    match (reading, c) {
        (Reading::Between, '"') if before == 'r' => Reading::Plain,
        (Reading::Between, '"') => Reading::Escaped,
        (Reading::Plain, '"') => Reading::Between,
        (Reading::Escaped, '"') => Reading::Between,
        (Reading::Escaped, '\\') => Reading::Escape,
        (Reading::Escape, 'x') => Reading::Digits(2, 0),
        (Reading::Escape, 'u') => Reading::Digits(4, 0),
        (Reading::Escape, 'U') => Reading::Digits(8, 0),
        (Reading::Escape, _) => Reading::Escaped,
        (Reading::Digits(left, number), c) if left > 1 => {
            Reading::Digits(left - 1, with_digit(number, c))
        }
        (Reading::Digits(_, _), _) => Reading::Escaped,
        (reading, _) => reading,
    }
}

/// Returns the character of the text that the reader has read with this character, or `None` if it has read none.
fn ended_by(reading: Reading, c: char) -> Option<char> {
    match (reading, c) {
        (Reading::Between, _) => None,
        (Reading::Plain, '"') => None,
        (Reading::Plain, c) => Some(c),
        (Reading::Escaped, '"') => None,
        (Reading::Escaped, '\\') => None,
        (Reading::Escaped, c) => Some(c),
        (Reading::Escape, 'n') => Some('\n'),
        (Reading::Escape, 'r') => Some('\r'),
        (Reading::Escape, 't') => Some('\t'),
        (Reading::Escape, '"') => Some('"'),
        (Reading::Escape, '\\') => Some('\\'),
        (Reading::Escape, _) => None,
        (Reading::Digits(1, number), c) => char::from_u32(with_digit(number, c)),
        (Reading::Digits(_, _), _) => None,
    }
}

/// A family: a head, and then a pump and a head for each degree.
#[derive(Drop)]
struct Family {
    texts: Vec<String>,
}

impl Family {
    /// Adds a character to the last text.
    fn push(&mut self, c: char) -> Result<(), AllocError> {
        if let Some(text) = self.texts.last_mut() {
            text.push(c)?;
        }
        Ok(())
    }

    /// Reads a character of a line.
    fn add(&mut self, alloc: Global, reading: Reading, c: char) -> Result<(), AllocError> {
        match (reading, c) {
            (Reading::Between, '"') => Ok(self.texts.push(String::new(alloc))?),
            (reading, c) => match ended_by(reading, c) {
                Some(ended) => self.push(ended),
                None => Ok(()),
            },
        }
    }

    /// Reads the family in a line.
    fn read(alloc: Global, line: &str) -> Result<Family, AllocError> {
        let texts = Vec::new(alloc);
        let mut family = Family { texts };
        let mut reading = Reading::Between;
        let mut before = ' ';
        for c in line.chars() {
            family.add(alloc, reading, c)?;
            reading = after(reading, before, c);
            before = c;
        }
        Ok(family)
    }

    /// Returns the number of pumps.
    fn pumps(&self) -> usize {
        self.texts.len() / 2
    }

    /// Returns whether one of the pumps is empty.
    fn has_empty_pump(&self) -> bool {
        for (place, text) in self.texts.iter().enumerate() {
            if place % 2 == 1 && text.is_empty() {
                return true;
            }
        }
        false
    }

    /// Returns whether the family has as many pumps as the verdict requires and none of them is empty; `degree` is the verdict
    /// of that degree.
    fn fits(&self, verdict: &str, degree: &str) -> bool {
        let is_told = verdict == degree || verdict == "exponential" && self.pumps() == 1;
        is_told && self.texts.len() % 2 == 1 && !self.has_empty_pump()
    }

    /// Returns the text in which each pump is repeated `times` times.
    fn text(&self, alloc: Global, times: u64) -> Result<String, AllocError> {
        let mut text = String::new(alloc);
        for (place, piece) in self.texts.iter().enumerate() {
            let copies = if place % 2 == 1 { times } else { 1 };
            for _ in 0..copies {
                text.push_str(piece.as_str())?;
            }
        }
        Ok(text)
    }

    /// Returns the smallest number of steps that this text may cost.
    fn least_steps(&self, verdict: &str, times: u64) -> u64 {
        if verdict == "exponential" {
            power(2, times)
        } else {
            power(times, self.pumps() as u64)
        }
    }
}

/// Returns a power, or 2^64 - 1 if it is larger.
fn power(base: u64, exponent: u64) -> u64 {
    let mut power = 1u64;
    for _ in 0..exponent {
        power = power.saturating_mul(base);
    }
    power
}

/// Returns the number in a line `steps N matched` or `steps N refused`, or `None` for any other line or a number of more than
/// 64 bits.
fn steps_of(out: &[u8]) -> Option<u64> {
    let line = str::from_utf8(out).ok()?;
    let (number, _) = line.strip_prefix("steps ")?.split_once(' ')?;
    number.parse::<u64>().ok()
}

/// Returns the program's answer to words of `cost`, which needs no files.
fn answer_of_cost<P: Program>(
    alloc: Global,
    program: &P,
    words: &Vec<String>,
) -> Result<Answer, Failure> {
    let places = Places::new(alloc)?;
    plain_answer_to(alloc, program, words, &places)
}

/// Returns the number of steps in the program's answer to these words, or `None` if the answer has no number that fits in 64
/// bits.
fn steps<P: Program>(
    alloc: Global,
    program: &P,
    words: &Vec<String>,
) -> Result<Option<u64>, Failure> {
    let answer = answer_of_cost(alloc, program, words)?;
    Ok(steps_of(answer.out.bytes()))
}

/// A family that is shown, after it was read.
#[derive(Clone, Copy)]
struct Trial<'a> {
    shown: Shown<'a>,
    printed: Printed<'a>,
    family: &'a Family,
}

impl Trial<'_> {
    /// Adds the words of a call that asks what the text for this number costs.
    fn add_words(
        self,
        alloc: Global,
        times: u64,
        words: &mut Vec<String>,
    ) -> Result<(), AllocError> {
        let Printed { pattern, mode } = self.printed;
        for word in ["cost", "--mode", mode, "--", pattern] {
            add_word(alloc, word, words)?;
        }
        let text = self.family.text(alloc, times)?;
        words.push(text)?;
        Ok(())
    }

    /// Returns the number of steps that the text for this number costs.
    fn steps<P: Program>(
        self,
        alloc: Global,
        program: &P,
        times: u64,
    ) -> Result<Option<u64>, Failure> {
        let mut words = Vec::new(alloc);
        self.add_words(alloc, times, &mut words)?;
        steps(alloc, program, &words)
    }

    /// Tries the text for this number.
    fn judge_text<P: Program>(self, alloc: Global, program: &P, times: u64) -> Result<(), Failure> {
        let Shown { verdict, line } = self.shown;
        let least = self.family.least_steps(verdict, times);
        match self.steps(alloc, program, times)? {
            Some(steps) if steps >= least => Ok(()),
            _ => Err(Failure::of(format!(in alloc;
                "the text for {times} doesn't cost {least} steps: {line:?}"
            ))),
        }
    }

    /// Fails unless the family is one that shows the verdict.
    fn judge_form(self, alloc: Global) -> Result<(), Failure> {
        let Shown { verdict, line } = self.shown;
        let pumps = self.family.pumps();
        let degree = format!(in alloc; "degree {pumps}")?;
        if self.family.fits(verdict, degree.as_str()) {
            Ok(())
        } else {
            Err(Failure::of(format!(in alloc; "{verdict} isn't shown by {line:?}")))
        }
    }

    /// Fails unless the family shows the verdict, and its texts for the numbers from 0 to `greatest` cost enough.
    fn judge<P: Program>(self, alloc: Global, program: &P, greatest: u64) -> Result<(), Failure> {
        self.judge_form(alloc)?;
        for times in 0..=greatest {
            self.judge_text(alloc, program, times)?;
        }
        Ok(())
    }
}

/// Tries the texts of a family for all numbers up to the largest.
fn judge_family<P: Program>(
    alloc: Global,
    program: &P,
    shown: Shown<'_>,
    printed: Printed<'_>,
    greatest: u64,
) -> Result<(), Failure> {
    let family = Family::read(alloc, shown.line)?;
    let trial = Trial {
        shown,
        printed,
        family: &family,
    };
    trial.judge(alloc, program, greatest)
}

/// Returns the mode that the words name.
fn mode_of(words: &Vec<String>) -> &str {
    let mut is_next = false;
    for word in words {
        if is_next {
            return word.as_str();
        }
        is_next = word.as_str() == "--mode";
    }
    "fullmatch"
}

/// Fails unless the output of `class` without the line of its family is `wanted`, it shows one family, and the family's texts
/// for the numbers from 0 to `greatest` cost at least what the verdict says. `words` are the words of the call of `class`: the
/// pattern is the last one, and the mode is the one after `--mode`, or `fullmatch` if there is none.
pub fn judge_class<P: Program>(
    alloc: Global,
    program: &P,
    words: &Vec<String>,
    output: &[u8],
    wanted: &[u8],
    greatest: u64,
) -> Result<(), Failure> {
    let Some(pattern) = words.last() else {
        return judge_families(alloc, program, output, wanted, &[], greatest);
    };
    let printed = Printed {
        pattern: pattern.as_str(),
        mode: mode_of(words),
    };
    judge_families(alloc, program, output, wanted, &[printed], greatest)
}

/// Fails unless the report without the lines of families is `wanted`, it shows as many families as are given, and the texts of
/// each for the numbers from 0 to 6 cost at least what its verdict says. The families are given in order, each by its pattern
/// and its mode.
pub fn judge_report<P: Program>(
    alloc: Global,
    program: &P,
    output: &[u8],
    wanted: &[u8],
    families: &Vec<Printed<'_>>,
) -> Result<(), Failure> {
    judge_families(
        alloc,
        program,
        output,
        wanted,
        families.as_slice(),
        GREATEST,
    )
}

/// Tries each family that is shown.
fn judge_shown<P: Program>(
    alloc: Global,
    program: &P,
    shown: &[Shown<'_>],
    families: &[Printed<'_>],
    greatest: u64,
) -> Result<(), Failure> {
    for (place, shown) in shown.iter().enumerate() {
        if let Some(printed) = families.get(place) {
            judge_family(alloc, program, *shown, *printed, greatest)?;
        }
    }
    Ok(())
}

/// Compares an output without the lines of families, and tries each family.
fn judge_parted<P: Program>(
    alloc: Global,
    program: &P,
    parted: &Parted<'_>,
    wanted: &[u8],
    families: &[Printed<'_>],
    greatest: u64,
) -> Result<(), Failure> {
    let rest = parted.rest.as_bytes();
    same(alloc, "standard output without families", rest, wanted)?;
    let (shown, expected) = (parted.shown.len() as u64, families.len() as u64);
    same_number(alloc, "the number of families", shown, expected)?;
    judge_shown(alloc, program, parted.shown.as_slice(), families, greatest)
}

/// Compares an output in UTF-8 without the lines of families, and tries each family.
fn judge_text<P: Program>(
    alloc: Global,
    program: &P,
    output: &str,
    wanted: &[u8],
    families: &[Printed<'_>],
    greatest: u64,
) -> Result<(), Failure> {
    let mut parted = Parted {
        rest: String::new(alloc),
        shown: Vec::new(alloc),
    };
    match part(alloc, output, &mut parted) {
        Ok(()) => judge_parted(alloc, program, &parted, wanted, families, greatest),
        Err(_) => Err(Failure::OutOfMemory),
    }
}

/// Compares an output without the lines of families, and tries each family. An output that isn't UTF-8 fails.
fn judge_families<P: Program>(
    alloc: Global,
    program: &P,
    output: &[u8],
    wanted: &[u8],
    families: &[Printed<'_>],
    greatest: u64,
) -> Result<(), Failure> {
    match str::from_utf8(output) {
        Ok(output) => judge_text(alloc, program, output, wanted, families, greatest),
        Err(_) => Err(Failure::with_message(alloc, "standard output isn't UTF-8")),
    }
}
