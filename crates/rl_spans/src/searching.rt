//! The search for a closed relation, breadth first. No promise rests on it: a relation that it finds is checked afterwards,
//! and on a text that it finds both sides are run.

ghost use Rattle.std.specs.Prelude.{◌<◌, length};
ghost use Rattle.rl_spans.specs.internal.Machines.{IsMachine};

use crate::canonical::{Named, key_of, named_anew};
use crate::checking::{begin_pair, keeps_end, keeps_last, tells_last_apart};
use crate::machine::{Machine, steps_on, stops_before};
use crate::relation::{Move, Row, SpanRelation};
use crate::shown::are_seen_alike;
use crate::side::Side;
use crate::stepping::StepError;
use crate::threads::copy_of_thread;
use indexmap::IndexSet;
use rl_lists::{Codes, Items, OutOfMemory};
use rl_marks::threads::{Origin, Thread, ThreadPair};
use std::alloc::Global;

/// How much work the search does at most for each pair of its limit, as [`work_of`] counts it.
const WORK_PER_PAIR: u64 = 8192;

/// How a pair was found: from which pair, on which code, and where the match began.
#[derive(Clone, Copy)]
struct Way {
    /// One more than the number of the pair before it; 0 if that is a pair at which a match begins.
    parent: u32,
    /// The code on which the pair before it leads to it.
    code: u32,
    /// The code before the start of the match; `None` if the match begins at the start of the text.
    before: Option<u32>,
    /// Whether the match may not be empty.
    advance: bool,
}

/// A text on which both sides should find different matches, and from where.
#[derive(Drop)]
pub(crate) struct Witness {
    /// The text.
    pub text: Codes,
    /// The position at which the match begins, counted in codes from 0.
    pub from: u32,
    /// Whether the match may not be empty.
    pub advance: bool,
}

/// The result of the search.
#[derive(Drop)]
pub(crate) enum Searched {
    /// A relation that should be closed. It holds each pair that was reached.
    Closed(SpanRelation),
    /// A text on which both sides should find different matches.
    Differs(Witness),
    /// More pairs than the limit are reached, or they are too much work.
    Exceeded,
}

/// At which end of the text both sides of a pair have found different things.
#[derive(Clone, Copy, PartialEq, Eq)]
enum Parting {
    /// Nowhere: they agree.
    Nowhere,
    /// If the text ends here.
    End,
    /// If the text ends behind one line feed more.
    LastLine,
}

/// The pair to which a step leads, with the names of its places in the step, and the code of the step.
#[derive(Drop)]
struct Onward {
    named: Named,
    code: u32,
}

/// The pairs that were reached so far, each once, by their numbers: their keys, the pairs themselves, and how each was found.
#[derive(Drop)]
struct Search {
    keys: IndexSet<Vec<u32>>,
    pairs: Items<ThreadPair>,
    ways: Items<Way>,
}

/// Returns the first code of the machine of which guards see the same as of this one, or the code itself if there is none.
fn kind_of(machine: &Machine, code: u32) -> u32
    requires { IsMachine machine.now }
{
    let wanted = machine.words.shown(Some(code));
    for other in machine.codes.as_slice() {
        let shown = machine.words.shown(Some(*other));
        if are_seen_alike(machine.looks.as_slice(), shown, wanted) {
            return *other;
        }
    }
    code
}

/// Returns at which end of the text both sides of a pair have found different things. `accepts` says whether a match may end
/// here.
fn parting_of(
    alloc: Global,
    machine: &Machine,
    accepts: bool,
    pair: &ThreadPair,
) -> Result<Parting, StepError>
    requires { IsMachine machine.now }
{
    let before = machine.words.shown(pair.before);
    if !keeps_end(alloc, machine, accepts, before, pair)? {
        return Ok(Parting::End);
    }
    if tells_last_apart(machine) && !keeps_last(alloc, machine, accepts, before, pair)? {
        return Ok(Parting::LastLine);
    }
    Ok(Parting::Nowhere)
}

/// Returns the pair to which the step of a pair leads on the letter with this index.
fn next_on(
    alloc: Global,
    machine: &Machine,
    accepts: bool,
    pair: &ThreadPair,
    letter: usize,
) -> Result<Onward, StepError>
    requires machine { IsMachine machine.now }
    requires letter { letter < length machine.now.codes }
{
    let code = machine.codes.as_slice()[letter];
    let tests = (
        machine.first.tests.as_slice()[letter].as_slice(),
        machine.second.tests.as_slice()[letter].as_slice(),
    );
    let stops = (
        stops_before(accepts, true, machine.first.ending),
        stops_before(accepts, true, machine.second.ending),
    );
    let before = machine.words.shown(pair.before);
    let steps = steps_on(alloc, machine, tests, stops, before, code, pair)?;
    let kind = kind_of(machine, code);
    let named = named_anew(
        alloc,
        steps.left.as_slice(),
        steps.right.as_slice(),
        steps.agree,
        Some(kind),
    )?;
    Ok(Onward { named, code })
}

/// Returns the pairs to which the steps of a pair lead, one for each letter in order.
fn next_of(
    alloc: Global,
    machine: &Machine,
    accepts: bool,
    pair: &ThreadPair,
) -> Result<Items<Onward>, StepError>
    requires { IsMachine machine.now }
{
    let mut list = Items::new(alloc);
    let count = machine.codes.len();
    for letter in 0..count {
        let next = next_on(alloc, machine, accepts, pair, letter)?;
        list.push(next)?;
    }
    Ok(list)
}

/// Adds a pair, unless it was reached before, and returns its number.
fn add(search: &mut Search, alloc: Global, pair: ThreadPair, way: Way) -> Result<u32, StepError> {
    let key = key_of(alloc, &pair)?;
    let Ok((number, is_new)) = search.keys.insert_full(key) else {
        return Err(StepError::OutOfMemory);
    };
    if is_new {
        search.pairs.push(pair)?;
        search.ways.push(way)?;
    }
    match u32::try_from(number) {
        Ok(place) => Ok(place),
        Err(_) => Err(StepError::Outside),
    }
}

/// Adds the pairs to which the steps of a pair lead, and returns the row of its moves. `parent`, `before` and `advance` are as
/// in [`Way`].
fn add_all(
    search: &mut Search,
    alloc: Global,
    list: Items<Onward>,
    parent: u32,
    before: Option<u32>,
    advance: bool,
) -> Result<Row, StepError> {
    let mut moves = Items::new(alloc);
    for next in list.into_vec() {
        let Onward { named, code } = next;
        let Named { pair, names } = named;
        let way = Way {
            parent,
            code,
            before,
            advance,
        };
        let number = add(search, alloc, pair, way)?;
        moves.push(Move {
            pair: number,
            names,
        })?;
    }
    Ok(Row { moves })
}

/// Returns the text that leads to a pair, from the code before the match on, with a line feed at its end if the sides part
/// behind one. `way` is `None` for a pair at which a match begins.
fn text_to(
    alloc: Global,
    ways: &[Way],
    way: Option<Way>,
    before: Option<u32>,
    parting: Parting,
) -> Result<Codes, OutOfMemory> {
    let mut codes: Vec<u32> = Vec::new(alloc);
    if parting == Parting::LastLine {
        codes.push(10)?;
    }
    let mut at = way;
    for _ in 0..ways.len() {
        if let Some(here) = at {
            codes.push(here.code)?;
            at = before_way(ways, here);
        }
    }
    if let Some(code) = before {
        codes.push(code)?;
    }
    codes.reverse();
    Ok(Items::from_vec(codes))
}

/// Returns how the pair before was found; `None` if that is a pair at which a match begins.
fn before_way(ways: &[Way], way: Way) -> Option<Way> {
    if way.parent == 0 {
        return None;
    }
    ways.get((way.parent - 1) as usize).copied()
}

/// Returns the text on which both sides part as the result of the search. The match begins behind the code `before`, if there
/// is one.
fn witness_at(
    alloc: Global,
    ways: &[Way],
    way: Option<Way>,
    before: Option<u32>,
    advance: bool,
    parting: Parting,
) -> Result<Searched, StepError> {
    let text = text_to(alloc, ways, way, before, parting)?;
    let from = if before.is_some() { 1 } else { 0 };
    Ok(Searched::Differs(Witness {
        text,
        from,
        advance,
    }))
}

/// What is found of a pair: the row of its moves if both sides agree, or otherwise where they part.
#[derive(Drop)]
enum Expanded {
    Moves(Row),
    Parts(Parting),
}

/// Looks at a pair. If both sides agree, adds the pairs to which its steps lead.
fn expand(
    search: &mut Search,
    alloc: Global,
    machine: &Machine,
    accepts: bool,
    pair: &ThreadPair,
    parent: u32,
    before: Option<u32>,
    advance: bool,
) -> Result<Expanded, StepError>
    requires { IsMachine machine.now }
{
    let parting = parting_of(alloc, machine, accepts, pair)?;
    if parting != Parting::Nowhere {
        return Ok(Expanded::Parts(parting));
    }
    let list = next_of(alloc, machine, accepts, pair)?;
    let row = add_all(search, alloc, list, parent, before, advance)?;
    Ok(Expanded::Moves(row))
}

/// Returns the places at which matches that are asked for from the origin begin: the start of a text, and behind each code of
/// the machine. From `TextStart` it is the start alone, with a match that may be empty.
fn begins_of(
    alloc: Global,
    machine: &Machine,
    origin: Origin,
) -> Result<Items<Begin>, OutOfMemory> {
    let mut list = Items::new(alloc);
    list.push(Begin {
        before: None,
        advance: false,
    })?;
    if origin == Origin::TextStart {
        return Ok(list);
    }
    list.push(Begin {
        before: None,
        advance: true,
    })?;
    for code in machine.codes.as_slice() {
        list.push(Begin {
            before: Some(*code),
            advance: false,
        })?;
        list.push(Begin {
            before: Some(*code),
            advance: true,
        })?;
    }
    Ok(list)
}

/// Where a match begins: behind a code, or at the start of the text if `before` is `None`. `advance` says that it may not be
/// empty.
#[derive(Clone, Copy)]
struct Begin {
    before: Option<u32>,
    advance: bool,
}

/// Returns a copy of the pair with this number, and how it was found, or `None` if no pair has it.
fn copy_at(
    alloc: Global,
    search: &Search,
    number: usize,
) -> Result<Option<(ThreadPair, Way)>, StepError> {
    let Some(pair) = search.pairs.as_slice().get(number) else {
        return Ok(None);
    };
    let Some(way) = search.ways.as_slice().get(number) else {
        return Ok(None);
    };
    let left = copy_of_threads(alloc, pair.left.as_slice())?;
    let right = copy_of_threads(alloc, pair.right.as_slice())?;
    let copy = ThreadPair {
        left,
        right,
        agree: pair.agree,
        before: pair.before,
    };
    Ok(Some((copy, *way)))
}

/// Returns a copy of a list of threads.
fn copy_of_threads(alloc: Global, threads: &[Thread]) -> Result<Items<Thread>, OutOfMemory> {
    let mut list = Items::new(alloc);
    for thread in threads {
        let copy = copy_of_thread(alloc, thread)?;
        list.push(copy)?;
    }
    Ok(list)
}

/// Looks at the pairs at which a match begins, in order. Returns their rows, or the text on which both sides of one part.
fn begin_all(
    search: &mut Search,
    alloc: Global,
    machine: &Machine,
    begins: &[Begin],
) -> Result<Begun, StepError>
    requires { IsMachine machine.now }
{
    let mut rows = Items::new(alloc);
    for begin in begins {
        let pair = begin_pair(alloc, begin.before)?;
        let found = expand(
            search,
            alloc,
            machine,
            !begin.advance,
            &pair,
            0,
            begin.before,
            begin.advance,
        )?;
        match found {
            Expanded::Moves(row) => rows.push(row)?,
            Expanded::Parts(parting) => {
                let text = witness_at(alloc, &[], None, begin.before, begin.advance, parting)?;
                return Ok(Begun::Ends(text));
            }
        }
    }
    Ok(Begun::Rows(rows))
}

/// The rows of the pairs at which a match begins, or the result of the search if it ends with one of them.
#[derive(Drop)]
enum Begun {
    Rows(Items<Row>),
    Ends(Searched),
}

/// Returns how much work the step of a side on one letter is: the items of its threads, times the threads over 64 and one
/// more, since the new threads are compared with one another. A number that is too great becomes the greatest one.
fn side_work(side: &Side, threads: &[Thread]) -> u64 {
    let mut items: u64 = 0;
    for thread in threads {
        if let Some(row) = side.rows.as_slice().get(thread.state as usize) {
            items = items.saturating_add(row.len() as u64);
        }
    }
    let rounds = (threads.len() as u64 / 64).saturating_add(1);
    items.saturating_mul(rounds)
}

/// Returns how much work the steps of a pair are: the work of both sides on one letter, times the letters.
fn work_of(machine: &Machine, pair: &ThreadPair) -> u64 {
    let left = side_work(&machine.first, pair.left.as_slice());
    let right = side_work(&machine.second, pair.right.as_slice());
    let letters = machine.codes.len() as u64;
    left.saturating_add(right).saturating_mul(letters)
}

/// Searches for a closed relation: for all pairs that are reached from those at which a match begins. The result is
/// [`Searched::Exceeded`] if more than `limit` pairs are reached, or if
/// the pairs are more work than [`WORK_PER_PAIR`] times the limit.
///
/// # Errors
/// [`StepError::Outside`] if a name or a number doesn't fit into 32 bits, [`StepError::OutOfMemory`] if there was no memory.
pub(crate) fn find_relation(
    alloc: Global,
    machine: &Machine,
    origin: Origin,
    limit: u32,
) -> Result<Searched, StepError>
    requires { IsMachine machine.now }
{
    let mut search = Search {
        keys: IndexSet::new(alloc),
        pairs: Items::new(alloc),
        ways: Items::new(alloc),
    };
    let begins = begins_of(alloc, machine, origin)?;
    let begins = match begin_all(&mut search, alloc, machine, begins.as_slice())? {
        Begun::Rows(rows) => rows,
        Begun::Ends(found) => return Ok(found),
    };
    let mut rows = Items::new(alloc);
    let most = u64::from(limit).saturating_mul(WORK_PER_PAIR);
    let mut work: u64 = 0;
    for number in 0..limit {
        let Some((pair, way)) = copy_at(alloc, &search, number as usize)? else {
            return Ok(Searched::Closed(SpanRelation {
                pairs: search.pairs,
                rows,
                begins,
            }));
        };
        work = work.saturating_add(work_of(machine, &pair));
        if search.pairs.len() > limit as usize || work > most {
            return Ok(Searched::Exceeded);
        }
        let found = expand(
            &mut search,
            alloc,
            machine,
            true,
            &pair,
            number.saturating_add(1),
            way.before,
            way.advance,
        )?;
        match found {
            Expanded::Moves(row) => rows.push(row)?,
            Expanded::Parts(parting) => {
                return witness_at(
                    alloc,
                    search.ways.as_slice(),
                    Some(way),
                    way.before,
                    way.advance,
                    parting,
                );
            }
        }
    }
    if search.pairs.len() <= limit as usize {
        return Ok(Searched::Closed(SpanRelation {
            pairs: search.pairs,
            rows,
            begins,
        }));
    }
    Ok(Searched::Exceeded)
}
