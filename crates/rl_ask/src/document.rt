//! Answers as lines of JSON. The functions named `put_..` add members to an object.

ghost use Rattle.std.specs.Prelude.{◌≡◌, IfOk, IfSome, OnOk, codes, option_map};
ghost use Rattle.std.specs.String.{string_bytes};
ghost use Rattle.serde_json.specs.Data.{no_members, object, put, string};
ghost use Rattle.serde_json.specs.View.{members_view, view};
ghost use Rattle.rl_ranges.specs.Text.{IsText};
ghost use Rattle.rl_growth.specs.Texts.{HasTexts};
ghost use Rattle.rl_report.specs.Document.{family_data, put_some, verdict_members};
ghost use Rattle.rl_report.specs.Verdicts.{IsFamilyOf, IsVerdictOf, family_of};
ghost use Rattle.rl_asked.specs.Questions.{asked};
ghost use Rattle.rl_ask.specs.Answers.{IsTellable};
ghost use Rattle.rl_ask.specs.Comparisons.{AreTexts, relation_name};
ghost use Rattle.rl_ask.specs.Document.{answer_members, beyond_members, beyond_names, bound_members, bounds_members, class_members, compared_members, cost_members, difference_members, entry_members, error_members, error_text, fault_cause, fault_place, groups_data, least_data, limit_of, line_text, match_data, most_data, named, names_data, number_data, refusal_members, reply_text, shown_members, sight_data, steps_text, suggestion_members, universe_of, value_data, version_members, ways_members, which_members};
ghost use Rattle.rl_ask.specs.Sights.{limit_text};
ghost use Rattle.rl_ask.specs.Verdicts.{IsLeastOf, least_family};

use crate::answer::{Answer, Difference, Fault, Limit, Which};
use crate::beyond::Beyond;
use crate::limits::MOST_TEXT_CODES;
use crate::members::{
    Members, put_flag, put_number, put_quoted, put_some_number, put_some_quoted, put_spans,
    put_text, put_texts, put_value, span_value,
};
use crate::sights::{limit_text, sight_text};
use crate::version::VERSION;
use rl_asked::Question;
use rl_compare::Compared;
use rl_explained::put_ways as put_reading;
use rl_json::line_of;
use rl_lists::{Bytes, OutOfMemory};
use rl_machine::{Counted, Steps};
use rl_pattern::PatError;
use rl_reach::{AtLeast, Bounds};
use rl_report::{limit_name, limit_number, pattern_cause};
use rl_spans::Sight;
use rl_syntax::{Family, Limit as VerdictLimit, Suggestion, Universe, Verdict};
use rl_why::Explained;
use serde_json::{Map, Value, json};
use std::alloc::Global;

/// Returns the cause of a refusal.
fn fault_cause(fault: Fault) -> &'static str
    ensures { result.now ≡ fault_cause fault }
{
    match fault {
        Fault::NotBytes => "not-bytes",
        Fault::Pattern(error) => pattern_cause(error),
    }
}

/// Returns the position of a fault in its pattern, if it has one.
fn fault_place(fault: Fault) -> Option<u32>
    ensures { result ≡ fault_place fault }
{
    match fault {
        Fault::NotBytes => None,
        Fault::Pattern(error) => match error {
            PatError::Syntax(place) => Some(place),
            PatError::TooDeep(place) => Some(place),
            PatError::Outside(place, _) => Some(place),
            PatError::TooLong => None,
            PatError::OutOfMemory => None,
        },
    }
}

/// Adds which pattern is refused, if there are two.
fn put_which(alloc: Global, members: &mut Members, which: Which) -> Result<(), OutOfMemory>
    ensures { OnOk result (members_view members.new.entries ≡ which_members which (members_view members.old.entries)) }
{
    match which {
        Which::Only => Ok(()),
        Which::First => put_text(alloc, members, "pattern", "first"),
        Which::Second => put_text(alloc, members, "pattern", "second"),
    }
}

/// Adds the members of a refusal.
fn put_refusal(
    alloc: Global,
    members: &mut Members,
    which: Which,
    fault: Fault,
) -> Result<(), OutOfMemory>
    ensures { OnOk result (members_view members.old.entries ≡ no_members → members_view members.new.entries ≡ refusal_members which fault) }
{
    put_text(alloc, members, "answer", "refused")?;
    put_text(alloc, members, "cause", fault_cause(fault))?;
    put_some_number(alloc, members, "at", fault_place(fault))?;
    put_which(alloc, members, which)
}

/// Adds the members of an error.
fn put_error(alloc: Global, members: &mut Members, message: &str) -> Result<(), OutOfMemory>
    ensures { OnOk result (members_view members.old.entries ≡ no_members → members_view members.new.entries ≡ error_members message.now) }
{
    put_text(alloc, members, "answer", "error")?;
    put_text(alloc, members, "message", message)
}

/// Returns a family as an object: its heads and its pumps.
fn family_value(alloc: Global, family: &Family, universe: Universe) -> Result<Value, OutOfMemory>
    requires { IsFamilyOf universe family.now }
    ensures { IfOk result (λ v. view v ≡ family_data universe family.now) }
{
    let mut members = Map::new(alloc);
    let (heads, pumps) = (family.heads.as_slice(), family.pumps.as_slice());
    put_texts(alloc, &mut members, "heads", heads, universe)?;
    put_texts(alloc, &mut members, "pumps", pumps, universe)?;
    Ok(Value::Object(members))
}

/// Adds a family.
fn put_family(
    alloc: Global,
    members: &mut Members,
    family: &Family,
    universe: Universe,
) -> Result<(), OutOfMemory>
    requires { IsFamilyOf universe family.now }
    ensures { OnOk result (members_view members.new.entries ≡ put (codes "family") (family_data universe family.now) (members_view members.old.entries)) }
{
    let value = family_value(alloc, family, universe)?;
    put_value(alloc, members, "family", value)
}

/// Adds the family of a verdict, if it has one.
fn put_family_of(
    alloc: Global,
    members: &mut Members,
    universe: Universe,
    verdict: &Verdict,
) -> Result<(), OutOfMemory>
    requires { IsVerdictOf universe verdict.now }
    ensures { OnOk result (members_view members.new.entries ≡ put_some (codes "family") (family_data universe) (family_of verdict.now) (members_view members.old.entries)) }
{
    match verdict {
        Verdict::Degree(_, family) => put_family(alloc, members, family, universe),
        Verdict::Expo(family) => put_family(alloc, members, family, universe),
        Verdict::Undecided(_) => Ok(()),
    }
}

/// Adds an `undecided` verdict: its kind, and the name and the number of the limit.
fn put_exceeded(
    alloc: Global,
    members: &mut Members,
    limit: VerdictLimit,
    pairs: u32,
) -> Result<(), OutOfMemory>
    ensures { OnOk result (members_view members.new.entries ≡ verdict_members pairs (Verdict.Undecided limit) (members_view members.old.entries)) }
{
    put_text(alloc, members, "kind", "undecided")?;
    put_text(alloc, members, "limit", limit_name(limit))?;
    put_number(alloc, members, "over", limit_number(limit, pairs))
}

/// Adds a verdict: its kind and, depending on it, the degree, or the name and the number of the limit.
fn put_verdict(
    alloc: Global,
    members: &mut Members,
    pairs: u32,
    verdict: &Verdict,
) -> Result<(), OutOfMemory>
    ensures { OnOk result (members_view members.new.entries ≡ verdict_members pairs verdict.now (members_view members.old.entries)) }
{
    match verdict {
        Verdict::Degree(degree, _) => {
            put_text(alloc, members, "kind", "degree")?;
            put_number(alloc, members, "degree", *degree)
        }
        Verdict::Expo(_) => put_text(alloc, members, "kind", "exponential"),
        Verdict::Undecided(limit) => put_exceeded(alloc, members, *limit, pairs),
    }
}

/// Adds the members of a lower bound of the growth, all but its degree.
fn put_shown(
    alloc: Global,
    members: &mut Members,
    kind: &str,
    universe: Universe,
    family: &Family,
) -> Result<(), OutOfMemory>
    requires { IsFamilyOf universe family.now }
    ensures { OnOk result (members_view members.new.entries ≡ shown_members kind.now universe family.now (members_view members.old.entries)) }
{
    put_text(alloc, members, "kind", kind)?;
    put_family(alloc, members, family, universe)?;
    put_text(alloc, members, "law", "search-costs-its-match")
}

/// Adds the members of a lower bound of the growth to an object that has none.
fn put_least(
    alloc: Global,
    members: &mut Members,
    universe: Universe,
    least: &AtLeast,
) -> Result<(), OutOfMemory>
    requires { IsFamilyOf universe (least_family least.now) }
    ensures { OnOk result (members_view members.old.entries ≡ no_members → members_view members.new.entries ≡ bound_members universe least.now) }
{
    match least {
        AtLeast::Degree(degree, family) => {
            put_number(alloc, members, "degree", *degree)?;
            put_shown(alloc, members, "degree", universe, family)
        }
        AtLeast::Expo(family) => put_shown(alloc, members, "exponential", universe, family),
    }
}

/// Returns a lower bound of the growth as an object.
fn least_value(alloc: Global, universe: Universe, least: &AtLeast) -> Result<Value, OutOfMemory>
    requires { IsFamilyOf universe (least_family least.now) }
    ensures { IfOk result (λ v. view v ≡ least_data universe least.now) }
{
    let mut members = Map::new(alloc);
    put_least(alloc, &mut members, universe, least)?;
    Ok(Value::Object(members))
}

/// Returns an upper bound of the growth as an object.
fn most_value(alloc: Global, degree: u32) -> Result<Value, OutOfMemory>
    ensures { IfOk result (λ v. view v ≡ most_data degree) }
{
    let mut members = Map::new(alloc);
    put_number(alloc, &mut members, "degree", degree)?;
    put_text(alloc, &mut members, "law", "one-degree-more")?;
    Ok(Value::Object(members))
}

/// Adds the lower bound of the growth, if there is one.
fn put_some_least(
    alloc: Global,
    members: &mut Members,
    universe: Universe,
    least: &Option<AtLeast>,
) -> Result<(), OutOfMemory>
    requires { IfSome least.now (λ l. IsFamilyOf universe (least_family l)) }
    ensures { OnOk result (members_view members.new.entries ≡ put_some (codes "at-least") (least_data universe) least.now (members_view members.old.entries)) }
{
    match least {
        Some(least) => {
            let value = least_value(alloc, universe, least)?;
            put_value(alloc, members, "at-least", value)
        }
        None => Ok(()),
    }
}

/// Adds the upper bound of the growth, if there is one.
fn put_some_most(alloc: Global, members: &mut Members, most: Option<u32>) -> Result<(), OutOfMemory>
    ensures { OnOk result (members_view members.new.entries ≡ put_some (codes "at-most") most_data most (members_view members.old.entries)) }
{
    match most {
        Some(degree) => {
            let value = most_value(alloc, degree)?;
            put_value(alloc, members, "at-most", value)
        }
        None => Ok(()),
    }
}

/// Adds the bounds of the growth that there are.
fn put_bounds(
    alloc: Global,
    members: &mut Members,
    universe: Universe,
    bounds: &Bounds,
) -> Result<(), OutOfMemory>
    requires { IsLeastOf universe bounds.now }
    ensures { OnOk result (members_view members.new.entries ≡ bounds_members universe bounds.now (members_view members.old.entries)) }
{
    put_some_least(alloc, members, universe, &bounds.at_least)?;
    put_some_most(alloc, members, bounds.at_most)
}

/// Adds the members of an answer with the name that gives a verdict, and nothing beside it.
fn put_entry(
    alloc: Global,
    members: &mut Members,
    name: &str,
    universe: Universe,
    pairs: u32,
    verdict: &Verdict,
) -> Result<(), OutOfMemory>
    requires { IsVerdictOf universe verdict.now }
    ensures { OnOk result (members_view members.old.entries ≡ no_members → members_view members.new.entries ≡ entry_members name.now universe pairs verdict.now) }
{
    put_text(alloc, members, "answer", name)?;
    put_verdict(alloc, members, pairs, verdict)?;
    put_family_of(alloc, members, universe, verdict)
}

/// Adds the members of an answer that gives a verdict with bounds.
fn put_class(
    alloc: Global,
    members: &mut Members,
    universe: Universe,
    pairs: u32,
    verdict: &Verdict,
    bounds: &Bounds,
) -> Result<(), OutOfMemory>
    requires verdict { IsVerdictOf universe verdict.now }
    requires bounds { IsLeastOf universe bounds.now }
    ensures { OnOk result (members_view members.old.entries ≡ no_members → members_view members.new.entries ≡ class_members universe pairs verdict.now bounds.now) }
{
    put_entry(alloc, members, "class", universe, pairs, verdict)?;
    put_bounds(alloc, members, universe, bounds)
}

/// Adds the members of an answer that gives a verdict and how the pumps of its family are read.
fn put_ways(
    alloc: Global,
    members: &mut Members,
    universe: Universe,
    pairs: u32,
    explained: &Explained,
) -> Result<(), OutOfMemory>
    requires { HasTexts universe explained.now.verdict }
    ensures { OnOk result (members_view members.old.entries ≡ no_members → members_view members.new.entries ≡ ways_members universe pairs explained.now) }
{
    put_entry(alloc, members, "ways", universe, pairs, &explained.verdict)?;
    put_reading(alloc, members, universe, explained)
}

/// Returns how the texts are related that two patterns match, in the words of the action `compare`.
fn relation_name(alloc: Global, limit: u32, compared: &Compared) -> Result<String, OutOfMemory>
    ensures { IfOk result (λ name. string_bytes name ≡ relation_name limit compared.now) }
{
    let first = compared.first.is_some();
    let second = compared.second.is_some();
    if first && second && compared.both.is_some() {
        Ok(String::from_str(alloc, "overlapping")?)
    } else if compared.more {
        Ok(format!(in alloc; "passed over {limit}")?)
    } else if !first && !second {
        Ok(String::from_str(alloc, "equal")?)
    } else if !first {
        Ok(String::from_str(alloc, "included")?)
    } else if !second {
        Ok(String::from_str(alloc, "includes")?)
    } else {
        Ok(String::from_str(alloc, "disjoint")?)
    }
}

/// Adds the members of an answer that compares matched texts.
fn put_compared(
    alloc: Global,
    members: &mut Members,
    universe: Universe,
    limit: u32,
    compared: &Compared,
) -> Result<(), OutOfMemory>
    requires { AreTexts universe compared.now }
    ensures { OnOk result (members_view members.old.entries ≡ no_members → members_view members.new.entries ≡ compared_members universe limit compared.now) }
{
    let relation = relation_name(alloc, limit, compared)?;
    put_text(alloc, members, "answer", "compare")?;
    put_text(alloc, members, "relation", relation.as_str())?;
    put_flag(alloc, members, "more", compared.more)?;
    put_some_quoted(alloc, members, "first", &compared.first, universe)?;
    put_some_quoted(alloc, members, "second", &compared.second, universe)?;
    put_some_quoted(alloc, members, "both", &compared.both, universe)
}

/// Adds the members of an answer that gives a text on which two patterns differ.
fn put_difference(
    alloc: Global,
    members: &mut Members,
    universe: Universe,
    difference: &Difference,
) -> Result<(), OutOfMemory>
    requires { IsText universe difference.now.text }
    ensures { OnOk result (members_view members.old.entries ≡ no_members → members_view members.new.entries ≡ difference_members universe difference.now) }
{
    let first = sight_text(alloc, &difference.first)?;
    let second = sight_text(alloc, &difference.second)?;
    put_text(alloc, members, "answer", "differ")?;
    put_flag(alloc, members, "empty", !difference.advance)?;
    put_text(alloc, members, "first", first.as_str())?;
    put_number(alloc, members, "from", difference.from)?;
    put_text(alloc, members, "second", second.as_str())?;
    put_quoted(alloc, members, "text", &difference.text, universe)
}

/// Returns the value of a group: its span, or `null`.
fn group_value(alloc: Global, group: Option<(u32, u32)>) -> Result<Value, OutOfMemory>
    ensures { IfOk result (λ v. view v ≡ value_data group) }
{
    match group {
        Some((from, upto)) => span_value(alloc, from, upto),
        None => Ok(Value::Null),
    }
}

/// Returns the values of groups as a list.
fn groups_value(alloc: Global, groups: &[Option<(u32, u32)>]) -> Result<Value, OutOfMemory>
    ensures { IfOk result (λ v. view v ≡ groups_data groups.now) }
{
    let mut values = Vec::new(alloc);
    for index in 0..groups.len() {
        let value = group_value(alloc, groups[index])?;
        values.push(value)?;
    }
    Ok(Value::Array(values))
}

/// Returns the number of a group, or `null`.
fn number_value(number: Option<u32>) -> Value
    ensures { view result ≡ number_data number }
{
    match number {
        Some(number) => Value::from(number),
        None => Value::Null,
    }
}

/// Returns a match as an object.
fn match_value(alloc: Global, sight: &Sight) -> Result<Value, OutOfMemory>
    ensures { IfOk result (λ v. view v ≡ match_data sight.now) }
{
    let mut members = Map::new(alloc);
    let groups = groups_value(alloc, sight.groups.as_slice())?;
    put_number(alloc, &mut members, "start", sight.start)?;
    put_number(alloc, &mut members, "end", sight.end)?;
    put_value(alloc, &mut members, "groups", groups)?;
    put_value(alloc, &mut members, "last", number_value(sight.last))?;
    Ok(Value::Object(members))
}

/// Returns what a pattern finds: its match, or `null`.
fn sight_value(alloc: Global, sight: &Option<Sight>) -> Result<Value, OutOfMemory>
    ensures { IfOk result (λ v. view v ≡ sight_data sight.now) }
{
    match sight {
        Some(sight) => match_value(alloc, sight),
        None => Ok(Value::Null),
    }
}

/// Adds the members of an answer that says what a pattern finds.
fn put_found(alloc: Global, members: &mut Members, sight: &Option<Sight>) -> Result<(), OutOfMemory>
    ensures { OnOk result (members_view members.old.entries ≡ no_members → members_view members.new.entries ≡ put (codes "found") (sight_data sight.now) (named (codes "found"))) }
{
    let found = sight_value(alloc, sight)?;
    put_text(alloc, members, "answer", "found")?;
    put_value(alloc, members, "found", found)
}

/// Adds the members of an answer that gives a suggestion.
fn put_suggestion(
    alloc: Global,
    members: &mut Members,
    universe: Universe,
    suggestion: &Suggestion,
) -> Result<(), OutOfMemory>
    requires { IfSome suggestion.now.text (IsText universe) }
    ensures { OnOk result (members_view members.old.entries ≡ no_members → members_view members.new.entries ≡ suggestion_members universe suggestion.now) }
{
    put_text(alloc, members, "answer", "suggest")?;
    put_spans(alloc, members, "dropped", suggestion.dropped.as_slice())?;
    put_spans(alloc, members, "merged", suggestion.merged.as_slice())?;
    put_spans(alloc, members, "passed", suggestion.passed.as_slice())?;
    put_some_quoted(alloc, members, "text", &suggestion.text, universe)
}

/// Returns a number of steps in decimal. One of 2^128 or more isn't written out.
fn steps_text(alloc: Global, steps: Steps) -> Result<String, OutOfMemory>
    ensures { IfOk result (λ text. string_bytes text ≡ steps_text steps) }
{
    match steps {
        Steps::Exact(steps) => Ok(format!(in alloc; "{steps}")?),
        Steps::Past => Ok(String::from_str(alloc, "over 340282366920938463463374607431768211455")?),
    }
}

/// Adds the members of an answer that gives a number of steps.
fn put_cost(alloc: Global, members: &mut Members, counted: Counted) -> Result<(), OutOfMemory>
    ensures { OnOk result (members_view members.old.entries ≡ no_members → members_view members.new.entries ≡ cost_members counted) }
{
    let steps = steps_text(alloc, counted.steps)?;
    put_text(alloc, members, "answer", "cost")?;
    put_text(alloc, members, "steps", steps.as_str())?;
    put_flag(alloc, members, "matched", counted.matched)
}

/// Adds the members of an answer that gives the version.
fn put_version(alloc: Global, members: &mut Members) -> Result<(), OutOfMemory>
    ensures { OnOk result (members_view members.old.entries ≡ no_members → members_view members.new.entries ≡ version_members) }
{
    let asks = json!(in alloc; [
        "class", "compare", "cost", "found", "spans", "suggest", "tree", "ways"
    ])?;
    put_text(alloc, members, "answer", "version")?;
    put_value(alloc, members, "asks", asks)?;
    put_text(alloc, members, "version", VERSION)
}

/// Adds the members of an answer that names a limit.
fn put_limit(alloc: Global, members: &mut Members, limit: Limit) -> Result<(), OutOfMemory>
    ensures { OnOk result (members_view members.old.entries ≡ no_members → members_view members.new.entries ≡ put (codes "cause") (string (limit_text limit)) (named (codes "undecided"))) }
{
    let cause = limit_text(alloc, limit)?;
    put_text(alloc, members, "answer", "undecided")?;
    put_text(alloc, members, "cause", cause.as_str())
}

/// Returns the universe of the patterns of a question. A question without patterns has that of text patterns.
fn universe_of(question: Question) -> Universe
    ensures { result ≡ universe_of (asked question.entry) }
{
    match question {
        Question::Class { terms, .. } => terms.universe,
        Question::Ways { terms, .. } => terms.universe,
        Question::Tree { terms, .. } => terms.universe,
        Question::Compare { terms, .. } => terms.universe,
        Question::Spans { terms, .. } => terms.universe,
        Question::Found { terms, .. } => terms.universe,
        Question::Suggest { terms, .. } => terms.universe,
        Question::Cost { terms, .. } => terms.universe,
        Question::CostOfFamily { terms, .. } => terms.universe,
        Question::Version => Universe::Str,
    }
}

/// Returns the limit on pairs of a question. A question without one has 0.
fn limit_of(question: Question) -> u32
    ensures { result ≡ limit_of (asked question.entry) }
{
    match question {
        Question::Class { pairs, .. } => pairs,
        Question::Ways { pairs, .. } => pairs,
        Question::Compare { limit, .. } => limit,
        Question::Spans { limit, .. } => limit,
        Question::Suggest { pairs, .. } => pairs,
        _ => 0,
    }
}

/// Adds the members of an answer to an object that has none. A reply that is handed on isn't added.
fn put_answer(
    alloc: Global,
    members: &mut Members,
    universe: Universe,
    limit: u32,
    answer: &Answer,
) -> Result<(), OutOfMemory>
    requires { IsTellable universe answer.now }
    ensures { OnOk result (members_view members.old.entries ≡ no_members → members_view members.new.entries ≡ answer_members universe limit answer.now) }
{
    match answer {
        Answer::Refused { which, fault } => put_refusal(alloc, members, *which, *fault),
        Answer::Undecided(exceeded) => put_limit(alloc, members, *exceeded),
        Answer::Class { verdict, bounds } => {
            put_class(alloc, members, universe, limit, verdict, bounds)
        }
        Answer::Ways(explained) => put_ways(alloc, members, universe, limit, explained),
        Answer::Tree(_) => Ok(()),
        Answer::Compared(compared) => put_compared(alloc, members, universe, limit, compared),
        Answer::Same => put_text(alloc, members, "answer", "same"),
        Answer::Differ(difference) => put_difference(alloc, members, universe, difference),
        Answer::Exceeded => {
            put_text(alloc, members, "answer", "exceeded")?;
            put_number(alloc, members, "limit", limit)
        }
        Answer::Found(sight) => put_found(alloc, members, sight),
        Answer::Suggested(suggestion) => put_suggestion(alloc, members, universe, suggestion),
        Answer::Cost(counted) => put_cost(alloc, members, *counted),
        Answer::TextTooLong => {
            let message = format!(in alloc; "text over {MOST_TEXT_CODES} codes")?;
            put_error(alloc, members, message.as_str())
        }
        Answer::Version => put_version(alloc, members),
    }
}

/// Returns names of what is told beside an answer as a list, if there are some.
fn names_value(alloc: Global, told: Beyond) -> Result<Option<Value>, OutOfMemory>
    ensures { IfOk result (λ v. option_map view v ≡ names_data (beyond_names told)) }
{
    match (told.lookaround, told.inner_anchor) {
        (true, true) => Ok(Some(json!(in alloc; ["lookaround", "inner-anchor"])?)),
        (true, false) => Ok(Some(json!(in alloc; ["lookaround"])?)),
        (false, true) => Ok(Some(json!(in alloc; ["inner-anchor"])?)),
        (false, false) => Ok(None),
    }
}

/// Adds what is told beside an answer.
fn put_beyond(alloc: Global, members: &mut Members, told: Beyond) -> Result<(), OutOfMemory>
    ensures { OnOk result (members_view members.new.entries ≡ beyond_members told (members_view members.old.entries)) }
{
    match names_value(alloc, told)? {
        Some(names) => put_value(alloc, members, "beyond", names),
        None => Ok(()),
    }
}

/// Returns an answer, with what is told beside it, as a line with an object of JSON.
fn object_line(
    alloc: Global,
    universe: Universe,
    limit: u32,
    told: Beyond,
    answer: &Answer,
) -> Result<Bytes, OutOfMemory>
    requires { IsTellable universe answer.now }
    ensures { IfOk result (λ line. line ≡ line_text (object (beyond_members told (answer_members universe limit answer.now)))) }
{
    let mut members = Map::new(alloc);
    put_answer(alloc, &mut members, universe, limit, answer)?;
    put_beyond(alloc, &mut members, told)?;
    line_of(alloc, &Value::Object(members))
}

/// Returns an answer, with what is told beside it, as a line of JSON, with its line feed.
///
/// # Errors
/// [`OutOfMemory`] if there was no memory for it.
pub(crate) fn reply_line(
    alloc: Global,
    question: Question,
    told: Beyond,
    answer: &Answer,
) -> Result<Bytes, OutOfMemory>
    requires { IsTellable (universe_of (asked question)) answer.now }
    ensures { IfOk result (λ line. line ≡ reply_text (asked question.entry) told answer.now) }
{
    match answer {
        Answer::Tree(reply) => line_of(alloc, reply),
        _ => object_line(
            alloc,
            universe_of(question),
            limit_of(question),
            told,
            answer,
        ),
    }
}

/// Returns an error as a line of JSON, with its line feed.
///
/// # Errors
/// [`OutOfMemory`] if there was no memory for it.
pub(crate) fn error_line(alloc: Global, message: &str) -> Result<Bytes, OutOfMemory>
    ensures { IfOk result (λ line. line ≡ error_text message.now) }
{
    let mut members = Map::new(alloc);
    put_error(alloc, &mut members, message)?;
    line_of(alloc, &Value::Object(members))
}
