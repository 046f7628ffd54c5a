// Reads a query text by recursive descent.

ghost use Rattle.std.specs.Prelude.{◌++◌, ◌∷◌, map, ◌≡◌, ◌||◌, nat_lt, ◌≢◌, ◌<◌, ◌≤◌, ◌+◌, ◌⊎◌, ◌↔◌, ℕ, Bool, false, true, length, drop, List, [], Ok, Err, OnOk, IfOk, IfErr, IsTrue, slice_index, slice_range, MatchResult, Option, Some, None};
ghost use Rattle.query_reader.specs.Kinds.{kind_of, StandsAt, said, ends_word, begins_word, names_set};
ghost use Rattle.query_reader.specs.Tree.{Tree, Leaf, And, Or, view, no_trees, behind, trees_after, and_tree, or_tree};
ghost use Rattle.query_reader.specs.Machine.{Frame, Role, First, Fielded, run, reads, state, word, Want, After, InQuote, Behind, fresh, with_operand, from_operand};
ghost use Rattle.query_reader.specs.Reading.{next_run, IsNext, IsOperatorEnd, IsScanned, quote_rest, behind_rest, spaced_rest, in_rest, set_rest, range_rest, word_rest, word_said, BeginsNoSet, IsSetOpening, role_for, special_rest, letter_rest, operand_rest, negated_rest, sunk_word_rest, group_rest, OnFault, Arrives, Reads, ReadsGroup, members};
ghost use Rattle.query_reader.specs.declared.kind.Kind.TheVariants.{Blank, Open, Close, Colon, Plain, Escape};
ghost use Rattle.query_reader.specs.declared.kind.Said.TheVariants.{SaidWord, SaidNot};
ghost use Rattle.query_reader.specs.declared.fault.Fault.TheVariants.{Syntax};
ghost use Rattle.query_reader.specs.Asking.{Within};
ghost use Rattle.query_reader.specs.Machine.{member};
ghost use Rattle.query_reader.specs.declared.special.Member.{Member};

use crate::fault::{Fault, QuerySyntaxError};
use crate::kind::{Kind, Said, byte_kind, is_in, what_is_said};
use crate::scan::{Scan, is_at, quote_end, scan_word, skip_blanks, stands};
use crate::special::{Member, RangeMode, RangeStep, Ranged, Spot, end_range, step_range};
use crate::tree::{Ask, Clause, Raw, Span};
use std::alloc::Global;
use std::mem;

/// How many brackets, `NOT`s and signs may stand one in another.
const LIMIT: usize = 64;

/// An operand, the place behind it, and whether another may begin right there.
#[derive(Drop)]
pub struct Operand {
    pub raw: Raw,
    pub end: usize,
    pub free: bool,
}

/// What comes behind an operand: the end, or another operand.
#[derive(Clone, Copy)]
pub enum Next {
    End(usize),
    And(usize),
    Or(usize),
}

/// Whether white space or an opening bracket stands at the place.
fn ends_operator(text: &[u8], at: usize) -> bool
    ensures { IsTrue result ↔ IsOperatorEnd text.now at }
{
    at < text.len() && (stands(text, at, Kind::Blank) || stands(text, at, Kind::Open))
}

/// What comes at a place where an operator or an operand may begin.
fn joined(text: &[u8], at: usize) -> Next
    requires within { at < length text.now }
    requires no_blank { kind_of (slice_index text.now at) ≢ Blank }
    requires no_close { kind_of (slice_index text.now at) ≢ Close }
    ensures next { IsNext text.now at result }
    ensures reads { (f : Frame) (fs : List Frame) → run at (state (After true) f fs) (drop at text.now) ≡ next_run text.now result f fs }
{
    match byte_kind(text[at]) {
        Kind::Plain | Kind::Angle | Kind::Escape => joined_word(text, at),
        _ => Next::And(at),
    }
}

/// The same where a word begins.
fn joined_word(text: &[u8], at: usize) -> Next
    requires within { at < length text.now }
    requires begins { begins_word (kind_of (slice_index text.now at)) ≡ true }
    ensures next { IsNext text.now at result }
    ensures reads { (f : Frame) (fs : List Frame) → run at (state (After true) f fs) (drop at text.now) ≡ next_run text.now result f fs }
{
    let scan = scan_word(text, at);
    if !ends_operator(text, scan.to) {
        return Next::And(at);
    }
    match what_is_said(scan.plain, &text[at..scan.to]) {
        Said::SaidAnd => Next::And(skip_blanks(text, scan.to)),
        Said::SaidOr => Next::Or(skip_blanks(text, scan.to)),
        _ => Next::And(at),
    }
}

/// What comes behind an operand that ends at the place.
fn what_follows(text: &[u8], at: usize, free: bool) -> Result<Next, Fault>
    requires { at ≤ length text.now }
    ensures next { IfOk result (λ n. IsNext text.now at n) }
    ensures reads { IfOk result (λ n. (f : Frame) (fs : List Frame) → run at (state (After free) f fs) (drop at text.now) ≡ next_run text.now n f fs) }
    ensures fault { IfErr result (λ e. (f : Frame) (fs : List Frame) → run at (state (After free) f fs) (drop at text.now) ≡ Err e) }
{
    let place = skip_blanks(text, at);
    if place >= text.len() {
        return Ok(Next::End(place));
    }
    if is_at(text, place, Kind::Close) {
        return Ok(Next::End(place));
    }
    if is_free(free, at, place) {
        return Ok(joined(text, place));
    }
    if is_at(text, place, Kind::Open) {
        return Ok(joined(text, place));
    }
    Err(Fault::Syntax { at: place })
}

/// Whether an operand may begin at once, or white space stood before the place.
fn is_free(free: bool, at: usize, place: usize) -> bool
    ensures { result ≡ (free || nat_lt at place) }
{
    free || at < place
}

/// A quote whose first byte stands at `from`, behind its quotation mark.
fn quoted(text: &[u8], field: Option<Span>, from: usize) -> Result<Operand, QuerySyntaxError>
    requires { from ≤ length text.now }
    ensures end { IfOk result (λ o. (from < o.end) × (o.end ≤ length text.now)) }
    ensures read { Reads text.now (quote_rest text.now (role_for field) from) result }
{
    match quote_end(text, from) {
        Err(at) => Err(QuerySyntaxError::Refused(Fault::Syntax { at })),
        Ok(to) => Ok(Operand {
            raw: Raw::Leaf(Clause {
                field,
                ask: Ask::Quoted(Span { from, to }),
            }),
            end: to + 1,
            free: false,
        }),
    }
}

/// A word that is no operator, with the star behind it if there is one.
fn plain_word(text: &[u8], field: Option<Span>, from: usize, scan: Scan) -> Operand
    requires scanned { IsScanned text.now from scan }
    requires said { word_said text.now from scan ≡ SaidWord }
    requires no_colon { scan.to < length text.now → kind_of (slice_index text.now scan.to) ≢ Colon }
    requires no_set { BeginsNoSet text.now field from scan }
    ensures end { (from < result.end) × (result.end ≤ length text.now) }
    ensures read { Arrives text.now (word_rest text.now (role_for field) from scan) result }
{
    let span = Span { from, to: scan.to };
    if is_at(text, scan.to, Kind::Star) {
        Operand {
            raw: Raw::Leaf(Clause {
                field,
                ask: Ask::Prefix(span),
            }),
            end: scan.to + 1,
            free: false,
        }
    } else {
        Operand {
            raw: Raw::Leaf(Clause {
                field,
                ask: Ask::Word(span),
            }),
            end: scan.to,
            free: false,
        }
    }
}

/// A range or a comparison of a field, as an operand that ends before `end`.
fn edged(field: Span, from: usize, range: Ranged, end: usize, free: bool) -> Operand
    ensures raw { view result.raw ≡ Leaf (Some field) (Within from range) }
    ensures end { result.end ≡ end }
    ensures free { result.free ≡ free }
{
    Operand {
        raw: Raw::Leaf(Clause {
            field: Some(field),
            ask: Ask::Within(from, range),
        }),
        end,
        free,
    }
}

/// A range or a comparison, which began at `from`, behind its first byte.
fn ranged(
    text: &[u8],
    field: Span,
    from: usize,
    first: RangeMode,
    start: usize,
) -> Result<Operand, QuerySyntaxError>
    requires behind { from < start }
    requires within { start ≤ length text.now }
    ensures end { IfOk result (λ o. (from < o.end) × (o.end ≤ length text.now)) }
    ensures read { Reads text.now (range_rest text.now field from first start) result }
{
    let mut mode = first;
    let mut at = start;
    while at < text.len() {
        match step_range(mode, at, text[at], byte_kind(text[at])) {
            RangeStep::More(next) => mode = next,
            RangeStep::Done(range) => return Ok(edged(field, from, range, at + 1, true)),
            RangeStep::Ended(range) => return Ok(edged(field, from, range, at + 1, false)),
            RangeStep::Before(range) => return Ok(edged(field, from, range, at, false)),
            RangeStep::Refused => return Err(QuerySyntaxError::Refused(Fault::Syntax { at })),
        }
        at += 1;
    }
    match end_range(mode, at) {
        Some(range) => Ok(edged(field, from, range, at, false)),
        None => Err(QuerySyntaxError::Refused(Fault::Syntax { at })),
    }
}

/// The members of a set, whose `IN` stands at `from`, behind its bracket.
fn set(
    alloc: Global,
    text: &[u8],
    field: Span,
    from: usize,
    start: usize,
) -> Result<Operand, QuerySyntaxError>
    requires behind { from < start }
    requires within { start ≤ length text.now }
    ensures end { IfOk result (λ o. (from < o.end) × (o.end ≤ length text.now)) }
    ensures read { Reads text.now (set_rest text.now field from [] start) result }
{
    let mut members = Vec::new(alloc);
    let mut at = start;
    'members: loop {
        let place = skip_blanks(text, at);
        if place >= text.len() {
            return Err(QuerySyntaxError::Refused(Fault::Syntax { at: place }));
        }
        match byte_kind(text[place]) {
            Kind::SquareClose => {
                return Ok(Operand {
                    raw: Raw::Leaf(Clause {
                        field: Some(field),
                        ask: Ask::OneOf(from, members),
                    }),
                    end: place + 1,
                    free: true,
                });
            }
            Kind::Quote => match quote_end(text, place + 1) {
                Err(fault) => return Err(QuerySyntaxError::Refused(Fault::Syntax { at: fault })),
                Ok(to) => {
                    members.push(Member {
                        place: Span {
                            from: place + 1,
                            to,
                        },
                        quoted: true,
                    })?;
                    at = to + 1;
                }
            },
            Kind::Plain | Kind::Angle | Kind::Escape => match set_word(text, place) {
                Err(fault) => return Err(QuerySyntaxError::Refused(Fault::Syntax { at: fault })),
                Ok(to) => {
                    members.push(Member {
                        place: Span { from: place, to },
                        quoted: false,
                    })?;
                    at = to;
                }
            },
            _ => return Err(QuerySyntaxError::Refused(Fault::Syntax { at: place })),
        }
    }
}

/// Where the word ends that begins at the place in a set, or the place of its fault.
fn set_word(text: &[u8], from: usize) -> Result<usize, usize>
    requires within { from < length text.now }
    requires begins { begins_word (kind_of (slice_index text.now from)) ≡ true }
    ensures { MatchResult result
        (λ to. (from < to) × (to ≤ length text.now) × ((field : Span) (n : ℕ) (ms : List Member) (f : Frame) (fs : List Frame) →
        set_rest text.now field n ms from f fs ≡ set_rest text.now field n (ms ++ member from to false ∷ []) to f fs))
        (λ at. (field : Span) (n : ℕ) (ms : List Member) (f : Frame) (fs : List Frame) → set_rest text.now field n ms from f fs ≡ Err (Syntax at)) }
{
    let scan = scan_word(text, from);
    if scan.escaped {
        return Err(scan.to);
    }
    match what_is_said(scan.plain, &text[from..scan.to]) {
        Said::SaidWord => Ok(scan.to),
        _ => Err(scan.to),
    }
}

/// What stands behind an `IN`, which stands at `from`: a set.
fn behind_in(
    alloc: Global,
    text: &[u8],
    field: Span,
    from: usize,
    at: usize,
) -> Result<Operand, QuerySyntaxError>
    requires behind { from < at }
    requires within { at ≤ length text.now }
    ensures end { IfOk result (λ o. (from < o.end) × (o.end ≤ length text.now)) }
    ensures read { Reads text.now (in_rest text.now field from at) result }
{
    let place = skip_blanks(text, at);
    if is_at(text, place, Kind::SquareOpen) {
        set(alloc, text, field, from, place + 1)
    } else {
        Err(QuerySyntaxError::Refused(Fault::Syntax { at: place }))
    }
}

/// A question for any value, a range or a comparison that begins at the place.
fn special(text: &[u8], field: Span, at: usize) -> Result<Operand, QuerySyntaxError>
    requires { at < length text.now }
    ensures end { IfOk result (λ o. (at < o.end) × (o.end ≤ length text.now)) }
    ensures read { Reads text.now (special_rest text.now field at) result }
{
    match byte_kind(text[at]) {
        Kind::Star => Ok(Operand {
            raw: Raw::Leaf(Clause {
                field: Some(field),
                ask: Ask::Any,
            }),
            end: at + 1,
            free: false,
        }),
        Kind::SquareOpen => ranged(text, field, at, RangeMode::Wanted(Spot::Low(true)), at + 1),
        Kind::CurlyOpen => ranged(text, field, at, RangeMode::Wanted(Spot::Low(false)), at + 1),
        Kind::Angle => ranged(text, field, at, RangeMode::Sign(text[at] == b'>'), at + 1),
        _ => Err(QuerySyntaxError::Refused(Fault::Syntax { at })),
    }
}

/// What stands behind a field, its colon and white space.
fn spaced(alloc: Global, text: &[u8], field: Span, from: usize) -> Result<Operand, QuerySyntaxError>
    requires { from ≤ length text.now }
    ensures end { IfOk result (λ o. (from < o.end) × (o.end ≤ length text.now)) }
    ensures read { Reads text.now (spaced_rest text.now field from) result }
{
    let at = skip_blanks(text, from);
    if at >= text.len() {
        return Err(QuerySyntaxError::Refused(Fault::Syntax { at }));
    }
    if !stands(text, at, Kind::Plain) {
        return special(text, field, at);
    }
    if text[at] == b'I' {
        letter_n(alloc, text, field, at)
    } else {
        Err(QuerySyntaxError::Refused(Fault::Syntax { at }))
    }
}

/// What stands behind the `I` of an `IN`.
fn letter_n(
    alloc: Global,
    text: &[u8],
    field: Span,
    from: usize,
) -> Result<Operand, QuerySyntaxError>
    requires { from < length text.now }
    ensures end { IfOk result (λ o. (from < o.end) × (o.end ≤ length text.now)) }
    ensures read { Reads text.now (letter_rest text.now field from (from + 1)) result }
{
    let at = from + 1;
    if at >= text.len() {
        return Err(QuerySyntaxError::Refused(Fault::Syntax { at }));
    }
    if text[at] == b'N' {
        behind_in(alloc, text, field, from, at + 1)
    } else {
        Err(QuerySyntaxError::Refused(Fault::Syntax { at }))
    }
}

/// What is asked of a field, behind its colon.
fn fielded(alloc: Global, text: &[u8], field: Span, at: usize) -> Result<Operand, QuerySyntaxError>
    requires { at ≤ length text.now }
    ensures end { IfOk result (λ o. (at < o.end) × (o.end ≤ length text.now)) }
    ensures read { Reads text.now (behind_rest text.now field at) result }
{
    if at >= text.len() {
        return Err(QuerySyntaxError::Refused(Fault::Syntax { at }));
    }
    match byte_kind(text[at]) {
        Kind::Quote => quoted(text, Some(field), at + 1),
        Kind::Blank => spaced(alloc, text, field, at + 1),
        Kind::Plain | Kind::Escape => fielded_word(alloc, text, field, at),
        _ => special(text, field, at),
    }
}

fn fielded_word(
    alloc: Global,
    text: &[u8],
    field: Span,
    at: usize,
) -> Result<Operand, QuerySyntaxError>
    requires within { at < length text.now }
    requires begins { (kind_of (slice_index text.now at) ≡ Plain) ⊎ (kind_of (slice_index text.now at) ≡ Escape) }
    ensures end { IfOk result (λ o. (at < o.end) × (o.end ≤ length text.now)) }
    ensures read { Reads text.now (behind_rest text.now field at) result }
{
    let scan = scan_word(text, at);
    if scan.escaped {
        return Err(QuerySyntaxError::Refused(Fault::Syntax { at: scan.to }));
    }
    match what_is_said(scan.plain, &text[at..scan.to]) {
        Said::SaidWord => said_word(alloc, text, field, at, scan),
        _ => Err(QuerySyntaxError::Refused(Fault::Syntax { at: scan.to })),
    }
}

/// A word behind a field that is no operator, or the `IN` of a set.
fn said_word(
    alloc: Global,
    text: &[u8],
    field: Span,
    from: usize,
    scan: Scan,
) -> Result<Operand, QuerySyntaxError>
    requires scanned { IsScanned text.now from scan }
    requires said { word_said text.now from scan ≡ SaidWord }
    ensures end { IfOk result (λ o. (from < o.end) × (o.end ≤ length text.now)) }
    ensures read { Reads text.now (word_rest text.now (Fielded field) from scan) result }
{
    if is_at(text, scan.to, Kind::Colon) {
        return Err(QuerySyntaxError::Refused(Fault::Syntax { at: scan.to }));
    }
    if is_in(&text[from..scan.to]) && opens_set(text, scan.to) {
        return behind_in(alloc, text, field, from, scan.to);
    }
    Ok(plain_word(text, Some(field), from, scan))
}

/// Whether white space or an opening square bracket stands at the place.
fn opens_set(text: &[u8], at: usize) -> bool
    ensures { IsTrue result ↔ IsSetOpening text.now at }
{
    at < text.len() && (stands(text, at, Kind::Blank) || stands(text, at, Kind::SquareOpen))
}

/// A word that is no operator, or a field with what is asked of it.
fn named(alloc: Global, text: &[u8], from: usize, scan: Scan) -> Result<Operand, QuerySyntaxError>
    requires scanned { IsScanned text.now from scan }
    requires said { word_said text.now from scan ≡ SaidWord }
    ensures end { IfOk result (λ o. (from < o.end) × (o.end ≤ length text.now)) }
    ensures read { Reads text.now (word_rest text.now First from scan) result }
{
    if is_at(text, scan.to, Kind::Colon) {
        fielded(alloc, text, Span { from, to: scan.to }, scan.to + 1)
    } else {
        Ok(plain_word(text, None, from, scan))
    }
}

/// The operand that begins at the place, `depth` brackets, `NOT`s and signs deep.
#[cycle(reader)]
fn operand_at(
    alloc: Global,
    text: &[u8],
    at: usize,
    depth: usize,
) -> Result<Operand, QuerySyntaxError>
    requires within { at ≤ length text.now }
    requires depth { depth ≤ 64 }
    ensures end { IfOk result (λ o. (at < o.end) × (o.end ≤ length text.now)) }
    ensures read { Reads text.now (operand_rest text.now depth at) result }
{
    if at >= text.len() {
        return Err(QuerySyntaxError::Refused(Fault::Syntax { at }));
    }
    match byte_kind(text[at]) {
        Kind::Plain | Kind::Angle | Kind::Escape => word_operand(alloc, text, at, depth),
        Kind::Quote => quoted(text, None, at + 1),
        Kind::Star => Ok(Operand {
            raw: Raw::Leaf(Clause {
                field: None,
                ask: Ask::Any,
            }),
            end: at + 1,
            free: false,
        }),
        Kind::Open => bracket(alloc, text, at, depth),
        Kind::Plus => {
            if depth < LIMIT {
                operand_at(alloc, text, at + 1, depth + 1)
            } else {
                Err(QuerySyntaxError::Refused(Fault::TooDeep { at }))
            }
        }
        Kind::Minus => {
            if depth < LIMIT {
                negated_operand(alloc, text, at + 1, depth + 1)
            } else {
                Err(QuerySyntaxError::Refused(Fault::TooDeep { at }))
            }
        }
        _ => Err(QuerySyntaxError::Refused(Fault::Syntax { at })),
    }
}

/// The operand that begins at the place, negated.
#[cycle(reader)]
fn negated_operand(
    alloc: Global,
    text: &[u8],
    at: usize,
    depth: usize,
) -> Result<Operand, QuerySyntaxError>
    requires within { at ≤ length text.now }
    requires depth { depth ≤ 64 }
    ensures end { IfOk result (λ o. (at < o.end) × (o.end ≤ length text.now)) }
    ensures read { Reads text.now (negated_rest text.now depth at) result }
{
    let inner = operand_at(alloc, text, at, depth)?;
    let raw = Raw::Not(Box::new(alloc, inner.raw)?);
    Ok(Operand {
        raw,
        end: inner.end,
        free: inner.free,
    })
}

/// An operand whose first byte begins a word.
#[cycle(reader)]
fn word_operand(
    alloc: Global,
    text: &[u8],
    at: usize,
    depth: usize,
) -> Result<Operand, QuerySyntaxError>
    requires within { at < length text.now }
    requires begins { begins_word (kind_of (slice_index text.now at)) ≡ true }
    requires depth { depth ≤ 64 }
    ensures end { IfOk result (λ o. (at < o.end) × (o.end ≤ length text.now)) }
    ensures read { Reads text.now (operand_rest text.now depth at) result }
{
    let scan = scan_word(text, at);
    if scan.escaped {
        return Err(QuerySyntaxError::Refused(Fault::Syntax { at: scan.to }));
    }
    match what_is_said(scan.plain, &text[at..scan.to]) {
        Said::SaidWord => named(alloc, text, at, scan),
        Said::SaidNot => negation(alloc, text, at, scan, depth),
        _ => Err(QuerySyntaxError::Refused(Fault::Syntax { at: scan.to })),
    }
}

/// What follows the `NOT` that stands at `from`.
#[cycle(reader)]
fn negation(
    alloc: Global,
    text: &[u8],
    from: usize,
    scan: Scan,
    depth: usize,
) -> Result<Operand, QuerySyntaxError>
    requires scanned { IsScanned text.now from scan }
    requires said { word_said text.now from scan ≡ SaidNot }
    requires depth { depth ≤ 64 }
    ensures end { IfOk result (λ o. (from < o.end) × (o.end ≤ length text.now)) }
    ensures read { Reads text.now (sunk_word_rest text.now depth from scan) result }
{
    if depth >= LIMIT {
        return Err(QuerySyntaxError::Refused(Fault::TooDeep { at: from }));
    }
    if ends_operator(text, scan.to) {
        negated_operand(alloc, text, skip_blanks(text, scan.to), depth + 1)
    } else {
        Err(QuerySyntaxError::Refused(Fault::Syntax { at: scan.to }))
    }
}

/// The bracket that opens at the place.
#[cycle(reader)]
fn bracket(alloc: Global, text: &[u8], at: usize, depth: usize) -> Result<Operand, QuerySyntaxError>
    requires open { StandsAt text.now at Open }
    requires depth { depth ≤ 64 }
    ensures end { IfOk result (λ o. (at < o.end) × (o.end ≤ length text.now)) }
    ensures read { Reads text.now (operand_rest text.now depth at) result }
{
    if depth >= LIMIT {
        return Err(QuerySyntaxError::Refused(Fault::TooDeep { at }));
    }
    let inner = group(alloc, text, at + 1, depth + 1)?;
    if inner.end < text.len() {
        let raw = Raw::Group(Box::new(alloc, inner.raw)?);
        Ok(Operand {
            raw,
            end: inner.end + 1,
            free: true,
        })
    } else {
        Err(QuerySyntaxError::Refused(Fault::Syntax { at: inner.end }))
    }
}

/// What stands between two brackets, or in the whole text: operands joined by `AND` and `OR`.
#[cycle(reader)]
fn group(alloc: Global, text: &[u8], from: usize, depth: usize) -> Result<Operand, QuerySyntaxError>
    requires within { from ≤ length text.now }
    requires depth { depth ≤ 64 }
    ensures end { IfOk result (λ o. (from < o.end) × (o.end ≤ length text.now)) }
    ensures close { IfOk result (λ o. o.end < length text.now → kind_of (slice_index text.now o.end) ≡ Close) }
    ensures read { ReadsGroup text.now depth (group_rest text.now depth from) result }
{
    let first = operand_at(alloc, text, skip_blanks(text, from), depth)?;
    let mut ands = one(alloc, first.raw)?;
    let mut ors = Vec::new(alloc);
    match operands(
        alloc, text, first.end, first.free, depth, &mut ors, &mut ands,
    ) {
        Ok(end) => {
            let raw = some_of(ors, all_of(ands))?;
            Ok(Operand {
                raw,
                end,
                free: true,
            })
        }
        Err(error) => Err(error),
    }
}

/// The operands behind one that ends at `start`, to the end of what stands between the brackets, which is given.
/// Those before the last `OR` go to `ors`, those behind it to `ands`.
#[cycle(reader)]
fn operands(
    alloc: Global,
    text: &[u8],
    start: usize,
    first_free: bool,
    depth: usize,
    ors: &mut Vec<Raw>,
    ands: &mut Vec<Raw>,
) -> Result<usize, QuerySyntaxError>
    requires within { start ≤ length text.now }
    requires depth { depth ≤ 64 }
    requires some { 0 < length ands.old.items }
    ensures behind { IfOk result (λ end. (start ≤ end) × (end ≤ length text.now)) }
    ensures close { IfOk result (λ end. end < length text.now → kind_of (slice_index text.now end) ≡ Close) }
    ensures some { IfOk result (λ _. 0 < length ands.new.items) }
    ensures read { IfOk result (λ end. (fs : List Frame) → run start (state (After first_free) (members depth ors.old.items ands.old.items) fs) (drop start text.now)
        ≡ run end (state (After true) (members depth ors.new.items ands.new.items) fs) (drop end text.now)) }
    ensures fault { IfErr result (λ e. OnFault e (λ fault. (fs : List Frame) → run start (state (After first_free) (members depth ors.old.items ands.old.items) fs) (drop start text.now) ≡ Err fault)) }
{
    let mut at = start;
    let mut free = first_free;
    'operands: loop {
        match what_follows(text, at, free) {
            Err(fault) => return Err(QuerySyntaxError::Refused(fault)),
            Ok(Next::End(end)) => return Ok(end),
            Ok(Next::And(place)) => {
                let next = operand_at(alloc, text, place, depth)?;
                ands.push(next.raw)?;
                at = next.end;
                free = next.free;
            }
            Ok(Next::Or(place)) => {
                let next = operand_at(alloc, text, place, depth)?;
                begin_or(alloc, ors, ands, next.raw)?;
                at = next.end;
                free = next.free;
            }
        }
    }
}

/// Behind an `OR`: what stood before it goes to `ors`, and the operand behind it stands alone.
fn begin_or(
    alloc: Global,
    ors: &mut Vec<Raw>,
    ands: &mut Vec<Raw>,
    raw: Raw,
) -> Result<(), QuerySyntaxError>
    ensures ors { OnOk result (trees_after no_trees (map view ors.new.items) ≡ behind (trees_after no_trees (map view ors.old.items)) (and_tree (trees_after no_trees (map view ands.old.items)))) }
    ensures ands { OnOk result (ands.new.items ≡ raw ∷ []) }
    ensures memory { IfErr result (λ e. e ≡ QuerySyntaxError.Memory) }
{
    ors.push(all_of(mem::replace(ands, Vec::new(alloc))))?;
    ands.push(raw)?;
    Ok(())
}

/// A list of one.
fn one(alloc: Global, raw: Raw) -> Result<Vec<Raw>, QuerySyntaxError>
    ensures items { IfOk result (λ v. v.items ≡ raw ∷ []) }
    ensures memory { IfErr result (λ e. e ≡ QuerySyntaxError.Memory) }
{
    let mut list = Vec::new(alloc);
    list.push(raw)?;
    Ok(list)
}

fn and_of(parts: Vec<Raw>) -> Raw
    ensures { view result ≡ And (trees_after no_trees (map view parts.items)) }
{
    Raw::And(parts)
}

fn or_of(parts: Vec<Raw>) -> Raw
    ensures { view result ≡ Or (trees_after no_trees (map view parts.items)) }
{
    Raw::Or(parts)
}

/// The members of an And, or the one that there is.
fn all_of(mut parts: Vec<Raw>) -> Raw
    ensures { view result ≡ and_tree (trees_after no_trees (map view parts.items)) }
{
    let list = parts.as_slice();
    let count = list.len();
    if count == 1 {
        parts.remove(0)
    } else {
        and_of(parts)
    }
}

/// The members of an Or with one more, or the one that there is.
fn some_of(mut parts: Vec<Raw>, last: Raw) -> Result<Raw, QuerySyntaxError>
    ensures ok { IfOk result (λ raw. view raw ≡ or_tree (behind (trees_after no_trees (map view parts.items)) (view last))) }
    ensures memory { IfErr result (λ e. e ≡ QuerySyntaxError.Memory) }
{
    let list = parts.as_slice();
    let count = list.len();
    if count == 0 {
        return Ok(last);
    }
    parts.push(last)?;
    Ok(or_of(parts))
}

/// The text as the machine reads it.
pub fn read_whole(alloc: Global, text: &str) -> Result<Raw, QuerySyntaxError>
    ensures read { IfOk result (λ raw. reads text.now ≡ Ok (view raw)) }
    ensures fault { IfErr result (λ e. OnFault e (λ fault. reads text.now ≡ Err fault)) }
{
    let bytes = text.as_bytes();
    let whole = group(alloc, bytes, 0, 0)?;
    if whole.end < bytes.len() {
        Err(QuerySyntaxError::Refused(Fault::Syntax { at: whole.end }))
    } else {
        Ok(whole.raw)
    }
}
