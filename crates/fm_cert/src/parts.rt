ghost use Rattle.std.specs.Prelude.{◌≡◌, ◌++◌, ◌+◌, ◌-◌, ◌*◌, map, IfOk, OnOk};
ghost use Rattle.std.specs.Option.{option_map};
ghost use Rattle.std.specs.Str.{all_ascii_digits, bytes_eq};
ghost use Rattle.fm_cert.specs.Parts.{atom_of, begin_in, cardinality_in, card_of, cut, cut_slash, default_in, equal_of, equality_in, ending_in, exception_in, fitting, instance_in, is_decimal, lemma_by, literal_in, literals_in, model_by, number_in, numbers_in, order_in, pair_in, parts_in, resolution_in, row_by, row_in, sign_of, sizes_in, slash, step_in, steps_in, sum_in, term_at, term_in, terms_in, value_from};

use crate::block::Line;
use crate::row::Row;
use fm_bank::{Atom, Literal};
use fm_base::{SortId, SymId, TermId};
use sqlite_items::Items;
use std::alloc::{AllocError, Global};

// What stands before the first byte of this value, and what behind it.
pub(crate) fn cut(bytes: &[u8], at: u8) -> Option<(&[u8], &[u8])>
    ensures { option_map (λ p. (p.0.now, p.1.now)) result ≡ cut at bytes.now }
{
    for (place, byte) in bytes.iter().enumerate() {
        if *byte == at {
            let (front, back) = bytes.split_at(place);
            let (_, rest) = back.split_at(1);
            return Some((front, rest));
        }
    }
    None
}

// The parts of a line, between which single blanks stand.
pub(crate) fn parts_of(alloc: Global, line: &[u8]) -> Result<Vec<&[u8]>, AllocError>
    ensures { IfOk result (λ v. map (λ s. s.now) v.items ≡ parts_in line.now) }
{
    let mut parts = Vec::new(alloc);
    let mut rest = line;
    while let Some((part, more)) = cut(rest, b' ') {
        parts.push(part)?;
        rest = more;
    }
    parts.push(rest)?;
    Ok(parts)
}

fn all_digits(part: &[u8]) -> bool
    ensures { result ≡ all_ascii_digits part.now }
{
    for byte in part {
        if !byte.is_ascii_digit() {
            return false;
        }
    }
    true
}

fn is_decimal(part: &[u8]) -> bool
    ensures { result ≡ is_decimal part.now }
{
    match part {
        [] => false,
        [byte] => byte.is_ascii_digit(),
        [first, ..] => *first != b'0' && all_digits(part),
    }
}

// One more decimal digit, where the number stays below 2^64.
fn with_digit(sum: u64, digit: u8) -> Option<u64>
    ensures { result ≡ fitting (sum * 10 + (digit - 48)) }
{
    let tens = sum.checked_mul(10)?;
    tens.checked_add(u64::from(digit.saturating_sub(48)))
}

fn digits_value(digits: &[u8]) -> Option<u64>
    ensures { result ≡ fitting (value_from 0 digits.now) }
{
    let mut sum = 0;
    for digit in digits {
        match with_digit(sum, *digit) {
            Some(more) => sum = more,
            None => return None,
        }
    }
    Some(sum)
}

// The number that a part spells.
fn number_of(part: &[u8]) -> Option<u64>
    ensures { result ≡ number_in part.now }
{
    if !is_decimal(part) {
        return None;
    }
    digits_value(part)
}

fn place_of(part: &[u8]) -> Option<usize>
    ensures { result ≡ number_in part.now }
{
    match number_of(part) {
        Some(number) => Some(number as usize),
        None => None,
    }
}

fn numbers_of(alloc: Global, parts: &[&[u8]]) -> Result<Option<Items<u64>>, AllocError>
    ensures { IfOk result (λ o. o ≡ numbers_in (map (λ s. s.now) parts.now)) }
{
    let mut numbers = Vec::new(alloc);
    for part in parts {
        match number_of(part) {
            Some(number) => numbers.push(number)?,
            None => return Ok(None),
        }
    }
    Ok(Some(Items::from_vec(numbers)))
}

fn term_at(part: &[u8]) -> Option<TermId>
    ensures { result ≡ term_at part.now }
{
    match place_of(part) {
        Some(number) => Some(TermId(number)),
        None => None,
    }
}

fn terms_of(alloc: Global, parts: &[&[u8]]) -> Result<Option<Items<TermId>>, AllocError>
    ensures { IfOk result (λ o. o ≡ terms_in (map (λ s. s.now) parts.now)) }
{
    let mut terms = Vec::new(alloc);
    for part in parts {
        match term_at(part) {
            Some(term) => terms.push(term)?,
            None => return Ok(None),
        }
    }
    Ok(Some(Items::from_vec(terms)))
}

// Two numbers with a comma between them.
fn pair_of(part: &[u8]) -> Option<(u64, u64)>
    ensures { result ≡ pair_in part.now }
{
    match cut(part, b',') {
        None => None,
        Some((left, right)) => match (number_of(left), number_of(right)) {
            (Some(left), Some(right)) => Some((left, right)),
            _ => None,
        },
    }
}

fn equal_of(rest: &[u8]) -> Option<Atom>
    ensures { result ≡ equal_of (pair_in rest.now) }
{
    match pair_of(rest) {
        Some((left, right)) if left <= right => Some(Atom::Equal(
            TermId(left as usize),
            TermId(right as usize),
        )),
        _ => None,
    }
}

fn card_of(rest: &[u8]) -> Option<Atom>
    ensures { result ≡ card_of (pair_in rest.now) }
{
    match pair_of(rest) {
        Some((sort, k)) => Some(Atom::Card(SortId(sort as usize), k)),
        None => None,
    }
}

fn atom_of(kind: u8, rest: &[u8]) -> Option<Atom>
    ensures { result ≡ atom_of kind rest.now }
{
    if kind == b'E' {
        equal_of(rest)
    } else if kind == b'P' {
        match place_of(rest) {
            Some(number) => Some(Atom::Pred(TermId(number))),
            None => None,
        }
    } else if kind == b'C' {
        card_of(rest)
    } else if kind == b'B' {
        match number_of(rest) {
            Some(number) => Some(Atom::Bound(number)),
            None => None,
        }
    } else {
        None
    }
}

fn sign_of(byte: u8) -> Option<bool>
    ensures { result ≡ sign_of byte }
{
    if byte == b'+' {
        Some(true)
    } else if byte == b'-' {
        Some(false)
    } else {
        None
    }
}

fn literal_of(part: &[u8]) -> Option<Literal>
    ensures { result ≡ literal_in part.now }
{
    let (sign, rest) = part.split_first()?;
    let (kind, rest) = rest.split_first()?;
    match (sign_of(*sign), atom_of(*kind, rest)) {
        (Some(positive), Some(atom)) => Some(Literal { positive, atom }),
        _ => None,
    }
}

fn step_of(literal: &[u8], clause: &[u8]) -> Option<(Literal, usize)>
    ensures { result ≡ step_in literal.now clause.now }
{
    match (literal_of(literal), place_of(clause)) {
        (Some(literal), Some(clause)) => Some((literal, clause)),
        _ => None,
    }
}

fn steps_of(alloc: Global, parts: &[&[u8]]) -> Result<Option<Items<(Literal, usize)>>, AllocError>
    ensures { IfOk result (λ o. o ≡ steps_in (map (λ s. s.now) parts.now)) }
{
    let mut steps = Vec::new(alloc);
    let mut at = 0;
    while at + 1 < parts.len() {
        match step_of(parts[at], parts[at + 1]) {
            Some(step) => steps.push(step)?,
            None => return Ok(None),
        }
        at += 2;
    }
    if at < parts.len() {
        return Ok(None);
    }
    Ok(Some(Items::from_vec(steps)))
}

fn begin_of(parts: &[&[u8]]) -> Option<Row>
    ensures { result ≡ begin_in (map (λ s. s.now) parts.now) }
{
    match parts {
        [number] => match number_of(number) {
            Some(number) => Some(Row::Begin(number)),
            None => None,
        },
        _ => None,
    }
}

fn instance_of(alloc: Global, parts: &[&[u8]]) -> Result<Option<Row>, AllocError>
    ensures { IfOk result (λ o. o ≡ instance_in (map (λ s. s.now) parts.now)) }
{
    let Some((clause, rest)) = parts.split_first() else {
        return Ok(None);
    };
    let Some(clause) = place_of(clause) else {
        return Ok(None);
    };
    match terms_of(alloc, rest)? {
        Some(terms) => Ok(Some(Row::Body(Line::Instance { clause, terms }))),
        None => Ok(None),
    }
}

fn term_of(alloc: Global, parts: &[&[u8]]) -> Result<Option<Row>, AllocError>
    ensures { IfOk result (λ o. o ≡ term_in (map (λ s. s.now) parts.now)) }
{
    let Some((symbol, rest)) = parts.split_first() else {
        return Ok(None);
    };
    let Some(symbol) = place_of(symbol) else {
        return Ok(None);
    };
    match terms_of(alloc, rest)? {
        Some(args) => Ok(Some(Row::Body(Line::Term {
            symbol: SymId(symbol),
            args,
        }))),
        None => Ok(None),
    }
}

fn sum_of(alloc: Global, parts: &[&[u8]]) -> Result<Option<Row>, AllocError>
    ensures { IfOk result (λ o. o ≡ sum_in (map (λ s. s.now) parts.now)) }
{
    let Some((n, rest)) = parts.split_first() else {
        return Ok(None);
    };
    let Some(n) = number_of(n) else {
        return Ok(None);
    };
    match numbers_of(alloc, rest)? {
        Some(ks) => Ok(Some(Row::Body(Line::Sum { n, ks }))),
        None => Ok(None),
    }
}

fn cardinality_of(alloc: Global, parts: &[&[u8]]) -> Result<Option<Row>, AllocError>
    ensures { IfOk result (λ o. o ≡ cardinality_in (map (λ s. s.now) parts.now)) }
{
    let Some((sort, rest)) = parts.split_first() else {
        return Ok(None);
    };
    let Some((k, rest)) = rest.split_first() else {
        return Ok(None);
    };
    let Some(sort) = place_of(sort) else {
        return Ok(None);
    };
    let Some(k) = number_of(k) else {
        return Ok(None);
    };
    match terms_of(alloc, rest)? {
        Some(terms) => Ok(Some(Row::Body(Line::Cardinality {
            sort: SortId(sort),
            k,
            terms,
        }))),
        None => Ok(None),
    }
}

fn order_of(parts: &[&[u8]]) -> Option<Row>
    ensures { result ≡ order_in (map (λ s. s.now) parts.now) }
{
    match parts {
        [kind, sort] if *kind == b"z".as_slice() => match place_of(sort) {
            Some(sort) => Some(Row::Body(Line::OrderZero { sort: SortId(sort) })),
            None => None,
        },
        [kind, n] if *kind == b"b".as_slice() => match number_of(n) {
            Some(n) => Some(Row::Body(Line::OrderBound { n })),
            None => None,
        },
        [kind, sort, k] if *kind == b"c".as_slice() => match (place_of(sort), number_of(k)) {
            (Some(sort), Some(k)) => Some(Row::Body(Line::OrderCard {
                sort: SortId(sort),
                k,
            })),
            _ => None,
        },
        _ => None,
    }
}

fn resolution_of(alloc: Global, parts: &[&[u8]]) -> Result<Option<Row>, AllocError>
    ensures { IfOk result (λ o. o ≡ resolution_in (map (λ s. s.now) parts.now)) }
{
    let Some((first, rest)) = parts.split_first() else {
        return Ok(None);
    };
    let Some(first) = place_of(first) else {
        return Ok(None);
    };
    match steps_of(alloc, rest)? {
        Some(steps) => {
            if steps.is_empty() {
                return Ok(None);
            }
            Ok(Some(Row::Body(Line::Resolution { first, steps })))
        }
        None => Ok(None),
    }
}

fn is_slash(part: &[u8]) -> bool
    ensures { result ≡ bytes_eq part.now slash }
{
    part == b"/".as_slice()
}

// The parts before the first `/`, and those behind it.
fn cut_slash<'a, 'b>(parts: &'a [&'b [u8]]) -> Option<(&'a [&'b [u8]], &'a [&'b [u8]])>
    ensures { option_map (λ p. (map (λ s. s.now) p.0.now, map (λ s. s.now) p.1.now)) result ≡ cut_slash (map (λ s. s.now) parts.now) }
{
    for (place, part) in parts.iter().enumerate() {
        if is_slash(part) {
            let (front, back) = parts.split_at(place);
            let (_, rest) = back.split_at(1);
            return Some((front, rest));
        }
    }
    None
}

fn literals_of(alloc: Global, parts: &[&[u8]]) -> Result<Option<Items<Literal>>, AllocError>
    ensures { IfOk result (λ o. o ≡ literals_in (map (λ s. s.now) parts.now)) }
{
    let mut literals = Vec::new(alloc);
    for part in parts {
        match literal_of(part) {
            Some(literal) => literals.push(literal)?,
            None => return Ok(None),
        }
    }
    Ok(Some(Items::from_vec(literals)))
}

fn equality_of(alloc: Global, parts: &[&[u8]]) -> Result<Option<Row>, AllocError>
    ensures { IfOk result (λ o. o ≡ equality_in (map (λ s. s.now) parts.now)) }
{
    let Some((front, rest)) = cut_slash(parts) else {
        return Ok(None);
    };
    let Some(lits) = literals_of(alloc, front)? else {
        return Ok(None);
    };
    match terms_of(alloc, rest)? {
        Some(support) => Ok(Some(Row::Body(Line::Equality { lits, support }))),
        None => Ok(None),
    }
}

fn ending_of(parts: &[&[u8]]) -> Option<Row>
    ensures { result ≡ ending_in (map (λ s. s.now) parts.now) }
{
    match parts {
        [word] if *word == b"unsat".as_slice() => Some(Row::Unsat),
        [word, sum] if *word == b"sat".as_slice() => match number_of(sum) {
            Some(sum) => Some(Row::Sat(sum)),
            None => None,
        },
        [word, instances, decisions] if *word == b"unknown".as_slice() => {
            match (number_of(instances), number_of(decisions)) {
                (Some(instances), Some(decisions)) => Some(Row::Unknown(instances, decisions)),
                _ => None,
            }
        }
        _ => None,
    }
}

fn sizes_of(alloc: Global, parts: &[&[u8]]) -> Result<Option<Row>, AllocError>
    ensures { IfOk result (λ o. o ≡ sizes_in (map (λ s. s.now) parts.now)) }
{
    match numbers_of(alloc, parts)? {
        Some(ks) => Ok(Some(Row::Sizes(ks))),
        None => Ok(None),
    }
}

fn default_of(parts: &[&[u8]]) -> Option<Row>
    ensures { result ≡ default_in (map (λ s. s.now) parts.now) }
{
    match parts {
        [value] => match number_of(value) {
            Some(value) => Some(Row::Default(value)),
            None => None,
        },
        _ => None,
    }
}

// The tuple, and behind it the value.
fn exception_of(alloc: Global, parts: &[&[u8]]) -> Result<Option<Row>, AllocError>
    ensures { IfOk result (λ o. o ≡ exception_in (map (λ s. s.now) parts.now)) }
{
    let Some((value, tuple)) = parts.split_last() else {
        return Ok(None);
    };
    let Some(value) = number_of(value) else {
        return Ok(None);
    };
    match numbers_of(alloc, tuple)? {
        Some(tuple) => Ok(Some(Row::Exception(tuple, value))),
        None => Ok(None),
    }
}

// The line that the parts spell.
pub(crate) fn row_of(alloc: Global, parts: &[&[u8]]) -> Result<Option<Row>, AllocError>
    ensures { IfOk result (λ o. o ≡ row_in (map (λ s. s.now) parts.now)) }
{
    match parts.split_first() {
        Some((head, rest)) => row_by(alloc, head, rest),
        None => Ok(None),
    }
}

fn row_by(alloc: Global, head: &[u8], rest: &[&[u8]]) -> Result<Option<Row>, AllocError>
    ensures { IfOk result (λ o. o ≡ row_by head.now (map (λ s. s.now) rest.now)) }
{
    if head == b"b".as_slice() {
        return Ok(begin_of(rest));
    }
    if head == b"t".as_slice() {
        return term_of(alloc, rest);
    }
    if head == b"i".as_slice() {
        return instance_of(alloc, rest);
    }
    if head == b"r".as_slice() {
        return resolution_of(alloc, rest);
    }
    if head == b"q".as_slice() {
        return Ok(ending_of(rest));
    }
    lemma_by(alloc, head, rest)
}

// A line of a lemma of the search, by its first part.
fn lemma_by(alloc: Global, head: &[u8], rest: &[&[u8]]) -> Result<Option<Row>, AllocError>
    ensures { IfOk result (λ o. o ≡ lemma_by head.now (map (λ s. s.now) rest.now)) }
{
    if head == b"e".as_slice() {
        return equality_of(alloc, rest);
    }
    if head == b"c".as_slice() {
        return cardinality_of(alloc, rest);
    }
    if head == b"s".as_slice() {
        return sum_of(alloc, rest);
    }
    if head == b"o".as_slice() {
        return Ok(order_of(rest));
    }
    model_by(alloc, head, rest)
}

// A line of an ending's model, by its first part.
fn model_by(alloc: Global, head: &[u8], rest: &[&[u8]]) -> Result<Option<Row>, AllocError>
    ensures { IfOk result (λ o. o ≡ model_by head.now (map (λ s. s.now) rest.now)) }
{
    if head == b"z".as_slice() {
        return sizes_of(alloc, rest);
    }
    if head == b"d".as_slice() {
        return Ok(default_of(rest));
    }
    if head == b"x".as_slice() {
        return exception_of(alloc, rest);
    }
    Ok(None)
}
