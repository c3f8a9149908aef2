ghost use Rattle.std.specs.Prelude.{◌≡◌, ℕ, IfSome, ◌+◌, ◌-◌, ◌*◌, ◌≤◌, ◌<◌, ◌||◌, true, length, slice_range, is_some, map, IfOk};
ghost use Rattle.std.specs.List.{list_all};
ghost use Rattle.std.specs.Option.{option_map};
ghost use Rattle.fm_sexp.specs.Items.{spans_within, all_within};
ghost use Rattle.fm_script.specs.Commands.{symbol_of, name_of, keyword_of, literal_of, digits_of, members_of, place_of_item, is_sort as is_sort_of, decimal_of, decimal_from, is_switch as is_switch_of, is_truth_name as is_truth_of};
ghost use Rattle.fm_script.specs.Numerals.{fitting, numeral_of};
ghost use Rattle.fm_script.specs.Shown.{name_shown, numeral_shown};

use crate::command::{Number, Part};
use fm_base::Place;
use fm_sexp::{Kind, Sexp, is_reserved};
use std::alloc::{AllocError, Global};

fn bytes_of(text: &[u8], start: usize, end: usize) -> &[u8]
    requires order { start ≤ end }
    requires within { end ≤ length text.now }
    ensures { result.now ≡ slice_range text.now start end }
{
    &text[start..end]
}

// A word of the text, as a part of a command.
fn part(text: &[u8], start: usize, end: usize, at: Place) -> Part<'_>
    requires order { start ≤ end }
    requires within { end ≤ length text.now }
    ensures { name_shown result ≡ record { bytes = slice_range text.now start end; at = at } }
{
    let bytes = bytes_of(text, start, end);
    Part { bytes, at }
}

/// The bytes of a symbol, reserved or not; None for another word and for a list.
pub fn symbol<'a>(text: &'a [u8], item: &Sexp) -> Option<&'a [u8]>
    requires { spans_within (length text.now) item.now ≡ true }
    ensures { option_map (λ s. s.now) result ≡ symbol_of text.now item.now }
{
    match item {
        Sexp::Word {
            kind: Kind::Symbol,
            start,
            end,
            ..
        } => Some(bytes_of(text, *start, *end)),
        _ => None,
    }
}

/// A name, without its bars; None for a reserved word, for another word and for a list.
pub fn name<'a>(text: &'a [u8], item: &Sexp) -> Option<Part<'a>>
    requires { spans_within (length text.now) item.now ≡ true }
    ensures { option_map name_shown result ≡ name_of text.now item.now }
{
    match item {
        Sexp::Word {
            kind: Kind::Symbol,
            start,
            end,
            at,
        } => {
            let bytes = bytes_of(text, *start, *end);
            if is_reserved(bytes) {
                None
            } else {
                Some(Part { bytes, at: *at })
            }
        }
        Sexp::Word {
            kind: Kind::Quoted,
            start,
            end,
            at,
        } => Some(Part {
            bytes: bytes_of(text, *start + 1, *end - 1),
            at: *at,
        }),
        _ => None,
    }
}

/// A keyword, with its colon; None for another word and for a list.
pub fn keyword<'a>(text: &'a [u8], item: &Sexp) -> Option<Part<'a>>
    requires { spans_within (length text.now) item.now ≡ true }
    ensures { option_map name_shown result ≡ keyword_of text.now item.now }
{
    match item {
        Sexp::Word {
            kind: Kind::Keyword,
            start,
            end,
            at,
        } => Some(part(text, *start, *end, *at)),
        _ => None,
    }
}

// A string literal, with its quotes.
pub(crate) fn literal<'a>(text: &'a [u8], item: &Sexp) -> Option<Part<'a>>
    requires { spans_within (length text.now) item.now ≡ true }
    ensures { option_map name_shown result ≡ literal_of text.now item.now }
{
    match item {
        Sexp::Word {
            kind: Kind::Text,
            start,
            end,
            at,
        } => Some(part(text, *start, *end, *at)),
        _ => None,
    }
}

// The digits of a numeral.
pub(crate) fn digits<'a>(text: &'a [u8], item: &Sexp) -> Option<Part<'a>>
    requires { spans_within (length text.now) item.now ≡ true }
    ensures { option_map name_shown result ≡ digits_of text.now item.now }
{
    match item {
        Sexp::Word {
            kind: Kind::Numeral,
            start,
            end,
            at,
        } => Some(part(text, *start, *end, *at)),
        _ => None,
    }
}

/// The members of a list; None for a word.
pub fn members(item: &Sexp) -> Option<&[Sexp]>
    ensures value { option_map (λ s. s.now) result ≡ members_of item.now }
    ensures within { (n : ℕ) → spans_within n item.now ≡ true → IfSome result (λ s. all_within n s.now ≡ true) }
{
    match item {
        Sexp::Word { .. } => None,
        Sexp::List { items, .. } => Some(items.as_slice()),
    }
}

/// The place of an item.
pub fn place(item: &Sexp) -> Place
    ensures { result ≡ place_of_item item.now }
{
    match item {
        Sexp::Word { at, .. } => *at,
        Sexp::List { at, .. } => *at,
    }
}

// What stands for a sort in a shape: a name or a list.
pub(crate) fn is_sort(text: &[u8], item: &Sexp) -> bool
    requires { spans_within (length text.now) item.now ≡ true }
    ensures { result ≡ is_sort_of text.now item.now }
{
    name(text, item).is_some() || members(item).is_some()
}

// Whether each of the items stands for a sort.
pub(crate) fn are_sorts(text: &[u8], items: &[Sexp]) -> bool
    requires { all_within (length text.now) items.now ≡ true }
    ensures { result ≡ list_all (is_sort_of text.now) items.now }
{
    for item in items {
        if !is_sort(text, item) {
            return false;
        }
    }
    true
}

// One more decimal digit, where the number stays below 2^64.
fn with_digit(sum: u64, digit: u8) -> Option<u64>
    ensures { result ≡ fitting (sum * 10 + (digit - 48)) }
{
    let tens = sum.checked_mul(10)?;
    tens.checked_add(u64::from(digit.saturating_sub(48)))
}

// The number that decimal digits say, where it is below 2^64.
fn number_value(digits: &[u8]) -> Option<u64>
    ensures { result ≡ fitting (decimal_of digits.now) }
{
    let mut sum = 0;
    for digit in digits {
        match with_digit(sum, *digit) {
            Some(more) => sum = more,
            None => return None,
        }
    }
    Some(sum)
}

// The number that the digits say, where it is below 2^64.
pub(crate) fn numeral(digits: Part) -> Option<Number>
    ensures { option_map numeral_shown result ≡ numeral_of (name_shown digits.entry) }
{
    match number_value(digits.bytes) {
        Some(value) => Some(Number {
            value,
            at: digits.at,
        }),
        None => None,
    }
}

// The options whose item is `true` or `false`.
pub(crate) fn is_switch(keyword: &[u8]) -> bool
    ensures { result ≡ is_switch_of keyword.now }
{
    keyword == b":print-success".as_slice()
        || keyword == b":global-declarations".as_slice()
        || keyword == b":produce-models".as_slice()
        || keyword == b":finite-model-find".as_slice()
}

// The name `true` or `false`.
pub(crate) fn is_truth_name(text: &[u8], item: &Sexp) -> bool
    requires { spans_within (length text.now) item.now ≡ true }
    ensures { result ≡ is_truth_of (name_of text.now item.now) }
{
    match name(text, item) {
        Some(name) => name.bytes == b"true".as_slice() || name.bytes == b"false".as_slice(),
        None => false,
    }
}

/// References to the items.
pub fn references<'a>(alloc: Global, items: &'a [Sexp]) -> Result<Vec<&'a Sexp>, AllocError>
    ensures { IfOk result (λ v. map (λ i. i.now) v.items ≡ items.now) }
{
    let mut list = Vec::new(alloc);
    for item in items {
        list.push(item)?;
    }
    Ok(list)
}
