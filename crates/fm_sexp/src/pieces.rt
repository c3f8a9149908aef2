ghost use Rattle.std.specs.Prelude.{◌≡◌, ℕ, ◌+◌, ◌<◌, ◌≤◌, ◌^◌, true, false, length, take_while, IfSome};
ghost use Rattle.std.specs.List.{list_all};
ghost use Rattle.fm_sexp.specs.Pieces.{is_digit, is_symbol_byte, is_hex_digit, is_binary_digit, is_comment_byte, is_quoted_byte, is_some_of, is_numeral, is_fraction, is_decimal, found, Fits, text_from, text_front, quoted_front, number_front, hash_front, keyword_front, piece_of};
ghost use Rattle.fm_sexp.specs.declared.pieces.Kind.{Kind as TheKind};
ghost use Rattle.fm_sexp.specs.declared.pieces.Shape.{Shape as TheShape};

use crate::bytes::{
    is_binary_digit, is_blank, is_comment_byte, is_digit, is_hex_digit, is_quoted_byte,
    is_symbol_byte,
};

/// The kinds of words. A `Quoted` is a symbol between bars and a `Text` a string literal in quotes.
#[derive(Clone, Copy, Debug, PartialEq, Eq)]
pub enum Kind {
    Symbol,
    Quoted,
    Keyword,
    Numeral,
    Decimal,
    Hex,
    Binary,
    Text,
}

// What a piece of a text is.
#[derive(Clone, Copy, Debug)]
pub(crate) enum Shape {
    Blank,
    Comment,
    Open,
    Close,
    Word(Kind),
}

// A piece, with its length in bytes.
#[derive(Clone, Copy, Debug)]
pub(crate) struct Piece {
    pub shape: Shape,
    pub len: usize,
}

// What stands at the front of a text: a piece; a byte that no piece covers, with its place; or the end, within a
// word that isn't closed.
#[derive(Clone, Copy, Debug)]
pub(crate) enum Front {
    Found(Piece),
    Wrong(usize),
    Unclosed,
}

fn found(shape: Shape, len: usize) -> Front
    ensures { result ≡ found shape len }
{
    Front::Found(Piece { shape, len })
}

fn comment_len(text: &[u8]) -> usize
    ensures value { result ≡ length (take_while is_comment_byte text.now) }
    ensures within { result ≤ length text.now }
{
    text.iter()
        .take_while(|byte| is_comment_byte(**byte))
        .count()
}

fn quoted_len(text: &[u8]) -> usize
    ensures value { result ≡ length (take_while is_quoted_byte text.now) }
    ensures within { result ≤ length text.now }
{
    text.iter()
        .take_while(|byte| is_quoted_byte(**byte))
        .count()
}

fn symbol_len(text: &[u8]) -> usize
    ensures value { result ≡ length (take_while is_symbol_byte text.now) }
    ensures within { result ≤ length text.now }
{
    text.iter()
        .take_while(|byte| is_symbol_byte(**byte))
        .count()
}

fn digits_len(text: &[u8]) -> usize
    ensures value { result ≡ length (take_while is_digit text.now) }
    ensures within { result ≤ length text.now }
{
    text.iter().take_while(|byte| is_digit(**byte)).count()
}

// The longest run of symbol bytes at the front of a text.
fn symbol_run(text: &[u8]) -> &[u8]
    ensures run { result.now ≡ take_while is_symbol_byte text.now }
    ensures within { length result.now ≤ length text.now }
{
    let (run, _) = text.split_at(symbol_len(text));
    run
}

// A comment, by the bytes behind its semicolon.
fn comment_front(rest: &[u8]) -> Front
    ensures value { result ≡ found TheShape.Comment (1 + length (take_while is_comment_byte rest.now)) }
    ensures fits { Fits (1 + length rest.now) result }
{
    found(Shape::Comment, 1 + comment_len(rest))
}

// The length of a literal behind its first quote: to the first quote that isn't one of a pair.
fn text_len(rest: &[u8]) -> Option<usize>
    ensures value { result ≡ text_from 0 false rest.now }
    ensures within { IfSome result (λ n. n ≤ length rest.now) }
{
    let mut paired = false;
    for (at, byte) in rest.iter().enumerate() {
        if *byte == b'"' {
            paired = !paired;
        } else if paired {
            return Some(at);
        }
    }
    if paired { Some(rest.len()) } else { None }
}

// A literal, by the bytes behind its first quote.
fn text_front(rest: &[u8]) -> Front
    ensures value { result ≡ text_front (text_from 0 false rest.now) }
    ensures fits { Fits (1 + length rest.now) result }
{
    match text_len(rest) {
        None => Front::Unclosed,
        Some(len) => found(Shape::Word(Kind::Text), 1 + len),
    }
}

// A quoted symbol, by the bytes behind its first bar.
fn quoted_front(rest: &[u8]) -> Front
    ensures value { result ≡ quoted_front rest.now }
    ensures fits { Fits (1 + length rest.now) result }
{
    let len = quoted_len(rest);
    let (_, end) = rest.split_at(len);
    match end.split_first() {
        None => Front::Unclosed,
        Some((first, _)) => {
            if *first == b'|' {
                found(Shape::Word(Kind::Quoted), 2 + len)
            } else {
                Front::Wrong(1 + len)
            }
        }
    }
}

fn are_digits(bytes: &[u8]) -> bool
    ensures { result ≡ list_all is_digit bytes.now }
{
    bytes.iter().all(|byte| is_digit(*byte))
}

fn are_hex_digits(bytes: &[u8]) -> bool
    ensures { result ≡ list_all is_hex_digit bytes.now }
{
    bytes.iter().all(|byte| is_hex_digit(*byte))
}

fn are_binary_digits(bytes: &[u8]) -> bool
    ensures { result ≡ list_all is_binary_digit bytes.now }
{
    bytes.iter().all(|byte| is_binary_digit(*byte))
}

#[tactic(auto, unfolding(crate::specs::Pieces::is_numeral))]
fn is_numeral(word: &[u8]) -> bool
    ensures { result ≡ is_numeral word.now }
{
    match word {
        [] => false,
        [digit] => is_digit(*digit),
        [first, ..] => *first != b'0' && are_digits(word),
    }
}

// Whether a word is a point and one or more digits.
#[tactic(auto, unfolding(crate::specs::Pieces::is_fraction))]
fn is_fraction(word: &[u8]) -> bool
    ensures { result ≡ is_fraction word.now }
{
    match word.split_first() {
        None => false,
        Some((first, digits)) => *first == b'.' && !digits.is_empty() && are_digits(digits),
    }
}

fn is_decimal(word: &[u8]) -> bool
    ensures { result ≡ is_decimal word.now }
{
    let (whole, rest) = word.split_at(digits_len(word));
    is_numeral(whole) && is_fraction(rest)
}

// A numeral or a decimal, which is the whole of a run of symbol bytes.
fn number_front(word: &[u8]) -> Front
    requires { 0 < length word.now }
    ensures value { result ≡ number_front word.now }
    ensures fits { Fits (length word.now) result }
{
    if is_numeral(word) {
        found(Shape::Word(Kind::Numeral), word.len())
    } else if is_decimal(word) {
        found(Shape::Word(Kind::Decimal), word.len())
    } else {
        Front::Wrong(0)
    }
}

// A hexadecimal or binary number, by the run of symbol bytes behind its `#`.
#[tactic(auto, unfolding(crate::specs::Pieces::hash_front))]
fn hash_front(word: &[u8]) -> Front
    ensures value { result ≡ hash_front word.now }
    ensures fits { Fits (1 + length word.now) result }
{
    match word.split_first() {
        None => Front::Wrong(0),
        Some((first, digits)) => {
            if *first == b'x' && !digits.is_empty() && are_hex_digits(digits) {
                found(Shape::Word(Kind::Hex), 2 + digits.len())
            } else if *first == b'b' && !digits.is_empty() && are_binary_digits(digits) {
                found(Shape::Word(Kind::Binary), 2 + digits.len())
            } else {
                Front::Wrong(0)
            }
        }
    }
}

// A keyword, by the run of symbol bytes behind its colon.
fn keyword_front(word: &[u8]) -> Front
    ensures value { result ≡ keyword_front word.now }
    ensures fits { Fits (1 + length word.now) result }
{
    match word.split_first() {
        None => Front::Wrong(0),
        Some((_, more)) => found(Shape::Word(Kind::Keyword), 2 + more.len()),
    }
}

// The piece at the front of a text.
#[tactic(auto, unfolding(crate::specs::Pieces::piece_of))]
pub(crate) fn piece_at(text: &[u8]) -> Front
    ensures value { result ≡ piece_of text.now }
    ensures fits { Fits (length text.now) result }
{
    let Some((first, rest)) = text.split_first() else {
        return Front::Unclosed;
    };
    let byte = *first;
    if is_blank(byte) {
        found(Shape::Blank, 1)
    } else if byte == b'(' {
        found(Shape::Open, 1)
    } else if byte == b')' {
        found(Shape::Close, 1)
    } else if byte == b';' {
        comment_front(rest)
    } else if byte == b'"' {
        text_front(rest)
    } else if byte == b'|' {
        quoted_front(rest)
    } else if byte == b':' {
        keyword_front(symbol_run(rest))
    } else if byte == b'#' {
        hash_front(symbol_run(rest))
    } else if is_digit(byte) {
        number_front(symbol_run(text))
    } else if is_symbol_byte(byte) {
        found(Shape::Word(Kind::Symbol), symbol_run(text).len())
    } else {
        Front::Wrong(0)
    }
}
