ghost use Rattle.std.specs.Prelude.{◌≡◌};
ghost use Rattle.std.specs.List.{list_any, list_all};
ghost use Rattle.std.specs.Str.{bytes_eq};
ghost use Rattle.fm_sexp.specs.Names.{is_reserved, is_bare, reserved_words};
ghost use Rattle.fm_sexp.specs.Pieces.{is_symbol_byte as is_in_symbols};

use crate::bytes::{is_digit, is_symbol_byte};

const RESERVED_WORDS: [&[u8]; 43] = [
    b"_",
    b"!",
    b"as",
    b"let",
    b"exists",
    b"forall",
    b"match",
    b"par",
    b"BINARY",
    b"DECIMAL",
    b"HEXADECIMAL",
    b"NUMERAL",
    b"STRING",
    b"assert",
    b"check-sat",
    b"check-sat-assuming",
    b"declare-const",
    b"declare-datatype",
    b"declare-datatypes",
    b"declare-fun",
    b"declare-sort",
    b"define-fun",
    b"define-fun-rec",
    b"define-funs-rec",
    b"define-sort",
    b"echo",
    b"exit",
    b"get-assertions",
    b"get-assignment",
    b"get-info",
    b"get-model",
    b"get-option",
    b"get-proof",
    b"get-unsat-assumptions",
    b"get-unsat-core",
    b"get-value",
    b"pop",
    b"push",
    b"reset",
    b"reset-assertions",
    b"set-info",
    b"set-logic",
    b"set-option",
];

fn is_one_of(words: &[&[u8]], name: &[u8]) -> bool
    ensures { result ≡ list_any (λ w. bytes_eq w.now name.now) words.now }
{
    words.iter().any(|word| *word == name)
}

/// Whether a symbol is reserved: a reserved word of SMT-LIB 2.6, or the name of one of its commands.
#[tactic(auto, unfolding(crate::specs::Names::reserved_words))]
pub fn is_reserved(name: &[u8]) -> bool
    ensures { result ≡ is_reserved name.now }
{
    is_one_of(&RESERVED_WORDS, name)
}

fn are_symbol_bytes(bytes: &[u8]) -> bool
    ensures { result ≡ list_all is_in_symbols bytes.now }
{
    bytes.iter().all(|byte| is_symbol_byte(*byte))
}

/// Whether a name can be written as a symbol without bars.
pub fn is_bare(name: &[u8]) -> bool
    ensures { result ≡ is_bare name.now }
{
    match name.split_first() {
        None => false,
        Some((first, _)) => !is_digit(*first) && are_symbol_bytes(name) && !is_reserved(name),
    }
}
