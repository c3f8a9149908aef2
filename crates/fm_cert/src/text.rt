ghost use Rattle.std.specs.Prelude.{◌≡◌, ◌≢◌, ℕ, List, [], ◌∷◌, ◌++◌, codes, decimal, IfOk, OnOk};
ghost use Rattle.std.specs.List.{AllByRecursion, flat_map};
ghost use Rattle.fm_cert.specs.Fits.{FitsAtom, FitsBlock, FitsClaim, FitsException, FitsLine, FitsLiteral, FitsStep, FitsTable, FitsTerm, HasOrder, IsNumber, IsOrdered, IsOrderedStep, IsPrintable};
ghost use Rattle.fm_cert.specs.Spelling.{header, line_feed, spelling_of_number, spelling_of_numbers, spelling_of_sign, spelling_of_atom, spelling_of_literal, spelling_of_step, spelling_of_line, spelling_of_term, spelling_of_exception, spelling_of_table, spelling_of_model, spelling_of_claim, spelling_of_block};

use crate::block::{Block, Claim, Line};
use fm_bank::{Atom, Literal};
use fm_base::{Interp, Table, TermId};
use itoa::Buffer;
use sqlite_items::Items;
use std::alloc::{AllocError, Global};

/// The first line of every certificate.
#[tactic(auto, unfolding(crate::specs::Spelling::header))]
pub fn header_line() -> &'static [u8]
    ensures { result.now ≡ header }
{
    b"fmfcert 1\n".as_slice()
}

/// The text of a block. The first number of each equality atom is to be no greater than the second, and each
/// resolution is to have a step. Then the text behind the header is read again as the block.
pub fn print(alloc: Global, block: &Block) -> Result<Vec<u8>, AllocError>
    requires { AllByRecursion IsPrintable block.now.lines }
    ensures whole { IfOk result (λ v. v.items ≡ spelling_of_block block.now) }
    ensures fits { OnOk result (FitsBlock block.now) }
{
    let mut out = Vec::new(alloc);
    out.extend_from_slice(b"b")?;
    print_number(&mut out, block.number)?;
    end_line(&mut out)?;
    print_lines(&mut out, block.lines.as_slice())?;
    print_claim(&mut out, &block.claim)?;
    Ok(out)
}

fn end_line(out: &mut Vec<u8>) -> Result<(), AllocError>
    ensures { OnOk result (out.new.items ≡ out.old.items ++ line_feed) }
{
    out.extend_from_slice(b"\n")
}

// The digits alone.
fn print_digits(out: &mut Vec<u8>, number: u64) -> Result<(), AllocError>
    ensures whole { OnOk result (out.new.items ≡ out.old.items ++ decimal number) }
    ensures fits { OnOk result (IsNumber number) }
{
    let mut buffer = Buffer::new();
    out.extend_from_slice(buffer.format(number).as_bytes())
}

// A blank and the digits.
fn print_number(out: &mut Vec<u8>, number: u64) -> Result<(), AllocError>
    ensures whole { OnOk result (out.new.items ≡ out.old.items ++ spelling_of_number number) }
    ensures fits { OnOk result (IsNumber number) }
{
    out.extend_from_slice(b" ")?;
    print_digits(out, number)
}

fn print_numbers(out: &mut Vec<u8>, numbers: &[u64]) -> Result<(), AllocError>
    ensures whole { OnOk result (out.new.items ≡ out.old.items ++ spelling_of_numbers numbers.now) }
    ensures fits { OnOk result (AllByRecursion IsNumber numbers.now) }
{
    for number in numbers {
        print_number(out, *number)?;
    }
    Ok(())
}

// A place in a list, as a number of 64 bits.
fn digits_of_place(out: &mut Vec<u8>, place: usize) -> Result<(), AllocError>
    ensures whole { OnOk result (out.new.items ≡ out.old.items ++ decimal place) }
    ensures fits { OnOk result (IsNumber place) }
{
    print_digits(out, place as u64)
}

fn print_place(out: &mut Vec<u8>, place: usize) -> Result<(), AllocError>
    ensures whole { OnOk result (out.new.items ≡ out.old.items ++ spelling_of_number place) }
    ensures fits { OnOk result (IsNumber place) }
{
    print_number(out, place as u64)
}

fn print_terms(out: &mut Vec<u8>, terms: &[TermId]) -> Result<(), AllocError>
    ensures whole { OnOk result (out.new.items ≡ out.old.items ++ flat_map spelling_of_term terms.now) }
    ensures fits { OnOk result (AllByRecursion FitsTerm terms.now) }
{
    for term in terms {
        print_place(out, term.0)?;
    }
    Ok(())
}

fn print_sign(out: &mut Vec<u8>, positive: bool) -> Result<(), AllocError>
    ensures { OnOk result (out.new.items ≡ out.old.items ++ spelling_of_sign positive) }
{
    if positive {
        out.extend_from_slice(b"+")
    } else {
        out.extend_from_slice(b"-")
    }
}

fn print_atom(out: &mut Vec<u8>, atom: Atom) -> Result<(), AllocError>
    ensures whole { OnOk result (out.new.items ≡ out.old.items ++ spelling_of_atom atom) }
    ensures fits { OnOk result (HasOrder atom → FitsAtom atom) }
{
    match atom {
        Atom::Equal(left, right) => {
            out.extend_from_slice(b"E")?;
            digits_of_place(out, left.0)?;
            out.extend_from_slice(b",")?;
            digits_of_place(out, right.0)
        }
        Atom::Pred(term) => {
            out.extend_from_slice(b"P")?;
            digits_of_place(out, term.0)
        }
        Atom::Card(sort, k) => {
            out.extend_from_slice(b"C")?;
            digits_of_place(out, sort.0)?;
            out.extend_from_slice(b",")?;
            print_digits(out, k)
        }
        Atom::Bound(n) => {
            out.extend_from_slice(b"B")?;
            print_digits(out, n)
        }
    }
}

fn print_literal(out: &mut Vec<u8>, lit: Literal) -> Result<(), AllocError>
    ensures whole { OnOk result (out.new.items ≡ out.old.items ++ spelling_of_literal lit) }
    ensures fits { OnOk result (IsOrdered lit → FitsLiteral lit) }
{
    out.extend_from_slice(b" ")?;
    print_sign(out, lit.positive)?;
    print_atom(out, lit.atom)
}

fn print_literals(out: &mut Vec<u8>, lits: &[Literal]) -> Result<(), AllocError>
    ensures whole { OnOk result (out.new.items ≡ out.old.items ++ flat_map spelling_of_literal lits.now) }
    ensures fits { OnOk result (AllByRecursion IsOrdered lits.now → AllByRecursion FitsLiteral lits.now) }
{
    for lit in lits {
        print_literal(out, *lit)?;
    }
    Ok(())
}

fn print_step(out: &mut Vec<u8>, lit: Literal, clause: usize) -> Result<(), AllocError>
    ensures whole { OnOk result (out.new.items ≡ out.old.items ++ spelling_of_step (lit, clause)) }
    ensures fits { OnOk result (IsOrdered lit → FitsStep (lit, clause)) }
{
    out.extend_from_slice(b" ")?;
    print_sign(out, lit.positive)?;
    print_atom(out, lit.atom)?;
    print_place(out, clause)
}

fn print_steps(out: &mut Vec<u8>, steps: &[(Literal, usize)]) -> Result<(), AllocError>
    ensures whole { OnOk result (out.new.items ≡ out.old.items ++ flat_map spelling_of_step steps.now) }
    ensures fits { OnOk result (AllByRecursion IsOrderedStep steps.now → AllByRecursion FitsStep steps.now) }
{
    for step in steps {
        print_step(out, step.0, step.1)?;
    }
    Ok(())
}

// A word, the number of a symbol or a clause, and terms.
fn print_application(
    out: &mut Vec<u8>,
    word: u8,
    number: usize,
    terms: &Items<TermId>,
) -> Result<(), AllocError>
    ensures whole { OnOk result (out.new.items ≡ out.old.items ++ (word ∷ spelling_of_number number ++ flat_map spelling_of_term terms.now)) }
    ensures number { OnOk result (IsNumber number) }
    ensures fits { OnOk result (AllByRecursion FitsTerm terms.now) }
{
    out.extend_from_slice(&[word])?;
    print_place(out, number)?;
    print_terms(out, terms.as_slice())
}

fn print_equality(
    out: &mut Vec<u8>,
    lits: &Items<Literal>,
    support: &Items<TermId>,
) -> Result<(), AllocError>
    ensures whole { OnOk result (out.new.items ≡ out.old.items ++ (codes "e" ++ flat_map spelling_of_literal lits.now ++ codes " /" ++ flat_map spelling_of_term support.now)) }
    ensures lits { OnOk result (AllByRecursion IsOrdered lits.now → AllByRecursion FitsLiteral lits.now) }
    ensures support { OnOk result (AllByRecursion FitsTerm support.now) }
{
    out.extend_from_slice(b"e")?;
    print_literals(out, lits.as_slice())?;
    out.extend_from_slice(b" /")?;
    print_terms(out, support.as_slice())
}

fn print_line(out: &mut Vec<u8>, line: &Line) -> Result<(), AllocError>
    ensures whole { OnOk result (out.new.items ≡ out.old.items ++ spelling_of_line line.now) }
    ensures fits { OnOk result (IsPrintable line.now → FitsLine line.now) }
{
    match line {
        Line::Term { symbol, args } => print_application(out, b't', symbol.0, args)?,
        Line::Equality { lits, support } => print_equality(out, lits, support)?,
        Line::Cardinality { sort, k, terms } => {
            out.extend_from_slice(b"c")?;
            print_place(out, sort.0)?;
            print_number(out, *k)?;
            print_terms(out, terms.as_slice())?;
        }
        Line::OrderCard { sort, k } => {
            out.extend_from_slice(b"o c")?;
            print_place(out, sort.0)?;
            print_number(out, *k)?;
        }
        Line::OrderBound { n } => {
            out.extend_from_slice(b"o b")?;
            print_number(out, *n)?;
        }
        Line::Instance { clause, terms } => print_application(out, b'i', *clause, terms)?,
        Line::Sum { n, ks } => {
            out.extend_from_slice(b"s")?;
            print_number(out, *n)?;
            print_numbers(out, ks.as_slice())?;
        }
        Line::OrderZero { sort } => {
            out.extend_from_slice(b"o z")?;
            print_place(out, sort.0)?;
        }
        Line::Resolution { first, steps } => {
            out.extend_from_slice(b"r")?;
            print_place(out, *first)?;
            print_steps(out, steps.as_slice())?;
        }
    }
    end_line(out)
}

fn print_lines(out: &mut Vec<u8>, lines: &[Line]) -> Result<(), AllocError>
    ensures whole { OnOk result (out.new.items ≡ out.old.items ++ flat_map spelling_of_line lines.now) }
    ensures fits { OnOk result (AllByRecursion IsPrintable lines.now → AllByRecursion FitsLine lines.now) }
{
    for line in lines {
        print_line(out, line)?;
    }
    Ok(())
}

fn print_exception(out: &mut Vec<u8>, exception: &(Items<u64>, u64)) -> Result<(), AllocError>
    ensures whole { OnOk result (out.new.items ≡ out.old.items ++ spelling_of_exception exception.now) }
    ensures fits { OnOk result (FitsException exception.now) }
{
    out.extend_from_slice(b"x")?;
    print_numbers(out, exception.0.as_slice())?;
    print_number(out, exception.1)?;
    end_line(out)
}

fn print_exceptions(out: &mut Vec<u8>, except: &[(Items<u64>, u64)]) -> Result<(), AllocError>
    ensures whole { OnOk result (out.new.items ≡ out.old.items ++ flat_map spelling_of_exception except.now) }
    ensures fits { OnOk result (AllByRecursion FitsException except.now) }
{
    for exception in except {
        print_exception(out, exception)?;
    }
    Ok(())
}

fn print_table(out: &mut Vec<u8>, table: &Table) -> Result<(), AllocError>
    ensures whole { OnOk result (out.new.items ≡ out.old.items ++ spelling_of_table table.now) }
    ensures fits { OnOk result (FitsTable table.now) }
{
    out.extend_from_slice(b"d")?;
    print_number(out, table.default)?;
    end_line(out)?;
    print_exceptions(out, table.except.as_slice())
}

fn print_tables(out: &mut Vec<u8>, tables: &[Table]) -> Result<(), AllocError>
    ensures whole { OnOk result (out.new.items ≡ out.old.items ++ flat_map spelling_of_table tables.now) }
    ensures fits { OnOk result (AllByRecursion FitsTable tables.now) }
{
    for table in tables {
        print_table(out, table)?;
    }
    Ok(())
}

fn print_model(out: &mut Vec<u8>, model: &Interp) -> Result<(), AllocError>
    ensures whole { OnOk result (out.new.items ≡ out.old.items ++ spelling_of_model model.now) }
    ensures fits { OnOk result (AllByRecursion IsNumber model.now.sizes) }
    ensures tables { OnOk result (AllByRecursion FitsTable model.now.tables) }
{
    out.extend_from_slice(b"z")?;
    print_numbers(out, model.sizes.as_slice())?;
    end_line(out)?;
    print_tables(out, model.tables.as_slice())
}

fn print_claim(out: &mut Vec<u8>, claim: &Claim) -> Result<(), AllocError>
    ensures whole { OnOk result (out.new.items ≡ out.old.items ++ spelling_of_claim claim.now) }
    ensures fits { OnOk result (FitsClaim claim.now) }
{
    match claim {
        Claim::Unsat => {
            out.extend_from_slice(b"q unsat")?;
            end_line(out)
        }
        Claim::Sat { sum, model } => {
            out.extend_from_slice(b"q sat")?;
            print_number(out, *sum)?;
            end_line(out)?;
            print_model(out, model)
        }
        Claim::Unknown {
            instances,
            decisions,
        } => {
            out.extend_from_slice(b"q unknown")?;
            print_number(out, *instances)?;
            print_number(out, *decisions)?;
            end_line(out)
        }
    }
}
