ghost use Rattle.std.specs.Prelude.{◌≡◌, true, map};
ghost use Rattle.fm_base.specs.Truth.{is_bool};
ghost use Rattle.fm_sexp.specs.Items.{all_within, bars_of, spans_within};
ghost use Rattle.fm_arena.specs.Trees.{all_things};
ghost use Rattle.fm_arena.specs.Meanings.{terms_of};
ghost use Rattle.fm_levels.specs.Levels.{joined};
ghost use Rattle.fm_apply.specs.Scoped.{AreInForce, IsInForce};

use crate::shown::{shown, shown_fail};
use crate::{
    Elaborated, Function, Levels, NameSet, Scope, Stands, Table, distinct_names, elaborate,
};
use fm_apply::same_type;
use fm_arena::Arena;
use fm_base::{Fail as Failure, Memory, Place, SortId, SymId, Ty};
use fm_script::{Command, Part, name, read_command};
use fm_sexp::{Kind, Sexp, read_sexps};
use sqlite_items::Items;
use std::alloc::Global;
use std::test::Fail;

// The first line of each script. The symbols a, b, v, f, g, p, s, q, r have the numbers from 0 on.
const FIRST: &[u8] =
    b"(declare-sort U 0)(declare-sort V 0)(define-sort W () U)(define-sort T () Bool)\
(declare-const a U)(declare-const b U)(declare-const v V)(declare-fun f (U) U)(declare-fun g (U V) U)\
(declare-fun p (U) Bool)(declare-fun s (V) Bool)(declare-const q Bool)(declare-const r Bool)\
(define-fun eq ((x U) (y U)) Bool (= x y))(define-fun flip ((m Bool)) Bool (not m))\
(define-fun apart ((x U)) Bool (exists ((y U)) (not (= x y))))(define-fun drop ((x U)) U a)\
(define-fun fa () U (f a))(define-fun pick ((m Bool) (x U) (y U)) U (ite m x y))";

// What stands declared and defined, and the number of the term that was elaborated last.
#[derive(Drop)]
struct World<'a> {
    sorts: Levels<'a, Ty>,
    functions: Levels<'a, Function>,
    arena: Arena,
    last: usize,
}

// The bytes of a word that its name leaves out.
fn bars(kind: Kind) -> usize
    ensures { result ≡ bars_of kind }
{
    match kind {
        Kind::Quoted => 2,
        _ => 0,
    }
}

// Whether an item lies within a text of so many bytes.
#[cycle(lying)]
fn lies_within(len: usize, item: &Sexp) -> bool
    ensures { result ≡ true → spans_within len item.now ≡ true }
{
    match item {
        Sexp::Word {
            kind,
            start,
            end,
            ..
        } => *end <= len && *start <= *end && bars(*kind) <= *end - *start,
        Sexp::List {
            items,
            start,
            end,
            ..
        } => *end <= len && *start <= *end && all_lie_within(len, items.as_slice()),
    }
}

#[cycle(lying)]
fn all_lie_within(len: usize, items: &[Sexp]) -> bool
    ensures { result ≡ true → all_within len items.now ≡ true }
{
    for item in items {
        if !lies_within(len, item) {
            return false;
        }
    }
    true
}

// Whether no type is Bool.
fn are_things(types: &[Ty]) -> bool
    ensures { result ≡ all_things (map is_bool types.now) }
{
    for ty in types {
        if ty.is_bool() {
            return false;
        }
    }
    true
}

// Whether a function may be in force.
fn stands_well(arena: &Arena, function: &Function) -> bool
    ensures { result ≡ true → IsInForce (terms_of arena.now) function.now }
{
    match function.stands {
        Stands::Declared(_) => are_things(function.args.as_slice()),
        Stands::Defined(number) => {
            if number < arena.mark() {
                same_type(arena.ty(number), function.result)
            } else {
                false
            }
        }
    }
}

// Whether all functions may be in force.
fn all_stand_well(arena: &Arena, functions: &Levels<'_, Function>) -> bool
    ensures { result ≡ true → AreInForce (terms_of arena.now) (joined functions.now) }
{
    let Some(count) = functions.count() else {
        return false;
    };
    for place in 0..count {
        match functions.at(place) {
            None => return false,
            Some((_, function)) => {
                if !stands_well(arena, function) {
                    return false;
                }
            }
        }
    }
    true
}

// The type that an item names; Bool where it names none.
fn type_of(world: &World<'_>, text: &[u8], item: &Sexp) -> Ty {
    if !lies_within(text.len(), item) {
        return Ty::Bool;
    }
    match name(text, item) {
        None => Ty::Bool,
        Some(part) => match world.sorts.get(part.bytes) {
            None => Ty::Bool,
            Some(ty) => *ty,
        },
    }
}

fn declare<'a>(
    alloc: Global,
    world: &mut World<'a>,
    text: &'a [u8],
    name: Part<'a>,
    args: &[&'a Sexp],
    sort: &'a Sexp,
    symbol: usize,
) -> Result<(), Failure> {
    let mut types = Vec::new(alloc);
    for arg in args {
        types.push(type_of(world, text, arg))?;
    }
    let function = Function {
        args: Items::from_vec(types),
        result: type_of(world, text, sort),
        stands: Stands::Declared(SymId(symbol)),
    };
    match world.functions.insert(false, name.bytes, function) {
        Err(_) => Err(Failure::Memory),
        Ok(_) => Ok(()),
    }
}

// Puts the names that `:named` gave in force.
fn take_given<'a>(
    alloc: Global,
    world: &mut World<'a>,
    given: &Table<'a, usize>,
) -> Result<(), Failure> {
    for place in 0..given.len() {
        if let Some((name, number)) = given.at(place) {
            let function = Function {
                args: Items::new(alloc),
                result: world.arena.ty(*number),
                stands: Stands::Defined(*number),
            };
            match world.functions.insert(false, name, function) {
                Err(_) => return Err(Failure::Memory),
                Ok(_) => {}
            }
        }
    }
    Ok(())
}

// Elaborates a term, and puts the names that it gives in force.
fn read_term<'a>(
    alloc: Global,
    world: &mut World<'a>,
    text: &'a [u8],
    command: Place,
    own: Option<&'a [u8]>,
    names: NameSet<'a>,
    types: &[Ty],
    item: &'a Sexp,
) -> Result<(), Failure> {
    if !lies_within(text.len(), item)
        || !all_stand_well(&world.arena, &world.functions)
        || names.len() != types.len()
    {
        return Err(Failure::Memory);
    }
    let scope = Scope {
        text,
        sorts: &world.sorts,
        functions: &world.functions,
        command,
        own,
        naming: true,
    };
    let read = match elaborate(alloc, &scope, &mut world.arena, names, types, item) {
        Err(fail) => return Err(fail),
        Ok(read) => read,
    };
    let Elaborated { number, given } = read;
    world.last = number;
    take_given(alloc, world, &given)
}

fn define<'a>(
    alloc: Global,
    world: &mut World<'a>,
    text: &'a [u8],
    command: Place,
    name: Part<'a>,
    params: &[(Part<'a>, &'a Sexp)],
    body: &'a Sexp,
) -> Result<(), Failure> {
    let mut types = Vec::new(alloc);
    for param in params {
        types.push(type_of(world, text, param.1))?;
    }
    let names = match distinct_names(alloc, params) {
        Err(fail) => return Err(fail),
        Ok(names) => names,
    };
    let own = Some(name.bytes);
    match read_term(
        alloc,
        world,
        text,
        command,
        own,
        names,
        types.as_slice(),
        body,
    ) {
        Err(fail) => return Err(fail),
        Ok(()) => {}
    }
    let Ok(number) = world
        .arena
        .define(alloc, world.last, types.as_slice().len())
    else {
        return Err(Failure::Memory);
    };
    let function = Function {
        result: world.arena.ty(number),
        args: Items::from_vec(types),
        stands: Stands::Defined(number),
    };
    match world.functions.insert(false, name.bytes, function) {
        Err(_) => Err(Failure::Memory),
        Ok(_) => Ok(()),
    }
}

// Puts a sort in force.
fn add_sort<'a>(world: &mut World<'a>, name: Part<'a>, ty: Ty) -> Result<(), Failure> {
    match world.sorts.insert(false, name.bytes, ty) {
        Err(_) => Err(Failure::Memory),
        Ok(_) => Ok(()),
    }
}

fn apply<'a>(
    alloc: Global,
    world: &mut World<'a>,
    text: &'a [u8],
    command: Command<'a>,
    sorts: &mut usize,
    symbols: &mut usize,
) -> Result<(), Failure> {
    match command {
        Command::DeclareSort { name, .. } => {
            let number = *sorts;
            *sorts = number.saturating_add(1);
            add_sort(world, name, Ty::Of(SortId(number)))
        }
        Command::DefineSort { name, sort, .. } => {
            let ty = type_of(world, text, sort);
            add_sort(world, name, ty)
        }
        Command::DeclareConst { name, sort, .. } => {
            let number = *symbols;
            *symbols = number.saturating_add(1);
            declare(alloc, world, text, name, &[], sort, number)
        }
        Command::DeclareFun {
            name,
            args,
            sort,
            ..
        } => {
            let number = *symbols;
            *symbols = number.saturating_add(1);
            declare(alloc, world, text, name, args.as_slice(), sort, number)
        }
        Command::DefineFun {
            at,
            name,
            params,
            body,
            ..
        } => define(alloc, world, text, at, name, params.as_slice(), body),
        Command::Assert { at, term } => {
            let names = NameSet::new(alloc);
            read_term(alloc, world, text, at, None, names, &[], term)
        }
        _ => Ok(()),
    }
}

// Carries out the commands of a text up to the first that is refused.
fn apply_all<'a>(
    alloc: Global,
    world: &mut World<'a>,
    text: &'a [u8],
    items: &'a [Sexp],
) -> Result<(), Failure> {
    let mut sorts = 0;
    let mut symbols = 0;
    for item in items {
        if !lies_within(text.len(), item) {
            return Err(Failure::Memory);
        }
        let command = match read_command(alloc, text, item) {
            Err(fail) => return Err(fail),
            Ok(command) => command,
        };
        match apply(alloc, world, text, command, &mut sorts, &mut symbols) {
            Err(fail) => return Err(fail),
            Ok(()) => {}
        }
    }
    Ok(())
}

// The text of the last term of a script behind the first line, or of the first refusal.
fn answer_of(alloc: Global, script: &[u8]) -> Result<Vec<u8>, Memory> {
    let mut text = Vec::from_slice(alloc, FIRST)?;
    text.push(b'\n')?;
    text.extend_from_slice(script)?;
    let items = match read_sexps(alloc, text.as_slice()) {
        Err(fail) => return shown_fail(alloc, fail),
        Ok(items) => items,
    };
    let mut world = World {
        sorts: Levels::new(alloc),
        functions: Levels::new(alloc),
        arena: Arena::new(alloc),
        last: 0,
    };
    match apply_all(alloc, &mut world, text.as_slice(), items.as_slice()) {
        Err(fail) => shown_fail(alloc, fail),
        Ok(()) => shown(alloc, &world.arena, world.last),
    }
}

// An assertion of nested `let`s of x: the first term, so many times the next one, and the last.
fn nested(
    alloc: Global,
    first: &[u8],
    next: &[u8],
    times: usize,
    last: &[u8],
) -> Result<Vec<u8>, Memory> {
    let mut text = Vec::from_slice(alloc, b"(assert (let ((x ")?;
    text.extend_from_slice(first)?;
    text.extend_from_slice(b")) ")?;
    for _ in 0..times {
        text.extend_from_slice(b"(let ((x ")?;
        text.extend_from_slice(next)?;
        text.extend_from_slice(b")) ")?;
    }
    text.extend_from_slice(last)?;
    for _ in 0..times {
        text.push(b')')?;
    }
    text.extend_from_slice(b"))")?;
    Ok(text)
}

// Refusal 17, at the command: 2^19 - 1 nodes are few enough and 2^20 - 1 too many; a depth of 400 is lawful. What is
// dropped is tested too, and the size comes before the sort.
#[test]
fn too_large(rt: HostRuntime) -> Result<(), Fail> {
    let rows: [(&[u8], &[u8], usize, &[u8], &[u8]); 9] = [
        (b"(and q q)", b"(and x x)", 17, b"q", b"q"),
        (b"(and q q)", b"(and x x)", 18, b"q", b"17 2:1"),
        (b"(and q q)", b"(and x x)", 17, b"(and x x)", b"17 2:1"),
        (
            b"(and q q)",
            b"(and x x)",
            17,
            b"(p (drop (ite (and x x) a b)))",
            b"17 2:1",
        ),
        (
            b"(and q q)",
            b"(and x x)",
            17,
            b"(and (and x x) a zz)",
            b"17 2:1",
        ),
        (
            b"(and q q)",
            b"(and x x)",
            17,
            b"(and (and x a) (and x x))",
            b"13 2:399",
        ),
        (b"q", b"(not (not (not x)))", 133, b"q", b"q"),
        (b"q", b"(not (not (not x)))", 133, b"(not x)", b"17 2:1"),
        (b"q", b"(not (not (not x)))", 133, b"(flip x)", b"17 2:1"),
    ];
    for (first, next, times, last, answer) in rows {
        let script = nested(rt.alloc(), first, next, times, last)?;
        let found = answer_of(rt.alloc(), script.as_slice())?;
        assert_eq!(rt; found.as_slice(), answer);
    }
    Ok(())
}

// Core, each operator and its chain.
#[test]
fn core(rt: HostRuntime) -> Result<(), Fail> {
    let rows: [(&[u8], &[u8]); 27] = [
        (b"(assert true)", b"t"),
        (b"(assert false)", b"n"),
        (b"(assert q)", b"q"),
        (b"(assert (p a))", b"pa"),
        (b"(assert (p (g (f b) v)))", b"pgfbv"),
        (b"(assert (not q))", b"!q"),
        (b"(assert (and q))", b"&q;"),
        (b"(assert (and q r q))", b"&qrq;"),
        (b"(assert (or r))", b"|r;"),
        (b"(assert (or q (or r q)))", b"|q|rq;;"),
        (b"(assert (=> q r))", b"|!qr;"),
        (b"(assert (=> q r (p a)))", b"|!q|!rpa;;"),
        (b"(assert (=> q r q r))", b"|!q|!r|!qr;;;"),
        (b"(assert (xor q r))", b"!~qr"),
        (b"(assert (xor q r (p a)))", b"!~!~qrpa"),
        (b"(assert (= a b))", b"=ab"),
        (b"(assert (= q r))", b"~qr"),
        (b"(assert (= a b (f a)))", b"&=ab=bfa;"),
        (b"(assert (= q r q r))", b"&~qr~rq~qr;"),
        (b"(assert (distinct a b))", b"&!=ab;"),
        (b"(assert (distinct q r))", b"&!~qr;"),
        (b"(assert (distinct a b (f a)))", b"&!=ab!=afa!=bfa;"),
        (b"(assert (ite q r (p a)))", b"?qrpa"),
        (b"(assert (p (ite q a b)))", b"p/qab"),
        (b"(assert (= (ite q a b) b))", b"=/qabb"),
        (b"(assert (|and| q |r|))", b"&qr;"),
        (b"(assert (and true (not false)))", b"&t!n;"),
    ];
    for (script, answer) in rows {
        let found = answer_of(rt.alloc(), script)?;
        assert_eq!(rt; found.as_slice(), answer);
    }
    Ok(())
}

// Quantifiers and `let`.
#[test]
fn binders(rt: HostRuntime) -> Result<(), Fail> {
    let rows: [(&[u8], &[u8]); 20] = [
        (b"(assert (forall ((x U)) (p x)))", b"AU.p0"),
        (b"(assert (exists ((x U) (y V)) (p (g x y))))", b"EUV.pg01"),
        (
            b"(assert (forall ((x U)) (exists ((y U)) (= x y))))",
            b"AU.EU.=01",
        ),
        (
            b"(assert (and (forall ((x U)) (p x)) (exists ((y U)) (p y))))",
            b"&AU.p0EU.p0;",
        ),
        (
            b"(assert (forall ((x U)) (exists ((x V)) (s x))))",
            b"AU.EV.s1",
        ),
        (b"(assert (forall ((x W)) (p x)))", b"AU.p0"),
        (b"(assert (forall ((a U)) (p a)))", b"AU.p0"),
        (b"(assert (forall ((p U)) (p p)))", b"AU.p0"),
        (b"(assert (exists ((true U)) (p true)))", b"EU.p0"),
        (b"(assert (exists ((and U)) (and (p and))))", b"EU.&p0;"),
        (b"(assert (exists ((U U)) (p U)))", b"EU.p0"),
        (b"(assert (let ((x a)) (p x)))", b"pa"),
        (b"(assert (let ((x q)) (and x (not x))))", b"&q!q;"),
        (
            b"(assert (let ((x a) (y b)) (let ((x y) (y x)) (= x y))))",
            b"=ba",
        ),
        (b"(assert (let ((x a)) (let ((x (f x))) (p x))))", b"pfa"),
        (b"(assert (let ((a b)) (p a)))", b"pb"),
        (b"(assert (let ((x a)) q))", b"q"),
        (b"(assert (forall ((x U)) (let ((x a)) (p x))))", b"AU.pa"),
        (
            b"(assert (forall ((x U)) (let ((z (f x))) (exists ((x U)) (= x z)))))",
            b"AU.EU.=1f0",
        ),
        (
            b"(assert (forall ((x U)) (let ((z (exists ((y U)) (= x y)))) (exists ((y U)) (and z (= x y))))))",
            b"AU.EU.&EU.=02=01;",
        ),
    ];
    for (script, answer) in rows {
        let found = answer_of(rt.alloc(), script)?;
        assert_eq!(rt; found.as_slice(), answer);
    }
    Ok(())
}

// Uses of definitions, whose variables capture none of their arguments.
#[test]
fn definitions(rt: HostRuntime) -> Result<(), Fail> {
    let rows: [(&[u8], &[u8]); 18] = [
        (b"(assert (eq a b))", b"=ab"),
        (b"(assert (flip q))", b"!q"),
        (b"(assert (flip (flip r)))", b"!!r"),
        (b"(assert (apart a))", b"EU.!=a0"),
        (b"(assert (forall ((y U)) (apart y)))", b"AU.EU.!=01"),
        (b"(assert (forall ((y U)) (apart (f y))))", b"AU.EU.!=f01"),
        (
            b"(assert (forall ((x U)) (exists ((y U)) (eq y x))))",
            b"AU.EU.=10",
        ),
        (
            b"(assert (forall ((y U)) (flip (apart y))))",
            b"AU.!EU.!=01",
        ),
        (
            b"(assert (forall ((y U)) (flip (exists ((x U)) (= x y)))))",
            b"AU.!EU.=10",
        ),
        (b"(assert (p (drop b)))", b"pa"),
        (b"(assert (p fa))", b"pfa"),
        (b"(assert (p (pick q a b)))", b"p/qab"),
        (
            b"(assert (p (pick (exists ((z U)) (p z)) a (pick r b a))))",
            b"p/EU.p0a/rba",
        ),
        (b"(assert (let ((x b)) (eq x (drop x))))", b"=ba"),
        (
            b"(define-fun d ((x U)) Bool (apart (f x)))(assert (exists ((y U)) (d y)))",
            b"EU.EU.!=f01",
        ),
        (
            b"(define-fun d ((x U) (m Bool)) Bool (and m (exists ((y U)) (= x y))))(assert (forall ((z U)) (d z (p z))))",
            b"AU.&p0EU.=01;",
        ),
        (
            b"(define-fun eq2 ((y U) (x U)) Bool (eq x y))(assert (eq2 a b))",
            b"=ba",
        ),
        (
            b"(define-fun d ((q Bool)) Bool (not q))(assert (d r))",
            b"!r",
        ),
    ];
    for (script, answer) in rows {
        let found = answer_of(rt.alloc(), script)?;
        assert_eq!(rt; found.as_slice(), answer);
    }
    Ok(())
}

// Names that `:named` gives.
#[test]
fn names(rt: HostRuntime) -> Result<(), Fail> {
    let rows: [(&[u8], &[u8]); 22] = [
        (b"(assert (! q :named n))", b"q"),
        (b"(assert (and (! q :named n) n))", b"&qq;"),
        (b"(assert (and (! (p a) :named n) (not n)))", b"&pa!pa;"),
        (b"(assert (! (! q :named n) :named m))", b"q"),
        (b"(assert (and (! q :named n :named m) n m))", b"&qqq;"),
        (b"(assert (= (! a :named n) n))", b"=aa"),
        (b"(assert (p (! (f b) :named n)))", b"pfb"),
        (
            b"(assert (and (! q :named n) (! (not n) :named m) (not m)))",
            b"&q!q!!q;",
        ),
        (
            b"(assert (forall ((x U)) (and (p x) (! q :named n) n)))",
            b"AU.&p0qq;",
        ),
        (
            b"(assert (forall ((x U)) (! (exists ((y U)) (p y)) :named n)))",
            b"AU.EU.p1",
        ),
        (
            b"(assert (and (! (forall ((x U)) (p x)) :named n) (forall ((y U)) (or n (p y)))))",
            b"&AU.p0AU.|AU.p1p0;;",
        ),
        (
            b"(assert (let ((x a)) (! (let ((x b)) (p x)) :named n)))",
            b"pb",
        ),
        (b"(assert (let ((n r)) (and (! q :named n) n)))", b"&qr;"),
        (b"(assert (! q :named U))", b"q"),
        (b"(assert (! q :named |n m|))", b"q"),
        (b"(assert (! q :pattern ()))", b"q"),
        (b"(assert (! q :pattern (5 zz) :weight 3))", b"q"),
        (b"(assert (! q :weight :named n))", b"q"),
        (b"(assert (! q :weight 3 :done))", b"q"),
        (b"(assert (! q :named n))(assert (not n))", b"!q"),
        (
            b"(define-fun d () Bool (! q :named n))(assert (and n d))",
            b"&qq;",
        ),
        (
            b"(define-fun d ((x U)) Bool (and (p x) (! q :named n)))(assert (or n (d a)))",
            b"|q&paq;;",
        ),
    ];
    for (script, answer) in rows {
        let found = answer_of(rt.alloc(), script)?;
        assert_eq!(rt; found.as_slice(), answer);
    }
    Ok(())
}

// Refusal 6.
#[test]
fn bad_shapes(rt: HostRuntime) -> Result<(), Fail> {
    let rows: [(&[u8], &[u8]); 52] = [
        (b"(assert 5)", b"6 2:9"),
        (b"(assert (and q 5))", b"6 2:16"),
        (b"(assert let)", b"6 2:9"),
        (b"(assert (p forall))", b"6 2:12"),
        (b"(assert ())", b"6 2:9"),
        (b"(assert (not (q)))", b"6 2:14"),
        (b"(assert (and))", b"6 2:9"),
        (b"(assert (5 q))", b"6 2:9"),
        (b"(assert ((f a) q))", b"6 2:9"),
        (b"(assert (as a U))", b"6 2:9"),
        (b"(assert (zz 5))", b"6 2:13"),
        (b"(assert (let ((x a)) q r))", b"6 2:9"),
        (b"(assert (let ((x a))))", b"6 2:9"),
        (b"(assert (let () zz))", b"6 2:9"),
        (b"(assert (let x zz))", b"6 2:9"),
        (b"(assert (let ((x)) zz))", b"6 2:9"),
        (b"(assert (let ((x a) y) zz))", b"6 2:9"),
        (b"(assert (let ((5 a)) zz))", b"6 2:9"),
        (b"(assert (let ((let a)) zz))", b"6 2:9"),
        (b"(assert (let ((x a b)) zz))", b"6 2:9"),
        (b"(assert (let ((x zz) (x a)) zz))", b"6 2:23"),
        (b"(assert (let ((x a) (y a) (|x| zz) (y a)) zz))", b"6 2:28"),
        (b"(assert (forall () zz))", b"6 2:9"),
        (b"(assert (forall ((x 5)) zz))", b"6 2:9"),
        (b"(assert (exists x zz))", b"6 2:9"),
        (b"(assert (forall ((x U)) q r))", b"6 2:9"),
        (b"(assert (forall ((x U y)) q))", b"6 2:9"),
        (b"(assert (forall ((x U) (x V)) zz))", b"6 2:25"),
        (b"(assert (exists ((x U) (y U) (y U) (x U)) zz))", b"6 2:31"),
        (b"(assert (!))", b"6 2:9"),
        (b"(assert (! zz))", b"6 2:9"),
        (b"(assert (! zz :a b c))", b"6 2:9"),
        (b"(assert (! zz n))", b"6 2:9"),
        (b"(assert (and q (! zz :a :b c d)))", b"6 2:16"),
        (b"(assert (! q :named))", b"6 2:9"),
        (b"(assert (! q :named 5))", b"6 2:9"),
        (b"(assert (! q :named (n)))", b"6 2:9"),
        (b"(assert (! q :named let))", b"6 2:9"),
        (b"(assert (! q :named :pattern (n)))", b"6 2:9"),
        (b"(assert (! q :pattern))", b"6 2:9"),
        (b"(assert (! q :pattern x))", b"6 2:9"),
        (b"(assert (! q :pattern :named n))", b"6 2:9"),
        (b"(assert (! q :a b :pattern x))", b"6 2:9"),
        (b"(assert (forall ((x U)) (! (p x) :named n)))", b"6 2:41"),
        (b"(assert (let ((x a)) (! (p x) :named n)))", b"6 2:38"),
        (
            b"(assert (forall ((x U)) (! (p (drop x)) :named n)))",
            b"6 2:48",
        ),
        (
            b"(assert (forall ((x U)) (! (let ((z x)) q) :named n)))",
            b"6 2:51",
        ),
        (
            b"(assert (forall ((x U)) (! (exists ((y U)) (= x y)) :named n)))",
            b"6 2:60",
        ),
        (
            b"(assert (let ((x a)) (let ((z x)) (! (p z) :named n))))",
            b"6 2:51",
        ),
        (
            b"(assert (forall ((x U)) (and (! q :named n) (! (p x) :named n))))",
            b"6 2:61",
        ),
        (
            b"(assert (forall ((x U)) (! (! (p x) :weight 1) :named q)))",
            b"6 2:55",
        ),
        (b"(define-fun d ((x U)) Bool (! (p x) :named n))", b"6 2:44"),
    ];
    for (script, answer) in rows {
        let found = answer_of(rt.alloc(), script)?;
        assert_eq!(rt; found.as_slice(), answer);
    }
    Ok(())
}

// Refusals 9, 14 and 15 of sorts, 10 of functions.
#[test]
fn unknown(rt: HostRuntime) -> Result<(), Fail> {
    let rows: [(&[u8], &[u8]); 34] = [
        (b"(assert (forall ((x Q)) zz))", b"9 2:21"),
        (b"(assert (exists ((x U) (y q) (x Q)) zz))", b"9 2:27"),
        (b"(assert (forall ((x a)) zz))", b"9 2:21"),
        (b"(assert (forall ((x (Q U))) zz))", b"14 2:21"),
        (b"(assert (forall ((x U) (y ())) zz))", b"14 2:27"),
        (b"(assert (forall ((x Bool)) zz))", b"15 2:21"),
        (b"(assert (forall ((x U) (x |Bool|)) zz))", b"15 2:27"),
        (b"(assert (exists ((x T) (y Q)) zz))", b"15 2:21"),
        (b"(assert zz)", b"10 2:9"),
        (b"(assert (p zz))", b"10 2:12"),
        (b"(assert (g a zz))", b"10 2:14"),
        (b"(assert (zz a))", b"10 2:10"),
        (b"(assert (zz a b))", b"10 2:10"),
        (b"(assert (zz yy))", b"10 2:13"),
        (b"(assert Bool)", b"10 2:9"),
        (b"(assert (Bool q))", b"10 2:10"),
        (b"(assert (let ((x zz)) yy))", b"10 2:18"),
        (b"(assert (let ((x a) (y zz)) q))", b"10 2:24"),
        (b"(assert (let ((x a) (y x)) q))", b"10 2:24"),
        (b"(assert (|let| a))", b"10 2:10"),
        (b"(assert (and (forall ((x U)) (p x)) (p x)))", b"10 2:40"),
        (b"(assert (exists ((x U)) (x a)))", b"10 2:26"),
        (b"(assert (true zz))", b"10 2:15"),
        (b"(assert U)", b"10 2:9"),
        (b"(assert (= n (! a :named n)))", b"10 2:12"),
        (b"(assert (! zz :named))", b"10 2:12"),
        (b"(assert (! zz :pattern x))", b"10 2:12"),
        (b"(assert (! (p n) :named n))", b"10 2:15"),
        (b"(assert (ite zz yy ww))", b"10 2:14"),
        (b"(assert (ite q a zz))", b"10 2:18"),
        (b"(assert (distinct a zz))", b"10 2:21"),
        (b"(define-fun d () Bool (and q d))", b"10 2:30"),
        (b"(define-fun d ((x U)) Bool (and q (d x)))", b"10 2:36"),
        (b"(assert (! q :named n))(assert (and n m))", b"10 2:39"),
    ];
    for (script, answer) in rows {
        let found = answer_of(rt.alloc(), script)?;
        assert_eq!(rt; found.as_slice(), answer);
    }
    Ok(())
}

// Refusal 11, of names that `:named` would give.
#[test]
fn taken(rt: HostRuntime) -> Result<(), Fail> {
    let rows: [(&[u8], &[u8]); 15] = [
        (b"(assert (! q :named q))", b"11 2:21"),
        (b"(assert (! q :named p))", b"11 2:21"),
        (b"(assert (! q :named eq))", b"11 2:21"),
        (b"(assert (! q :named true))", b"11 2:21"),
        (b"(assert (! q :named |ite|))", b"11 2:21"),
        (b"(assert (! q :named Bool))", b"11 2:21"),
        (b"(assert (! q :named @n))", b"11 2:21"),
        (b"(assert (! q :named |.n|))", b"11 2:21"),
        (b"(assert (! q :named n :named n))", b"11 2:30"),
        (b"(assert (and (! q :named n) (! r :named n)))", b"11 2:41"),
        (b"(assert (! (! q :named n) :named n))", b"11 2:34"),
        (b"(assert (! q :named r :pattern x))", b"11 2:21"),
        (b"(define-fun d () Bool (! q :named d))", b"11 2:35"),
        (
            b"(define-fun d ((x U)) Bool (and (p x) (! q :named d)))",
            b"11 2:51",
        ),
        (
            b"(assert (! q :named n))(assert (! r :named n))",
            b"11 2:44",
        ),
    ];
    for (script, answer) in rows {
        let found = answer_of(rt.alloc(), script)?;
        assert_eq!(rt; found.as_slice(), answer);
    }
    Ok(())
}

// Refusal 12.
#[test]
fn counted(rt: HostRuntime) -> Result<(), Fail> {
    let rows: [(&[u8], &[u8]); 30] = [
        (b"(assert not)", b"12 2:9"),
        (b"(assert distinct)", b"12 2:9"),
        (b"(assert p)", b"12 2:9"),
        (b"(assert (p f))", b"12 2:12"),
        (b"(assert (p drop))", b"12 2:12"),
        (b"(assert eq)", b"12 2:9"),
        (b"(assert (and q and))", b"12 2:16"),
        (b"(assert (not q r))", b"12 2:9"),
        (b"(assert (p a b))", b"12 2:9"),
        (b"(assert (p v v))", b"12 2:9"),
        (b"(assert (p (f a b)))", b"12 2:12"),
        (b"(assert (p (g a)))", b"12 2:12"),
        (b"(assert (ite q a))", b"12 2:9"),
        (b"(assert (ite q q q q))", b"12 2:9"),
        (b"(assert (ite a))", b"12 2:9"),
        (b"(assert (=> q))", b"12 2:9"),
        (b"(assert (=> a))", b"12 2:9"),
        (b"(assert (xor q))", b"12 2:9"),
        (b"(assert (= a))", b"12 2:9"),
        (b"(assert (distinct a))", b"12 2:9"),
        (b"(assert (true q))", b"12 2:9"),
        (b"(assert (and q (false a)))", b"12 2:16"),
        (b"(assert (q a))", b"12 2:9"),
        (b"(assert (p (a b)))", b"12 2:12"),
        (b"(assert (p (fa a)))", b"12 2:12"),
        (b"(assert (eq a))", b"12 2:9"),
        (b"(assert (eq v a a))", b"12 2:9"),
        (b"(assert (flip q r))", b"12 2:9"),
        (b"(assert (and (! q :named n) (n a)))", b"12 2:29"),
        (b"(assert (n (! q :named n)))", b"12 2:9"),
    ];
    for (script, answer) in rows {
        let found = answer_of(rt.alloc(), script)?;
        assert_eq!(rt; found.as_slice(), answer);
    }
    Ok(())
}

// Refusal 13.
#[test]
fn mismatched(rt: HostRuntime) -> Result<(), Fail> {
    let rows: [(&[u8], &[u8]); 35] = [
        (b"(assert (p v))", b"13 2:12"),
        (b"(assert (p q))", b"13 2:12"),
        (b"(assert (g v v))", b"13 2:12"),
        (b"(assert (g a b))", b"13 2:14"),
        (b"(assert (s (f a)))", b"13 2:12"),
        (b"(assert (not a))", b"13 2:14"),
        (b"(assert (and a q))", b"13 2:14"),
        (b"(assert (and q a))", b"13 2:16"),
        (b"(assert (or q r v))", b"13 2:17"),
        (b"(assert (or (f a) a))", b"13 2:13"),
        (b"(assert (=> a q))", b"13 2:13"),
        (b"(assert (=> q a))", b"13 2:15"),
        (b"(assert (=> q r a r))", b"13 2:17"),
        (b"(assert (xor a b))", b"13 2:14"),
        (b"(assert (xor q r a))", b"13 2:18"),
        (b"(assert (= a v))", b"13 2:14"),
        (b"(assert (= a b v a))", b"13 2:16"),
        (b"(assert (= q a))", b"13 2:14"),
        (b"(assert (= a q))", b"13 2:14"),
        (b"(assert (distinct a v))", b"13 2:21"),
        (b"(assert (distinct q r a))", b"13 2:23"),
        (b"(assert (ite a a b))", b"13 2:14"),
        (b"(assert (ite q a v))", b"13 2:18"),
        (b"(assert (ite q r a))", b"13 2:18"),
        (b"(assert (ite q a r))", b"13 2:18"),
        (b"(assert (ite v a q))", b"13 2:14"),
        (b"(assert (eq q a))", b"13 2:13"),
        (b"(assert (eq a v))", b"13 2:15"),
        (b"(assert (flip a))", b"13 2:15"),
        (b"(assert (pick q r a))", b"13 2:17"),
        (b"(assert (pick a a b))", b"13 2:15"),
        (b"(assert (forall ((x U)) x))", b"13 2:25"),
        (b"(assert (exists ((x U)) (f x)))", b"13 2:25"),
        (
            b"(assert (forall ((x U)) (let ((x a)) (and q x))))",
            b"13 2:45",
        ),
        (b"(assert (= (! a :named n) q))", b"13 2:27"),
    ];
    for (script, answer) in rows {
        let found = answer_of(rt.alloc(), script)?;
        assert_eq!(rt; found.as_slice(), answer);
    }
    Ok(())
}
