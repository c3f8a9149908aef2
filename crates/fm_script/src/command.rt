use fm_base::Place;
use fm_sexp::Sexp;

/// A word of a command. Its bytes are a name without its bars, or the text of another word.
#[derive(Clone, Copy, Debug)]
pub struct Part<'a> {
    pub bytes: &'a [u8],
    pub at: Place,
}

/// A numeral of a command.
#[derive(Clone, Copy, Debug, PartialEq, Eq)]
pub struct Number {
    pub value: u64,
    pub at: Place,
}

/// A command, with the place of its parenthesis and the parts of its shape in order.
#[derive(Drop)]
pub enum Command<'a> {
    SetLogic {
        at: Place,
        name: Part<'a>,
    },
    SetOption {
        at: Place,
        keyword: Part<'a>,
        item: &'a Sexp,
    },
    SetInfo {
        at: Place,
        keyword: Part<'a>,
        item: Option<&'a Sexp>,
    },
    GetInfo {
        at: Place,
        keyword: Part<'a>,
    },
    DeclareSort {
        at: Place,
        name: Part<'a>,
        arity: Number,
    },
    DefineSort {
        at: Place,
        name: Part<'a>,
        params: &'a Sexp,
        sort: &'a Sexp,
    },
    DeclareConst {
        at: Place,
        name: Part<'a>,
        sort: &'a Sexp,
    },
    DeclareFun {
        at: Place,
        name: Part<'a>,
        args: Vec<&'a Sexp>,
        sort: &'a Sexp,
    },
    DefineFun {
        at: Place,
        name: Part<'a>,
        params: Vec<(Part<'a>, &'a Sexp)>,
        sort: &'a Sexp,
        body: &'a Sexp,
    },
    Assert {
        at: Place,
        term: &'a Sexp,
    },
    Push {
        at: Place,
        levels: Option<Number>,
    },
    Pop {
        at: Place,
        levels: Option<Number>,
    },
    CheckSat {
        at: Place,
    },
    GetModel {
        at: Place,
    },
    Exit {
        at: Place,
    },
    GetValue {
        at: Place,
        terms: Vec<&'a Sexp>,
    },
    Echo {
        at: Place,
        text: Part<'a>,
    },
}
