ghost use Rattle.std.specs.Prelude.{◌≡◌, ◌≢◌, IfSome, map, String, string_bytes, true};
ghost use Rattle.std.specs.Option.{option_map};
ghost use Rattle.fmf.specs.Asked.{IsApart, command_in};
ghost use Rattle.fmf.specs.Words.{are_two as are_two_names, check_of, command_of, is_name as is_name_of, is_script_name, solve_of};

use fm_session::Budget;

/// The name of the file that a certificate is written to.
pub const CERT: &str = "fmf.cert";

/// Standard input and output.
pub const DASH: &str = "-";

/// How much each `check-sat` may take.
pub const BUDGET: Budget = Budget {
    instances: 100_000,
    decisions: 1_000_000,
};

/// A script to solve, where its certificate goes, and how much each `check-sat` may take.
#[derive(Clone, Copy, Debug)]
pub struct Request<'a> {
    pub script: &'a str,
    pub cert: &'a str,
    pub budget: Budget,
}

/// A certificate to check for a script.
#[derive(Clone, Copy, Debug)]
pub struct Inquiry<'a> {
    pub script: &'a str,
    pub cert: &'a str,
}

/// What the words ask for.
#[derive(Clone, Copy, Debug)]
pub enum Command<'a> {
    Solve(Request<'a>),
    Check(Inquiry<'a>),
}

/// The command that the words give: `solve SCRIPT` or `check SCRIPT CERT`. A name isn't empty, and begins with `-` only as `-`
/// alone. The script that is solved isn't the certificate that is written, and the two files of `check` differ.
pub fn read_words<'a>(words: &'a [String]) -> Option<Command<'a>>
    ensures asked { option_map command_in result ≡ command_of (map (λ w. string_bytes w) words.now) }
    ensures apart { IfSome result IsApart }
{
    match words {
        [first, second] => solve(first.as_str(), second.as_str()),
        [first, second, third] => check(first.as_str(), second.as_str(), third.as_str()),
        _ => None,
    }
}

fn solve<'a>(first: &'a str, script: &'a str) -> Option<Command<'a>>
    ensures asked { option_map command_in result ≡ solve_of first.now script.now }
    ensures apart { IfSome result IsApart }
{
    if first == "solve" && is_script(script) {
        Some(Command::Solve(Request {
            script,
            cert: CERT,
            budget: BUDGET,
        }))
    } else {
        None
    }
}

fn check<'a>(first: &'a str, script: &'a str, cert: &'a str) -> Option<Command<'a>>
    ensures asked { option_map command_in result ≡ check_of first.now script.now cert.now }
    ensures apart { IfSome result IsApart }
{
    if first == "check" && are_two(script, cert) {
        Some(Command::Check(Inquiry { script, cert }))
    } else {
        None
    }
}

fn is_name(name: &str) -> bool
    ensures { result ≡ is_name_of name.now }
{
    match name.as_bytes() {
        [] => false,
        [first, rest @ ..] => *first != b'-' || rest.is_empty(),
    }
}

fn is_script(name: &str) -> bool
    ensures { result ≡ is_script_name name.now }
{
    is_name(name) && name != CERT
}

fn are_two(script: &str, cert: &str) -> bool
    ensures two { result ≡ are_two_names script.now cert.now }
    ensures apart { result ≡ true → script.now ≢ cert.now }
{
    is_name(script) && is_name(cert) && script != cert
}
