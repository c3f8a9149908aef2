ghost use Rattle.std.specs.Prelude.{◌≡◌};

use std::marker::Model;

// A registered term: its number, its symbol, and the numbers of its arguments.
#[derive(Drop)]
pub(crate) struct Member {
    number: usize,
    symbol: usize,
    args: Vec<usize>,
}

impl Model for Member {
    ghost use Rattle.fm_bank.specs.Closure.{Shape};

    ghost Value = { Shape };

    ghost view = { λ m. record { number = m.number; symbol = m.symbol; args = m.args.items } };
}

impl Member {
    /// A term by its number, its symbol and its arguments.
    pub fn new(number: usize, symbol: usize, args: Vec<usize>) -> Member
        ensures { result ≡ record { number = number; symbol = symbol; args = args.items } }
    {
        Member {
            number,
            symbol,
            args,
        }
    }

    /// Its number.
    pub fn number(&self) -> usize
        ensures { result ≡ self.now.number }
    {
        self.number
    }

    /// The number of its symbol.
    pub fn symbol(&self) -> usize
        ensures { result ≡ self.now.symbol }
    {
        self.symbol
    }

    /// The numbers of its arguments, in order.
    pub fn args(&self) -> &[usize]
        ensures { result.now ≡ self.now.args }
    {
        self.args.as_slice()
    }
}
