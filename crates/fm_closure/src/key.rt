ghost use Rattle.std.specs.Prelude.{◌≡◌, ◌++◌, ◌∷◌};
ghost use Rattle.std.specs.Cmp.{on_equiv, on_per, partial_equiv_from_equiv};
ghost use Rattle.std.specs.Cmp.Lexicographic.{nat_list_eq_equiv};
ghost use Rattle.std.specs.Hash as fed;
ghost use Rattle.fm_bank.specs.Terms.{is_same};
ghost use Rattle.std.specs.Cmp.Rules.{hashing};
ghost use Rattle.std.proofs.Common.{rules};

use smallvec::SmallVec;
use std::hash::{Hash, Hasher};
use std::marker::Model;

// The classes of the arguments of a term: few mostly, and then they need no memory of their own.
pub(crate) type Args = SmallVec<usize, 4>;

// The signature of a term: its symbol, and the classes of its arguments.
#[derive(Drop)]
pub(crate) struct Key {
    symbol: usize,
    args: Args,
}

impl Model for Key {
    ghost use Rattle.fm_bank.specs.Terms.{Term, term_code};

    ghost Value = { Term };

    ghost coded = { term_code };

    ghost view = { λ k. record { symbol = k.symbol; args = k.args.items } };
}

impl Key {
    /// The signature of a symbol and the classes of its arguments.
    pub fn new(symbol: usize, args: Args) -> Key
        ensures { result ≡ record { symbol = symbol; args = args.items } }
    {
        Key { symbol, args }
    }
}

impl PartialEq for Key {
    ghost eq = { is_same };

    ghost laws = { on_per (λ k. k.symbol ∷ k.args) (partial_equiv_from_equiv nat_list_eq_equiv) };

    fn eq(&self, other: &Key) -> bool {
        self.symbol == other.symbol && self.args == other.args
    }
}

impl Eq for Key {
    ghost laws = { on_equiv (λ k. k.symbol ∷ k.args) nat_list_eq_equiv };
}

impl Hash for Key {
    ghost hash_input = { λ k. fed.usize k.symbol ++ fed.slice fed.usize k.args };

    ghost respects_eq = { Prim.search (hashing, rules) };

    fn hash<H: Hasher>(&self, state: &mut H) {
        self.symbol.hash(state);
        self.args.hash(state);
    }
}
