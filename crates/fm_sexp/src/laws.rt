ghost use Rattle.std.specs.Prelude.{◌≡◌, ◌⊎◌, ℕ, List, length, true};
ghost use Rattle.fm_base.specs.declared.refusal.Refusal.{Refusal as TheRefusal};
ghost use Rattle.fm_sexp.specs.Items.{ReadsAs, IsRefused, all_within};
ghost use Rattle.fm_sexp.specs.declared.items.Sexp.{Sexp as TheSexp};

/// A text reads as at most one list of items.
pub fn one_reading()
    ensures { (text : List ℕ) (xs ys : List TheSexp) → ReadsAs text xs → ReadsAs text ys → xs ≡ ys }
{}

/// A text that reads as items is not refused.
pub fn not_both()
    ensures { (text : List ℕ) (items : List TheSexp) (r : TheRefusal) → ReadsAs text items → IsRefused text r → ⊥ }
{}

/// A text has at most one refusal.
pub fn one_refusal()
    ensures { (text : List ℕ) (r q : TheRefusal) → IsRefused text r → IsRefused text q → r ≡ q }
{}

/// Each text reads as items or is refused.
pub fn one_of_both()
    ensures { (text : List ℕ) → ((items : List TheSexp) × ReadsAs text items) ⊎ ((r : TheRefusal) × IsRefused text r) }
{}

/// The spans of the items that a text reads as lie in it. Callers who take bytes by the spans of an item ask for this.
pub fn spans_lie_within()
    ensures { (text : List ℕ) (items : List TheSexp) → ReadsAs text items → all_within (length text) items ≡ true }
{}
