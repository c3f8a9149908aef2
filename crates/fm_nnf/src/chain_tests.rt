// The way of the clauses, by the public laws alone: a formula is lifted, and then the lifted formula and its definitions
// are brought into normal form, one after another.
ghost use Rattle.fm_nnf.specs.Chains.{LiftedFormsSayTheSame};

use crate::{expansions_keep_truth, lifting_says_the_same, normal_form_says_the_same};

fn lifted_forms_say_the_same()
    ensures { LiftedFormsSayTheSame }
{
    lifting_says_the_same();
    normal_form_says_the_same();
    expansions_keep_truth();
}

#[test]
fn laws_go_one_after_another() {
    lifted_forms_say_the_same();
}
