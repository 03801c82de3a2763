ghost use Rattle.std.specs.Prelude.{◌≡◌, List, ℤ};
ghost use Rattle.fzn_model.specs.declared.con.Con.{Con};
ghost use Rattle.fzn_model.specs.Meaning.{Holds};
ghost use Rattle.fzn_model.specs.Rests.{RestParts, IsRest};
ghost use Rattle.rest_key.specs.Weaker.{Weaker};
ghost use Rattle.rest_key.specs.Dominance.{Dominates, Includes};
ghost use Rattle.rest_key.specs.Words.{words_of};

/// A law of weaker constraints: one holds wherever a constraint does that it is weaker than.
pub fn weaker_holds_where_the_other_does()
    ensures { (c0 c : Con) (θ : List ℤ) → Weaker c0 c → Holds c θ → Holds c0 θ }
{}

/// A law of dominance: each solution of a residual problem is one of each that dominates it, and costs no more there.
pub fn dominance_is_inclusion()
    ensures { (r0 r : RestParts) → Dominates r0 r → Includes r0 r }
{}

/// A law of words: residual problems with the same words are the same.
pub fn equal_words_are_equal_problems()
    ensures { (r s : RestParts) → IsRest r → IsRest s → words_of r ≡ words_of s → r ≡ s }
{}
