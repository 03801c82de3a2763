//! What holds of forms. All laws are about bases, reified bases and arithmetic (`IsPlain`) that are over the variables of a
//! box, keep the limits of a call, and whose literals and truth terms are Booleans in the box (`FitsBox`).

ghost use Rattle.std.specs.Prelude.{◌≡◌, List, ℤ};
ghost use Rattle.fzn_model.specs.declared.con.Con.{Con};
ghost use Rattle.fzn_model.specs.Boxes.{IsBox};
ghost use Rattle.fzn_model.specs.Booleans.{FitsBox};
ghost use Rattle.rest_basic.specs.declared.reduced.Reduced.TheVariants as reduced;
ghost use Rattle.rest_basic.specs.Forms.{plain_form};
ghost use Rattle.rest_basic.specs.Equivalence.{IsPlain, IsEquivalentIn, NamesOpen};

/// On each assignment of a box, the form of such a constraint holds exactly where the constraint does.
pub fn forms_mean_the_same()
    ensures { (box : List (List ℤ)) (c : Con) → IsBox box → FitsBox box c → IsPlain c → IsEquivalentIn box (plain_form box c) c }
{}

/// The form of such a constraint names open variables and constants alone.
pub fn forms_name_open_variables()
    ensures { (box : List (List ℤ)) (c : Con) → IsBox box → FitsBox box c → IsPlain c → NamesOpen box (plain_form box c) }
{}

/// The form of such a constraint, where it isn't that it holds, is over the variables of the box, keeps the limits of a
/// call, and its literals and truth terms are Booleans in the box.
pub fn forms_suit_the_box()
    ensures { (box : List (List ℤ)) (c d : Con) → IsBox box → FitsBox box c → IsPlain c → plain_form box c ≡ reduced.Is d → FitsBox box d }
{}
