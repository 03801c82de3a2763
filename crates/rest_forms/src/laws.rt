//! What holds of forms. The first three laws are about constraints over lists that are over the variables of a box and keep
//! the limits of a call (`FitsBox`).

ghost use Rattle.std.specs.Prelude.{◌≡◌, List, ℤ, length};
ghost use Rattle.fzn_model.specs.declared.con.Con.{Con};
ghost use Rattle.fzn_model.specs.Limits.{ConInLimits, of_model};
ghost use Rattle.fzn_model.specs.Boxes.{IsBox};
ghost use Rattle.fzn_model.specs.Booleans.{FitsBox};
ghost use Rattle.rest_basic.specs.Equivalence.{IsEquivalentIn, NamesOpen};
ghost use Rattle.rest_basic.specs.declared.reduced.Reduced.{Reduced};
ghost use Rattle.rest_basic.specs.declared.reduced.Reduced.TheVariants as reduced;
ghost use Rattle.rest_forms.specs.Forms.{IsGlobalForm};

/// On each assignment of a box, the form of such a constraint holds exactly where the constraint does.
pub fn global_forms_mean_the_same()
    ensures { (box : List (List ℤ)) (c : Con) (form : Reduced) → IsBox box → FitsBox box c → IsGlobalForm box c form → IsEquivalentIn box form c }
{}

/// The form of such a constraint names open variables and constants alone.
pub fn global_forms_name_open_variables()
    ensures { (box : List (List ℤ)) (c : Con) (form : Reduced) → IsBox box → FitsBox box c → IsGlobalForm box c form → NamesOpen box form }
{}

/// The form of such a constraint, where it isn't that it holds, is over the variables of the box and keeps the limits of a
/// call. This is said of constraints that keep the limits of a model: what is left of all-different and cumulative has the
/// values and the uses of its fixed terms besides the taken values and used amounts that it had.
pub fn global_forms_suit_the_box()
    ensures { (box : List (List ℤ)) (c d : Con) → IsBox box → FitsBox box c → ConInLimits of_model (length box) c → IsGlobalForm box c (reduced.Is d) → FitsBox box d }
{}

/// There is one form of a constraint over lists in a box.
pub fn global_forms_are_unique()
    ensures { (box : List (List ℤ)) (c : Con) (f g : Reduced) → IsGlobalForm box c f → IsGlobalForm box c g → f ≡ g }
{}
