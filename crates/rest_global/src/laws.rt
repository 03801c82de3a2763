//! What holds of rests.

ghost use Rattle.std.specs.Prelude.{◌≡◌, List, ℤ};
ghost use Rattle.fzn_model.specs.Parts.{Parts};
ghost use Rattle.fzn_model.specs.Limits.{IsModel};
ghost use Rattle.fzn_model.specs.Boxes.{IsBox};
ghost use Rattle.fzn_model.specs.Rests.{RestParts, LiesWithin};
ghost use Rattle.rest_global.specs.Projection.{IsRestOfBox, KeepsSolutions};

/// The solutions of a box that cost less than the bound are, on the open variables, exactly the solutions of its rest
/// that cost less than the bound less the offset, and their costs differ by the offset.
pub fn rests_keep_solutions()
    ensures { (box : List (List ℤ)) (m : Parts) (below : ℤ) (r : RestParts) (offset : ℤ) → IsBox box → IsModel m → LiesWithin box m → IsRestOfBox box m below r offset → KeepsSolutions box m below r offset }
{}

/// A box has one rest.
pub fn rests_are_unique()
    ensures { (box : List (List ℤ)) (m : Parts) (below : ℤ) (r s : RestParts) (o p : ℤ) → IsRestOfBox box m below r o → IsRestOfBox box m below s p → (r ≡ s) × (o ≡ p) }
{}
