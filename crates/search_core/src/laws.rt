// What follows from the definitions alone.
ghost use Rattle.std.specs.Prelude.{◌≡◌, ◌↔◌, ◌+◌, ◌≤◌, [], ◌∷◌, ◌++◌, List, ℤ};
ghost use Rattle.fzn_model.specs.Parts.{Parts};
ghost use Rattle.fzn_model.specs.Solutions.{InDomains};
ghost use Rattle.fzn_model.specs.Boxes.{InBox};
ghost use Rattle.search_core.specs.declared.decision.Decision.{Decision};
ghost use Rattle.search_core.specs.Paths.{opposite, Meets, Settled};
ghost use Rattle.search_core.specs.Sizes.{size, product_of_sizes};
ghost use Rattle.search_core.specs.Boxes.{path_box, IsOver};

/// Each assignment that meets a path meets exactly one side of each cut of it, so the sizes of the sides add up to its own.
#[tactic(auto, using(crate::proofs::Counting::size_splits))]
pub fn sizes_split()
    ensures { (m : Parts) (p : List Decision) (cut : Decision) → size m p ≡ size m (p ++ cut ∷ []) + size m (p ++ opposite cut ∷ []) }
{}

/// The size of the empty path, which is how many assignments have all values in the domains, is the product of the domains'
/// sizes: 1 without variables, 0 with an empty domain.
#[tactic(auto, using(crate::proofs::Counting::size_of_all))]
pub fn the_size_of_a_model_is_a_product()
    ensures { (m : Parts) → size m [] ≡ product_of_sizes m.doms }
{}

/// A path that an assignment within the domains meets has a size of 1 at least, so a path of size 0 is settled at any bound.
#[tactic(auto, using(crate::proofs::Counting::met_size, crate::proofs::Counting::none_settled))]
pub fn met_paths_have_a_size()
    ensures met { (m : Parts) (p : List Decision) (θ : List ℤ) → InDomains m.doms θ → Meets p θ → 1 ≤ size m p }
    ensures none { (m : Parts) (p : List Decision) → size m p ≡ 0 → (bound : ℤ) → Settled m p bound }
{}

/// An assignment lies in the box that a path leaves exactly where it lies in the domains and meets the path.
pub fn an_assignment_lies_in_the_box_of_a_path_that_it_meets()
    ensures { (m : Parts) (p : List Decision) (θ : List ℤ) → IsOver m p → InBox (path_box m p) θ ↔ (InDomains m.doms θ × Meets p θ) }
{}
