//! The domains of the rest of a box.

ghost use Rattle.std.specs.Prelude.{◌≡◌, ◌<◌, IfOk, All, length, map};
ghost use Rattle.fzn_model.specs.Boxes.{domain_at};
ghost use Rattle.fzn_model.specs.Grouping.{runs_of};

use fzn_model::{BoxView, List, Runs, Term};
use rest_basic::runs_of_values;
use std::alloc::{AllocError, Global};

/// The values of a variable.
#[tactic(auto, unfolding(rest_basic::specs::Forms::term_values))]
fn domain_of<V: BoxView>(alloc: Global, var: u32, view: &V) -> Result<Runs, AllocError>
    requires { var < length (V.shape view.now) }
    ensures { IfOk result (λ domain. domain ≡ runs_of (domain_at (V.shape view.now) var)) }
{
    runs_of_values(alloc, Term::Var(var), view)
}

/// The values of each of these variables.
pub(crate) fn domains_of<V: BoxView>(
    alloc: Global,
    variables: &[u32],
    view: &V,
) -> Result<List<Runs>, AllocError>
    requires { All (λ var. var < length (V.shape view.now)) variables.now }
    ensures { IfOk result (λ domains. domains ≡ map (λ var. runs_of (domain_at (V.shape view.now) var)) variables.now) }
{
    let mut domains = Vec::with_capacity(alloc, variables.len())?;
    for var in variables {
        domains.push(domain_of(alloc, *var, view)?)?;
    }
    Ok(List::from_vec(domains))
}
