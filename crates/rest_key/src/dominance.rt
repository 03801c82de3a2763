ghost use Rattle.std.specs.Prelude.{◌↔◌, ◌≡◌, ◌<◌, IsTrue, length, All, AllPairs};
ghost use Rattle.rest_key.specs.Dominance.{IsCovered, AreCovered, DomainsWithin, Dominates};
ghost use Rattle.rest_key.specs.Comparing.{CanCompare};

use crate::same::same_cost;
use crate::sets::is_set_within;
use crate::weakness::weaker;
use fzn_model::{Con, Rest, Runs};

/// Whether some constraint has the label, and the given one is weaker than it. Labels rise, so the search is by halves.
#[tactic(auto, unfolding(crate::specs::Dominance::IsCovered))]
fn is_covered(cons: &[Con], labels: &[u32], label: u32, con: &Con) -> bool
    requires labelled { length labels.now ≡ length cons.now }
    requires rising { AllPairs (λ a b. a < b) labels.now }
    requires others { All CanCompare cons.now }
    requires con { CanCompare con.now }
    ensures { IsTrue result ↔ IsCovered cons.now labels.now label con.now }
{
    match labels.binary_search(&label) {
        Ok(at) => weaker(con, &cons[at]),
        Err(_) => false,
    }
}

/// Whether each of the first constraints is weaker than one of the second with the same label.
#[tactic(auto, unfolding(crate::specs::Dominance::AreCovered))]
fn are_covered(first: &[Con], first_labels: &[u32], cons: &[Con], labels: &[u32]) -> bool
    requires first_labelled { length first_labels.now ≡ length first.now }
    requires labelled { length labels.now ≡ length cons.now }
    requires rising { AllPairs (λ a b. a < b) labels.now }
    requires first { All CanCompare first.now }
    requires others { All CanCompare cons.now }
    ensures { IsTrue result ↔ AreCovered first.now first_labels.now cons.now labels.now }
{
    first
        .iter()
        .zip(first_labels)
        .all(|(con, label)| is_covered(cons, labels, *label, con))
}

/// Whether each domain lies within the other one of the same variable.
#[tactic(auto, unfolding(crate::specs::Dominance::DomainsWithin))]
fn are_domains_within(domains: &[Runs], others: &[Runs]) -> bool
    requires { length others.now ≡ length domains.now }
    ensures { IsTrue result ↔ DomainsWithin domains.now others.now }
{
    domains
        .iter()
        .zip(others)
        .all(|(domain, other)| is_set_within(domain, other))
}

/// Whether the first residual problem dominates the second: it has as many variables, the same cost and no lesser
/// domain, and each of its constraints is weaker than one with the same label. Then each solution of the second is one of
/// the first, at the same cost. Takes no memory. As many steps as the two have words, and a binary search for each run and
/// each label, but for lists that `weaker` compares by pairs.
#[tactic(auto, using(crate::proofs::Comparable::can_compare))]
pub fn dominates(first: &Rest, second: &Rest) -> bool
    ensures { IsTrue result ↔ Dominates first.now second.now }
{
    let domains = first.doms.as_slice();
    let others = second.doms.as_slice();
    domains.len() == others.len()
        && same_cost(first.cost.as_slice(), second.cost.as_slice())
        && are_domains_within(others, domains)
        && are_covered(
            first.cons.as_slice(),
            first.labels.as_slice(),
            second.cons.as_slice(),
            second.labels.as_slice(),
        )
}
