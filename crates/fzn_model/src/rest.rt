use crate::con::Con;
use crate::list::List;
use crate::runs::Runs;

/// A residual problem: what is left of a model where some of its variables have values. It is a small model whose cost,
/// to be as little as possible, is a linear form: the sum of coefficient times variable. Its variables are numbered from
/// 0. Each constraint has a label, its place in the model that the problem is left of; labels rise. What its solutions
/// are and cost is in `specs/Rests.antt`.
#[derive(Debug, Drop)]
pub struct Rest {
    pub doms: List<Runs>,
    pub cost: List<(i64, u32)>,
    pub cons: List<Con>,
    pub labels: List<u32>,
}

impl std::marker::Model for Rest {
    ghost use Rattle.fzn_model.specs.Rests.{RestParts, IsRest};

    ghost Value = { RestParts };

    ghost view = { λ r. record { doms = r.doms; cost = r.cost; cons = r.cons; labels = r.labels } };

    ghost invariant = { λ r. IsRest (record { doms = r.doms; cost = r.cost; cons = r.cons; labels = r.labels }) };
}
