ghost use Rattle.std.specs.Prelude.{◌≡◌, ◌↔◌, IsNone, IfOk, IfSome};
ghost use Rattle.dom_store.specs.Stores.{HasEmpty};
ghost use Rattle.explorer.specs.Benches.{IsBench};

use crate::frame::Frame;
use crate::stack::Stack;
use dom_store::{Store, recall_domains};
use fzn_model::Model;
use prop_engine::Engine;
use search_core::Path;
use std::alloc::{AllocError, Global};

/// What a worker searches with: the domains of the model with their levels, its propagators, and the expansions that are
/// open, with the path to them. Between two searches it has the domains of the model and no expansion (`IsBench` in
/// `specs/Benches.antt`).
#[derive(Drop)]
pub struct Bench {
    pub(crate) store: Store,
    pub(crate) engine: Engine,
    pub(crate) here: Path,
    pub(crate) frames: Stack<Frame>,
    /// Room for the values of a leaf.
    pub(crate) values: Vec<i64>,
}

#[tactic(auto, using(prop_engine::proofs::Ready::ready_first))]
impl Bench {
    /// The bench of a model; `None` exactly where one of its domains is empty. Takes memory for the domains, the
    /// propagators and one value for each variable.
    pub fn new(alloc: Global, model: &Model) -> Result<Option<Bench>, AllocError>
        ensures none { IfOk result (λ made. IsNone made ↔ HasEmpty model.now.doms) }
        ensures some { IfOk result (λ made. IfSome made (IsBench model.now)) }
    {
        let Some(store) = Store::new(alloc, model)? else {
            return Ok(None);
        };
        recall_domains(&store);
        let engine = Engine::new(alloc, model)?;
        Ok(Some(Bench {
            store,
            engine,
            here: Path::new(alloc),
            frames: Stack::new(alloc),
            values: Vec::with_capacity(alloc, model.doms.as_slice().len())?,
        }))
    }
}
