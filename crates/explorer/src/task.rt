use evictor::Cache;
use fzn_model::Model;
use incumbent_board::Board;
use search_core::Path;
use std::alloc::Global;

/// What a search is given and only reads.
#[derive(Drop)]
pub(crate) struct Task<'a> {
    pub alloc: Global,
    pub model: &'a Model,
    pub path: &'a Path,
    pub limit: u32,
    pub cache: &'a Cache,
    pub board: &'a Board,
}
