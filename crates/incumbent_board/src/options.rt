/// How to search: the number of workers (1..64), the ways of the cache (0 or a multiple of 8 up to 1,048,576), the most
/// words of a cached key (16..4,096), and the node budget (at most 2^60).
#[derive(Clone, Copy, Debug, PartialEq, Eq)]
pub struct Options {
    pub workers: u32,
    pub ways: u32,
    pub key_words: u32,
    pub nodes: u64,
}
