// What is asked and what is tried, crate by crate.
mod boards;
mod caches;
mod cuts;
mod paths;
mod problems;
mod shelves;
