use incumbent_board::Options;

/// What the program's words ask for.
#[derive(Clone, Copy, Debug)]
pub struct Line<'a> {
    /// How to search.
    pub options: Options,
    /// Whether to write what the search took.
    pub stats: bool,
    /// The number of a model to make in place of reading one: as it was given, and what it is.
    pub make: Option<(&'a str, u64)>,
    /// The name of a file to read; standard input where there is none, or where a model is made.
    pub file: Option<&'a str>,
}
