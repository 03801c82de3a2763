/// Why a file is refused, in the order of the codes from 1 to 14: of several that one token shows, the least counts. The
/// rules are those of FlatZinc (MiniZinc Handbook) within the limits of this project.
#[derive(Clone, Copy, Debug, PartialEq, Eq)]
pub enum Code {
    /// A token that the grammar doesn't allow there, a byte that begins no token, or the end of input inside an item.
    Syntax,
    /// The name after `constraint` is in no row of the table of constraints.
    UnknownConstraint,
    /// `float` where a type is expected, or a real number where a whole one is, outside annotations and predicates.
    Float,
    /// `set` after `var`.
    SetVar,
    /// A name in an expression that no earlier item declares.
    Undeclared,
    /// A name that an earlier item declares already.
    DeclaredTwice,
    /// An expression that hasn't the type needed, an argument too many, or one too few.
    WrongArguments,
    /// A number outside -1,000,000..1,000,000, outside annotations and predicates.
    OutOfRange,
    /// A list that hasn't the length declared, or lists whose lengths don't fit their constraint.
    Lengths,
    /// More than 100,000 variables, 200,000 constraint items, or 2,000,000 elements of lists.
    TooMany,
    /// More than 67,108,864 bytes.
    TooLong,
    /// No `solve` item.
    NoSolve,
    /// A second `solve` item.
    TwoSolves,
    /// An annotation of more than 64 levels of brackets.
    TooDeep,
}
