/// How the program ends: 0 decided, 2 wrong words, 3 node budget spent, 4 want of memory, 5 the model is refused,
/// 6 a read failed, 7 a write failed. These numbers are this project's own.
#[derive(Clone, Copy, Debug, PartialEq, Eq)]
pub struct Status {
    pub code: u8,
}
