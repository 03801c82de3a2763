/// The right to expand one node. Only [`Board::draw`](crate::Board::draw) makes one. It can't be copied or dropped: it has
/// to be spent.
pub struct Credit {
    pub(crate) one: (),
}

impl Credit {
    /// Ends the credit and does nothing else.
    pub fn spend(self) {
        let Credit { one: () } = self;
    }
}
