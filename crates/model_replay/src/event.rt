/// What one turn of an errand asked of its banks.
#[derive(Clone, Copy, Debug, PartialEq, Eq)]
pub enum Event {
    /// A pin of a block.
    PinBlock {
        /// The block's number in the film.
        block: u32,
        /// Whether its bank has the block.
        found: bool,
    },
    /// A block was read, and its pin given back.
    UnpinBlock {
        /// The block's number in the film.
        block: u32,
    },
    /// A lease of the slot of a block.
    LeaseBlock {
        /// The block's number in the film.
        block: u32,
        /// Whether the slot is the hand's now.
        won: bool,
    },
    /// A block was put into its leased slot.
    PublishBlock {
        /// The block's number in the film.
        block: u32,
    },
    /// A pin of the setup of a link.
    PinSetup {
        /// The link's number in the film.
        link: u32,
        /// Whether its bank has the setup.
        found: bool,
    },
    /// A block was decoded with a setup, and the setup's pin given back.
    UnpinSetup {
        /// The link's number in the film.
        link: u32,
    },
    /// A lease of the slot of a setup.
    LeaseSetup {
        /// The link's number in the film.
        link: u32,
        /// Whether the slot is the hand's now.
        won: bool,
    },
    /// A setup was read, a block decoded with it, and the setup put into its leased slot.
    PublishSetup {
        /// The link's number in the film.
        link: u32,
    },
    /// A decoded block, whose slot was not the hand's, stays with the hand.
    Keep {
        /// The block's number in the film.
        block: u32,
    },
}

/// How an errand ended.
#[derive(Clone, Copy, Debug, PartialEq, Eq)]
pub enum How {
    /// Its bank had the block.
    Found,
    /// The errand decoded the block.
    Made,
    /// The lease of the block was refused, and no half was wanted.
    Left,
}
