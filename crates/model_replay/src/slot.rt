/// One slot of a bank.
#[derive(Clone, Copy, Debug, PartialEq, Eq)]
pub enum Slot {
    /// It has no value.
    Empty,
    /// A hand has leased it, to publish the value of this key.
    Taken {
        /// The number of the hand.
        hand: u32,
        /// The key: a block's number, or a link's.
        key: u32,
    },
    /// It has the value of this key.
    Holds {
        /// The key: a block's number, or a link's.
        key: u32,
        /// The number of pins, claims to read it.
        pins: u32,
    },
}
