use crate::maker::Maker;
use claim_bank::Fact;
use film_blocks::{Block, Setup};
use std::marker::PhantomData;

/// The fact of a bank of blocks: each is the maker's block of its key. The tag of such a bank is
/// the maker.
#[derive(Drop)]
pub struct BlocksOf<M> {
    of: PhantomData<M>,
}

impl<M: Maker> Fact<Block> for BlocksOf<M> {
    ghost use Rattle.std.specs.Prelude.{◌≡◌};

    type Tag = M;

    ghost fits = { λ maker key value. value ≡ (M.meaning maker).block key };
}

/// The fact of a bank of setups: each is the maker's setup of its key. The tag of such a bank is
/// the maker.
#[derive(Drop)]
pub struct SetupsOf<M> {
    of: PhantomData<M>,
}

impl<M: Maker> Fact<Setup> for SetupsOf<M> {
    ghost use Rattle.std.specs.Prelude.{◌≡◌};

    type Tag = M;

    ghost fits = { λ maker key value. value ≡ (M.meaning maker).setup key };
}
