ghost use Rattle.std.specs.Prelude.{◌≡◌};
ghost use Rattle.model_replay.specs.Errands.{Ended};
ghost use Rattle.block_cache.specs.Stages.{step_of};

use film_blocks::Block;

/// How far an errand is, with what it holds: pins (`P`) and leases (`L`) of the bank of blocks,
/// pins (`Q`) and leases (`K`) of that of setups. Where the lease of the block is none, another
/// hand has it.
#[derive(Drop)]
pub enum Stage<P, L, Q, K> {
    /// It pins the block next.
    Begin,
    /// It copies the half next, and unpins the block.
    Shown(P),
    /// It leases the block next.
    Missed,
    /// It pins the setup next.
    Asked(Option<L>),
    /// It decodes the block next, by the setup that is pinned, and unpins the setup.
    Pinned(Option<L>, Q),
    /// It leases the setup next.
    Unset(Option<L>),
    /// It reads the setup next, decodes the block by it, and publishes the setup.
    Leased(Option<L>, K),
    /// It reads the setup next, decodes the block by it, and publishes or keeps the block.
    Alone(Option<L>),
    /// It publishes or keeps the block next that it decoded.
    Made(Option<L>, Block),
    /// It is done.
    Ended,
}

impl<P, L, Q, K> Stage<P, L, Q, K> {
    /// Lets a stage go that holds nothing.
    pub fn end(self)
        requires { step_of self ≡ Ended }
    {
        match self {
            Stage::Ended => {}
            // the condition says that no other stage comes here
            _ => unreachable!(),
        }
    }
}
