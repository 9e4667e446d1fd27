ghost use Rattle.std.specs.Prelude.{◌≡◌, ◌<◌, ◌≤◌, ◌+◌, true, false, Some, None, IfSome, IsSome, IsNone, is_some, is_none, option_map, IfOk, OnOk, OnErr};
ghost use Rattle.model_line.specs.declared.item.Half.{Half};
ghost use Rattle.model_replay.specs.Slots.{after_unpin, after_abandon, after_publish};
ghost use Rattle.model_replay.specs.Claims.{after_return};
ghost use Rattle.model_replay.specs.Errands as steps;
ghost use Rattle.model_replay.specs.Errands.{event_of, next_of, end_of, answer_of, blocks_after, setups_after, BlocksAgree, SetupsAgree, block_claim, setup_claim, lease_if, makes, turns_left};
ghost use Rattle.film_blocks.specs.KeyedBlocks.{half_of};
ghost use Rattle.block_cache.specs.Stages.{step_of, IsFor, AreHeld, AreRight};
ghost use Rattle.block_cache.specs.Turns.{UnlessMemory, OnMemory, IsLive, IsTurn, AreBlocksOf, AreSetupsOf};

use crate::maker::Maker;
use crate::stage::Stage;
use crate::turn::Turn;
use claim_bank::Bench;
use film_blocks::{Block, Half, HalfBlock, NoMemory, Setup};
use model_replay::{Event, How};
use std::alloc::Global;
use std::mem;

/// What an errand is for: a half of a block, or the block alone, which is to be in a bank.
#[derive(Clone, Copy, Debug, PartialEq, Eq)]
pub struct Wish {
    /// The number of the block among all blocks of the film.
    pub block: u32,
    /// The half; none of a warm errand.
    pub half: Option<Half>,
}

/// The stage of an errand over two benches.
type StageOf<B, S> = Stage<
    <B as Bench>::Pin,
    <B as Bench>::Lease,
    <S as Bench>::Pin,
    <S as Bench>::Lease,
>;

/// A way to a half of a block, or to the block in a bank, in at most six turns. It keeps the pins
/// and leases of its two banks between its turns.
#[derive(Drop)]
pub struct Errand<B: Bench<Value = Block>, S: Bench<Value = Setup>> {
    /// The number of the hand whose errand it is.
    pub hand: u32,
    /// What it is for.
    pub wish: Wish,
    /// How far it is.
    pub stage: StageOf<B, S>,
}

/// The event of a pin of a block.
fn pin_block(block: u32, found: bool) -> Event
    ensures { result ≡ Event.PinBlock block found }
{
    Event::PinBlock { block, found }
}

/// The event of a lease of a block.
fn lease_block(block: u32, won: bool) -> Event
    ensures { result ≡ Event.LeaseBlock block won }
{
    Event::LeaseBlock { block, won }
}

/// The event of a pin of a setup.
fn pin_setup(link: u32, found: bool) -> Event
    ensures { result ≡ Event.PinSetup link found }
{
    Event::PinSetup { link, found }
}

/// The event of a lease of a setup.
fn lease_setup(link: u32, won: bool) -> Event
    ensures { result ≡ Event.LeaseSetup link won }
{
    Event::LeaseSetup { link, won }
}

/// A turn that goes on.
fn going<T>(event: Event, stage: T) -> (Event, Turn, T)
    ensures { result ≡ (event, Turn.Going, stage) }
{
    (event, Turn::Going, stage)
}

/// A copy of the half that is asked for, if one is.
fn half_asked(
    alloc: Global,
    block: &Block,
    half: Option<Half>,
) -> Result<Option<HalfBlock>, NoMemory>
    ensures { IfOk result (λ given. given
        ≡ option_map (λ (side : Half). half_of side block.now) half) }
{
    match half {
        Some(side) => Ok(Some(block.half(alloc, side)?)),
        None => Ok(None),
    }
}

/// The last turn of an errand, with its half.
fn done(half: Result<Option<HalfBlock>, NoMemory>, how: How) -> Turn
    ensures ok { IfOk half (λ half. result ≡ Turn.Done half how) }
    ensures err { OnErr half (result ≡ Turn.Memory) }
{
    match half {
        Ok(half) => Turn::Done { half, how },
        Err(NoMemory) => Turn::Memory,
    }
}

/// Copies the half of a block that is pinned, and unpins the block.
fn show<M: Maker, B: Bench<Value = Block>>(
    alloc: Global,
    maker: &M,
    wish: Wish,
    pin: B::Pin,
    blocks: &mut B,
) -> Turn
    requires fact { AreBlocksOf (M.meaning maker.now) (B.fits (B.tag blocks.old)) }
    requires held { B.has_pin blocks.old pin }
    requires right { B.pin_key pin ≡ wish.block }
    ensures tag { B.tag blocks.new ≡ B.tag blocks.old }
    ensures slots { B.slots blocks.new
        ≡ option_map (after_unpin wish.block) (B.slots blocks.old) }
    ensures turn { IsTurn ((M.meaning maker.now).block wish.block) wish.half (Some How.Found)
        steps.Ended result }
{
    let half = half_asked(alloc, blocks.show(&pin), wish.half);
    blocks.unpin(pin);
    done(half, How::Found)
}

/// Decodes a block by the setup that is pinned, and unpins the setup.
fn make_pinned<M: Maker, S: Bench<Value = Setup>>(
    alloc: Global,
    maker: &mut M,
    block: u32,
    pin: S::Pin,
    setups: &mut S,
) -> Result<Block, NoMemory>
    requires within { block < (M.meaning maker.old).blocks }
    requires fact { AreSetupsOf (M.meaning maker.old) (S.fits (S.tag setups.old)) }
    requires held { S.has_pin setups.old pin }
    requires right { S.pin_key pin ≡ (M.meaning maker.old).link block }
    ensures tag { S.tag setups.new ≡ S.tag setups.old }
    ensures slots { S.slots setups.new
        ≡ option_map (after_unpin ((M.meaning maker.old).link block)) (S.slots setups.old) }
    ensures value { IfOk result (λ made. made ≡ (M.meaning maker.old).block block) }
    ensures meaning { M.meaning maker.new ≡ M.meaning maker.old }
    ensures loan { M.loan maker.new ≡ M.loan maker.old }
    ensures made { M.made maker.new ≡ M.made maker.old + 1 }
{
    let made = maker.block(alloc, block, setups.show(&pin));
    setups.unpin(pin);
    made
}

/// Reads the setup of a block, and decodes the block by it.
fn make_alone<M: Maker>(
    alloc: Global,
    maker: &mut M,
    block: u32,
    link: u32,
) -> Result<(Block, Setup), NoMemory>
    requires within { block < (M.meaning maker.old).blocks }
    requires link { link ≡ (M.meaning maker.old).link block }
    requires link_within { link < (M.meaning maker.old).links }
    ensures value { IfOk result (λ made. (made.0 ≡ (M.meaning maker.old).block block)
        × (made.1 ≡ (M.meaning maker.old).setup link)) }
    ensures meaning { M.meaning maker.new ≡ M.meaning maker.old }
    ensures loan { M.loan maker.new ≡ M.loan maker.old }
    ensures made { OnOk result (M.made maker.new ≡ M.made maker.old + 1) }
    ensures most { M.made maker.new ≤ M.made maker.old + 1 }
{
    let setup = maker.setup(alloc, link)?;
    let made = maker.block(alloc, block, &setup)?;
    Ok((made, setup))
}

/// Reads the setup of a block, decodes the block by it, and publishes the setup. The lease is given
/// back where no memory is found.
fn make_leased<M: Maker, S: Bench<Value = Setup>>(
    alloc: Global,
    maker: &mut M,
    block: u32,
    link: u32,
    lease: S::Lease,
    setups: &mut S,
) -> Result<Block, NoMemory>
    requires within { block < (M.meaning maker.old).blocks }
    requires link { link ≡ (M.meaning maker.old).link block }
    requires link_within { link < (M.meaning maker.old).links }
    requires fact { AreSetupsOf (M.meaning maker.old) (S.fits (S.tag setups.old)) }
    requires held { S.has_lease setups.old lease }
    requires right { S.lease_key lease ≡ link }
    ensures tag { S.tag setups.new ≡ S.tag setups.old }
    ensures published { OnOk result (S.slots setups.new
        ≡ option_map (after_publish link) (S.slots setups.old)) }
    ensures abandoned { OnErr result (S.slots setups.new
        ≡ option_map (after_abandon link) (S.slots setups.old)) }
    ensures value { IfOk result (λ made. made ≡ (M.meaning maker.old).block block) }
    ensures meaning { M.meaning maker.new ≡ M.meaning maker.old }
    ensures loan { M.loan maker.new ≡ M.loan maker.old }
    ensures made { OnOk result (M.made maker.new ≡ M.made maker.old + 1) }
    ensures most { M.made maker.new ≤ M.made maker.old + 1 }
{
    match make_alone(alloc, maker, block, link) {
        Ok((made, setup)) => {
            setups.publish(lease, setup);
            Ok(made)
        }
        Err(fault) => {
            setups.abandon(lease);
            Err(fault)
        }
    }
}

/// Gives the half that is asked for of a block that was decoded, and publishes the block. The lease
/// is given back where no memory is found.
fn publish<M: Maker, B: Bench<Value = Block>>(
    alloc: Global,
    maker: &M,
    wish: Wish,
    lease: B::Lease,
    made: Block,
    blocks: &mut B,
) -> Turn
    requires fact { AreBlocksOf (M.meaning maker.now) (B.fits (B.tag blocks.old)) }
    requires held { B.has_lease blocks.old lease }
    requires right { B.lease_key lease ≡ wish.block }
    requires made { made ≡ (M.meaning maker.now).block wish.block }
    ensures tag { B.tag blocks.new ≡ B.tag blocks.old }
    ensures slots { UnlessMemory result (B.slots blocks.new
        ≡ option_map (after_publish wish.block) (B.slots blocks.old)) }
    ensures back { OnMemory result (B.slots blocks.new
        ≡ option_map (after_abandon wish.block) (B.slots blocks.old)) }
    ensures turn { IsTurn ((M.meaning maker.now).block wish.block) wish.half (Some How.Made)
        steps.Ended result }
{
    match half_asked(alloc, &made, wish.half) {
        Ok(half) => {
            blocks.publish(lease, made);
            Turn::Done {
                half,
                how: How::Made,
            }
        }
        Err(NoMemory) => {
            blocks.abandon(lease);
            Turn::Memory
        }
    }
}

impl<B: Bench<Value = Block>, S: Bench<Value = Setup>> Errand<B, S> {
    /// An errand for a half of a block. It takes no memory.
    pub fn new(hand: u32, block: u32, half: Half) -> Self
        ensures hand { result.hand ≡ hand }
        ensures wish { result.wish ≡ record { block = block; half = Some half } }
        ensures stage { result.stage ≡ Stage.Begin }
    {
        Errand {
            hand,
            wish: Wish {
                block,
                half: Some(half),
            },
            stage: Stage::Begin,
        }
    }

    /// A warm errand: one after which a block is in a bank, or left to another hand. It takes no
    /// memory.
    pub fn warm(hand: u32, block: u32) -> Self
        ensures hand { result.hand ≡ hand }
        ensures wish { result.wish ≡ record { block = block; half = None } }
        ensures stage { result.stage ≡ Stage.Begin }
    {
        Errand {
            hand,
            wish: Wish { block, half: None },
            stage: Stage::Begin,
        }
    }

    /// Takes an errand apart whose last turn answered `Done` or `Memory`.
    pub fn end(self)
        requires { step_of self.stage ≡ steps.Ended }
    {
        let Errand {
            hand: _,
            wish: _,
            stage,
        } = self;
        stage.end();
    }

    /// A turn that found no memory: the lease of the block is given back, if this hand has it.
    fn give_up(
        &self,
        event: Event,
        lease: Option<B::Lease>,
        blocks: &mut B,
    ) -> (Event, Turn, StageOf<B, S>)
        requires held { IfSome lease (B.has_lease blocks.old) }
        requires right { IfSome lease (IsFor B.lease_key self.now.wish.block) }
        ensures value { result ≡ (event, Turn.Memory, Stage.Ended) }
        ensures tag { B.tag blocks.new ≡ B.tag blocks.old }
        ensures slots { B.slots blocks.new ≡ option_map
            (after_return (lease_if (is_some lease) self.now.hand self.now.wish.block))
            (B.slots blocks.old) }
    {
        if let Some(lease) = lease {
            blocks.abandon(lease);
        }
        (event, Turn::Memory, Stage::Ended)
    }

    /// A turn that found the block's lease held by another hand. A warm errand leaves the block to
    /// that hand.
    fn held(&self) -> (Event, Turn, StageOf<B, S>)
        ensures warm { IsNone self.now.wish.half → result
            ≡ (Event.LeaseBlock self.now.wish.block false, Turn.Done None How.Left, Stage.Ended) }
        ensures cold { IsSome self.now.wish.half → result
            ≡ (Event.LeaseBlock self.now.wish.block false, Turn.Going, Stage.Asked None) }
    {
        let event = lease_block(self.wish.block, false);
        match self.wish.half {
            Some(_) => going(event, Stage::Asked(None)),
            None => (event, done(Ok(None), How::Left), Stage::Ended),
        }
    }

    /// A turn that decoded the block. The lease is given back where no memory was found.
    fn decoded(
        &self,
        event: Event,
        lease: Option<B::Lease>,
        made: Result<Block, NoMemory>,
        blocks: &mut B,
    ) -> (Event, Turn, StageOf<B, S>)
        requires held { IfSome lease (B.has_lease blocks.old) }
        requires right { IfSome lease (IsFor B.lease_key self.now.wish.block) }
        ensures ok { IfOk made (λ made. (result ≡ (event, Turn.Going, Stage.Made lease made))
            × (blocks.new ≡ blocks.old)) }
        ensures err { OnErr made (result ≡ (event, Turn.Memory, Stage.Ended)) }
        ensures tag { B.tag blocks.new ≡ B.tag blocks.old }
        ensures back { OnErr made (B.slots blocks.new ≡ option_map
            (after_return (lease_if (is_some lease) self.now.hand self.now.wish.block))
            (B.slots blocks.old)) }
    {
        match made {
            Ok(made) => going(event, Stage::Made(lease, made)),
            Err(NoMemory) => self.give_up(event, lease, blocks),
        }
    }

    /// The last event of an errand that decoded its block.
    fn last_event(&self, leased: bool) -> Event
        ensures { result ≡ event_of self.now.wish.block 0 (steps.Made leased) true }
    {
        let block = self.wish.block;
        if leased {
            Event::PublishBlock { block }
        } else {
            Event::Keep { block }
        }
    }

    /// The last turn of an errand that decoded its block: publishes the block if this hand has its
    /// lease, and keeps it to itself if not.
    fn give<M: Maker>(
        &self,
        alloc: Global,
        maker: &M,
        lease: Option<B::Lease>,
        made: Block,
        blocks: &mut B,
    ) -> (Event, Turn)
        requires fact { AreBlocksOf (M.meaning maker.now) (B.fits (B.tag blocks.old)) }
        requires held { IfSome lease (B.has_lease blocks.old) }
        requires right { IfSome lease (IsFor B.lease_key self.now.wish.block) }
        requires made { made ≡ (M.meaning maker.now).block self.now.wish.block }
        ensures tag { B.tag blocks.new ≡ B.tag blocks.old }
        ensures event { result.0
            ≡ event_of self.now.wish.block 0 (steps.Made (is_some lease)) true }
        ensures slots { UnlessMemory result.1 (B.slots blocks.new
            ≡ option_map (blocks_after self.now.hand result.0) (B.slots blocks.old)) }
        ensures back { OnMemory result.1 (B.slots blocks.new ≡ option_map
            (after_return (lease_if (is_some lease) self.now.hand self.now.wish.block))
            (B.slots blocks.old)) }
        ensures turn { IsTurn ((M.meaning maker.now).block self.now.wish.block)
            self.now.wish.half (Some How.Made) steps.Ended result.1 }
    {
        let (block, half) = (self.wish.block, self.wish.half);
        match lease {
            Some(lease) => {
                let turn = publish(alloc, maker, self.wish, lease, made, blocks);
                (Event::PublishBlock { block }, turn)
            }
            None => {
                let half = half_asked(alloc, &made, half);
                (Event::Keep { block }, done(half, How::Made))
            }
        }
    }

    /// A turn that reads the setup, decodes the block by it, and gives it. The lease is given back
    /// where no memory was found.
    fn alone<M: Maker>(
        &self,
        alloc: Global,
        maker: &mut M,
        lease: Option<B::Lease>,
        blocks: &mut B,
    ) -> (Event, Turn, StageOf<B, S>)
        requires within { self.now.wish.block < (M.meaning maker.old).blocks }
        requires fact { AreBlocksOf (M.meaning maker.old) (B.fits (B.tag blocks.old)) }
        requires held { IfSome lease (B.has_lease blocks.old) }
        requires right { IfSome lease (IsFor B.lease_key self.now.wish.block) }
        ensures tag { B.tag blocks.new ≡ B.tag blocks.old }
        ensures meaning { M.meaning maker.new ≡ M.meaning maker.old }
        ensures loan { M.loan maker.new ≡ M.loan maker.old }
        ensures event { result.0
            ≡ event_of self.now.wish.block 0 (steps.Alone (is_some lease)) true }
        ensures next { result.2 ≡ Stage.Ended }
        ensures slots { UnlessMemory result.1 (B.slots blocks.new
            ≡ option_map (blocks_after self.now.hand result.0) (B.slots blocks.old)) }
        ensures back { OnMemory result.1 (B.slots blocks.new ≡ option_map
            (after_return (lease_if (is_some lease) self.now.hand self.now.wish.block))
            (B.slots blocks.old)) }
        ensures made { UnlessMemory result.1 (M.made maker.new ≡ M.made maker.old + 1) }
        ensures most { M.made maker.new ≤ M.made maker.old + 1 }
        ensures turn { IsTurn ((M.meaning maker.old).block self.now.wish.block)
            self.now.wish.half (Some How.Made) steps.Ended result.1 }
    {
        let block = self.wish.block;
        let link = maker.link(block);
        match make_alone(alloc, maker, block, link) {
            Ok((made, _)) => {
                let (event, turn) = self.give(alloc, maker, lease, made, blocks);
                (event, turn, Stage::Ended)
            }
            Err(NoMemory) => {
                let event = self.last_event(lease.is_some());
                self.give_up(event, lease, blocks)
            }
        }
    }

    /// One turn from a stage, and the stage after it.
    fn step<M: Maker>(
        &self,
        alloc: Global,
        maker: &mut M,
        stage: StageOf<B, S>,
        blocks: &mut B,
        setups: &mut S,
    ) -> (Event, Turn, StageOf<B, S>)
        requires live { IsLive (step_of stage) }
        requires within { self.now.wish.block < (M.meaning maker.old).blocks }
        requires held { AreHeld B.has_pin B.has_lease S.has_pin S.has_lease blocks.old setups.old
            stage }
        requires right { AreRight B.pin_key B.lease_key S.pin_key S.lease_key
            (M.meaning maker.old) self.now.wish.block stage }
        requires blocks_fact { AreBlocksOf (M.meaning maker.old) (B.fits (B.tag blocks.old)) }
        requires setups_fact { AreSetupsOf (M.meaning maker.old) (S.fits (S.tag setups.old)) }
        ensures meaning { M.meaning maker.new ≡ M.meaning maker.old }
        ensures loan { M.loan maker.new ≡ M.loan maker.old }
        ensures blocks_tag { B.tag blocks.new ≡ B.tag blocks.old }
        ensures setups_tag { S.tag setups.new ≡ S.tag setups.old }
        ensures held { AreHeld B.has_pin B.has_lease S.has_pin S.has_lease blocks.new setups.new
            result.2 }
        ensures right { AreRight B.pin_key B.lease_key S.pin_key S.lease_key
            (M.meaning maker.new) self.now.wish.block result.2 }
        ensures event { result.0 ≡ event_of self.now.wish.block
            ((M.meaning maker.old).link self.now.wish.block) (step_of stage) (answer_of result.0) }
        ensures next { UnlessMemory result.1 (step_of result.2
            ≡ next_of (is_none self.now.wish.half) (step_of stage) (answer_of result.0)) }
        ensures blocks_agree { IfSome (B.slots blocks.old) (λ s. BlocksAgree s result.0) }
        ensures setups_agree { IfSome (S.slots setups.old) (λ s. SetupsAgree s result.0) }
        ensures blocks { UnlessMemory result.1 (B.slots blocks.new
            ≡ option_map (blocks_after self.now.hand result.0) (B.slots blocks.old)) }
        ensures setups { UnlessMemory result.1 (S.slots setups.new
            ≡ option_map (setups_after self.now.hand result.0) (S.slots setups.old)) }
        ensures blocks_back { OnMemory result.1 (B.slots blocks.new ≡ option_map
            (after_return (block_claim self.now.hand self.now.wish.block (step_of stage)))
            (B.slots blocks.old)) }
        ensures setups_back { OnMemory result.1 (S.slots setups.new ≡ option_map
            (after_return (setup_claim self.now.hand
            ((M.meaning maker.old).link self.now.wish.block) (step_of stage)))
            (S.slots setups.old)) }
        ensures made { UnlessMemory result.1
            (M.made maker.new ≡ M.made maker.old + makes (step_of stage)) }
        ensures most { M.made maker.new ≤ M.made maker.old + makes (step_of stage) }
        ensures turn { IsTurn ((M.meaning maker.old).block self.now.wish.block) self.now.wish.half
            (end_of (is_none self.now.wish.half) (step_of stage) (answer_of result.0))
            (step_of result.2) result.1 }
        ensures fewer { turns_left (step_of result.2) < turns_left (step_of stage) }
    {
        let (hand, block) = (self.hand, self.wish.block);
        let link = maker.link(block);
        match stage {
            Stage::Begin => match blocks.pin(block) {
                Some(pin) => going(pin_block(block, true), Stage::Shown(pin)),
                None => going(pin_block(block, false), Stage::Missed),
            },
            Stage::Shown(pin) => {
                let turn = show(alloc, maker, self.wish, pin, blocks);
                (Event::UnpinBlock { block }, turn, Stage::Ended)
            }
            Stage::Missed => match blocks.lease(hand, block) {
                Some(lease) => going(lease_block(block, true), Stage::Asked(Some(lease))),
                None => self.held(),
            },
            Stage::Asked(lease) => match setups.pin(link) {
                Some(pin) => going(pin_setup(link, true), Stage::Pinned(lease, pin)),
                None => going(pin_setup(link, false), Stage::Unset(lease)),
            },
            Stage::Pinned(lease, pin) => {
                let made = make_pinned(alloc, maker, block, pin, setups);
                self.decoded(Event::UnpinSetup { link }, lease, made, blocks)
            }
            Stage::Unset(lease) => match setups.lease(hand, link) {
                Some(other) => going(lease_setup(link, true), Stage::Leased(lease, other)),
                None => going(lease_setup(link, false), Stage::Alone(lease)),
            },
            Stage::Leased(lease, other) => {
                let made = make_leased(alloc, maker, block, link, other, setups);
                self.decoded(Event::PublishSetup { link }, lease, made, blocks)
            }
            Stage::Alone(lease) => self.alone(alloc, maker, lease, blocks),
            Stage::Made(lease, made) => {
                let (event, turn) = self.give(alloc, maker, lease, made, blocks);
                (event, turn, Stage::Ended)
            }
            // the condition says that the errand is not done
            Stage::Ended => unreachable!(),
        }
    }

    /// One turn, which is one event of one bank, or the private event that keeps the block.
    ///
    /// No earlier turn answered `Done` or `Memory`. `Going` comes at most five times. `Done` has
    /// the half that was asked for, if one was, of the maker's block, whatever the banks answered.
    /// `Memory` has given back what the errand held, each pin by `unpin` and each lease by
    /// `abandon`; a setup that it published before stays, and the event tells what was begun.
    pub fn turn<M: Maker>(
        &mut self,
        alloc: Global,
        maker: &mut M,
        blocks: &mut B,
        setups: &mut S,
    ) -> (Event, Turn)
        requires live { IsLive (step_of self.old.stage) }
        requires within { self.old.wish.block < (M.meaning maker.old).blocks }
        requires held { AreHeld B.has_pin B.has_lease S.has_pin S.has_lease blocks.old setups.old
            self.old.stage }
        requires right { AreRight B.pin_key B.lease_key S.pin_key S.lease_key
            (M.meaning maker.old) self.old.wish.block self.old.stage }
        requires blocks_fact { AreBlocksOf (M.meaning maker.old) (B.fits (B.tag blocks.old)) }
        requires setups_fact { AreSetupsOf (M.meaning maker.old) (S.fits (S.tag setups.old)) }
        ensures same { (self.new.hand ≡ self.old.hand) × (self.new.wish ≡ self.old.wish) }
        ensures meaning { M.meaning maker.new ≡ M.meaning maker.old }
        ensures loan { M.loan maker.new ≡ M.loan maker.old }
        ensures blocks_tag { B.tag blocks.new ≡ B.tag blocks.old }
        ensures setups_tag { S.tag setups.new ≡ S.tag setups.old }
        ensures held { AreHeld B.has_pin B.has_lease S.has_pin S.has_lease blocks.new setups.new
            self.new.stage }
        ensures right { AreRight B.pin_key B.lease_key S.pin_key S.lease_key
            (M.meaning maker.new) self.old.wish.block self.new.stage }
        ensures event { result.0 ≡ event_of self.old.wish.block
            ((M.meaning maker.old).link self.old.wish.block) (step_of self.old.stage)
            (answer_of result.0) }
        ensures next { UnlessMemory result.1 (step_of self.new.stage
            ≡ next_of (is_none self.old.wish.half) (step_of self.old.stage) (answer_of result.0)) }
        ensures blocks_agree { IfSome (B.slots blocks.old) (λ s. BlocksAgree s result.0) }
        ensures setups_agree { IfSome (S.slots setups.old) (λ s. SetupsAgree s result.0) }
        ensures blocks { UnlessMemory result.1 (B.slots blocks.new
            ≡ option_map (blocks_after self.old.hand result.0) (B.slots blocks.old)) }
        ensures setups { UnlessMemory result.1 (S.slots setups.new
            ≡ option_map (setups_after self.old.hand result.0) (S.slots setups.old)) }
        ensures blocks_back { OnMemory result.1 (B.slots blocks.new ≡ option_map
            (after_return (block_claim self.old.hand self.old.wish.block (step_of self.old.stage)))
            (B.slots blocks.old)) }
        ensures setups_back { OnMemory result.1 (S.slots setups.new ≡ option_map
            (after_return (setup_claim self.old.hand
            ((M.meaning maker.old).link self.old.wish.block) (step_of self.old.stage)))
            (S.slots setups.old)) }
        ensures made { UnlessMemory result.1
            (M.made maker.new ≡ M.made maker.old + makes (step_of self.old.stage)) }
        ensures most { M.made maker.new ≤ M.made maker.old + makes (step_of self.old.stage) }
        ensures turn { IsTurn ((M.meaning maker.old).block self.old.wish.block) self.old.wish.half
            (end_of (is_none self.old.wish.half) (step_of self.old.stage) (answer_of result.0))
            (step_of self.new.stage) result.1 }
        ensures fewer { turns_left (step_of self.new.stage) < turns_left (step_of self.old.stage) }
    {
        let stage = mem::replace(&mut self.stage, Stage::Ended);
        let (event, turn, next) = self.step(alloc, maker, stage, blocks, setups);
        mem::replace(&mut self.stage, next).end();
        (event, turn)
    }
}
