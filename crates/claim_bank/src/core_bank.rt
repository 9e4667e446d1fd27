ghost use Rattle.std.specs.Prelude.{◌≡◌, ℕ, ◌%◌, ◌<◌, ◌≤◌, List, length, map, All, IfOk, Option, Some, replicate};
ghost use Rattle.model_replay.specs.declared.slot.Slot.TheVariants.{Empty};
ghost use Rattle.model_replay.specs.Slots.{slot_of, with_slot, pins_in, leases_in};

use crate::bench::{Bench, Fact};
use crate::slots::{is_found, is_won, leases_of, one_less, one_more, pins_of};
use memory::NoMemory;
use model_replay::Slot;
use std::alloc::Global;
use std::marker::Model;
use std::snapshot::Snapshot;

/// A slot with its value.
#[derive(Drop)]
pub struct Cell<V> {
    /// The slot.
    pub slot: Slot,
    /// The value, if the slot holds one.
    pub value: Option<V>,
}

/// A bank for the hands of one thread. Contracts see its slots and the tag of its fact.
#[derive(Drop)]
pub struct CoreBank<V, F: Fact<V>> {
    cells: Vec<Cell<V>>,
    tag: Snapshot<F::Tag>,
}

impl<V, F: Fact<V>> Model for CoreBank<V, F> {
    ghost use Rattle.std.specs.Prelude.{ℕ, ◌<◌, ◌^◌, length, map, All};
    ghost use Rattle.claim_bank.specs.Cells.{Bank, CellFits};

    ghost Value = { Bank F.Tag };

    ghost view = { λ b. record { tag = b.tag.value; slots = map (λ c. c.slot) b.cells.items } };

    ghost invariant = { λ b. (0 < length b.cells.items) × (length b.cells.items < 2 ^ 32)
        × All (CellFits F.fits b.tag.value) b.cells.items };
}

/// A pin of a core bank. It is a plain number, and may be dropped.
#[derive(Clone, Copy, Debug, PartialEq, Eq)]
pub struct CorePin {
    /// The key that is pinned.
    pub key: u32,
}

/// A lease of a core bank. It is a plain number, and may be dropped.
#[derive(Clone, Copy, Debug, PartialEq, Eq)]
pub struct CoreLease {
    /// The key that is leased.
    pub key: u32,
}

impl<V: Drop, F: Fact<V>> CoreBank<V, F> {
    ghost use Rattle.claim_bank.specs.Cells.{IsKept};

    /// A bank of empty slots, whose values meet the fact at this tag. It takes all the memory that
    /// the slots ever need.
    ///
    /// # Errors
    ///
    /// [`NoMemory`] where that memory is not found.
    pub fn new(alloc: Global, slots: u32, tag: &F::Tag) -> Result<CoreBank<V, F>, NoMemory>
        requires { 0 < slots }
        ensures tag { IfOk result (λ b. b.tag ≡ tag.now) }
        ensures slots { IfOk result (λ b. b.slots ≡ replicate slots Empty) }
    {
        let mut cells = Vec::with_capacity(alloc, slots as usize)?;
        for _ in 0..slots {
            cells.push(Cell {
                slot: Slot::Empty,
                value: None,
            })?;
        }
        Ok(CoreBank {
            cells,
            tag: Snapshot::of(tag),
        })
    }

    /// The number of pins of all slots.
    pub fn pins(&self) -> u64
        ensures { result ≡ pins_in self.now.slots }
    {
        self.cells
            .iter()
            .map(|cell| u64::from(pins_of(cell.slot)))
            .sum()
    }

    /// The number of slots that are leased.
    pub fn leases(&self) -> u64
        ensures { result ≡ leases_in self.now.slots }
    {
        self.cells
            .iter()
            .map(|cell| u64::from(leases_of(cell.slot)))
            .sum()
    }

    /// The place of a key's slot.
    fn place(&self, key: u32) -> usize
        ensures place { result ≡ key % length self.now.slots }
        ensures within { result < length self.now.slots }
    {
        key as usize % self.cells.len()
    }

    /// The slot of a key.
    fn slot(&self, key: u32) -> Slot
        ensures slot { result ≡ slot_of self.now.slots key }
        ensures within { key % length self.now.slots < length self.now.slots }
    {
        let at = self.place(key);
        self.cells[at].slot
    }

    /// Puts a slot with its value in place of a key's slot.
    fn put(&mut self, key: u32, slot: Slot, value: Option<V>)
        requires { IsKept F.fits self.old.tag slot value }
        ensures tag { self.new.tag ≡ self.old.tag }
        ensures slots { self.new.slots ≡ with_slot self.old.slots key slot }
    {
        let at = self.place(key);
        self.cells[at] = Cell { slot, value };
    }

    /// Puts a slot in place of a key's slot, whose value stays.
    fn recount(&mut self, key: u32, slot: Slot)
        requires { (value : Option V)
            → IsKept F.fits self.old.tag (slot_of self.old.slots key) value
            → IsKept F.fits self.old.tag slot value }
        ensures tag { self.new.tag ≡ self.old.tag }
        ensures slots { self.new.slots ≡ with_slot self.old.slots key slot }
    {
        let at = self.place(key);
        self.cells[at].slot = slot;
    }
}

impl<V: Drop, F: Fact<V>> Bench for CoreBank<V, F> {
    ghost use Rattle.std.specs.Prelude.{ℕ, Some};
    ghost use Rattle.claim_bank.specs.Cells.{Bank};
    ghost use Rattle.model_replay.specs.Slots.{slot_of, IsPinned, IsLeased};

    type Value = V;

    type Pin = CorePin;

    type Lease = CoreLease;

    type Tag = F::Tag;

    ghost tag = { λ b. b.tag };

    ghost fits = { F.fits };

    ghost slots = { λ b. Some b.slots };

    ghost pin_key = { λ p. p.key };

    ghost has_pin = { λ b p. IsPinned (slot_of b.slots p.key) p.key };

    ghost lease_key = { λ l. l.key };

    ghost has_lease = { λ b l. IsLeased (slot_of b.slots l.key) l.key };

    fn pin(&mut self, key: u32) -> Option<CorePin> {
        let slot = self.slot(key);
        if !is_found(slot, key) {
            return None;
        }
        self.recount(key, one_more(slot));
        Some(CorePin { key })
    }

    fn show<'a>(&'a self, pin: &'a CorePin) -> &'a V {
        let at = self.place(pin.key);
        match &self.cells[at].value {
            Some(value) => value,
            // A slot that is pinned holds a value.
            None => unreachable!(),
        }
    }

    fn unpin(&mut self, pin: CorePin) {
        let slot = self.slot(pin.key);
        self.recount(pin.key, one_less(slot));
    }

    fn lease(&mut self, hand: u32, key: u32) -> Option<CoreLease> {
        if !is_won(self.slot(key), key) {
            return None;
        }
        self.put(key, Slot::Taken { hand, key }, None);
        Some(CoreLease { key })
    }

    fn publish(&mut self, lease: CoreLease, value: V) {
        let key = lease.key;
        self.put(key, Slot::Holds { key, pins: 0 }, Some(value));
    }

    fn abandon(&mut self, lease: CoreLease) {
        self.put(lease.key, Slot::Empty, None);
    }
}
