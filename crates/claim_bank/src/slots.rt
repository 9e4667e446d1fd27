ghost use Rattle.std.specs.Prelude.{◌≡◌};
ghost use Rattle.model_replay.specs.Slots.{is_found, is_won, one_more, one_less, pins_of, leases_of};

use model_replay::Slot;

/// Whether a pin of a key finds its value in the key's slot.
pub fn is_found(slot: Slot, key: u32) -> bool
    ensures { result ≡ is_found slot key }
{
    match slot {
        Slot::Holds { key: kept, .. } => kept == key,
        _ => false,
    }
}

/// Whether a lease of a key wins the key's slot.
pub fn is_won(slot: Slot, key: u32) -> bool
    ensures { result ≡ is_won slot key }
{
    match slot {
        Slot::Empty => true,
        Slot::Taken { .. } => false,
        Slot::Holds { key: kept, pins } => kept != key && pins == 0,
    }
}

/// The slot with one pin more.
pub fn one_more(slot: Slot) -> Slot
    ensures { result ≡ one_more slot }
{
    match slot {
        Slot::Holds { key, pins } => Slot::Holds {
            key,
            pins: pins.saturating_add(1),
        },
        other => other,
    }
}

/// The slot with one pin less.
pub fn one_less(slot: Slot) -> Slot
    ensures { result ≡ one_less slot }
{
    match slot {
        Slot::Holds { key, pins } => Slot::Holds {
            key,
            pins: pins.saturating_sub(1),
        },
        other => other,
    }
}

/// The number of pins of the slot.
pub fn pins_of(slot: Slot) -> u32
    ensures { result ≡ pins_of slot }
{
    match slot {
        Slot::Holds { pins, .. } => pins,
        _ => 0,
    }
}

/// The number of leases of the slot, 0 or 1.
pub fn leases_of(slot: Slot) -> u32
    ensures { result ≡ leases_of slot }
{
    match slot {
        Slot::Taken { .. } => 1,
        _ => 0,
    }
}
