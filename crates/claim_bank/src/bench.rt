ghost use Rattle.std.specs.Prelude.{◌≡◌, ℕ, List, Option, IfSome, is_some, option_map};
ghost use Rattle.model_replay.specs.Slots.{slot_of, is_found, is_won, after_pin, after_unpin, after_lease, after_publish, after_abandon};
ghost use Rattle.model_replay.specs.declared.slot.Slot.{Slot};

/// What the values of a bank are: a relation of a tag, a key and a value.
pub trait Fact<V> {
    /// What the relation is told of beside key and value. It is chosen where a bank is made.
    type Tag;

    ghost fits: { Self.Tag → ℕ → V → Type 0 };
}

/// A bank as one hand sees it. No call takes memory.
///
/// Where the bench tells its slots, each answer and the slots after each call are those of the
/// slot machine.
pub trait Bench {
    /// What is shared.
    type Value;

    /// A claim to read the value of a key. The value stays until the claim is given back.
    type Pin;

    /// A claim to publish the value of a key.
    type Lease;

    /// What the fact of the bench is told of beside key and value.
    type Tag;

    // The tag, which no call changes.
    ghost tag: { Self → Self.Tag };

    // The fact that the value of each key meets.
    ghost fits: { Self.Tag → ℕ → Self.Value → Type 0 };

    // The slots, if the bench tells them.
    ghost slots: { Self → Option (List Slot) };

    ghost pin_key: { Self.Pin → ℕ };

    // The pin is one of this bench.
    ghost has_pin: { Self → Self.Pin → Type 0 };

    ghost lease_key: { Self.Lease → ℕ };

    // The lease is one of this bench.
    ghost has_lease: { Self → Self.Lease → Type 0 };

    /// Pins the value of a key. The answer is None where the bank does not have it.
    fn pin(&mut self, key: u32) -> Option<Self::Pin>
        ensures tag { tag self.new ≡ tag self.old }
        ensures pin { IfSome result (λ p. has_pin self.new p × (pin_key p ≡ key)) }
        ensures answer { IfSome (slots self.old)
            (λ s. is_some result ≡ is_found (slot_of s key) key) }
        ensures slots { slots self.new ≡ option_map (after_pin key) (slots self.old) };

    /// The value that a pin of this bench reads.
    fn show<'a>(&'a self, pin: &'a Self::Pin) -> &'a Self::Value
        requires { has_pin self.now pin.now }
        ensures { fits (tag self.now) (pin_key pin.now) result.now };

    /// Gives back a pin of this bench.
    fn unpin(&mut self, pin: Self::Pin)
        requires { has_pin self.old pin }
        ensures tag { tag self.new ≡ tag self.old }
        ensures slots { slots self.new ≡ option_map (after_unpin (pin_key pin)) (slots self.old) };

    /// Leases the slot of a key for a hand, and drops what the slot held. The answer is None where
    /// the slot is leased, has a pin or holds the key.
    fn lease(&mut self, hand: u32, key: u32) -> Option<Self::Lease>
        ensures tag { tag self.new ≡ tag self.old }
        ensures lease { IfSome result (λ l. has_lease self.new l × (lease_key l ≡ key)) }
        ensures answer { IfSome (slots self.old)
            (λ s. is_some result ≡ is_won (slot_of s key) key) }
        ensures slots { slots self.new ≡ option_map (after_lease hand key) (slots self.old) };

    /// Puts the value of the leased key into the slot, and gives back the lease.
    fn publish(&mut self, lease: Self::Lease, value: Self::Value)
        requires lease { has_lease self.old lease }
        requires fits { fits (tag self.old) (lease_key lease) value }
        ensures tag { tag self.new ≡ tag self.old }
        ensures slots { slots self.new
            ≡ option_map (after_publish (lease_key lease)) (slots self.old) };

    /// Gives back a lease of this bench, and leaves the slot empty.
    fn abandon(&mut self, lease: Self::Lease)
        requires { has_lease self.old lease }
        ensures tag { tag self.new ≡ tag self.old }
        ensures slots { slots self.new
            ≡ option_map (after_abandon (lease_key lease)) (slots self.old) };
}
