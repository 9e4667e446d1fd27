ghost use Rattle.std.specs.Prelude.{◌≡◌, take};

use std::marker::Model;

/// The first bytes of a packet, two at most, which are all that its head goes by. Contracts see
/// them as a list.
#[derive(Drop)]
pub struct Front {
    bytes: [u8; 2],
    len: u8,
}

impl Model for Front {
    ghost use Rattle.std.specs.Prelude.{ℕ, List, ◌≤◌, take};

    ghost Value = { List ℕ };

    ghost view = { λ front. take front.len front.bytes };

    ghost invariant = { λ front. front.len ≤ 2 };
}

impl Front {
    /// The front of a packet.
    #[inline(always)]
    pub fn of(packet: &[u8]) -> Front
        ensures { result ≡ take 2 packet.now }
    {
        match packet {
            [first, second, ..] => Front {
                bytes: [*first, *second],
                len: 2,
            },
            [first] => Front {
                bytes: [*first, 0],
                len: 1,
            },
            [] => Front {
                bytes: [0, 0],
                len: 0,
            },
        }
    }

    /// Its bytes.
    #[inline(always)]
    pub fn as_slice(&self) -> &[u8]
        ensures { result.now ≡ self.now }
    {
        &self.bytes[..usize::from(self.len)]
    }
}
