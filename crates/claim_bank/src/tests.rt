ghost use Rattle.std.specs.Prelude.{◌≡◌, ◌*◌};

use super::*;
use std::test::Fail;

/// The value of a key is the key as many times as the tag says.
struct Times;

impl Fact<u64> for Times {
    type Tag = u64;

    ghost fits = { λ tag key value. value ≡ tag * key };
}

/// What a hand does with the claim that it gets.
#[derive(Clone, Copy, PartialEq, Eq)]
enum Then {
    /// It keeps the claim.
    Keep,
    /// It gives back the pin, or publishes by the lease.
    Use,
    /// It gives back the lease unused.
    Abandon,
}

/// What a hand gets that asks for a pin and, where there is none, for a lease.
#[derive(Clone, Copy, Debug, PartialEq, Eq)]
enum Got {
    /// A pin, which shows this value.
    Pin(u64),
    /// A lease.
    Lease,
    /// No claim.
    Nothing,
}

const TAG: u64 = 10;

/// Asks a bank for a claim on a key, and does with it what is said.
fn ask(bank: &mut CoreBank<u64, Times>, key: u32, then: Then) -> Got
    requires { bank.old.tag ≡ 10 }
    ensures { bank.new.tag ≡ 10 }
{
    if let Some(pin) = bank.pin(key) {
        let value = *bank.show(&pin);
        if then == Then::Use {
            bank.unpin(pin);
        }
        return Got::Pin(value);
    }
    let Some(lease) = bank.lease(0, key) else {
        return Got::Nothing;
    };
    match then {
        Then::Keep => {}
        Then::Use => bank.publish(lease, TAG * u64::from(key)),
        Then::Abandon => bank.abandon(lease),
    }
    Got::Lease
}

/// What a row shows, a key and what is done with its claim; what the hand gets, and the pins and
/// leases of the bank after that.
type Row = (&'static str, u32, Then, Got, u64, u64);

/// One run on a bank of two slots.
const ROWS: [Row; 12] = [
    ("an empty slot is won", 4, Then::Abandon, Got::Lease, 0, 0),
    ("an abandoned one too", 4, Then::Use, Got::Lease, 0, 0),
    ("what is published shows", 4, Then::Use, Got::Pin(40), 0, 0),
    ("a pin is counted", 4, Then::Keep, Got::Pin(40), 1, 0),
    ("and another one", 4, Then::Keep, Got::Pin(40), 2, 0),
    ("a pinned slot is held", 6, Then::Keep, Got::Nothing, 2, 0),
    ("its value stays", 4, Then::Use, Got::Pin(40), 2, 0),
    ("an odd key has slot 1", 5, Then::Use, Got::Lease, 2, 0),
    ("where it shows", 5, Then::Use, Got::Pin(50), 2, 0),
    (
        "a slot without pins is won",
        7,
        Then::Keep,
        Got::Lease,
        2,
        1,
    ),
    ("what it held is gone", 5, Then::Keep, Got::Nothing, 2, 1),
    (
        "a leased key is held too",
        7,
        Then::Keep,
        Got::Nothing,
        2,
        1,
    ),
];

#[test]
fn hands_share_two_slots(rt: HostRuntime) -> Result<(), Fail> {
    let mut bank = CoreBank::<u64, Times>::new(rt.alloc(), 2, &TAG)?;
    for (name, key, then, got, pins, leases) in &ROWS {
        assert_eq!(rt; ask(&mut bank, *key, *then), *got, "{name}");
        assert_eq!(rt; bank.pins(), *pins, "{name}");
        assert_eq!(rt; bank.leases(), *leases, "{name}");
    }
    Ok(())
}
