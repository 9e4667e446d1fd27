use crate::{Draws, make_constants, make_film, make_script};
use std::test::Fail;

/// A place of the made constants, and the number that stands there.
const NUMBERS: [(usize, u32); 8] = [
    (0, 512),
    (12, 1024),
    (255, 1 << 30),
    (256, 131072),
    (8415, 8387584),
    (8416, 8388608),
    (8420, 8388606),
    (16607, 2048),
];

#[test]
fn constants(rt: HostRuntime) -> Result<(), Fail> {
    let bytes = make_constants(rt.alloc())?;
    assert!(rt; bytes.len() == 66440);
    for (index, number) in NUMBERS {
        assert!(rt; index < 16608);
        let place = 8 + 4 * index;
        assert_eq!(rt; &bytes[place..place + 4], &number.to_le_bytes()[..]);
    }
    Ok(())
}

/// A number, how many bytes its script has, and how that begins.
const SCRIPTS: [(u64, usize, &str); 2] = [
    (
        7,
        1862,
        "lane\nopen 0\nopen 1\nread 1 22\ntell 0\nseek 1 188419\nread 0 1044\nread 1 953\n",
    ),
    (
        u64::MAX,
        1880,
        "lane\nopen 0\nopen 1\nread 1 1876\ncross 0 1\nread 1 1311\ncross 0 1\nread 0 1218\n",
    ),
];

#[test]
fn scripts(rt: HostRuntime) -> Result<(), Fail> {
    for (number, size, front) in SCRIPTS {
        let script = make_script(rt.alloc(), number)?;
        assert_eq!(rt; script.len(), size);
        assert!(rt; script.starts_with(front.as_bytes()), "{number}");
    }
    Ok(())
}

/// A number, how many bytes its film has, and their sum, as another program makes that film
/// (tools/made_inputs.py).
const FILMS: [(u64, usize, u64); 2] = [
    (7, 145805, 6350540400155478497),
    (u64::MAX, 146320, 3956385359659571189),
];

/// A sum of bytes that goes by their order too.
fn sum_of(bytes: &[u8]) -> u64 {
    let mut sum = 0u64;
    for byte in bytes {
        sum = sum.wrapping_mul(257).wrapping_add(u64::from(*byte) + 1);
    }
    sum
}

#[test]
fn films(rt: HostRuntime) -> Result<(), Fail> {
    for (number, size, sum) in FILMS {
        let film = make_film(rt.alloc(), number)?;
        assert_eq!(rt; film.len(), size);
        assert_eq!(rt; sum_of(&film), sum, "{number}");
    }
    Ok(())
}

#[test]
fn draws(rt: HostRuntime) {
    let mut draws = Draws::new(0);
    assert_eq!(rt; draws.draw(1000), 107);
    assert_eq!(rt; draws.draw(1000), 527);
}
