ghost use Rattle.std.specs.Prelude.{◌≡◌, ◌≤◌, ◌^◌, length, IfOk, unsigned_abs};
ghost use Rattle.half_sums.specs.Places.{AreBins};

use half_sums::{SHORT_LEVELS, Transforms};
use std::alloc::{AllocError, Global};
use std::io;

/// How half sums are made.
#[derive(Clone, Copy, Debug)]
enum Way {
    AsForAFilm,
    ByTheProduct,
    InLanes,
}

/// A bin of a spectrum, as large as bins may be.
fn bin(k: u64) -> i64
    ensures { unsigned_abs result ≤ 2 ^ 27 }
{
    let value = (k.wrapping_mul(104_729) % 268_435_457) as i64 - 134_217_728;
    value.clamp(-134_217_728, 134_217_728)
}

/// A spectrum of 2^levels bins.
fn spectrum(alloc: Global, levels: u32) -> Result<Vec<i64>, AllocError>
    requires most { levels ≤ 12 }
    ensures size { IfOk result (λ values. length values.items ≡ 2 ^ levels) }
    ensures bins { IfOk result (λ values. AreBins values.items) }
{
    let count: u64 = 1 << levels;
    let mut values = Vec::new(alloc);
    for k in 0..count {
        values.push(bin(k))?;
    }
    Ok(values)
}

/// The half sums of a spectrum of 2^levels bins. Those of long blocks aren't made in lanes.
fn put_sums(transforms: &Transforms, way: Way, levels: u32, bins: &Vec<i64>, sums: &mut [i64])
    requires least { 5 ≤ levels }
    requires most { levels ≤ 12 }
    requires size { length bins.now.items ≡ 2 ^ levels }
    requires sums { length sums.old ≡ 2 ^ levels }
    requires bins { AreBins bins.now.items }
{
    match way {
        Way::InLanes if levels <= SHORT_LEVELS => transforms.lane_sums(levels, bins, sums),
        Way::ByTheProduct => transforms.product_sums(levels, bins, sums),
        _ => transforms.half_sums(bins, sums),
    }
}

/// A number made of all sums, in their order.
fn all_of(sums: &[i64]) -> u64 {
    let mut all: u64 = 0;
    for sum in sums {
        all = all.wrapping_mul(31).wrapping_add(sum.cast_unsigned());
    }
    all
}

/// Prints a number made of the half sums of a block with 2^levels bins, which are made one way.
fn print_sums(rt: &HostRuntime, transforms: &Transforms, way: Way, levels: u32) -> io::Result<()> {
    if levels < 5 || levels > 12 {
        return Ok(());
    }
    let bins = spectrum(rt.alloc(), levels)?;
    let mut sums = vec![in rt.alloc(); 0i64; 1usize << levels]?;
    put_sums(transforms, way, levels, &bins, &mut sums);
    let all = all_of(&sums);
    println!(rt; "sums {levels} {way:?} {all}")
}

/// Prints numbers made of half sums, of blocks of all sizes and by each way.
pub fn print_all_sums(rt: &HostRuntime, transforms: &Transforms) -> io::Result<()> {
    for levels in 5..13 {
        for way in [Way::AsForAFilm, Way::ByTheProduct, Way::InLanes] {
            print_sums(rt, transforms, way, levels)?;
        }
    }
    Ok(())
}
