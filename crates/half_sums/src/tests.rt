//! Sums that were worked out in Python and in C, as the plain sums that they are. Of all the sums
//! of a block a row has the first, the last, and a number made of all.

ghost use Rattle.std.specs.Prelude.{◌≡◌, ◌≤◌, ◌^◌, length, IfOk, unsigned_abs};
ghost use Rattle.half_sums.specs.Places.{AreBins};
ghost use Rattle.half_sums.specs.Blocks.{AreCosines};

use super::*;
use std::alloc::{AllocError, Global};
use std::test::Fail;

/// What the cosines of a quarter turn are.
#[derive(Clone, Copy)]
enum Cosines {
    Ones,
    Greatest,
    /// The one at k is 7919 k, modulo 2^23 + 1.
    Mixed,
}

/// What the bins of a spectrum are.
#[derive(Clone, Copy)]
enum Bins {
    Silent,
    /// 1, and then zeros.
    First,
    /// Zeros, and then -3.
    Last,
    Greatest,
    Least,
    /// The one at k is 104729 k, modulo 2^28 + 1, less 2^27.
    Mixed,
    /// Every third of these, and zeros between them.
    Third,
}

/// What a row shows, the levels of the block, what it is made of, and its sums.
#[derive(Clone, Copy)]
struct Row {
    name: &'static str,
    levels: u32,
    cosines: Cosines,
    bins: Bins,
    first: i64,
    last: i64,
    all: u64,
}

const ROWS: [Row; 16] = [
    Row {
        name: "a single bin under cosines that are all 1",
        levels: 5,
        cosines: Cosines::Ones,
        bins: Bins::First,
        first: 1,
        last: -1,
        all: 0x5c62_0fd9_4b9e_0000,
    },
    Row {
        name: "the last bin alone",
        levels: 5,
        cosines: Cosines::Mixed,
        bins: Bins::Last,
        first: -18_770_295,
        last: 15_415_659,
        all: 0x869d_3c58_6440_9c3c,
    },
    Row {
        name: "silence",
        levels: 6,
        cosines: Cosines::Mixed,
        bins: Bins::Silent,
        first: 0,
        last: 0,
        all: 0,
    },
    Row {
        name: "128 values",
        levels: 6,
        cosines: Cosines::Mixed,
        bins: Bins::Mixed,
        first: -4_555_464_271_360_934,
        last: 34_541_308_917_816_862,
        all: 0xb58e_e841_fa10_8d24,
    },
    Row {
        name: "256 values",
        levels: 7,
        cosines: Cosines::Mixed,
        bins: Bins::Mixed,
        first: -2_212_297_003_516_286,
        last: 67_304_493_566_345_954,
        all: 0xf575_f375_1152_77fc,
    },
    Row {
        name: "512 values",
        levels: 8,
        cosines: Cosines::Mixed,
        bins: Bins::Mixed,
        first: 970_369_319_369_428,
        last: 126_254_565_416_449_350,
        all: 0xf5b0_4428_2353_d7d8,
    },
    Row {
        name: "1,024 values",
        levels: 9,
        cosines: Cosines::Mixed,
        bins: Bins::Mixed,
        first: 920_293_073_347_651,
        last: 223_228_136_002_511_554,
        all: 0x142d_65fa_a058_17a2,
    },
    Row {
        name: "2,048 values",
        levels: 10,
        cosines: Cosines::Mixed,
        bins: Bins::Mixed,
        first: -2_882_365_718_993_540,
        last: 332_986_797_473_515_682,
        all: 0xa057_4664_908e_7368,
    },
    Row {
        name: "4,096 values",
        levels: 11,
        cosines: Cosines::Mixed,
        bins: Bins::Mixed,
        first: -173_603_635_848_455,
        last: 209_415_491_464_985_364,
        all: 0x39e1_a80f_ae3a_02be,
    },
    Row {
        name: "8,192 values",
        levels: 12,
        cosines: Cosines::Mixed,
        bins: Bins::Mixed,
        first: 2_249_509_919_504_644,
        last: 276_985_390_575_023_632,
        all: 0x25ad_f2e7_b190_454e,
    },
    Row {
        name: "128 values, of a third of the bins",
        levels: 6,
        cosines: Cosines::Mixed,
        bins: Bins::Third,
        first: -2_496_856_301_372_320,
        last: 12_136_040_337_178_465,
        all: 0x2af9_82c2_9fe3_0bb0,
    },
    Row {
        name: "1,024 values, of a third of the bins",
        levels: 9,
        cosines: Cosines::Mixed,
        bins: Bins::Third,
        first: -1_189_920_556_064_760,
        last: 75_106_696_178_275_173,
        all: 0x0db6_6ff6_f6f6_ef9b,
    },
    Row {
        name: "the greatest bins of a short block",
        levels: 7,
        cosines: Cosines::Greatest,
        bins: Bins::Greatest,
        first: 0,
        last: -144_115_188_075_855_872,
        all: 0xd4f0_0000_0000_0000,
    },
    Row {
        name: "the least bins of a short block",
        levels: 7,
        cosines: Cosines::Greatest,
        bins: Bins::Least,
        first: 0,
        last: 144_115_188_075_855_872,
        all: 0x2b10_0000_0000_0000,
    },
    Row {
        name: "the greatest bins",
        levels: 12,
        cosines: Cosines::Greatest,
        bins: Bins::Greatest,
        first: 0,
        last: -4_611_686_018_427_387_904,
        all: 0x34d0_0000_0000_0000,
    },
    Row {
        name: "the least bins",
        levels: 12,
        cosines: Cosines::Greatest,
        bins: Bins::Least,
        first: 0,
        last: 4_611_686_018_427_387_904,
        all: 0xcb30_0000_0000_0000,
    },
];

/// A cosine of the quarter turn.
fn cosine(cosines: Cosines, k: u64) -> u32
    ensures { result ≤ 2 ^ 23 }
{
    let value = match cosines {
        Cosines::Ones => 1,
        Cosines::Greatest => 1 << 23,
        Cosines::Mixed => k.wrapping_mul(7919) % 8_388_609,
    };
    value.min(1 << 23) as u32
}

/// A bin of a spectrum of so many.
fn bin(bins: Bins, k: u64, count: u64) -> i64
    ensures { unsigned_abs result ≤ 2 ^ 27 }
{
    let value = match bins {
        Bins::Silent => 0,
        Bins::First => { if k == 0 { 1 } else { 0 } }
        Bins::Last => { if k == count.wrapping_sub(1) { -3 } else { 0 } }
        Bins::Greatest => 1 << 27,
        Bins::Least => -134_217_728,
        Bins::Third if k % 3 != 0 => 0,
        Bins::Mixed | Bins::Third => {
            (k.wrapping_mul(104_729) % 268_435_457) as i64 - 134_217_728
        }
    };
    value.clamp(-134_217_728, 134_217_728)
}

/// The cosines of the quarter turn.
fn cosine_table(alloc: Global, cosines: Cosines) -> Result<Vec<u32>, AllocError>
    ensures { IfOk result (λ values. AreCosines values.items) }
{
    let mut values = Vec::new(alloc);
    for k in 0..8192 {
        values.push(cosine(cosines, k))?;
    }
    Ok(values)
}

/// A spectrum of 2^levels bins.
fn spectrum(alloc: Global, bins: Bins, levels: u32) -> Result<Vec<i64>, AllocError>
    requires least { 5 ≤ levels }
    requires most { levels ≤ 12 }
    ensures size { IfOk result (λ values. length values.items ≡ 2 ^ levels) }
    ensures bins { IfOk result (λ values. AreBins values.items) }
{
    let count: u64 = 1 << levels;
    let mut values = Vec::new(alloc);
    for k in 0..count {
        values.push(bin(bins, k, count))?;
    }
    Ok(values)
}

/// A number made of all sums, in their order.
fn all_of(sums: &[i64]) -> u64 {
    let mut all: u64 = 0;
    for sum in sums {
        all = all.wrapping_mul(31).wrapping_add(sum.cast_unsigned());
    }
    all
}

/// How half sums are made.
#[derive(Clone, Copy, Debug)]
enum Way {
    AsForAFilm,
    ByTheProduct,
    InLanes,
}

/// The half sums of a spectrum of 2^levels bins. Those of long blocks aren't made in lanes.
fn put_sums(transforms: &Transforms, way: Way, levels: u32, bins: &Vec<i64>, sums: &mut [i64])
    requires least { 5 ≤ levels }
    requires most { levels ≤ 12 }
    requires size { length bins.now.items ≡ 2 ^ levels }
    requires sums { length sums.old ≡ 2 ^ levels }
    requires bins { AreBins bins.now.items }
{
    match way {
        Way::InLanes if levels <= SHORT_LEVELS => transforms.lane_sums(levels, bins, sums),
        Way::ByTheProduct => transforms.product_sums(levels, bins, sums),
        _ => transforms.half_sums(bins, sums),
    }
}

/// The cosine of so many steps, by the four quarters of a turn.
fn cosine_of(cosines: &[u32], size: usize, steps: usize) -> i64 {
    let t = steps.checked_rem(size.wrapping_mul(4)).unwrap_or(0);
    let (place, negative) = if t < size {
        (t, false)
    } else if t < size.wrapping_mul(2) {
        (size.wrapping_mul(2).wrapping_sub(t), true)
    } else if t < size.wrapping_mul(3) {
        (t.wrapping_sub(size.wrapping_mul(2)), true)
    } else {
        (size.wrapping_mul(4).wrapping_sub(t), false)
    };
    let place = place.wrapping_mul(8192usize.checked_div(size).unwrap_or(0));
    let cosine = cosines.get(place).map_or(0, |cosine| i64::from(*cosine));
    if negative {
        cosine.wrapping_neg()
    } else {
        cosine
    }
}

/// The half sum at an index, added up bin by bin.
fn plain_sum(cosines: &[u32], bins: &[i64], index: usize) -> i64 {
    let size = bins.len().wrapping_mul(2);
    let place = if index < size / 4 {
        index
    } else {
        index.wrapping_add(size / 4)
    };
    let step = place.wrapping_mul(2).wrapping_add(1).wrapping_add(size / 2);
    let mut steps = step;
    let mut sum = 0i64;
    for bin in bins {
        sum = sum.wrapping_add(bin.wrapping_mul(cosine_of(cosines, size, steps)));
        steps = steps.wrapping_add(step).wrapping_add(step);
    }
    sum
}

#[test]
fn sums_of_rows(rt: HostRuntime) -> Result<(), Fail> {
    for row in &ROWS {
        let name = row.name;
        let levels = row.levels;
        assert!(rt; 5 <= levels && levels <= 12, "{name}");
        let transforms = Transforms::new(rt.alloc(), cosine_table(rt.alloc(), row.cosines)?)?;
        let bins = spectrum(rt.alloc(), row.bins, levels)?;
        for way in [Way::AsForAFilm, Way::ByTheProduct, Way::InLanes] {
            let mut sums = vec![in rt.alloc(); 0i64; bins.len()]?;
            put_sums(&transforms, way, levels, &bins, &mut sums);
            assert_eq!(rt; sums.first().copied(), Some(row.first), "{name}, {way:?}");
            assert_eq!(rt; sums.last().copied(), Some(row.last), "{name}, {way:?}");
            assert_eq!(rt; all_of(&sums), row.all, "{name}, {way:?}");
        }
        let mut plain = Vec::new(rt.alloc());
        for index in 0..bins.len() {
            plain.push(plain_sum(transforms.cosines(), &bins, index))?;
        }
        assert_eq!(rt; all_of(&plain), row.all, "{name}, bin by bin");
    }
    Ok(())
}
