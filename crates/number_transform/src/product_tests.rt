//! Products that were worked out in Python by the plain sum, and products of single terms.

ghost use Rattle.std.specs.Prelude.{◌≡◌, ◌≤◌, ◌<◌, ◌^◌, ◌↔◌, length, IfOk, IsTrue};
ghost use Rattle.number_transform.specs.declared.field.TheConstants.{PRIME};
ghost use Rattle.number_transform.specs.Folds.{AreResidues};

use super::*;
use crate::field::PRIME;
use std::alloc::{AllocError, Global};
use std::test::Fail;

/// Eight coefficients.
const FIRST: [u64; 8] = [
    0xdda1_494c_73cf_256d,
    0xdb5b_5fab_8f4d_3e27,
    0xc7fd_e805_ec99_108d,
    0xffff_ffff_0000_0000,
    0xdae4_4550_8201_e2bd,
    0x309d_6b79_965e_da32,
    0xcdcc_6929_2f45_e678,
    0x79cb_9e86_830c_71c2,
];

/// Eight others.
const SECOND: [u64; 8] = [
    0x9d2c_67ed_a13f_fe79,
    0x2fa9_1425_cb00_8853,
    0x7253_edc6_1818_7993,
    0x244c_af9c_4dab_b481,
    0x89e7_d15f_1736_2f25,
    0xe3ef_f9c0_cf44_dd3f,
    0xffff_ffff_0000_0000,
    0x986e_86cb_0ab8_ab67,
];

/// Their product modulo x^8 + 1.
const PRODUCT: [u64; 8] = [
    0xa64e_66af_7c0f_7b83,
    0x12b6_e2be_08eb_d20a,
    0x3cf4_8eb7_4c41_5188,
    0x11ea_68e8_25f5_5b40,
    0x1519_ed97_5920_387b,
    0x23e_8f50_d7ff_7604,
    0x3fbf_5c7d_d50d_8ee2,
    0x91e0_0d2f_3516_049f,
];

/// A polynomial of 2^levels coefficients with one term: its place and its coefficient.
fn term(alloc: Global, levels: u32, term: (usize, u64)) -> Result<Vec<u64>, AllocError>
    requires levels { levels ≤ 12 }
    requires place { term.0 < 2 ^ levels }
    requires coefficient { term.1 < PRIME }
    ensures size { IfOk result (λ v. length v.items ≡ 2 ^ levels) }
    ensures small { IfOk result (λ v. AreResidues v.items) }
{
    let mut values = vec![in alloc; 0u64; 1usize << levels]?;
    values[term.0] = term.1;
    Ok(values)
}

/// Whether a term fits so many coefficients.
fn fits(levels: u32, term: (usize, u64)) -> bool
    requires levels { levels ≤ 12 }
    ensures { IsTrue result ↔ ((term.0 < 2 ^ levels) × (term.1 < PRIME)) }
{
    term.0 < 1 << levels && term.1 < PRIME
}

/// What a row shows: a x^i times b x^j, for 2^levels coefficients, is c x^k.
#[derive(Clone, Copy)]
struct Terms {
    name: &'static str,
    levels: u32,
    first: (usize, u64),
    second: (usize, u64),
    product: (usize, u64),
}

const TERMS: [Terms; 8] = [
    Terms {
        name: "four coefficients",
        levels: 2,
        first: (1, 2),
        second: (2, 3),
        product: (3, 6),
    },
    Terms {
        name: "four coefficients, turned",
        levels: 2,
        first: (3, 5),
        second: (1, 1),
        product: (0, 0xffff_fffe_ffff_fffc),
    },
    Terms {
        name: "a negative number",
        levels: 3,
        first: (2, 0xffff_ffff_0000_0000),
        second: (3, 7),
        product: (5, 0xffff_fffe_ffff_fffa),
    },
    Terms {
        name: "sixteen coefficients, turned",
        levels: 4,
        first: (15, 1),
        second: (15, 1),
        product: (14, 0xffff_ffff_0000_0000),
    },
    Terms {
        name: "thirty-two coefficients",
        levels: 5,
        first: (16, 2),
        second: (16, 0xffff_fffe_ffff_ffff),
        product: (0, 4),
    },
    Terms {
        name: "1,024 coefficients",
        levels: 10,
        first: (700, 0x100_0000_0000),
        second: (323, 0x100_0000_0000),
        product: (1023, 0xffff_ffff_0000),
    },
    Terms {
        name: "1,024 coefficients, turned",
        levels: 10,
        first: (700, 0x100_0000_0000),
        second: (325, 0x100_0000_0000),
        product: (1, 0xfffe_ffff_0001_0001),
    },
    Terms {
        name: "4,096 coefficients, turned",
        levels: 12,
        first: (4095, 3),
        second: (4095, 0xffff_fffe_ffff_fffe),
        product: (4094, 9),
    },
];

#[test]
fn dense_product(rt: HostRuntime) -> Result<(), Fail> {
    let multiplier = Multiplier::new(rt.alloc())?;
    let mut factor = SECOND;
    multiplier.make_factor(&mut factor, 3);
    let mut values = FIRST;
    multiplier.multiply(&mut values, &factor, 3);
    assert_eq!(rt; values.as_slice(), PRODUCT.as_slice());
    Ok(())
}

#[test]
fn products_of_terms(rt: HostRuntime) -> Result<(), Fail> {
    let multiplier = Multiplier::new(rt.alloc())?;
    for row in &TERMS {
        let name = row.name;
        let levels = row.levels;
        assert!(rt; 2 <= levels && levels <= 12, "{name}");
        assert!(rt;
            fits(levels, row.first) && fits(levels, row.second),
            "{name}"
        );
        assert!(rt; fits(levels, row.product), "{name}");
        let mut values = term(rt.alloc(), levels, row.first)?;
        let mut factor = term(rt.alloc(), levels, row.second)?;
        let expected = term(rt.alloc(), levels, row.product)?;
        multiplier.make_factor(&mut factor, levels);
        multiplier.multiply(&mut values, &factor, levels);
        assert_eq!(rt; values.as_slice(), expected.as_slice(), "{name}");
    }
    Ok(())
}
