ghost use Rattle.std.specs.Prelude.{◌≡◌, ◌<◌, ◌++◌, [], ◌∷◌, IfOk, OnOk};
ghost use Rattle.number_transform.specs.Roots.{grown, scaled, root_table, inverse_table};

use crate::field::multiply;
use std::alloc::{AllocError, Global};

/// How many levels of square roots there are: polynomials have at most 2^12 coefficients.
pub const MOST_LEVELS: u32 = 12;

/// A square root of -1, and then one of each number before.
pub const STEMS: [u64; 12] = [
    0x1_0000_0000_0000,
    0xffff_fffe_ff00_0001,
    0xefff_ffff_0000_0001,
    0x3fff_ffff_c000,
    0x80_0000_0000,
    0xf800_07ff_0800_0001,
    0xbf79_143c_e60c_a966,
    0x1905_d02a_5c41_1f4e,
    0x9d8f_2ad7_8bfe_d972,
    0x653_b480_1da1_c8cf,
    0xf2c3_5199_959d_fcb6,
    0x1544_ef23_35d1_7997,
];

/// Their inverses.
pub const INVERSE_STEMS: [u64; 12] = [
    0xfffe_ffff_0000_0001,
    0xff_ffff_ff00,
    0x10_0000_0000,
    0xffff_fffe_fffc_0001,
    0xfdff_ffff_0000_0001,
    0xffef_ffff_0000_0011,
    0x1d62_e30f_a4a4_eeb0,
    0x3de1_9c67_cf49_6a74,
    0x3b9a_e9d1_d8d8_7589,
    0x76a4_0e08_66a8_e50d,
    0x9af0_1e43_1fbd_6ea0,
    0x3712_791d_9eb0_314a,
];

/// The tree of square roots for polynomials of up to 2^12 coefficients.
pub fn roots(alloc: Global) -> Result<Vec<u64>, AllocError>
    ensures { IfOk result (λ v. v.items ≡ root_table) }
{
    grow_all(alloc, &STEMS)
}

/// The inverses of the roots.
pub fn inverse_roots(alloc: Global) -> Result<Vec<u64>, AllocError>
    ensures { IfOk result (λ v. v.items ≡ inverse_table) }
{
    grow_all(alloc, &INVERSE_STEMS)
}

/// What grows from 1 by each of the stems in turn.
fn grow_all(alloc: Global, stems: &[u64]) -> Result<Vec<u64>, AllocError>
    ensures { IfOk result (λ v. v.items ≡ grown stems.now (1 ∷ [])) }
{
    let mut table = vec![in alloc; 1u64]?;
    for stem in stems {
        grow(&mut table, *stem)?;
    }
    Ok(table)
}

/// Puts a multiple of each number of a table behind it.
fn grow(table: &mut Vec<u64>, stem: u64) -> Result<(), AllocError>
    ensures { OnOk result (table.new.items ≡ table.old.items ++ scaled stem table.old.items) }
{
    for k in 0..table.len() {
        table.push(multiply(table[k], stem))?;
    }
    Ok(())
}
