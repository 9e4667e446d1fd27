ghost use Rattle.std.specs.Prelude.{◌≡◌, ◌≤◌, ◌*◌, neg_ℤ, length};
ghost use Rattle.std.specs.List.{All};
ghost use Rattle.half_sums.specs.HalfSums.{IsSum};
ghost use Rattle.model_fixed.specs.Fixed.{shift_down};
ghost use Rattle.model_setup.specs.HeaderPackets.{IsBlockSize};
ghost use Rattle.fixed_synthesis.specs.Unfolding.{unfolded};

/// The value that a sum makes.
#[inline]
fn divided(sum: i64, bits: u32) -> i64
    requires sum { IsSum sum }
    requires bits { bits ≤ 23 }
    ensures { result ≡ shift_down sum bits }
{
    sum >> bits
}

/// The value that the opposite of a sum makes. The sign is changed first, since the quotient is
/// rounded down.
#[inline]
fn opposite_divided(sum: i64, bits: u32) -> i64
    requires sum { IsSum sum }
    requires bits { bits ≤ 23 }
    ensures { result ≡ shift_down (neg_ℤ sum) bits }
{
    -sum >> bits
}

/// Makes the values of a block from its sums of the first and of the third quarter, before their
/// division: those of the other quarters are the same, turned round, and in the second quarter with
/// their signs changed. Each is divided by 2^bits, once, and rounded down.
pub fn unfold_sums(sums: &[i64], bits: u32, out: &mut [i64])
    requires size { IsBlockSize (length out.old) }
    requires sums { length out.old ≡ 2 * length sums.now }
    requires least { 15 ≤ bits }
    requires most { bits ≤ 23 }
    requires small { All IsSum sums.now }
    ensures { out.new ≡ unfolded sums.now bits }
{
    let quarter = sums.len() / 2;
    for j in 0..quarter {
        let first = divided(sums[j], bits);
        let second = opposite_divided(sums[j], bits);
        let third = divided(sums[quarter + j], bits);
        out[j] = first;
        out[2 * quarter - 1 - j] = second;
        out[2 * quarter + j] = third;
        out[4 * quarter - 1 - j] = third;
    }
}
