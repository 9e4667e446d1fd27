ghost use Rattle.std.specs.Prelude.{◌≡◌, ℕ, IsTrue, pos, slice_index_or};

/// Whether all bins of a spectrum are zero.
pub fn is_silent(spectrum: &[i64]) -> bool
    ensures { IsTrue result → (k : ℕ) → slice_index_or spectrum.now k (pos 0) ≡ pos 0 }
{
    for bin in spectrum {
        if *bin != 0 {
            return false;
        }
    }
    true
}

/// Sets all sums to zero.
pub fn silence(sums: &mut [i64])
    ensures { (k : ℕ) → slice_index_or sums.new k (pos 0) ≡ pos 0 }
{
    for sum in sums.iter_mut() {
        *sum = 0;
    }
}
