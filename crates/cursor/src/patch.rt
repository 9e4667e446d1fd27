ghost use Rattle.std.specs.Prelude.{◌≡◌, ◌*◌, ◌/◌, ◌<◌, [], length, drop, unwrap_or};
ghost use Rattle.model_cursor.specs.FrameLists.{frames_in, values_of};
ghost use Rattle.cursor.specs.Patches.{patched};

use std::marker::Model;

/// Frames that reads give in place of the first ones of a run, each of one value per channel, in
/// units of 2^-20. Contracts see the list of those that are left.
#[derive(Debug, Drop)]
pub struct Patch {
    channels: u8,
    values: Vec<i64>,
    /// How many of the values are used up.
    used: usize,
}

impl Model for Patch {
    ghost use Rattle.std.specs.Prelude.{◌*◌, ◌/◌, ◌≡◌, ◌<◌, ◌≤◌, List, ℤ, length, drop};
    ghost use Rattle.model_cursor.specs.FrameLists.{frames_in};

    ghost Value = { List (List ℤ) };

    ghost view = { λ p. frames_in p.channels (drop p.used p.values.items) };

    ghost invariant = { λ p. (0 < p.channels) × (p.used ≤ length p.values.items)
        × (length (drop p.used p.values.items)
        ≡ length (drop p.used p.values.items) / p.channels * p.channels) };
}

impl Patch {
    /// The frames of so many channels whose values these are, frame after frame. It takes no
    /// memory.
    pub fn of(channels: u8, values: Vec<i64>) -> Self
        requires some { 0 < channels }
        requires whole { length values.items ≡ length values.items / channels * channels }
        ensures { result ≡ frames_in channels values.items }
    {
        Patch {
            channels,
            values,
            used: 0,
        }
    }

    /// The values of the frames that are left, frame after frame.
    fn left(&self) -> &[i64]
        ensures { result.now ≡ values_of self.now }
    {
        &self.values[self.used..]
    }

    /// Takes so many frames away from the front.
    fn pass(&mut self, count: usize)
        ensures { self.new ≡ drop count self.old }
    {
        let channels = usize::from(self.channels);
        let frames = (self.values.len() - self.used) / channels;
        self.used += count.min(frames) * channels;
    }
}

/// Writes the values of a patch over the first ones of a run.
pub fn lay_over(patch: &Option<Patch>, values: &mut [i64])
    ensures { values.new ≡ patched (values_of (unwrap_or patch.now [])) values.old }
{
    let Some(patch) = patch else {
        return;
    };
    let left = patch.left();
    let count = left.len().min(values.len());
    values[..count].copy_from_slice(&left[..count]);
}

/// Takes so many frames away from the front of a patch.
pub fn pass(patch: &mut Option<Patch>, count: usize)
    ensures { unwrap_or patch.new [] ≡ drop count (unwrap_or patch.old []) }
{
    if let Some(patch) = patch {
        patch.pass(count);
    }
}
