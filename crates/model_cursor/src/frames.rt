ghost use Rattle.std.specs.Prelude.{◌≡◌, ◌*◌, ◌/◌, ◌<◌, ℕ, [], length, slice_index_or};
ghost use Rattle.std.specs.List.{flat_map};
ghost use Rattle.model_cursor.specs.FrameLists.{frames_in, values_of};

use std::marker::Model;

/// Frames, each of one value per channel, in units of 2^-20. Contracts see the list of the frames.
#[derive(Debug, Drop)]
pub struct Frames {
    channels: u8,
    values: Vec<i64>,
}

impl Model for Frames {
    ghost use Rattle.std.specs.Prelude.{◌≡◌, ◌<◌, List, ℤ, length};
    ghost use Rattle.model_cursor.specs.FrameLists.{frames_in, values_of};

    ghost Value = { List (List ℤ) };

    ghost view = { λ f. frames_in f.channels f.values.items };

    ghost invariant = { λ f. (0 < f.channels)
        × (values_of (frames_in f.channels f.values.items) ≡ f.values.items) };
}

impl Frames {
    /// The frames of so many channels whose values these are, frame after frame. It takes no
    /// memory.
    pub fn of(channels: u8, values: Vec<i64>) -> Self
        requires some { 0 < channels }
        requires whole { length values.items ≡ length values.items / channels * channels }
        ensures { result ≡ frames_in channels values.items }
    {
        Frames { channels, values }
    }

    /// The values, frame after frame.
    pub fn items(&self) -> &[i64]
        ensures { result.now ≡ values_of self.now }
    {
        &self.values
    }

    /// How many frames there are.
    pub fn count(&self) -> usize
        ensures { result ≡ length self.now }
    {
        self.values.len() / usize::from(self.channels)
    }

    /// The values of the frame of this number, one per channel, or none behind the last frame.
    pub fn frame(&self, number: usize) -> &[i64]
        ensures { result.now ≡ slice_index_or self.now number [] }
    {
        let channels = usize::from(self.channels);
        if number < self.values.len() / channels {
            let values = self.items();
            &values[number * channels..(number + 1) * channels]
        } else {
            &[]
        }
    }
}
