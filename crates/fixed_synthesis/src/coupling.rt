ghost use Rattle.std.specs.Prelude.{◌≡◌, ◌≤◌, ◌<◌, ◌^◌, length, unsigned_abs, slice_set};
ghost use Rattle.std.specs.List.{All};
ghost use Rattle.model_fixed.specs.Fixed.{IsWithinLimit};
ghost use Rattle.model_synthesis.specs.Coupling.{first_of, second_of, first_channel, second_channel, channel, bin_count, AreChannels, without_step, without_steps};
ghost use Rattle.model_setup.specs.SetupPacket.{IsCoupling};

use memory::Sequence;
use model_setup::Coupling;

/// The values of both channels in a bin. They are within the limit as the magnitude and the angle
/// are, so that nothing is left to limit.
fn taken_apart(magnitude: i64, angle: i64) -> (i64, i64)
    requires magnitude { IsWithinLimit magnitude }
    requires angle { IsWithinLimit angle }
    ensures first { result.0 ≡ first_of magnitude angle }
    ensures second { result.1 ≡ second_of magnitude angle }
{
    match (magnitude > 0, angle > 0) {
        (true, true) => (magnitude, magnitude - angle),
        (true, false) => (magnitude + angle, magnitude),
        (false, true) => (magnitude, magnitude + angle),
        (false, false) => (magnitude - angle, magnitude),
    }
}

/// Takes two coupled channels apart, bin by bin: in place of the magnitudes and the angles stand
/// the values of the two channels, each within 2^32 on both sides (Vorbis I, section 4.3.5).
pub fn uncouple(magnitude: &mut [i64], angle: &mut [i64])
    requires size { length angle.old ≡ length magnitude.old }
    requires magnitudes { All IsWithinLimit magnitude.old }
    requires angles { All IsWithinLimit angle.old }
    ensures first { magnitude.new ≡ first_channel magnitude.old angle.old }
    ensures second { angle.new ≡ second_channel magnitude.old angle.old }
    ensures first_small { All IsWithinLimit magnitude.new }
    ensures second_small { All IsWithinLimit angle.new }
{
    for k in 0..magnitude.len() {
        let (first, second) = taken_apart(magnitude[k], angle[k]);
        magnitude[k] = first;
        angle[k] = second;
    }
}

/// Takes two channels of several apart.
fn uncouple_two(channels: &mut [Sequence<i64>], magnitude: usize, angle: usize)
    requires magnitude { magnitude < length channels.old }
    requires angle { angle < length channels.old }
    requires apart { magnitude ≡ angle → ⊥ }
    requires channels { AreChannels (bin_count channels.old) channels.old }
    ensures { channels.new ≡ slice_set (slice_set channels.old magnitude
        (first_channel (channel channels.old magnitude) (channel channels.old angle)))
        angle (second_channel (channel channels.old magnitude) (channel channels.old angle)) }
{
    if magnitude < angle {
        let (front, back) = channels.split_at_mut(angle);
        uncouple(front[magnitude].items_mut(), back[0].items_mut());
    } else {
        let (front, back) = channels.split_at_mut(magnitude);
        uncouple(back[0].items_mut(), front[angle].items_mut());
    }
}

/// Takes the channels of a block apart, step by step, the last step first, as it was done last
/// (Vorbis I, section 4.3.5). The channels are lists of the same length.
pub fn uncouple_all(steps: &[Coupling], channels: &mut [Sequence<i64>])
    requires steps { All (IsCoupling (length channels.old)) steps.now }
    requires channels { AreChannels (bin_count channels.old) channels.old }
    ensures values { channels.new ≡ without_steps steps.now channels.old }
    ensures channels { AreChannels (bin_count channels.old) channels.new }
{
    for n in 0..steps.len() {
        let step = &steps[steps.len() - 1 - n];
        uncouple_two(
            channels,
            usize::from(step.magnitude),
            usize::from(step.angle),
        );
    }
}
