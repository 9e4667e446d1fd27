ghost use Rattle.std.specs.Prelude.{◌≡◌};
ghost use Rattle.model_synthesis.specs.Samples.{pcm};

use model_synthesis::SAMPLE_SHIFT;

/// The sample of 16 bits that is nearest to a value of a frame, which is in units of 2^-20; the
/// lowest or the highest sample, if the value is past all of them.
pub fn pcm(v: i64) -> i16
    ensures { result ≡ pcm v }
{
    let half = 1 << (SAMPLE_SHIFT - 1);
    let nearest = v.saturating_add(half) >> SAMPLE_SHIFT;
    nearest.clamp(i64::from(i16::MIN), i64::from(i16::MAX)) as i16
}
