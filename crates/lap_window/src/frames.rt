ghost use Rattle.std.specs.Prelude.{◌≡◌, ◌≤◌, ◌<◌, ◌+◌, ◌-◌, ◌*◌, length, slice_range};
ghost use Rattle.model_setup.specs.HeaderPackets.{IsBlockSize};
ghost use Rattle.model_synthesis.specs.Transform.{IsBlockValue};
ghost use Rattle.model_synthesis.specs.Windows.{AreBlockValues};
ghost use Rattle.model_synthesis.specs.Overlaps.{value_at, value_behind_zeros, overlap_len, overlap_at, overlapped, IsFrameValue, AreFrameValues};

/// The value at a place of a half; behind its last value there are zeros.
fn value_at(half: &[i64], place: usize) -> i64
    requires { AreBlockValues half.now }
    ensures value { result ≡ value_at half.now place }
    ensures small { IsBlockValue result }
{
    half.get(place).copied().unwrap_or(0)
}

/// The value at a place of a half that has so many zeros before it.
fn value_behind_zeros(half: &[i64], place: usize, zeros: usize) -> i64
    requires { AreBlockValues half.now }
    ensures value { result ≡ value_behind_zeros half.now place zeros }
    ensures small { IsBlockValue result }
{
    if place < zeros {
        0
    } else {
        value_at(half, place - zeros)
    }
}

/// Frame `number` between a block and the next one.
fn frame(right: &[i64], left: &[i64], number: usize) -> i64
    requires right_size { IsBlockSize (2 * length right.now) }
    requires left_size { IsBlockSize (2 * length left.now) }
    requires right { AreBlockValues right.now }
    requires left { AreBlockValues left.now }
    requires number { number < overlap_len (2 * length right.now) (2 * length left.now) }
    ensures value { result
        ≡ overlap_at (2 * length right.now) (2 * length left.now) right.now left.now number }
    ensures small { IsFrameValue result }
{
    let a = 2 * right.len();
    let b = 2 * left.len();
    let first = value_at(right, number);
    let second = value_behind_zeros(left, number + b / 4, a / 4);
    first + second
}

/// Writes the frames from number `from` up to but not including `to` of those that a block and the
/// next one give in a channel, from the right half of the first and the left half of the second
/// (Vorbis I, section 4.3.8). All values are in units of 2^-20.
pub fn overlap(right: &[i64], left: &[i64], from: u32, to: u32, out: &mut [i64])
    requires right_size { IsBlockSize (2 * length right.now) }
    requires left_size { IsBlockSize (2 * length left.now) }
    requires right { AreBlockValues right.now }
    requires left { AreBlockValues left.now }
    requires order { from ≤ to }
    requires within { to ≤ overlap_len (2 * length right.now) (2 * length left.now) }
    requires out { length out.old ≡ to - from }
    ensures value { out.new ≡ slice_range (overlapped right.now left.now) from to }
    ensures small { AreFrameValues out.new }
{
    for place in 0..out.len() {
        out[place] = frame(right, left, from as usize + place);
    }
}
