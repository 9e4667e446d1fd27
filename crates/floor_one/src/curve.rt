ghost use Rattle.std.specs.Prelude.{◌≡◌, ◌≤◌, ◌<◌, ◌^◌, ◌+◌, ◌-◌, ◌/◌, ◌%◌, length, map, ℕ, ℤ, pos, neg_ℤ, ◌+ℤ◌, ◌-ℤ◌, ◌*ℤ◌, int_lt, if◌then◌else◌, unsigned_abs, slice_index};
ghost use Rattle.std.specs.List.{range_with_len};
ghost use Rattle.model_setup.specs.FloorCurve.{render_point, decibel_number, curve_at, AreFinals};

use crate::finals::Finals;
use crate::floor::Floor;
use model_setup::Final;

/// A flagged point: the curve goes through it.
#[derive(Clone, Copy)]
struct Corner {
    x: usize,
    y: i64,
}

/// How a straight line climbs or falls. From one bin of a spectrum to the next its height changes
/// by `base`, and by one more in the same `direction` as often as the remainders make up a whole
/// width.
#[derive(Clone, Copy)]
struct Slope {
    width: u64,
    base: i64,
    direction: i64,
    remainder: u64,
}

/// Where a straight line is drawn: its height, and the remainders that haven't made up a width yet.
#[derive(Clone, Copy)]
struct Pen {
    height: i64,
    error: u64,
}

/// A height as the number of a decibel value.
fn decibel_number(height: i64) -> u8
    ensures { result ≡ decibel_number height }
{
    height.clamp(0, 255) as u8
}

/// The slope of the straight line between two corners.
fn slope_between(low: Corner, high: Corner) -> Slope
    requires order { low.x < high.x }
    requires low { unsigned_abs low.y ≤ 2 ^ 27 }
    requires high { unsigned_abs high.y ≤ 2 ^ 27 }
    ensures width { result.width ≡ high.x - low.x }
    ensures base { let whole = unsigned_abs (high.y -ℤ low.y) / (high.x - low.x) in
        result.base ≡ (if int_lt high.y low.y then neg_ℤ (pos whole) else pos whole) }
    ensures direction { result.direction ≡ (if int_lt high.y low.y then neg_ℤ (pos 1) else pos 1) }
    ensures remainder { result.remainder ≡ unsigned_abs (high.y -ℤ low.y) % (high.x - low.x) }
{
    let width = (high.x - low.x) as u64;
    let rise = (high.y - low.y).unsigned_abs();
    let whole = (rise / width) as i64;
    let remainder = rise % width;
    if high.y < low.y {
        Slope {
            width,
            base: -whole,
            direction: -1,
            remainder,
        }
    } else {
        Slope {
            width,
            base: whole,
            direction: 1,
            remainder,
        }
    }
}

impl Slope {
    /// The next bin: one addition and one comparison (Vorbis I, section 9.2.7).
    fn next(self, pen: Pen) -> Pen
        requires width { self.width < 2 ^ 16 }
        requires base { unsigned_abs self.base ≤ 2 ^ 28 }
        requires direction { unsigned_abs self.direction ≤ 1 }
        requires remainder { self.remainder < self.width }
        requires height { unsigned_abs pen.height ≤ 2 ^ 30 }
        requires error { pen.error < self.width }
        ensures same { pen.error + self.remainder < self.width
            → result.height ≡ pen.height +ℤ self.base }
        ensures same_error { pen.error + self.remainder < self.width
            → result.error ≡ pen.error + self.remainder }
        ensures more { self.width ≤ pen.error + self.remainder
            → result.height ≡ (pen.height +ℤ self.base) +ℤ self.direction }
        ensures more_error { self.width ≤ pen.error + self.remainder
            → result.error + self.width ≡ pen.error + self.remainder }
    {
        let height = pen.height + self.base;
        let error = pen.error + self.remainder;
        if error < self.width {
            Pen { height, error }
        } else {
            Pen {
                height: height + self.direction,
                error: error - self.width,
            }
        }
    }
}

/// Draws the straight line from a corner up to the next, as far as there are bins: one addition
/// and one comparison a bin (Vorbis I, section 9.2.7).
fn draw(out: &mut [u8], low: Corner, high: Corner)
    requires order { low.x < high.x }
    requires within { high.x < 2 ^ 16 }
    requires low { unsigned_abs low.y ≤ 2 ^ 27 }
    requires high { unsigned_abs high.y ≤ 2 ^ 27 }
    ensures inside { (k : ℕ) → low.x ≤ k → k < high.x → k < length out.old
        → slice_index out.new k ≡ decibel_number (render_point low.x low.y high.x high.y k) }
    ensures before { (k : ℕ) → k < low.x → slice_index out.new k ≡ slice_index out.old k }
{
    let slope = slope_between(low, high);
    let mut pen = Pen {
        height: low.y,
        error: 0,
    };
    for x in low.x..high.x.min(out.len()) {
        out[x] = decibel_number(pen.height);
        pen = slope.next(pen);
    }
}

/// The corner at the flagged point of a bin.
fn corner_at(x: u16, point: Final, multiplier: u32) -> Corner
    requires multiplier { multiplier ≤ 4 }
    requires point { unsigned_abs point.value ≤ 2 ^ 25 }
    ensures x { result.x ≡ x }
    ensures y { result.y ≡ point.value *ℤ pos multiplier }
    ensures small { unsigned_abs result.y ≤ 2 ^ 27 }
{
    Corner {
        x: usize::from(x),
        y: i64::from(point.value) * i64::from(multiplier),
    }
}

impl Floor {
    /// Writes the curve through the flagged points, as `decode` of this floor gave them: for each
    /// bin the number of its decibel value, 0 to 255 (Vorbis I, section 7.2.4, step 2).
    pub fn curve(&self, finals: &Finals, out: &mut [u8])
        requires { AreFinals self.now finals.now }
        ensures { out.new ≡ map (curve_at self.now finals.now) (range_with_len 0 (length out.old)) }
    {
        let multiplier = self.multiplier();
        let finals = finals.items();
        let order = self.points().order();
        let mut corner = corner_at(0, finals[0], multiplier);
        for position in &order[1..] {
            let point = finals[usize::from(position.number)];
            if point.flagged {
                let next = corner_at(position.x, point, multiplier);
                draw(out, corner, next);
                corner = next;
            }
        }
        for x in corner.x..out.len() {
            out[x] = decibel_number(corner.y);
        }
    }
}
