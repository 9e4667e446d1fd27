ghost use Rattle.std.specs.Prelude.{◌≡◌, ◌≤◌, ◌<◌, ◌+◌, ◌^◌, ℕ, length};
ghost use Rattle.std.specs.Bool.{OnTrue, OnFalse};
ghost use Rattle.model_setup.specs.HeaderPackets.{IsBlockSize};
ghost use Rattle.model_synthesis.specs.declared.constants.TheConstants.{SCALE};
ghost use Rattle.model_synthesis.specs.Transform.{IsBlockValue};
ghost use Rattle.model_synthesis.specs.Windows.{AreBlockValues, IsWindowForm, side_size, window_form, left_end, right_start, weighted, windowed_at, windowed};
ghost use Rattle.model_synthesis.specs.Overlaps.{value_at};

use constants_file::Constants;
use model_synthesis::WindowForm;

/// The size of the blocks whose slope a block of a size has towards a neighbour.
fn side_size(short: u32, long: bool, neighbour: bool, size: u32) -> u32
    ensures { result ≡ side_size short long neighbour size }
{
    if long && !neighbour { short } else { size }
}

/// The form of a block's window.
fn window_form(short: u32, long: bool, prev: bool, next: bool, size: u32) -> WindowForm
    ensures { result ≡ window_form short long prev next size }
{
    WindowForm {
        size,
        left: side_size(short, long, prev, size),
        right: side_size(short, long, next, size),
    }
}

/// The value times the weight, which is in units of 2^-scale, rounded down.
fn weighted(value: i64, weight: u32, scale: u32) -> i64
    requires value { IsBlockValue value }
    requires scale { scale ≤ SCALE }
    requires weight { weight ≤ 2 ^ scale }
    ensures value { result ≡ weighted scale value weight }
    ensures small { IsBlockValue result }
{
    (value * i64::from(weight)) >> scale
}

/// Puts the left slope of a window on a block, and zeros before it.
fn rise(constants: &Constants, form: WindowForm, block: &mut [i64])
    requires form { IsWindowForm form }
    requires size { length block.old ≡ form.size }
    requires values { AreBlockValues block.old }
    ensures slope { (i : ℕ) → i < left_end form
        → value_at block.new i ≡ windowed_at constants.now form block.old i }
    ensures rest { (i : ℕ) → left_end form ≤ i → value_at block.new i ≡ value_at block.old i }
    ensures small { AreBlockValues block.new }
{
    let start = (form.size / 4 - form.left / 4) as usize;
    block[..start].fill(0);
    let size = form.left / 2;
    let scale = constants.scale();
    for place in 0..size {
        let at = start + place as usize;
        block[at] = weighted(block[at], constants.slope(size, place), scale);
    }
}

/// Puts the right slope of a window on a block, and zeros behind it.
fn fall(constants: &Constants, form: WindowForm, block: &mut [i64])
    requires form { IsWindowForm form }
    requires size { length block.old ≡ form.size }
    requires values { AreBlockValues block.old }
    ensures slope { (i : ℕ) → right_start form ≤ i → i < form.size
        → value_at block.new i ≡ windowed_at constants.now form block.old i }
    ensures rest { (i : ℕ) → i < right_start form → value_at block.new i ≡ value_at block.old i }
    ensures small { AreBlockValues block.new }
{
    let start = (3 * form.size / 4 - form.right / 4) as usize;
    let size = form.right / 2;
    let scale = constants.scale();
    for place in 0..size {
        let at = start + place as usize;
        block[at] = weighted(block[at], constants.slope(size, size - 1 - place), scale);
    }
    block[start + size as usize..].fill(0);
}

/// Multiplies a block's values, which are in units of 2^-20, by its window, and rounds them down
/// (Vorbis I, section 4.3.1). `short` is the size of short blocks; `long`, `prev` and `next` say
/// whether the block, the one before it and the next one are long.
pub fn window(
    constants: &Constants,
    short: u32,
    long: bool,
    prev: bool,
    next: bool,
    block: &mut [i64],
)
    requires short { IsBlockSize short }
    requires size { IsBlockSize (length block.old) }
    requires if_short { OnFalse long (length block.old ≡ short) }
    requires if_long { OnTrue long (short ≤ length block.old) }
    requires values { AreBlockValues block.old }
    ensures value { block.new
        ≡ windowed constants.now (window_form short long prev next (length block.old)) block.old }
    ensures small { AreBlockValues block.new }
{
    let form = window_form(short, long, prev, next, block.len() as u32);
    rise(constants, form, block);
    fall(constants, form, block);
}
