ghost use Rattle.std.specs.Prelude.{◌≡◌, ◌≤◌, ◌<◌, ◌^◌, IfOk, IfErr};
ghost use Rattle.memory.specs.Answers.{Answers};
ghost use Rattle.model_setup.specs.BookReading.{field};

use bit_reader::Bits;
use model_setup::BookFault;

/// Reads a number of so many bits.
pub fn read_field(bits: &mut Bits, count: u32) -> Result<u32, BookFault>
    requires { count ≤ 32 }
    ensures field { Answers BookFault.Memory (λ n. (n, bits.new.left)) result
        (field count bits.old.left) }
    ensures bytes { bits.new.total ≡ bits.old.total }
    ensures below { IfOk result (λ n. n < 2 ^ count) }
{
    bits.take(count).ok_or(BookFault::End)
}
