ghost use Rattle.std.specs.Prelude.{◌≡◌, [], ◌≤◌, ◌<◌, ◌^◌, ◌+◌, ◌-◌, ◌*◌, length, Ok, Err, IfSome, IfNone, OnSome, option_map, option_and_then, slice_get};
ghost use Rattle.std.specs.List.{All, range_with_len};
ghost use Rattle.arrayvec.specs.ArrayVec.{array_vec_len};
ghost use Rattle.model_bits.specs.Reading.{ReadsOrEnds, packet_bits, with_front, each};
ghost use Rattle.model_setup.specs.BookReading.{ilog};
ghost use Rattle.model_setup.specs.declared.floor.TheConstants.{MOST_POINTS};
ghost use Rattle.model_setup.specs.FloorSetup.{IsFloorClass, NamesBooks, FloorNamesBooks};
ghost use Rattle.model_setup.specs.FloorPacket.{entry_or_0_at, book_of_value, class_of, partition_values_at, y_values_at, floor_values};
ghost use Rattle.model_setup.specs.FloorCurve.{floor_finals, AreFinals};
ghost use Rattle.floor_one.specs.Curves.{flattened, finals_seen};

use crate::class::Class;
use crate::finals::{Finals, Floored};
use crate::floor::Floor;
use arrayvec::ArrayVec;
use bit_reader::Bits;
use codebooks::Book;
use model_setup::MOST_POINTS;

/// The value of each of a floor's points, as a packet has them.
type Values = ArrayVec<u32, MOST_POINTS>;

/// The number of bits of a number below so many.
fn width(range: u32) -> u32
    requires some { 2 ≤ range }
    requires few { range ≤ 256 }
    ensures width { result ≡ ilog (range - 1) }
    ensures few { result ≤ 8 }
{
    32 - (range - 1).leading_zeros()
}

/// Reads one of so many heights as a plain number.
fn read_height(bits: &mut Bits, range: u32) -> Option<u32>
    requires some { 2 ≤ range }
    requires few { range ≤ 256 }
    ensures read { ReadsOrEnds (λ n. n) result bits.new
        (packet_bits (ilog (range - 1)) bits.old.left) }
    ensures small { IfSome result (λ n. n < 2 ^ 24) }
    ensures bytes { bits.new.total ≡ bits.old.total }
{
    bits.take(width(range))
}

/// Reads an entry of a book, or takes 0 where there is none.
#[tactic(auto, unfolding(model_setup::specs::FloorPacket::entry_or_0_at))]
fn read_entry(bits: &mut Bits, books: &[Book], book: Option<u8>) -> Option<u32>
    requires { IfSome book (λ n. n < length books.now) }
    ensures read { ReadsOrEnds (λ n. n) result bits.new
        (entry_or_0_at books.now book bits.old.left) }
    ensures small { IfSome result (λ n. n < 2 ^ 24) }
    ensures bytes { bits.new.total ≡ bits.old.total }
{
    match book {
        Some(book) => books[usize::from(book)].entry(bits),
        None => Some(0),
    }
}

/// The book of a value whose class word has this remainder.
fn book_of(class: &Class, digit: u32) -> Option<u8>
    requires { digit < length class.now.books }
    ensures { result ≡ option_and_then (λ named. named) (slice_get class.now.books digit) }
{
    class.books[digit as usize]
}

/// Reads a value for each dimension of a class, by the digits of the class word, and adds them to
/// those before.
fn read_digits(
    bits: &mut Bits,
    books: &[Book],
    class: &Class,
    mut word: u32,
    values: &mut Values,
) -> Option<()>
    requires class { IsFloorClass class.now }
    requires books { NamesBooks (length books.now) class.now }
    requires room { array_vec_len values.old + class.now.dimensions ≤ MOST_POINTS }
    ensures read { OnSome result
        (with_front values.old.items
        (each (λ j. entry_or_0_at books.now (book_of_value class.now word j))
        (range_with_len 0 class.now.dimensions) bits.old.left)
        ≡ Ok (values.new.items, bits.new.left)) }
    ensures ended { IfNone result
        (each (λ j. entry_or_0_at books.now (book_of_value class.now word j))
        (range_with_len 0 class.now.dimensions) bits.old.left ≡ Err tt) }
    ensures finished { IfNone result (bits.new.left ≡ []) }
    ensures count { OnSome result (array_vec_len values.new
        ≡ array_vec_len values.old + class.now.dimensions) }
    ensures small { OnSome result (All (λ y. y < 2 ^ 24) values.old.items
        → All (λ y. y < 2 ^ 24) values.new.items) }
    ensures bytes { bits.new.total ≡ bits.old.total }
{
    let subclasses = 1 << class.subclass_bits;
    for _ in 0..class.dimensions {
        let value = read_entry(bits, books, book_of(class, word % subclasses))?;
        values.push(value);
        word /= subclasses;
    }
    Some(())
}

/// Reads the values of a partition, and adds them to those before it.
#[tactic(auto, unfolding(model_setup::specs::FloorPacket::partition_values_at))]
fn read_partition_values(
    bits: &mut Bits,
    books: &[Book],
    class: &Class,
    values: &mut Values,
) -> Option<()>
    requires class { IsFloorClass class.now }
    requires books { NamesBooks (length books.now) class.now }
    requires room { array_vec_len values.old + class.now.dimensions ≤ MOST_POINTS }
    ensures read { OnSome result
        (with_front values.old.items (partition_values_at books.now class.now bits.old.left)
        ≡ Ok (values.new.items, bits.new.left)) }
    ensures ended { IfNone result (partition_values_at books.now class.now bits.old.left ≡ Err tt) }
    ensures finished { IfNone result (bits.new.left ≡ []) }
    ensures count { OnSome result (array_vec_len values.new
        ≡ array_vec_len values.old + class.now.dimensions) }
    ensures small { OnSome result (All (λ y. y < 2 ^ 24) values.old.items
        → All (λ y. y < 2 ^ 24) values.new.items) }
    ensures bytes { bits.new.total ≡ bits.old.total }
{
    let word = read_entry(bits, books, class.master)?;
    read_digits(bits, books, class, word, values)
}

impl Floor {
    /// Reads the values of all partitions, and adds them to the first two.
    fn read_all_values(&self, bits: &mut Bits, books: &[Book], values: &mut Values) -> Option<()>
        requires books { FloorNamesBooks (length books.now) self.now }
        requires two { array_vec_len values.old ≡ 2 }
        ensures read { OnSome result
            (with_front values.old.items
            (flattened (each (λ class. partition_values_at books.now (class_of self.now class))
            self.now.partitions bits.old.left)) ≡ Ok (values.new.items, bits.new.left)) }
        ensures ended { IfNone result
            (each (λ class. partition_values_at books.now (class_of self.now class))
            self.now.partitions bits.old.left ≡ Err tt) }
        ensures finished { IfNone result (bits.new.left ≡ []) }
        ensures count { OnSome result (array_vec_len values.new ≡ length self.now.x_values) }
        ensures small { OnSome result (All (λ y. y < 2 ^ 24) values.old.items
            → All (λ y. y < 2 ^ 24) values.new.items) }
        ensures bytes { bits.new.total ≡ bits.old.total }
    {
        let classes = self.classes();
        for number in self.partitions() {
            let class = &classes[usize::from(*number)];
            read_partition_values(bits, books, class, values)?;
        }
        Some(())
    }

    /// Reads the value of each point.
    #[tactic(auto, unfolding(model_setup::specs::FloorPacket::y_values_at))]
    fn read_values(&self, bits: &mut Bits, books: &[Book]) -> Option<Values>
        requires { FloorNamesBooks (length books.now) self.now }
        ensures read { ReadsOrEnds (λ v. v.items) result bits.new
            (y_values_at books.now self.now bits.old.left) }
        ensures count { IfSome result (λ v. length v.items ≡ length self.now.x_values) }
        ensures small { IfSome result (λ v. All (λ y. y < 2 ^ 24) v.items) }
        ensures bytes { bits.new.total ≡ bits.old.total }
    {
        let range = self.range();
        let first = read_height(bits, range)?;
        let second = read_height(bits, range)?;
        let mut values = Values::new();
        values.push(first);
        values.push(second);
        self.read_all_values(bits, books, &mut values)?;
        Some(values)
    }

    /// Reads the value of each point, if the floor is used.
    #[tactic(auto, unfolding(model_setup::specs::FloorPacket::floor_values, model_setup::specs::FloorPacket::nonzero_values_at))]
    fn read_nonzero(&self, bits: &mut Bits, books: &[Book]) -> Option<Values>
        requires { FloorNamesBooks (length books.now) self.now }
        ensures read { (option_map (λ v. v.items) result, bits.new.left)
            ≡ floor_values books.now self.now bits.old.left }
        ensures count { IfSome result (λ v. length v.items ≡ length self.now.x_values) }
        ensures small { IfSome result (λ v. All (λ y. y < 2 ^ 24) v.items) }
        ensures bytes { bits.new.total ≡ bits.old.total }
    {
        if bits.take(1)? == 0 {
            return None;
        }
        self.read_values(bits, books)
    }

    /// Reads the values of the points from a packet in which the floor is used, by the books of its
    /// setup, and gives their final values. Where the packet says that it isn't used, or ends
    /// before the last value, the floor is unused; at the end no bit is left. It takes no memory
    /// (Vorbis I, section 7.2.3).
    #[tactic(auto, unfolding(model_setup::specs::FloorCurve::floor_finals, model_setup::specs::FloorCurve::finals_of))]
    pub fn decode(&self, bits: &mut Bits, books: &[Book]) -> Floored
        requires { FloorNamesBooks (length books.now) self.now }
        ensures decoded { (finals_seen result, bits.new.left)
            ≡ floor_finals books.now self.now bits.old.left }
        ensures finals { IfSome (finals_seen result) (AreFinals self.now) }
        ensures bytes { bits.new.total ≡ bits.old.total }
    {
        match self.read_nonzero(bits, books) {
            Some(values) => Floored::Curve(Finals::new(self.points(), self.range(), &values)),
            None => Floored::Unused,
        }
    }
}
