ghost use Rattle.std.specs.Prelude.{◌≡◌, ◌≤◌, ◌<◌, ◌*◌, length, IfOk, OnOk, OnErr};
ghost use Rattle.std.specs.List.{All, flat_map};
ghost use Rattle.model_bits.specs.Reading.{leaving, times};
ghost use Rattle.model_setup.specs.FloorSetup.{IsFloorClass, NamesBooks, FloorNamesBooks, ArePoints, IsFloor, class_count, value_count};
ghost use Rattle.model_setup.specs.FloorReading.{floor_field, partition_classes_at, class_at, floor_at};
ghost use Rattle.model_setup.specs.FloorPacket.{range_of};
ghost use Rattle.model_writing.specs.SetupWriting.{class_fields, floor_fields};
ghost use Rattle.setup_fields.specs.Puts.{ArePut, HavePlaces, IsFrontOf};

use crate::class::{Class, read_class};
use crate::fields::read_field;
use crate::points::{Points, read_points};
use arrayvec::ArrayVec;
use bit_reader::{Bits, BitsOut, NoMemory};
use model_setup::FloorFault;
use setup_fields::{put_bytes, put_count, put_number};
use std::marker::Model;

/// A floor of type 1: how the values of its points are read from a packet, and where the points
/// stand (Vorbis I, section 7.2.2). It takes no memory but its own.
#[derive(Debug, Drop)]
pub struct Floor {
    // the class of each partition
    partitions: ArrayVec<u8, 31>,
    classes: ArrayVec<Class, 16>,
    multiplier: u8,
    points: Points,
}

impl Model for Floor {
    ghost use Rattle.model_setup.specs.FloorSetup.{FloorSetup};
    ghost use Rattle.floor_one.specs.Floors.{IsFloorOf};

    ghost Value = { FloorSetup };

    ghost view = { λ a. record {
      partitions = a.partitions.items;
      classes = a.classes.items;
      multiplier = a.multiplier;
      x_values = a.points;
    } };

    ghost invariant = { λ a. IsFloorOf a.partitions.items a.classes.items a.multiplier a.points };
}

/// Reads so many numbers of classes.
fn read_class_numbers(bits: &mut Bits, count: u32) -> Result<ArrayVec<u8, 31>, FloorFault>
    requires { count ≤ 31 }
    ensures read { times count (floor_field 4) bits.old.left
        ≡ leaving bits.new.left (λ v. v.items) result }
    ensures small { IfOk result (λ v. All (λ class. class < 16) v.items) }
    ensures bytes { bits.new.total ≡ bits.old.total }
{
    let mut numbers = ArrayVec::new();
    for _ in 0..count {
        let number = read_field(bits, 4)?;
        numbers.push(number as u8);
    }
    Ok(numbers)
}

/// Reads the class of each partition.
#[tactic(auto, unfolding(model_setup::specs::FloorReading::partition_classes_at))]
fn read_partition_classes(bits: &mut Bits) -> Result<ArrayVec<u8, 31>, FloorFault>
    ensures read { partition_classes_at bits.old.left
        ≡ leaving bits.new.left (λ v. v.items) result }
    ensures small { IfOk result (λ v. All (λ class. class < 16) v.items) }
    ensures few { IfOk result (λ v. length v.items ≤ 31) }
    ensures bytes { bits.new.total ≡ bits.old.total }
{
    let count = read_field(bits, 5)?;
    read_class_numbers(bits, count)
}

/// How many classes the partitions have: as many as the greatest of them needs.
fn class_count(partitions: &[u8]) -> u32
    requires { All (λ class. class < 16) partitions.now }
    ensures count { result ≡ class_count partitions.now }
    ensures few { result ≤ 16 }
{
    let mut count = 0;
    for class in partitions {
        count = count.max(u32::from(*class) + 1);
    }
    count
}

/// Reads so many classes.
fn read_classes(bits: &mut Bits, books: u32, count: u32) -> Result<ArrayVec<Class, 16>, FloorFault>
    requires { count ≤ 16 }
    ensures read { times count (class_at books) bits.old.left
        ≡ leaving bits.new.left (λ v. v.items) result }
    ensures count { IfOk result (λ v. length v.items ≡ count) }
    ensures classes { IfOk result (λ v. All IsFloorClass v.items) }
    ensures books { IfOk result (λ v. All (NamesBooks books) v.items) }
    ensures bytes { bits.new.total ≡ bits.old.total }
{
    let mut classes = ArrayVec::new();
    for _ in 0..count {
        let class = read_class(bits, books)?;
        classes.push(class);
    }
    Ok(classes)
}

/// How many values all partitions have together.
fn value_count(partitions: &[u8], classes: &[Class]) -> u32
    requires few { length partitions.now ≤ 31 }
    requires named { All (λ class. class < length classes.now) partitions.now }
    requires classes { All IsFloorClass classes.now }
    ensures count { result ≡ value_count classes.now partitions.now }
    ensures small { result ≤ 8 * length partitions.now }
{
    let mut count = 0;
    for number in partitions {
        let class = &classes[usize::from(*number)];
        count += u32::from(class.dimensions);
    }
    count
}

/// Writes classes.
fn write_classes(out: &mut BitsOut, classes: &[Class]) -> Result<(), NoMemory>
    requires { HavePlaces (flat_map class_fields classes.now) }
    ensures put { OnOk result (ArePut out.old out.new (flat_map class_fields classes.now)) }
    ensures kept { OnErr result (IsFrontOf out.old out.new) }
{
    for class in classes {
        class.write(out)?;
    }
    Ok(())
}

impl Floor {
    /// Reads a floor, in a setup of so many books. The first cause of a refusal in reading order is
    /// answered; the bits are of no use then. It takes no memory.
    #[tactic(auto, unfolding(model_setup::specs::FloorReading::floor_at, model_setup::specs::FloorReading::partitions_at, model_setup::specs::FloorReading::partition_classes_at))]
    pub fn read(bits: &mut Bits, books: u32) -> Result<Floor, FloorFault>
        ensures read { floor_at books bits.old.left ≡ leaving bits.new.left (λ f. f) result }
        ensures floor { IfOk result IsFloor }
        ensures books { IfOk result (FloorNamesBooks books) }
        ensures bytes { bits.new.total ≡ bits.old.total }
    {
        let partitions = read_partition_classes(bits)?;
        let classes = read_classes(bits, books, class_count(&partitions))?;
        let multiplier = read_field(bits, 2)? + 1;
        let range_bits = read_field(bits, 4)?;
        let points = read_points(bits, range_bits, value_count(&partitions, &classes))?;
        Ok(Floor {
            partitions,
            classes,
            multiplier: multiplier as u8,
            points,
        })
    }

    /// Writes the floor behind the bits that were put before. Where no memory is found, what
    /// was put before stays in front.
    pub fn write(&self, out: &mut BitsOut) -> Result<(), NoMemory>
        requires { HavePlaces (floor_fields self.now) }
        ensures put { OnOk result (ArePut out.old out.new (floor_fields self.now)) }
        ensures kept { OnErr result (IsFrontOf out.old out.new) }
    {
        put_number(out, 5, self.partitions.len() as u32)?;
        put_bytes(out, 4, &self.partitions)?;
        write_classes(out, &self.classes)?;
        put_count(out, 2, u32::from(self.multiplier))?;
        self.points.write(out)
    }

    /// The class of each partition.
    pub(crate) fn partitions(&self) -> &[u8]
        ensures { result.now ≡ self.now.partitions }
    {
        self.partitions.as_slice()
    }

    /// The classes, among which each partition has its own.
    pub(crate) fn classes(&self) -> &[Class]
        ensures value { result.now ≡ self.now.classes }
        ensures floor { IsFloor self.now }
    {
        self.classes.as_slice()
    }

    /// What heights are multiplied by, 1 to 4.
    pub(crate) fn multiplier(&self) -> u32
        ensures value { result ≡ self.now.multiplier }
        ensures small { result ≤ 4 }
    {
        u32::from(self.multiplier)
    }

    /// The number of heights that a value may have.
    pub(crate) fn range(&self) -> u32
        ensures value { result ≡ range_of self.now.multiplier }
        ensures some { 64 ≤ result }
        ensures few { result ≤ 256 }
    {
        match self.multiplier {
            1 => 256,
            2 => 128,
            3 => 86,
            _ => 64,
        }
    }

    /// The points.
    pub(crate) fn points(&self) -> &Points
        ensures value { result.now ≡ self.now.x_values }
        ensures points { ArePoints self.now.x_values }
    {
        &self.points
    }
}
