ghost use Rattle.std.specs.Prelude.{◌≡◌, ◌≤◌, ◌<◌, ◌^◌, ◌+◌, ◌*◌, ◌/◌, ◌+ℤ◌, unsigned_abs, map, length, IfOk, OnOk, OnErr, IsSome, Some, nat_le, List, take};
ghost use Rattle.std.specs.List.{All};
ghost use Rattle.model_bits.specs.Reading.{times};
ghost use Rattle.model_fixed.specs.Fixed.{IsWithinLimit, limited};
ghost use Rattle.memory.specs.Answers.{Answers};
ghost use Rattle.model_setup.specs.declared.book.LookupKind.{LookupKind};
ghost use Rattle.model_setup.specs.BookReading.{field, table_at, lookup_at, multiplicands_of};
ghost use Rattle.model_setup.specs.Vectors.{root_of, multiplicand_count, carried_on, vector_of};
ghost use Rattle.model_writing.specs.SetupWriting.{lookup_type, lookup_fields};
ghost use Rattle.setup_fields.specs.Puts.{ArePut, HavePlaces, IsFrontOf};
ghost use Rattle.codebooks.specs.Units.{unit_of, factor_of};
ghost use Rattle.codebooks.specs.Layouts.{AreVectors};
ghost use Rattle.codebooks.specs.Tables.{HasRoom, IsWholeTable, IsWholeIfSome};

use crate::fields::read_field;
use crate::fixed::{LIMIT, fix};
use bit_reader::{Bits, BitsOut, NoMemory};
use model_setup::{BookFault, ENTRY_LIMIT, LookupKind};
use setup_fields::{put_flag, put_number, put_words};
use std::alloc::{AllocError, Global};
use std::marker::Model;

/// How the vectors of a book's entries are made.
#[derive(Drop)]
pub struct VectorTable {
    kind: LookupKind,
    minimum: u32,
    delta: u32,
    sequence: bool,
    multiplicands: Vec<u16>,
    /// The multiplicands in units of 2^-16, each with the minimum added.
    units: Vec<i64>,
    /// What a number is multiplied by, in place of a division by how many multiplicands there are.
    factor: u128,
}

impl Model for VectorTable {
    ghost use Rattle.model_setup.specs.Codebook.{Lookup};
    ghost use Rattle.codebooks.specs.Units.{IsVectorTable};

    ghost Value = { Lookup };

    ghost view = { λ a. record {
      kind = a.kind;
      minimum = a.minimum;
      delta = a.delta;
      sequence = a.sequence;
      multiplicands = a.multiplicands.items;
    } };

    ghost invariant = { λ a. IsVectorTable (record {
      kind = a.kind;
      minimum = a.minimum;
      delta = a.delta;
      sequence = a.sequence;
      multiplicands = a.multiplicands.items;
    }) a.units.items a.factor };
}

/// Whether a power is no more than a number.
fn is_power_within(base: u32, exponent: u32, most: u32) -> bool
    ensures { result ≡ nat_le (base ^ exponent) most }
{
    match base.checked_pow(exponent) {
        Some(power) => power <= most,
        None => false,
    }
}

/// The greatest number whose power is no more than the number of entries.
fn root(entries: u32, dimensions: u32) -> u32
    requires some { 0 < dimensions }
    requires few { entries < ENTRY_LIMIT }
    ensures { result ≡ root_of entries dimensions }
{
    let mut root = 0;
    while is_power_within(root + 1, dimensions, entries) {
        root += 1;
    }
    root
}

/// How many multiplicands a table has.
fn multiplicand_count(kind: LookupKind, dimensions: u32, entries: u32) -> u64
    requires some { 0 < dimensions }
    requires few { entries < ENTRY_LIMIT }
    ensures { result ≡ multiplicand_count kind dimensions entries }
{
    match kind {
        LookupKind::Lattice => u64::from(root(entries, dimensions)),
        LookupKind::Tessellation => u64::from(entries) * u64::from(dimensions),
    }
}

/// Reads so many multiplicands of so many bits.
fn read_multiplicands(
    alloc: Global,
    bits: &mut Bits,
    count: u32,
    width: u32,
) -> Result<Vec<u16>, BookFault>
    requires { width ≤ 16 }
    ensures read { Answers BookFault.Memory (λ v. (v.items, bits.new.left)) result
        (times count (field width) bits.old.left) }
    ensures bytes { bits.new.total ≡ bits.old.total }
    ensures count { IfOk result (λ v. length v.items ≡ count) }
{
    let mut multiplicands = Vec::new(alloc);
    for _ in 0..count {
        let multiplicand = read_field(bits, width)?;
        multiplicands.push(multiplicand as u16)?;
    }
    Ok(multiplicands)
}

/// A multiplicand in units of 2^-16, with the minimum added.
fn unit_of(multiplicand: u16, minimum: u32, delta: u32) -> i64
    ensures { result ≡ unit_of minimum delta multiplicand }
{
    fix(u32::from(multiplicand), delta) + fix(1, minimum)
}

/// The multiplicands in units of 2^-16, each with the minimum added.
fn units_of(
    alloc: Global,
    multiplicands: &[u16],
    minimum: u32,
    delta: u32,
) -> Result<Vec<i64>, AllocError>
    ensures { IfOk result (λ v. v.items ≡ map (unit_of minimum delta) multiplicands.now) }
{
    let mut units = Vec::new(alloc);
    for multiplicand in multiplicands {
        units.push(unit_of(*multiplicand, minimum, delta))?;
    }
    Ok(units)
}

/// What a number is multiplied by, in place of a division by this one.
fn factor_of(divisor: u32) -> u128
    ensures { 0 < divisor → result ≡ factor_of divisor }
{
    match (1u128 << 64).checked_div(u128::from(divisor)) {
        Some(quotient) => quotient + 1,
        None => 0,
    }
}

/// A number divided by another, by the factor that stands for it.
fn quotient(number: u32, divisor: u32, factor: u128) -> u32
    requires some { 0 < divisor }
    requires factor { factor ≡ factor_of divisor }
    ensures { result ≡ number / divisor }
{
    ((u128::from(number) * factor) >> 64) as u32
}

/// A value: a multiplicand in units, and what it is added to.
fn value_of(unit: i64, last: i64) -> i64
    requires unit { unsigned_abs unit ≤ 2 ^ 33 }
    requires last { IsWithinLimit last }
    ensures value { result ≡ limited (unit +ℤ last) }
    ensures small { IsWithinLimit result }
{
    (unit + last).clamp(-LIMIT, LIMIT)
}

/// Reads a table of this kind, of at most so many multiplicands.
#[tactic(auto, unfolding(model_setup::specs::BookReading::table_at))]
fn read_table(
    alloc: Global,
    bits: &mut Bits,
    kind: LookupKind,
    dimensions: u32,
    entries: u32,
    most: u32,
) -> Result<VectorTable, BookFault>
    requires { entries < ENTRY_LIMIT }
    ensures within { IfOk result (λ t. length t.multiplicands ≤ most) }
    ensures read { Answers BookFault.Memory (λ t. (Some t, bits.new.left)) result
        (table_at kind dimensions entries most bits.old.left) }
    ensures bytes { bits.new.total ≡ bits.old.total }
    ensures whole { IfOk result (λ t. IsWholeTable dimensions entries t) }
{
    if dimensions == 0 {
        return Err(BookFault::Lookup);
    }
    let minimum = read_field(bits, 32)?;
    let delta = read_field(bits, 32)?;
    let value_bits = read_field(bits, 4)?;
    let sequence = read_field(bits, 1)?;
    let count = multiplicand_count(kind, dimensions, entries);
    if count > u64::from(most) {
        return Err(BookFault::Limit);
    }
    let multiplicands = read_multiplicands(alloc, bits, count as u32, value_bits + 1)?;
    let units = units_of(alloc, &multiplicands, minimum, delta)?;
    let factor = factor_of(count as u32);
    Ok(VectorTable {
        kind,
        minimum,
        delta,
        sequence: sequence == 1,
        multiplicands,
        units,
        factor,
    })
}

/// Reads the table of a book, if it has one, of at most so many multiplicands.
#[tactic(auto, unfolding(model_setup::specs::BookReading::lookup_at))]
pub fn read_lookup(
    alloc: Global,
    bits: &mut Bits,
    dimensions: u32,
    entries: u32,
    most: u32,
) -> Result<Option<VectorTable>, BookFault>
    requires { entries < ENTRY_LIMIT }
    ensures within { IfOk result (λ t. multiplicands_of t ≤ most) }
    ensures read { Answers BookFault.Memory (λ t. (t, bits.new.left)) result
        (lookup_at dimensions entries most bits.old.left) }
    ensures bytes { bits.new.total ≡ bits.old.total }
    ensures whole { IfOk result (λ t. IsWholeIfSome dimensions entries t) }
{
    let kind = read_field(bits, 4)?;
    let kind = match kind {
        0 => return Ok(None),
        1 => LookupKind::Lattice,
        2 => LookupKind::Tessellation,
        _ => return Err(BookFault::Lookup),
    };
    let table = read_table(alloc, bits, kind, dimensions, entries, most)?;
    Ok(Some(table))
}

/// The number that stands for a kind of table.
fn lookup_type(kind: LookupKind) -> u32
    ensures { result ≡ lookup_type kind }
{
    match kind {
        LookupKind::Lattice => 1,
        LookupKind::Tessellation => 2,
    }
}

/// Writes the table of a book, if it has one.
pub fn write_lookup(out: &mut BitsOut, table: &Option<VectorTable>) -> Result<(), NoMemory>
    requires { HavePlaces (lookup_fields table.now) }
    ensures put { OnOk result (ArePut out.old out.new (lookup_fields table.now)) }
    ensures kept { OnErr result (IsFrontOf out.old out.new) }
{
    match table {
        Some(table) => table.write(out),
        None => put_number(out, 4, 0),
    }
}

impl VectorTable {
    /// Writes the table, with multiplicands of 16 bits.
    fn write(&self, out: &mut BitsOut) -> Result<(), NoMemory>
        requires { HavePlaces (lookup_fields (Some self.now)) }
        ensures put { OnOk result (ArePut out.old out.new (lookup_fields (Some self.now))) }
        ensures kept { OnErr result (IsFrontOf out.old out.new) }
    {
        put_number(out, 4, lookup_type(self.kind))?;
        put_number(out, 32, self.minimum)?;
        put_number(out, 32, self.delta)?;
        put_number(out, 4, 15)?;
        put_flag(out, self.sequence)?;
        put_words(out, 16, &self.multiplicands)
    }

    /// How many multiplicands the table holds.
    pub fn len(&self) -> usize
        ensures { result ≡ length self.now.multiplicands }
    {
        self.multiplicands.len()
    }

    /// What the next value of a vector is added to.
    fn carried(&self, value: i64) -> i64
        requires { IsWithinLimit value }
        ensures value { result ≡ carried_on self.now value }
        ensures small { IsWithinLimit result }
    {
        if self.sequence { value } else { 0 }
    }

    /// The first values of an entry's vector by the digits of its number: they are the same for any
    /// number of dimensions.
    fn fill_by_digits(&self, entry: u32, out: &mut [i64])
        requires kind { self.now.kind ≡ LookupKind.Lattice }
        requires some { 0 < length self.now.multiplicands }
        ensures { out.new ≡ vector_of (length out.old) self.now entry }
    {
        let units = self.units.as_slice();
        let base = units.len() as u32;
        let mut rest = entry;
        let mut last = 0;
        for i in 0..out.len() {
            let others = quotient(rest, base, self.factor);
            let value = value_of(units[(rest - others * base) as usize], last);
            out[i] = value;
            last = self.carried(value);
            rest = others;
        }
    }

    /// The first values of an entry's vector by multiplicands of its own.
    fn fill_by_own(&self, entry: u32, dimensions: usize, out: &mut [i64])
        requires kind { self.now.kind ≡ LookupKind.Tessellation }
        requires room { entry * dimensions + dimensions ≤ length self.now.multiplicands }
        requires front { length out.old ≤ dimensions }
        ensures { out.new ≡ take (length out.old) (vector_of dimensions self.now entry) }
    {
        let units = self.units.as_slice();
        let first = entry as usize * dimensions;
        let mut last = 0;
        for i in 0..out.len() {
            let value = value_of(units[first + i], last);
            out[i] = value;
            last = self.carried(value);
        }
    }

    /// Writes the first values of an entry's vector, as many as there is room for.
    pub fn fill(&self, entry: u32, dimensions: usize, out: &mut [i64])
        requires room { HasRoom self.now dimensions entry }
        requires front { length out.old ≤ dimensions }
        ensures vector { out.new ≡ take (length out.old) (vector_of dimensions self.now entry) }
        ensures small { All IsWithinLimit out.new }
    {
        match self.kind {
            LookupKind::Lattice => self.fill_by_digits(entry, out),
            LookupKind::Tessellation => self.fill_by_own(entry, dimensions, out),
        }
    }

    /// The vectors of all entries, one after the other.
    pub fn vectors(
        &self,
        alloc: Global,
        dimensions: usize,
        entries: u32,
    ) -> Result<Vec<i64>, AllocError>
        requires { IsWholeTable dimensions entries self.now }
        ensures { IfOk result (λ v. AreVectors dimensions entries self.now v.items) }
    {
        let mut vectors = Vec::new(alloc);
        let mut buffer = vec![in alloc; 0i64; dimensions]?;
        let vector = buffer.as_mut_slice();
        for entry in 0..entries {
            self.fill(entry, dimensions, vector);
            vectors.extend_from_slice(vector)?;
        }
        Ok(vectors)
    }
}
