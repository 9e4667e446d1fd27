ghost use Rattle.std.specs.Prelude.{◌≡◌, length, map, IfOk, IfSome};
ghost use Rattle.std.specs.List.{All};
ghost use Rattle.model_setup.specs.FloorSetup.{FloorNamesBooks};
ghost use Rattle.model_setup.specs.SetupPacket.{IsMapping};
ghost use Rattle.model_block.specs.PacketParts.{read_curve, channel_curves};

use bit_reader::Bits;
use codebooks::Book;
use floor_one::{Floor, Floored};
use memory::{NoMemory, Sequence};
use setup_header::{Mapping, Setup};
use std::alloc::Global;

/// The curve of a floor: for each bin the number of its decibel value.
pub type Curve = Sequence<u8>;

/// Reads a floor from a packet, and draws its curve over so many bins, if the packet uses it
/// (Vorbis I, section 4.3.2).
#[tactic(auto, unfolding(model_block::specs::PacketParts::read_curve))]
fn read_curve(
    alloc: Global,
    bits: &mut Bits,
    books: &[Book],
    floor: &Floor,
    size: usize,
) -> Result<Option<Curve>, NoMemory>
    requires { FloorNamesBooks (length books.now) floor.now }
    ensures read { IfOk result (λ curve. (curve, bits.new.left)
        ≡ read_curve books.now size floor.now bits.old.left) }
    ensures size { IfOk result (λ curve. IfSome curve (λ bins. length bins ≡ size)) }
    ensures bytes { bits.new.total ≡ bits.old.total }
{
    match floor.decode(bits, books) {
        Floored::Unused => Ok(None),
        Floored::Curve(finals) => {
            let mut curve = vec![in alloc; 0; size]?;
            floor.curve(&finals, &mut curve);
            Ok(Some(Curve::of(curve)))
        }
    }
}

/// Reads the floors of all channels, in their order, and draws their curves over so many bins, none
/// for a channel whose floor the packet does not use (Vorbis I, section 4.3.2).
pub fn read_curves(
    alloc: Global,
    bits: &mut Bits,
    setup: &Setup,
    mapping: &Mapping,
    size: usize,
) -> Result<Vec<Option<Curve>>, NoMemory>
    requires books { All (FloorNamesBooks (length setup.now.books)) setup.now.floors }
    requires mapping { IsMapping (length mapping.now.mux) (length setup.now.floors)
        (length setup.now.residues) mapping.now }
    ensures read { IfOk result (λ v. (v.items, bits.new.left)
        ≡ channel_curves setup.now mapping.now size bits.old.left) }
    ensures count { IfOk result (λ v. length v.items ≡ length mapping.now.mux) }
    ensures sizes { IfOk result (λ v.
        All (λ curve. IfSome curve (λ bins. length bins ≡ size)) v.items) }
    ensures bytes { bits.new.total ≡ bits.old.total }
{
    let submaps = mapping.submaps();
    let floors = setup.floors();
    let mut curves = Vec::with_capacity(alloc, mapping.mux().len())?;
    for number in mapping.mux() {
        let submap = &submaps[usize::from(*number)];
        let floor = &floors[usize::from(submap.floor)];
        curves.push(read_curve(alloc, bits, setup.books(), floor, size)?)?;
    }
    Ok(curves)
}
