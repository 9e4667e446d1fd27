ghost use Rattle.std.specs.Prelude.{◌≡◌, length, map, is_some, IfOk};
ghost use Rattle.std.specs.List.{All};
ghost use Rattle.model_setup.specs.SetupPacket.{IsCoupling};
ghost use Rattle.model_block.specs.PacketParts.{wanted_channels};

use crate::curves::Curve;
use memory::NoMemory;
use setup_header::Coupling;
use std::alloc::{AllocError, Global};

/// Whether each channel uses its floor.
fn used_channels(alloc: Global, curves: &[Option<Curve>]) -> Result<Vec<bool>, AllocError>
    ensures { IfOk result (λ v. v.items ≡ map is_some curves.now) }
{
    curves.iter().map(|curve| curve.is_some()).collect(alloc)
}

/// The channels of which the residue is wanted: those that use their floors, and those of all
/// coupling steps with one of them (Vorbis I, section 4.3.3).
#[tactic(auto, unfolding(model_block::specs::PacketParts::wanted_channels))]
pub fn wanted_channels(
    alloc: Global,
    steps: &[Coupling],
    curves: &[Option<Curve>],
) -> Result<Vec<bool>, NoMemory>
    requires { All (IsCoupling (length curves.now)) steps.now }
    ensures wanted { IfOk result (λ v. v.items
        ≡ wanted_channels steps.now (map is_some curves.now)) }
    ensures count { IfOk result (λ v. length v.items ≡ length curves.now) }
{
    let used = used_channels(alloc, curves)?;
    let mut wanted = used.clone()?;
    for step in steps {
        let magnitude = usize::from(step.magnitude);
        let angle = usize::from(step.angle);
        if used[magnitude] || used[angle] {
            wanted[magnitude] = true;
            wanted[angle] = true;
        }
    }
    Ok(wanted)
}
