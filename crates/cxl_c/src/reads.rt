//! What files hold for C, a call each, with the exit status of the program.

ghost use Rattle.std.specs.Prelude.{◌≡◌, ◌≤◌, length, take};
ghost use Rattle.cxl_reads.specs.Breaches.{AreBreaches};
ghost use Rattle.cxl_reads.specs.Decoders.{AreDecoders};
ghost use Rattle.cxl_reads.specs.Tree.{IsTreeTold};
ghost use Rattle.cxl_library.specs.Reads.{IsReadTold};

use std::alloc::Global;

/// A topology as lines, which no command tells.
#[tactic(auto, using(cxl_library::proofs::Codes::of_write_fault))]
#[unsafe(no_mangle)]
pub extern "C" fn cxlplan_proved_tree(
    alloc: Global,
    topo: &[u8],
    out: &mut [u8],
    written: &mut usize,
) -> u8
    ensures answered { IsReadTold (IsTreeTold topo.now) result (take written.new out.new) }
    ensures within { written.new ≤ length out.new }
    ensures full { result ≡ 6 → written.new ≡ length out.new }
{
    cxl_library::tree(alloc, topo, out, written).code()
}

/// The decoders of any image, which no command tells.
#[tactic(auto, using(cxl_library::proofs::Codes::of_write_fault))]
#[unsafe(no_mangle)]
pub extern "C" fn cxlplan_proved_decoders(
    alloc: Global,
    topo: &[u8],
    image: &[u8],
    out: &mut [u8],
    written: &mut usize,
) -> u8
    ensures answered { IsReadTold (AreDecoders topo.now image.now) result (take written.new out.new) }
    ensures within { written.new ≤ length out.new }
    ensures full { result ≡ 6 → written.new ≡ length out.new }
{
    cxl_library::decoders(alloc, topo, image, out, written).code()
}

/// All places that break the first broken rule of an image, which no command tells.
#[tactic(auto, using(cxl_library::proofs::Codes::of_write_fault))]
#[unsafe(no_mangle)]
pub extern "C" fn cxlplan_proved_breaches(
    alloc: Global,
    cedt: &[u8],
    topo: &[u8],
    image: &[u8],
    out: &mut [u8],
    written: &mut usize,
) -> u8
    ensures answered { IsReadTold (AreBreaches cedt.now topo.now image.now) result (take written.new out.new) }
    ensures within { written.new ≤ length out.new }
    ensures full { result ≡ 6 → written.new ≡ length out.new }
{
    cxl_library::breaches(alloc, cedt, topo, image, out, written).code()
}
