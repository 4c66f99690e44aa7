//! The windows of a table for C, with the exit status of the program.

ghost use Rattle.std.specs.Prelude.{◌≡◌, ◌≤◌, length, take};
ghost use Rattle.cxl_reads.specs.Windows.{AreWindows};
ghost use Rattle.cxl_library.specs.Reads.{IsReadTold};

use std::alloc::Global;

/// The windows of a table with their verdicts by a topology, which no command tells.
#[tactic(auto, using(cxl_library::proofs::Codes::of_write_fault))]
#[unsafe(no_mangle)]
pub extern "C" fn cxlplan_proved_windows(
    alloc: Global,
    cedt: &[u8],
    topo: &[u8],
    out: &mut [u8],
    written: &mut usize,
) -> u8
    ensures answered { IsReadTold (AreWindows cedt.now topo.now) result (take written.new out.new) }
    ensures within { written.new ≤ length out.new }
    ensures full { result ≡ 6 → written.new ≡ length out.new }
{
    cxl_library::windows(alloc, cedt, topo, out, written).code()
}
