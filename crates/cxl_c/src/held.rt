//! Texts of a session behind a script for C, a call each, with the exit status of the program.

ghost use Rattle.std.specs.Prelude.{◌≡◌, ◌≤◌, None, Some, [], length, take};
ghost use Rattle.cxl_library.specs.Behind.{IsToldBehind};
ghost use Rattle.cxl_library.specs.Reads.{IsReadTold};
ghost use Rattle.cxl_library.specs.Slices.{slices};
ghost use Rattle.cxl_reads.specs.Answers.{image_name};

use cxl_library::{HeldText, held_from_image, held_from_reset};
use std::alloc::Global;

/// The register words that the last line of a script sends on the host after reset, which no command tells.
#[tactic(auto, using(cxl_library::proofs::Codes::of_write_fault))]
#[unsafe(no_mangle)]
pub extern "C" fn cxlplan_proved_words(
    alloc: Global,
    cedt: &[u8],
    topo: &[u8],
    script: &[u8],
    out: &mut [u8],
    written: &mut usize,
) -> u8
    ensures answered { IsReadTold (IsToldBehind HeldText.Words (slices cedt.now topo.now []) None script.now) result (take written.new out.new) }
    ensures within { written.new ≤ length out.new }
    ensures full { result ≡ 6 → written.new ≡ length out.new }
{
    held_from_reset(alloc, HeldText::Words, cedt, topo, script, out, written).code()
}

/// Those that it sends on the host with the registers of an image.
#[tactic(auto, using(cxl_library::proofs::Codes::of_write_fault))]
#[unsafe(no_mangle)]
pub extern "C" fn cxlplan_proved_words_from(
    alloc: Global,
    cedt: &[u8],
    topo: &[u8],
    image: &[u8],
    script: &[u8],
    out: &mut [u8],
    written: &mut usize,
) -> u8
    ensures answered { IsReadTold (IsToldBehind HeldText.Words (slices cedt.now topo.now image.now) (Some image_name) script.now) result (take written.new out.new) }
    ensures within { written.new ≤ length out.new }
    ensures full { result ≡ 6 → written.new ≡ length out.new }
{
    held_from_image(
        alloc,
        HeldText::Words,
        cedt,
        topo,
        image,
        script,
        out,
        written,
    )
    .code()
}

/// The image file of the registers behind a script on the host after reset, which no command tells.
#[tactic(auto, using(cxl_library::proofs::Codes::of_write_fault))]
#[unsafe(no_mangle)]
pub extern "C" fn cxlplan_proved_image(
    alloc: Global,
    cedt: &[u8],
    topo: &[u8],
    script: &[u8],
    out: &mut [u8],
    written: &mut usize,
) -> u8
    ensures answered { IsReadTold (IsToldBehind HeldText.Image (slices cedt.now topo.now []) None script.now) result (take written.new out.new) }
    ensures within { written.new ≤ length out.new }
    ensures full { result ≡ 6 → written.new ≡ length out.new }
{
    held_from_reset(alloc, HeldText::Image, cedt, topo, script, out, written).code()
}

/// That behind a script on the host with the registers of an image.
#[tactic(auto, using(cxl_library::proofs::Codes::of_write_fault))]
#[unsafe(no_mangle)]
pub extern "C" fn cxlplan_proved_image_from(
    alloc: Global,
    cedt: &[u8],
    topo: &[u8],
    image: &[u8],
    script: &[u8],
    out: &mut [u8],
    written: &mut usize,
) -> u8
    ensures answered { IsReadTold (IsToldBehind HeldText.Image (slices cedt.now topo.now image.now) (Some image_name) script.now) result (take written.new out.new) }
    ensures within { written.new ≤ length out.new }
    ensures full { result ≡ 6 → written.new ≡ length out.new }
{
    held_from_image(
        alloc,
        HeldText::Image,
        cedt,
        topo,
        image,
        script,
        out,
        written,
    )
    .code()
}
