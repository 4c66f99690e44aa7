//! The forms of the command line for C, a call each: the library's calls over the same bytes, with the exit status of the program.

ghost use Rattle.std.specs.Prelude.{◌≡◌, ◌≤◌, None, Some, Ok, [], length, take, IsUtf8};
ghost use Rattle.cxl_commands.specs.Form.{Route, Listing, Normal, Check, Script, Version, plan_form_over, create_on_line, gen_of, Unreadable};
ghost use Rattle.cxl_library.specs.Answered.{IsTold};
ghost use Rattle.cxl_library.specs.Slices.{slices};
ghost use Rattle.cxl_reads.specs.Answers.{table_name, topology_name, image_name};

use std::alloc::Global;

/// What `route` tells of a host address.
#[tactic(auto, using(cxl_library::proofs::Codes::of_write_fault))]
#[unsafe(no_mangle)]
pub extern "C" fn cxlplan_proved_route(
    alloc: Global,
    cedt: &[u8],
    hpa: u64,
    out: &mut [u8],
    written: &mut usize,
) -> u8
    ensures answered { IsTold (Route table_name hpa) (slices cedt.now [] []) [] result (take written.new out.new) }
    ensures within { written.new ≤ length out.new }
    ensures full { result ≡ 6 → written.new ≡ length out.new }
{
    cxl_library::route(alloc, cedt, hpa, out, written).code()
}

/// What `list` tells of a table.
#[tactic(auto, using(cxl_library::proofs::Codes::of_write_fault))]
#[unsafe(no_mangle)]
pub extern "C" fn cxlplan_proved_list(
    alloc: Global,
    cedt: &[u8],
    out: &mut [u8],
    written: &mut usize,
) -> u8
    ensures answered { IsTold (Listing table_name) (slices cedt.now [] []) [] result (take written.new out.new) }
    ensures within { written.new ≤ length out.new }
    ensures full { result ≡ 6 → written.new ≡ length out.new }
{
    cxl_library::list(alloc, cedt, out, written).code()
}

/// The table as `normal` gives it.
#[tactic(auto, using(cxl_library::proofs::Codes::of_write_fault))]
#[unsafe(no_mangle)]
pub extern "C" fn cxlplan_proved_normal(
    alloc: Global,
    cedt: &[u8],
    out: &mut [u8],
    written: &mut usize,
) -> u8
    ensures answered { IsTold (Normal table_name) (slices cedt.now [] []) [] result (take written.new out.new) }
    ensures within { written.new ≤ length out.new }
    ensures full { result ≡ 6 → written.new ≡ length out.new }
{
    cxl_library::normal(alloc, cedt, out, written).code()
}

/// What `check` tells of a register image.
#[tactic(auto, using(cxl_library::proofs::Codes::of_write_fault))]
#[unsafe(no_mangle)]
pub extern "C" fn cxlplan_proved_check(
    alloc: Global,
    cedt: &[u8],
    topo: &[u8],
    image: &[u8],
    out: &mut [u8],
    written: &mut usize,
) -> u8
    ensures answered { IsTold (Check table_name topology_name image_name) (slices cedt.now topo.now image.now) [] result (take written.new out.new) }
    ensures within { written.new ≤ length out.new }
    ensures full { result ≡ 6 → written.new ≡ length out.new }
{
    cxl_library::check(alloc, cedt, topo, image, out, written).code()
}

/// What `plan` tells of a create line.
#[tactic(auto, using(cxl_library::proofs::Codes::of_write_fault))]
#[unsafe(no_mangle)]
pub extern "C" fn cxlplan_proved_plan(
    alloc: Global,
    cedt: &[u8],
    topo: &[u8],
    line: &[u8],
    out: &mut [u8],
    written: &mut usize,
) -> u8
    ensures answered { IsUtf8 line.now → IsTold (plan_form_over table_name topology_name (create_on_line line.now)) (slices cedt.now topo.now []) [] result (take written.new out.new) }
    ensures no_text { ¬ (IsUtf8 line.now) → IsTold Unreadable (slices cedt.now topo.now []) [] result (take written.new out.new) }
    ensures within { written.new ≤ length out.new }
    ensures full { result ≡ 6 → written.new ≡ length out.new }
{
    cxl_library::plan(alloc, cedt, topo, line, out, written).code()
}

/// What `run` answers to the lines of a script, on the host after reset.
#[tactic(auto, using(cxl_library::proofs::Codes::of_write_fault))]
#[unsafe(no_mangle)]
pub extern "C" fn cxlplan_proved_run(
    alloc: Global,
    cedt: &[u8],
    topo: &[u8],
    script: &[u8],
    out: &mut [u8],
    written: &mut usize,
) -> u8
    ensures answered { IsTold (Script table_name topology_name None) (slices cedt.now topo.now []) script.now result (take written.new out.new) }
    ensures within { written.new ≤ length out.new }
    ensures full { result ≡ 6 → written.new ≡ length out.new }
{
    cxl_library::run_from_reset(alloc, cedt, topo, script, out, written).code()
}

/// What `run` answers to the lines of a script, on the host with the registers of an image.
#[tactic(auto, using(cxl_library::proofs::Codes::of_write_fault))]
#[unsafe(no_mangle)]
pub extern "C" fn cxlplan_proved_run_from(
    alloc: Global,
    cedt: &[u8],
    topo: &[u8],
    image: &[u8],
    script: &[u8],
    out: &mut [u8],
    written: &mut usize,
) -> u8
    ensures answered { IsTold (Script table_name topology_name (Some image_name)) (slices cedt.now topo.now image.now) script.now result (take written.new out.new) }
    ensures within { written.new ≤ length out.new }
    ensures full { result ≡ 6 → written.new ≡ length out.new }
{
    cxl_library::run_from_image(alloc, cedt, topo, image, script, out, written).code()
}

/// What `gen` tells of a generated system.
#[tactic(auto, using(cxl_library::proofs::Codes::of_write_fault))]
#[unsafe(no_mangle)]
pub extern "C" fn cxlplan_proved_gen(
    alloc: Global,
    number: u32,
    out: &mut [u8],
    written: &mut usize,
) -> u8
    ensures answered { IsTold (gen_of (Ok number)) (slices [] [] []) [] result (take written.new out.new) }
    ensures within { written.new ≤ length out.new }
    ensures full { result ≡ 6 → written.new ≡ length out.new }
{
    cxl_library::generate(alloc, number, out, written).code()
}

/// What `--version` tells.
#[tactic(auto, using(cxl_library::proofs::Codes::of_write_fault))]
#[unsafe(no_mangle)]
pub extern "C" fn cxlplan_proved_version(alloc: Global, out: &mut [u8], written: &mut usize) -> u8
    ensures answered { IsTold Version (slices [] [] []) [] result (take written.new out.new) }
    ensures within { written.new ≤ length out.new }
    ensures full { result ≡ 6 → written.new ≡ length out.new }
{
    cxl_library::version(alloc, out, written).code()
}
