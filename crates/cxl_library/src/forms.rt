//! The forms, a call each. Each works over the caller's bytes, the simulator's registers and its device memory, puts its text into the
//! room `out` and says in `written` how many bytes that are. Where the room is too small the status is 6, and the room is full.

ghost use Rattle.std.specs.Prelude.{◌≡◌, ◌≤◌, None, Some, Ok, [], length, take, IsUtf8};
ghost use Rattle.cxl_commands.specs.Form.{Route, Listing, Normal, Check, Script, Version, plan_form_over, create_on_line, gen_of, Unreadable};
ghost use Rattle.cxl_library.specs.Answered.{IsAnswered};
ghost use Rattle.cxl_library.specs.Slices.{slices};
ghost use Rattle.cxl_reads.specs.Answers.{table_name, topology_name, image_name};

use crate::running::answered;
use crate::slices::Slices;
use crate::words::{
    check_words, gen_words, image_words, list_words, no_words, normal_words, plan_words,
    reset_words, route_words, version_words,
};
use cxl_inputs::Status;
use std::alloc::Global;

/// The window, the position and the bridge of a host address, as the form `route` tells them.
pub fn route(alloc: Global, cedt: &[u8], hpa: u64, out: &mut [u8], written: &mut usize) -> Status
    ensures answered { IsAnswered (Route table_name hpa) (slices cedt.now [] []) [] result (take written.new out.new) }
    ensures within { written.new ≤ length out.new }
    ensures full { result ≡ Status.WriteFault → written.new ≡ length out.new }
{
    let files = Slices::new(cedt, &[], &[]);
    answered(alloc, route_words(alloc, hpa), files, &[], out, written)
}

/// A line for each record of a table, as the form `list` tells them.
pub fn list(alloc: Global, cedt: &[u8], out: &mut [u8], written: &mut usize) -> Status
    ensures answered { IsAnswered (Listing table_name) (slices cedt.now [] []) [] result (take written.new out.new) }
    ensures within { written.new ≤ length out.new }
    ensures full { result ≡ Status.WriteFault → written.new ≡ length out.new }
{
    let files = Slices::new(cedt, &[], &[]);
    answered(alloc, list_words(alloc), files, &[], out, written)
}

/// The table's bytes with its reserved fields zero, as the form `normal` gives them.
pub fn normal(alloc: Global, cedt: &[u8], out: &mut [u8], written: &mut usize) -> Status
    ensures answered { IsAnswered (Normal table_name) (slices cedt.now [] []) [] result (take written.new out.new) }
    ensures within { written.new ≤ length out.new }
    ensures full { result ≡ Status.WriteFault → written.new ≡ length out.new }
{
    let files = Slices::new(cedt, &[], &[]);
    answered(alloc, normal_words(alloc), files, &[], out, written)
}

/// The regions of a register image, or the first rule that it breaks, as the form `check` tells them.
pub fn check(
    alloc: Global,
    cedt: &[u8],
    topo: &[u8],
    image: &[u8],
    out: &mut [u8],
    written: &mut usize,
) -> Status
    ensures answered { IsAnswered (Check table_name topology_name image_name) (slices cedt.now topo.now image.now) [] result (take written.new out.new) }
    ensures within { written.new ≤ length out.new }
    ensures full { result ≡ Status.WriteFault → written.new ≡ length out.new }
{
    let files = Slices::new(cedt, topo, image);
    answered(alloc, check_words(alloc), files, &[], out, written)
}

/// The registers that make the region of a create line after reset, as the form `plan` tells them. A line that is no text is no command.
pub fn plan(
    alloc: Global,
    cedt: &[u8],
    topo: &[u8],
    line: &[u8],
    out: &mut [u8],
    written: &mut usize,
) -> Status
    ensures answered { IsUtf8 line.now → IsAnswered (plan_form_over table_name topology_name (create_on_line line.now))
        (slices cedt.now topo.now []) [] result (take written.new out.new) }
    ensures no_text { ¬ (IsUtf8 line.now) → IsAnswered Unreadable (slices cedt.now topo.now []) [] result (take written.new out.new) }
    ensures within { written.new ≤ length out.new }
    ensures full { result ≡ Status.WriteFault → written.new ≡ length out.new }
{
    let files = Slices::new(cedt, topo, &[]);
    match str::from_utf8(line) {
        Ok(line) => answered(alloc, plan_words(alloc, line), files, &[], out, written),
        Err(_) => answered(alloc, Ok(no_words(alloc)), files, &[], out, written),
    }
}

/// The lines of a script, each answered, on the host after reset, as the form `run` answers them.
pub fn run_from_reset(
    alloc: Global,
    cedt: &[u8],
    topo: &[u8],
    script: &[u8],
    out: &mut [u8],
    written: &mut usize,
) -> Status
    ensures answered { IsAnswered (Script table_name topology_name None) (slices cedt.now topo.now []) script.now result (take written.new out.new) }
    ensures within { written.new ≤ length out.new }
    ensures full { result ≡ Status.WriteFault → written.new ≡ length out.new }
{
    let files = Slices::new(cedt, topo, &[]);
    answered(alloc, reset_words(alloc), files, script, out, written)
}

/// The lines of a script, each answered, on the host with the registers of an image, as the form `run` answers them.
pub fn run_from_image(
    alloc: Global,
    cedt: &[u8],
    topo: &[u8],
    image: &[u8],
    script: &[u8],
    out: &mut [u8],
    written: &mut usize,
) -> Status
    ensures answered { IsAnswered (Script table_name topology_name (Some image_name)) (slices cedt.now topo.now image.now) script.now result (take written.new out.new) }
    ensures within { written.new ≤ length out.new }
    ensures full { result ≡ Status.WriteFault → written.new ≡ length out.new }
{
    let files = Slices::new(cedt, topo, image);
    answered(alloc, image_words(alloc), files, script, out, written)
}

/// A generated system of 4 N endpoints, for N from 1 to 32, as the form `gen` tells it.
pub fn generate(alloc: Global, number: u32, out: &mut [u8], written: &mut usize) -> Status
    ensures answered { IsAnswered (gen_of (Ok number)) (slices [] [] []) [] result (take written.new out.new) }
    ensures within { written.new ≤ length out.new }
    ensures full { result ≡ Status.WriteFault → written.new ≡ length out.new }
{
    let files = Slices::new(&[], &[], &[]);
    answered(alloc, gen_words(alloc, number), files, &[], out, written)
}

/// The version, as the form `--version` tells it.
pub fn version(alloc: Global, out: &mut [u8], written: &mut usize) -> Status
    ensures answered { IsAnswered Version (slices [] [] []) [] result (take written.new out.new) }
    ensures within { written.new ≤ length out.new }
    ensures full { result ≡ Status.WriteFault → written.new ≡ length out.new }
{
    let files = Slices::new(&[], &[], &[]);
    answered(alloc, version_words(alloc), files, &[], out, written)
}
