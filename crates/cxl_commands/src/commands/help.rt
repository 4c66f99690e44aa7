//! The texts of `--help` and `--version`, and what words come to that are no command.

ghost use Rattle.std.specs.Prelude.{◌≡◌, ◌⊎◌};
ghost use Rattle.cxl_inputs.specs.Ends.{Ends};
ghost use Rattle.cxl_commands.specs.Form.{NoCreate, Help, Version, Unreadable};
ghost use Rattle.cxl_commands.specs.RunByFiles.{EachRunByFiles};
ghost use Rattle.cxl_commands.specs.commands.Help.{helped, version_told, misused};

use cxl_inputs::{Outcome, Status};

/// What `--help` writes.
pub const HELP: &str = "\
cxlplan plans, simulates and checks CXL memory regions.

cxlplan route CEDT HPA
        the window, the position and the bridge of a host address
    cxlplan route host.cedt 0x110000800
cxlplan list CEDT
        a line for each record of the table, windows with their verdicts
    cxlplan list host.cedt
cxlplan normal CEDT
        the table's bytes with its reserved fields zero
    cxlplan normal host.cedt > normal.cedt
cxlplan check CEDT TOPO IMAGE
        the regions of a register image, or the first rule that it breaks
    cxlplan check host.cedt topo.toml image.bin
cxlplan plan CEDT TOPO LINE
        the registers that make a new region after reset, or why none can
    cxlplan plan host.cedt topo.toml 'create r0 pmem 0x40000000 ways=4'
cxlplan run CEDT TOPO
        the lines of standard input, each answered, on the host after reset; a
        refusal is an answer, too: it changes nothing, and the status is 0
    printf 'create r0 ram 0x20000000 ways=2\\nload 0x110000000 4\\n' |
        cxlplan run host.cedt topo.toml
cxlplan run CEDT TOPO IMAGE
        the same on the host with the registers of an image
    cxlplan run host.cedt topo.toml image.bin < script
cxlplan gen N
        a generated system of 4 N endpoints, its regions used and checked
    cxlplan gen 32
cxlplan --help
        this text
cxlplan --version
        the version

CEDT is a file with the bytes of a CEDT table, TOPO a topology in TOML, and
IMAGE the registers of its decoders, each of 1,048,576 bytes at the most; a file
may be /dev/stdin. HPA is a host physical address, in decimal digits, or in
hexadecimal digits after 0x. LINE is one word: 'create NAME KIND SIZE [gran=G]
EP..' over named endpoints, or 'create NAME KIND SIZE [gran=G] ways=N' over N
that are picked, with KIND ram or pmem. NAME and EP have 1 to 15 letters, digits
and _. SIZE and G are bytes: 0x40000000 is 1 GiB, and G is 256 to 16384. N is
from 1 to 16 for ways, and from 1 to 32 for gen.

A line of standard input is empty, a comment that begins with #, a LINE as
above, or one of these:
    destroy NAME      show NAME          down HPA          up EP DPA
    load HPA LEN      store HPA HEX      range HPA LEN     spread HPA LEN
    copy FROM TO      move FROM TO       poison EP HEX     begin LINE
    begin destroy NAME                   step N            abort
It has 4,096 bytes at the most. LEN is in bytes: 1 to 256 for load, 1 to 65,536
for range. HEX is two digits a byte, the first byte first: 1 to 256 bytes for
store. copy and move give the region TO the bytes of the region FROM. step makes
N register writes, 1 to 1,000,000. Registers and device memory are the
simulator's: no register of a machine is written.

Answers and faults are written to standard output, so look at the exit status
first:
     0  done
     1  the words are no command
     2  a file cannot be read
     3  the CEDT has a fault
     4  the topology has a fault
     5  reading the script failed
     6  writing failed
     7  the bus failed before the first line
     8  no window that can be used holds the address, the image breaks a rule or
        has too many regions, or there is no plan
     9  out of memory
    10  the image file has a fault
    11  the script is too long
    12  a file is too large
";

/// What `--version` writes.
pub const VERSION: &str = "cxlplan 1.0.0\n";

/// What the program can do. Takes no memory, as the two below.
pub(crate) fn helped() -> Outcome
    ensures { result ≡ helped }
{
    Outcome::fixed(Status::Done, HELP)
}

/// Which program it is.
pub(crate) fn version_told() -> Outcome
    ensures { result ≡ version_told }
{
    Outcome::fixed(Status::Done, VERSION)
}

/// The words are no command.
pub(crate) fn misused() -> Outcome
    ensures { result ≡ misused }
{
    Outcome::fixed(Status::Usage, "usage\n")
}

/// Laws of each run of `--help` and `--version`, and of words that are no command: the outcome is written,
/// or the sink failed. Where a line asks for no region to be planned, memory may have run out before.
pub fn help_statuses()
    ensures help { EachRunByFiles (λ form old new status. form ≡ Help → Ends helped status old.out new.out) }
    ensures version { EachRunByFiles (λ form old new status. form ≡ Version → Ends version_told status old.out new.out) }
    // Status 1 comes exactly where the words are no command, unless that is not written.
    ensures usage { EachRunByFiles (λ form old new status. status ≡ Status.Usage
        → (form ≡ Unreadable) ⊎ (form ≡ NoCreate)) }
    ensures only_usage { EachRunByFiles (λ form old new status. form ≡ Unreadable → Ends misused status old.out new.out) }
    ensures only_line { EachRunByFiles (λ form old new status. form ≡ NoCreate
        → (status ≡ Status.Memory) ⊎ Ends misused status old.out new.out) }
{}
