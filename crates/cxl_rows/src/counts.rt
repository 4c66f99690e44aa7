//! How often a run powers on its registers and its device memory, and reads and writes registers. No clause counts the calls that
//! change nothing.

ghost use Rattle.std.specs.Prelude.{true, None};

use crate::host_files::TWO_ENDPOINTS;
use crate::rows::{ROOM, bytes, files_of, row_passes, sink_of, words_of};
use crate::tables::TWO_BRIDGES;
use cxl_bus::{Regs, SimBus};
use cxl_enc::{Failed, Memory};
use cxl_io::MemSource;
use cxl_media::{At, Full, Media, Roll, SimMedia};
use cxl_regs::Block;
use cxl_shell::run;
use std::alloc::Global;
use std::process::Abort;

/// The simulators' bus, with how often each of its calls was made.
#[derive(Drop)]
struct CountingBus {
    bus: SimBus,
    powered: u32,
    read: u32,
    written: u32,
}

impl Regs for CountingBus {
    ghost state = { λ bus. record { blocks = bus.bus; trail = None; failed_at = None; faults = 0; counts_failures_alone = true } };

    fn power_on(&mut self, alloc: Global, start: &[Block]) -> Result<(), Memory> {
        self.powered = self.powered.saturating_add(1);
        self.bus.power_on(alloc, start)
    }

    fn read32(&mut self, node: u32, off: u32) -> Result<u32, Failed> {
        self.read = self.read.saturating_add(1);
        self.bus.read32(node, off)
    }

    fn write32(&mut self, node: u32, off: u32, value: u32) -> Result<(), Failed> {
        self.written = self.written.saturating_add(1);
        self.bus.write32(node, off, value)
    }
}

/// The shipped device memory, with how often it was powered on.
#[derive(Drop)]
struct CountingMedia {
    media: SimMedia,
    powered: u32,
}

impl Media for CountingMedia {
    ghost use Rattle.cxl_media.specs.Sim.{shipped_state};

    ghost state = { λ media. shipped_state media.media };

    fn power_on(&mut self, alloc: Global, frames: u32) -> Result<(), Memory> {
        self.powered = self.powered.saturating_add(1);
        self.media.power_on(alloc, frames)
    }

    fn get(&self, ep: u32, dpa: u64, into: &mut [u8]) {
        self.media.get(ep, dpa, into);
    }

    fn need(&self, ep: u32, dpa: u64) -> u32 {
        self.media.need(ep, dpa)
    }

    fn put(&mut self, ep: u32, dpa: u64, bytes: &[u8]) -> Result<(), Full> {
        self.media.put(ep, dpa, bytes)
    }

    fn scrub(&mut self, ep: u32, from: u64, to: u64) {
        self.media.scrub(ep, from, to);
    }

    fn free(&self) -> u32 {
        self.media.free()
    }
}

impl Roll for CountingMedia {
    ghost use Rattle.cxl_media.specs.Sim.{shipped_roll};

    ghost roll = { λ media. shipped_roll media.media };

    fn places(&self) -> u32 {
        self.media.places()
    }

    fn at(&self, i: u32) -> Option<At> {
        self.media.at(i)
    }
}

/// A name, a script over two bridges with an endpoint each, and how often its run reads registers and writes them.
struct Count {
    name: &'static str,
    script: &'static str,
    read: u32,
    written: u32,
}

const COUNTS: [Count; 6] = [
    // A word enables each endpoint.
    Count {
        name: "no line",
        script: "",
        read: 0,
        written: 2,
    },
    Count {
        name: "a create",
        script: "create r0 ram 0x20000000 e0 e1\n",
        read: 0,
        written: 34,
    },
    // A step reads no word before it writes it.
    Count {
        name: "five steps of a create",
        script: "begin create r0 ram 0x20000000 e0 e1\nstep 5\n",
        read: 0,
        written: 7,
    },
    Count {
        name: "five steps that are taken back",
        script: "begin create r0 ram 0x20000000 e0 e1\nstep 5\nabort\n",
        read: 0,
        written: 12,
    },
    // Seven words of each of four decoders are shown, each read once.
    Count {
        name: "a create that is shown",
        script: "create r0 ram 0x20000000 e0 e1\nshow r0\n",
        read: 28,
        written: 34,
    },
    Count {
        name: "a create, a store, a load and a destroy",
        script: "create r0 ram 0x20000000 e0 e1\nstore 0x100000000 11\nload 0x100000000 1\ndestroy r0\n",
        read: 0,
        written: 38,
    },
];

/// Whether a run of the script powers registers and device memory on once, and reads and writes registers so often.
fn counts(rt: &impl Abort, alloc: Global, row: &Count) -> bool {
    let words = words_of(rt, alloc, "run table topology");
    let table = bytes(rt, alloc, TWO_BRIDGES);
    let mut files = files_of(rt, alloc, table, TWO_ENDPOINTS, Vec::new(alloc), 0);
    let script = Vec::from_slice(alloc, row.script.as_bytes()).expect(rt, "memory");
    let mut source = MemSource::new(script, Vec::new(alloc));
    let mut sink = sink_of(rt, alloc, ROOM, 0);
    let mut regs = CountingBus {
        bus: SimBus::new(alloc),
        powered: 0,
        read: 0,
        written: 0,
    };
    let mut media = CountingMedia {
        media: SimMedia::new(alloc),
        powered: 0,
    };
    let status = run(
        alloc,
        &words,
        &mut files,
        &mut source,
        &mut sink,
        &mut regs,
        &mut media,
    );
    let once = regs.powered == 1 && media.powered == 1;
    let counted = regs.read == row.read && regs.written == row.written;
    drop(files);
    drop(source);
    drop(sink);
    drop(regs);
    drop(media);
    status.code() == 0 && once && counted
}

#[test]
fn calls_of_the_bus(rt: HostRuntime) {
    for row in COUNTS.iter() {
        row_passes(&rt, row.name, counts(&rt, rt.alloc(), row));
    }
}
