//! The simulator's bus, and one that fails at some of its calls.

ghost use Rattle.std.specs.Prelude.{◌≡◌, ◌≤◌, true, IfOk, OnErr};
ghost use Rattle.cxl_enc.specs.Faults.{HasCause};
ghost use Rattle.cxl_regs.specs.Blocks.{IsPlace, HasPlacesOf, blocks_after};

use crate::common::{row_passes, rows};
use cxl_bus::{FailingBus, Regs, Sent, SimBus};
use cxl_enc::Failed;
use cxl_regs::Block;
use std::alloc::Global;
use std::process::Abort;
use std::test::*;

/// Sets bits of a word, over any bus.
fn set_bits<R: Regs>(regs: &mut R, node: u32, off: u32, bits: u32) -> Result<u32, Failed>
    requires { IsPlace (R.state regs.old).blocks node off }
    ensures ok { IfOk result (λ word.
        (R.state regs.new).blocks ≡ blocks_after (R.state regs.old).blocks node off word) }
    ensures err { OnErr result
        (R.state regs.new ≡ record (R.state regs.old) {
          failed_at = (R.state regs.new).failed_at;
          faults = (R.state regs.new).faults;
        }) }
    ensures cause { HasCause result (R.state regs.old).faults (R.state regs.new).faults }
    ensures counts { (R.state regs.old).faults ≤ (R.state regs.new).faults }
{
    let word = regs.read32(node, off)? | bits;
    regs.write32(node, off, word)?;
    Ok(word)
}

/// The block of an endpoint or of a port after reset.
fn block(endpoint: bool) -> Block {
    if endpoint {
        Block::new(0x1b02, true)
    } else {
        Block::new(0x382, false)
    }
}

/// The blocks of endpoints (true) and of ports after reset.
fn blocks(rt: &impl Abort, alloc: Global, endpoints: &[bool]) -> Vec<Block> {
    let mut blocks = Vec::new(alloc);
    for endpoint in endpoints {
        blocks.push(block(*endpoint)).expect(rt, "memory");
    }
    blocks
}

/// Whether a block of these has a word at the offset.
fn is_place(blocks: &[Block], node: u32, off: u32) -> bool
    ensures { result ≡ true → IsPlace blocks.now node off }
{
    match blocks.get(node as usize) {
        Some(block) => block.read32(off).is_some(),
        None => false,
    }
}

/// Whether a node of the simulator's bus has a word once that is written.
fn keeps_word(bus: &mut SimBus, blocks: &[Block], node: u32, off: u32, value: u32) -> bool
    requires { HasPlacesOf blocks.now bus.old }
    ensures { HasPlacesOf blocks.now bus.new }
{
    if !is_place(blocks, node, off) {
        return false;
    }
    let written = bus.write32(node, off, value).is_ok();
    match bus.read32(node, off) {
        Ok(word) => written && word == value,
        Err(_) => false,
    }
}

#[test]
fn the_simulators_bus(rt: HostRuntime) {
    let alloc = rt.alloc();
    let blocks = blocks(&rt, alloc, &[true, false]);
    let mut bus = SimBus::new(alloc);
    bus.power_on(alloc, &blocks).expect(&rt, "memory");
    let place = is_place(&blocks, 0, 0x04);
    assert!(rt; place);
    assert!(rt; keeps_word(&mut bus, &blocks, 1, 0x18, 0x1000_0000));
    let written = bus.write32(0, 0x04, 0x2).is_ok();
    let word = set_bits(&mut bus, 0, 0x04, 0x0);
    assert!(rt; written && matches!(word, Ok(0x2)));
    drop(bus);
    drop(blocks);
}

/// Whether a call writes or reads, the node and the offset, the value that is written or read, and whether the call fails.
struct Call {
    name: &'static str,
    writes: bool,
    node: u32,
    off: u32,
    value: u32,
    fails: bool,
}

/// Whether a call is answered so, on a bus that has the words of these blocks.
fn is_answered(bus: &mut FailingBus, blocks: &[Block], call: &Call) -> bool
    requires { HasPlacesOf blocks.now bus.old.blocks }
    ensures { HasPlacesOf blocks.now bus.new.blocks }
{
    if !is_place(blocks, call.node, call.off) {
        return false;
    }
    if call.writes {
        return bus.write32(call.node, call.off, call.value).is_err() == call.fails;
    }
    match bus.read32(call.node, call.off) {
        Ok(word) => !call.fails && word == call.value,
        Err(_) => call.fails,
    }
}

/// Checks each call.
fn are_answered(rt: &impl Abort, bus: &mut FailingBus, blocks: &[Block], calls: &[Call])
    requires { HasPlacesOf blocks.now bus.old.blocks }
{
    for call in calls {
        row_passes(rt, call.name, is_answered(bus, blocks, call));
    }
}

/// A bus over these blocks that fails at these calls.
fn bus_over(rt: &impl Abort, alloc: Global, blocks: &[Block], fails: &[u64]) -> FailingBus
    ensures { result.blocks ≡ blocks.now }
{
    let fails = Vec::from_slice(alloc, fails).expect(rt, "memory");
    let mut bus = FailingBus::new(alloc, fails);
    bus.power_on(alloc, blocks).expect(rt, "memory");
    bus
}

/// What is called on a bus over blocks after reset that fails at some calls, which writes it is sent, and behind how many of
/// these each call failed.
struct Run {
    endpoints: &'static [bool],
    fails: &'static [u64],
    calls: &'static [Call],
    sent: &'static [Sent],
    failed_at: &'static [usize],
}

fn is_sent(rt: &impl Abort, alloc: Global, run: &Run) -> bool {
    let blocks = blocks(rt, alloc, run.endpoints);
    let mut bus = bus_over(rt, alloc, &blocks, run.fails);
    are_answered(rt, &mut bus, &blocks, run.calls);
    let sent = bus.trail() == run.sent && bus.failed_at() == run.failed_at;
    drop(bus);
    drop(blocks);
    sent
}

/// A port's global control drops the value, and the trail tells the write all the same.
const FAILING: &[Call] = rows! {
    Call { name, writes, node, off, value, fails };
    "the global control is written", true, 0, 0x04, 0x2, false;
    "a read that fails", false, 0, 0x00, 0, true;
    "the same read anew", false, 0, 0x00, 0x382, false;
    "a write that fails", true, 0, 0x18, 0x1000_0000, true;
    "a read of what was not written", false, 0, 0x18, 0x0, false;
    "a size is written", true, 0, 0x18, 0x1fff_ffff, false;
    "the size is read", false, 0, 0x18, 0x1000_0000, false;
};

const SENT: &[Sent] = rows! {
    Sent { node, off, value };
    0, 0x04, 0x2;
    0, 0x18, 0x1fff_ffff;
};

const ON_A_PORT: Run = Run {
    endpoints: &[false],
    fails: &[2, 4],
    calls: FAILING,
    sent: SENT,
    failed_at: &[1, 1],
};

#[test]
fn calls_that_fail(rt: HostRuntime) {
    assert!(rt; is_sent(&rt, rt.alloc(), &ON_A_PORT));
}

/// The writes of a create of which the fifth fails, and those that take it back.
const CREATE: &[Call] = rows! {
    Call { name, writes, node, off, value, fails };
    "the first endpoint is enabled", true, 2, 0x04, 2, false;
    "the second endpoint is enabled", true, 3, 0x04, 2, false;
    "the base's low half", true, 3, 0x10, 0, false;
    "the base's high half", true, 3, 0x14, 1, false;
    "the size, which fails", true, 3, 0x18, 0x1000_0000, true;
    "the base's high half is taken back", true, 3, 0x14, 0, false;
    "the base's low half is taken back", true, 3, 0x10, 0, false;
};

const CREATE_SENT: &[Sent] = rows! {
    Sent { node, off, value };
    2, 0x04, 2;
    3, 0x04, 2;
    3, 0x10, 0;
    3, 0x14, 1;
    3, 0x14, 0;
    3, 0x10, 0;
};

const CREATE_AND_BACK: Run = Run {
    endpoints: &[false, false, true, true],
    fails: &[5],
    calls: CREATE,
    sent: CREATE_SENT,
    failed_at: &[4],
};

#[test]
fn the_trail_of_a_create_that_is_undone(rt: HostRuntime) {
    assert!(rt; is_sent(&rt, rt.alloc(), &CREATE_AND_BACK));
}
