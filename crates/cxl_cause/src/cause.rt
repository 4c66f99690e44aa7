//! Causes: the first part of a rule's test that fails, with what was found and what that is compared with.

use cxl_enc::MemKind;
use cxl_regs::Range;
use cxl_window::Verdict;

/// Why a decoder breaks a rule: the first part of the rule's test that fails, in its order. `found` is what the registers hold,
/// `wanted` what the test compares it with; codes are those of the registers, ports and entries those of a target list, and nodes
/// stand by number. (This project's rules.)
#[derive(Clone, Copy, PartialEq, Eq)]
pub enum Cause {
    // ---- K1
    /// The image has another number of blocks than the topology has nodes.
    BlockCount {
        found: u32,
        wanted: u32,
    },
    /// The block has another capability word than the node.
    Capability {
        found: u32,
        wanted: u32,
    },

    // ---- K2
    /// The decoder below is not committed.
    NotCommittedBelow,
    /// The endpoint does not decode.
    NotDecoding,

    // ---- K3
    ErrorSet,
    /// Commit is set and committed is not.
    CommitAlone,
    /// Committed is set and commit is not.
    CommittedAlone,
    NotHostOnly,

    // ---- K4, each with the block's capability word
    /// The granularity code is above 6.
    GranularityCode {
        code: u8,
        cap: u32,
    },
    /// The ways code stands for nothing.
    WaysCode {
        code: u8,
        cap: u32,
    },
    /// The capability word lacks these ways: 16, or those with a factor of 3.
    WaysLacked {
        code: u8,
        cap: u32,
    },
    /// No port has these ways.
    WaysOfNoPort {
        code: u8,
        cap: u32,
    },
    /// There are more ways than the capability word has targets.
    TooFewTargets {
        code: u8,
        cap: u32,
    },

    // ---- K5
    /// The first address bit that is needed and that the capability word does not select on.
    SelectBit {
        bit: u16,
        cap: u32,
    },

    // ---- K6
    NoBytes,
    /// The end lies past 2^52.
    PastLimit {
        base: u64,
        size: u64,
    },
    /// The size is no multiple of `unit`, 256 MiB for each way; with the next legal sizes below and above, where there are such.
    Uneven {
        size: u64,
        unit: u64,
        below: Option<u64>,
        above: Option<u64>,
    },

    // ---- K7
    /// The base lies under the end of the decoder below, which has this range.
    Under {
        below: Range,
    },

    // ---- K8: the span's start and length, where the partition ends, and the least ways at which a share would fit
    /// The span ends past the device's only partition.
    PastRam {
        start: u128,
        len: u64,
        end: u64,
        fitting: Option<u8>,
    },
    /// The span lies across the end of ram.
    AcrossPartitions {
        start: u128,
        len: u64,
        end: u64,
        fitting: Option<u8>,
    },
    /// The span ends past pmem.
    PastPmem {
        start: u128,
        len: u64,
        end: u64,
        fitting: Option<u8>,
    },

    // ---- K9
    /// No window holds the base. It is also K11's, where no window has the range.
    NoWindow,
    /// The window that holds the base cannot be used.
    UnusableWindow {
        window: u32,
        verdict: Verdict,
    },
    /// The range lies across the end of the window that holds its base.
    AcrossWindow {
        window: u32,
        end: u64,
    },
    /// The base is no multiple of 768 MiB from the window's; with the next address that is.
    NotInThirds {
        window: u32,
        next: u64,
    },
    /// The window's restrictions do not permit the span's kind.
    KindForbidden {
        window: u32,
        kind: MemKind,
        restrict: u16,
    },

    // ---- K10
    /// Two entries list one port.
    SamePort {
        entry: u8,
        other: u8,
    },
    /// The entry lists a port without a child.
    NoChild {
        entry: u8,
        port: u8,
    },
    /// The child at the entry's port has no landing.
    NoLanding {
        entry: u8,
        child: u32,
    },
    /// The landing of the child at the entry's port has no committed decoder of the range.
    NotServed {
        entry: u8,
        landing: u32,
    },
    /// The window's target is no bridge.
    NoBridge {
        window: u32,
        uid: u32,
    },
    /// The bridge that the window targets has no landing.
    TargetWithoutLanding {
        window: u32,
        uid: u32,
        bridge: u32,
    },
    /// The landing of the bridge that the window targets has no committed decoder of the range.
    TargetNotServed {
        window: u32,
        uid: u32,
        landing: u32,
    },

    // ---- K11
    Forwards,
    /// The decoding parent has no committed decoder of the range.
    ParentLacksRange {
        parent: u32,
    },
    /// The decoding parent has a decoder of the range, which does not list the port.
    ParentDoesNotList {
        parent: u32,
        port: u8,
    },
    /// The window does not target the bridge of this UID.
    NotTargeted {
        window: u32,
        uid: u32,
    },

    // ---- K12: `first` is the range's endpoint with the least number
    /// Other ways than the window's times those of the ports above.
    Ways {
        found: u8,
        wanted: u32,
    },
    /// Other ways than at the range's first endpoint.
    WaysOfFirst {
        found: u8,
        wanted: u8,
        first: Option<u32>,
    },
    /// Another kind of memory than at the range's first endpoint.
    KindOfFirst {
        found: MemKind,
        wanted: MemKind,
        first: Option<u32>,
    },
    /// Another granularity code than the range and the ports above give.
    Granularity {
        found: u8,
        wanted: u32,
        first: Option<u32>,
    },
}
