//! Windows of a table: what is kept of them, and verdicts with a topology. Verdicts and positions stand in `worked/`.

use crate::cedt::table;
use cxl_window::{Verdict, Window, positions, unxor, windows};
use std::process::Abort;

/// The window over the bridges 0 and 1, where the topology has these.
fn only(rt: &(impl Abort + AllocGlobal), xor: bool, uids: Option<&[u32]>) -> Window {
    let table = table(rt, xor);
    let mut windows = windows(rt.alloc(), &table, uids).expect(rt, "memory");
    drop(table);
    windows.pop().expect(rt, "a window")
}

/// The verdict of the window where the topology has these bridges.
fn verdict_with(rt: &(impl Abort + AllocGlobal), uids: &[u32]) -> Verdict {
    only(rt, false, Some(uids)).verdict()
}

/// A target has to be one of the topology's bridges, where there is a topology.
#[test]
fn judges_for_topologies(rt: HostRuntime) {
    assert!(rt; verdict_with(&rt, &[1, 0]) == Verdict::Usable);
    assert!(rt; verdict_with(&rt, &[0, 2]) == Verdict::Target(1));
}

fn is_two_by_xor(window: &Window) -> bool {
    let range = (window.index(), window.base(), window.size());
    let codes = (window.ways(), window.gran(), window.xor());
    range == (0, 0x1_0000_0000, 0x1_0000_0000)
        && codes == (2, 0, true)
        && window.restrict() == 0x000e
        && window.maps() == [0x40_4100, 0, 0, 0].as_slice()
        && window.targets() == [0, 1].as_slice()
}

/// Whether these are the raw bits with which an address has its parities.
fn undoes(window: &Window) -> bool {
    window.verdict() == Verdict::Usable
        && window.ways() == 2
        && unxor(window, 0x1_0000_4000, 1) == 0
        && unxor(window, 0x1_0000_4000, 0) == 1
}

#[test]
fn keeps_fields_and_undoes_parities(rt: HostRuntime) {
    let window = only(&rt, true, None);
    assert!(rt; is_two_by_xor(&window));
    assert!(rt; undoes(&window));
    drop(window);
}

#[test]
fn states_laws() {
    positions();
}
