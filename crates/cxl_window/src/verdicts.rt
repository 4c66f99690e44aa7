//! The windows of a table, each with its verdict.

ghost use Rattle.std.specs.Prelude.{◌≡◌, ◌≤◌, List, ℕ, Some, length, vec_len, IfOk};
ghost use Rattle.std.specs.List.{filter_map};
ghost use Rattle.std.specs.Option.{option_copied};
ghost use Rattle.cxl_table.specs.Layout.{cfmws_kind, kind_limit};
ghost use Rattle.cxl_table.specs.Records.{count_of};
ghost use Rattle.cxl_window.specs.Windows.{cfmws_in, windows_of, AreMadeWith};

use crate::judge::Judge;
use crate::window::Window;
use cxl_enc::Memory;
use cxl_table::{Cedt, Record};
use std::alloc::Global;

/// The windows of a table in its order, each with its verdict. `uids` are the bridges of the topology,
/// where there is one.
pub fn windows(alloc: Global, cedt: &Cedt, uids: Option<&[u32]>) -> Result<Vec<Window>, Memory>
    ensures windows { IfOk result
        (λ ws. ws.items ≡ windows_of cedt.now.records (option_copied uids.entry)) }
    ensures one_each { IfOk result
        (λ ws. vec_len ws ≡ length (filter_map cfmws_in cedt.now.records)) }
    // Made with a topology's bridges, usable ones are aligned, below 2^52 and apart from one another, and their
    // targets are bridges.
    ensures made { IfOk result (λ ws. (bridges : List ℕ)
        → option_copied uids.entry ≡ Some bridges → AreMadeWith ws.items bridges) }
{
    windows_by(alloc, cedt.records(), uids)
}

/// The windows by some records of a table, among which are all that are judged by their types, in its order. `uids` are
/// the bridges of the topology, where there is one.
pub fn windows_by(
    alloc: Global,
    records: &[Record],
    uids: Option<&[u32]>,
) -> Result<Vec<Window>, Memory>
    requires few { count_of cfmws_kind records.now ≤ kind_limit }
    ensures windows { IfOk result
        (λ ws. ws.items ≡ windows_of records.now (option_copied uids.entry)) }
    ensures one_each { IfOk result
        (λ ws. vec_len ws ≡ length (filter_map cfmws_in records.now)) }
    ensures made { IfOk result (λ ws. (bridges : List ℕ)
        → option_copied uids.entry ≡ Some bridges → AreMadeWith ws.items bridges) }
{
    let judge = Judge::new(alloc, records, uids)?;
    let mut windows = Vec::new(alloc);
    for cfmws in &judge.windows {
        let window = judge.window(alloc, &windows, cfmws)?;
        windows.push(window)?;
    }
    Ok(windows)
}
