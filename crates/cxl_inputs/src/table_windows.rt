//! The windows of a table that is read and not copied.

ghost use Rattle.std.specs.Prelude.{◌≡◌, List, ℕ, Some, length, vec_len, IfOk};
ghost use Rattle.std.specs.List.{filter_map};
ghost use Rattle.std.specs.Option.{option_copied};
ghost use Rattle.cxl_window.specs.Windows.{cfmws_in, windows_of, AreMadeWith};

use cxl_cedt::TableText;
use cxl_enc::Memory;
use cxl_window::{Window, windows_by};
use std::alloc::Global;

/// The windows of a table that is read and not copied, in its order, each with its verdict. `uids` are the bridges of the
/// topology, where there is one. Takes memory.
pub fn text_windows(
    alloc: Global,
    table: &TableText,
    uids: Option<&[u32]>,
) -> Result<Vec<Window>, Memory>
    ensures windows { IfOk result
        (λ ws. ws.items ≡ windows_of table.now.records (option_copied uids.entry)) }
    ensures one_each { IfOk result
        (λ ws. vec_len ws ≡ length (filter_map cfmws_in table.now.records)) }
    ensures made { IfOk result (λ ws. (bridges : List ℕ)
        → option_copied uids.entry ≡ Some bridges → AreMadeWith ws.items bridges) }
{
    windows_by(alloc, table.judged(), uids)
}
