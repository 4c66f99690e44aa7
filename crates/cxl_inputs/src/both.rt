//! The files of a table and of a topology, read one behind the other.

ghost use Rattle.std.specs.Prelude.{◌≡◌, ◌≤◌, [], ◌∷◌, IfOk, IfErr, OnOk};
ghost use Rattle.cxl_io.specs.Fetch.{AsksFor};
ghost use Rattle.cxl_inputs.specs.File.{HasNotFailed, RunsOutBehind};
ghost use Rattle.cxl_inputs.specs.ResetHost.{AreBothRead, HasNoResetHost};
ghost use Rattle.cxl_inputs.specs.Stop.{IsStop};

use crate::stop::Stop;
use crate::table::fetch_table;
use crate::topology::fetch_topology;
use cxl_cedt::TableText;
use cxl_io::Fetch;
use cxl_topo::Topo;
use std::alloc::Global;

/// A table, and a topology that is asked for behind it. It stops at the first that has no reading.
pub(crate) fn fetch_both<F: Fetch>(
    alloc: Global,
    cedt: &str,
    topo: &str,
    files: &mut F,
) -> Result<(TableText, Topo), Stop>
    ensures read { IfOk result (λ both. AreBothRead (F.state files.old).told cedt.now topo.now both.0 both.1) }
    ensures asked { OnOk result (AsksFor (F.state files.old) (F.state files.new) (cedt.now ∷ topo.now ∷ [])) }
    ensures unfailed { OnOk result (HasNotFailed (F.state files.old) (F.state files.new)) }
    ensures stops { IfErr result (IsStop (HasNoResetHost cedt.now topo.now (F.state files.old) (F.state files.new))
        (RunsOutBehind (cedt.now ∷ topo.now ∷ []) (F.state files.old) (F.state files.new))) }
    ensures counts { (F.state files.old).faults ≤ (F.state files.new).faults }
    ensures stays { (F.state files.new).told ≡ (F.state files.old).told }
{
    let table = fetch_table(alloc, cedt, files)?;
    let topo = fetch_topology(alloc, topo, files)?;
    Ok((table, topo))
}
