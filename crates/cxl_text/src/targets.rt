//! The targets of a window.

ghost use Rattle.std.specs.Prelude.{◌≡◌, ◌++◌, OnOk};
ghost use Rattle.cxl_reply.specs.Plans.{more_ports_text, ports_text};

use cxl_enc::Memory;
use cxl_io::put_number;

/// Appends the UIDs of a window's targets, with a comma between. (This project's rule.) Takes memory.
pub fn put_targets(out: &mut Vec<u8>, uids: &[u32]) -> Result<(), Memory>
    ensures { OnOk result (out.new.items ≡ out.old.items ++ ports_text uids.now) }
{
    match uids {
        [] => Ok(()),
        [first, others @ ..] => {
            put_number(out, u64::from(*first))?;
            put_more_targets(out, others)
        }
    }
}

/// Appends UIDs, each behind a comma.
fn put_more_targets(out: &mut Vec<u8>, uids: &[u32]) -> Result<(), Memory>
    ensures { OnOk result (out.new.items ≡ out.old.items ++ more_ports_text uids.now) }
{
    for uid in uids {
        out.push(b',')?;
        put_number(out, u64::from(*uid))?;
    }
    Ok(())
}
