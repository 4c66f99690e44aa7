//! One command on a session by handle for C, a call each: numbers and bytes go in, and a record comes out.

ghost use Rattle.std.specs.Prelude.{◌≡◌, length};
ghost use Rattle.cxl_enc.specs.Name.{IsName};
ghost use Rattle.cxl_handle.specs.Asking.{IsAccess, IsUnasked, IsDownTold, IsUpTold, IsLoadTold, IsStoreTold};

use cxl_handle::{HostByteFact, PlaceFact, RefusalFact, SessionHandle};
use std::alloc::Global;

/// Where a host address goes.
#[unsafe(no_mangle)]
pub extern "C" fn cxlplan_proved_session_down(
    alloc: Global,
    session: &mut SessionHandle,
    hpa: u64,
    place: &mut PlaceFact,
    refusal: &mut RefusalFact,
) -> u8
    ensures told { IsDownTold hpa session.old.held session.new.held result place.old place.new refusal.old refusal.new }
{
    session.down(alloc, hpa, place, refusal)
}

/// Which host address goes to a byte of an endpoint's device.
#[unsafe(no_mangle)]
pub extern "C" fn cxlplan_proved_session_up(
    alloc: Global,
    session: &mut SessionHandle,
    endpoint: &[u8],
    dpa: u64,
    byte: &mut HostByteFact,
    refusal: &mut RefusalFact,
) -> u8
    ensures told { IsName endpoint.now → IsUpTold endpoint.now dpa session.old.held session.new.held result byte.old byte.new refusal.old refusal.new }
    ensures unasked { ¬ (IsName endpoint.now) → IsUnasked session.old.held session.new.held result refusal.old refusal.new (byte.new ≡ byte.old) }
{
    session.up(alloc, endpoint, dpa, byte, refusal)
}

/// The bytes from a host address on.
#[unsafe(no_mangle)]
pub extern "C" fn cxlplan_proved_session_load(
    alloc: Global,
    session: &mut SessionHandle,
    hpa: u64,
    bytes: &mut [u8],
    refusal: &mut RefusalFact,
) -> u8
    ensures told { IsAccess (length bytes.old) → IsLoadTold hpa session.old.held session.new.held result bytes.old bytes.new refusal.old refusal.new }
    ensures unasked { ¬ (IsAccess (length bytes.old)) → IsUnasked session.old.held session.new.held result refusal.old refusal.new (bytes.new ≡ bytes.old) }
{
    session.load(alloc, hpa, bytes, refusal)
}

/// Puts bytes from a host address on.
#[unsafe(no_mangle)]
pub extern "C" fn cxlplan_proved_session_store(
    alloc: Global,
    session: &mut SessionHandle,
    hpa: u64,
    bytes: &[u8],
    refusal: &mut RefusalFact,
) -> u8
    ensures told { IsAccess (length bytes.now) → IsStoreTold hpa bytes.now session.old.held session.new.held result refusal.old refusal.new }
    ensures unasked { ¬ (IsAccess (length bytes.now)) → IsUnasked session.old.held session.new.held result refusal.old refusal.new (Unit {0}) }
{
    session.store(alloc, hpa, bytes, refusal)
}
