//! A session by handle for C, a call each, with the exit status of the program. None asks anything of its caller by a clause: that a
//! handle begins null, and is neither copied nor changed, C owes by the header.

ghost use Rattle.std.specs.Prelude.{◌≡◌, ◌≤◌, None, Some, [], length, take};
ghost use Rattle.std.specs.Option.{MatchOption};
ghost use Rattle.cxl_handle.specs.Facts.{AreWordsTold};
ghost use Rattle.cxl_handle.specs.Owned.{HoldsSuch};
ghost use Rattle.cxl_handle.specs.Told.{HasActed, IsImageTold, OpensOrTells, misused};
ghost use Rattle.cxl_library.specs.Slices.{slices};
ghost use Rattle.cxl_reads.specs.Answers.{image_name};

use cxl_handle::{SessionHandle, WordFact};
use std::alloc::Global;

/// Opens a session on the host after reset.
#[unsafe(no_mangle)]
pub extern "C" fn cxlplan_proved_session_open(
    alloc: Global,
    cedt: &[u8],
    topo: &[u8],
    session: &mut SessionHandle,
    out: &mut [u8],
    written: &mut usize,
) -> u8
    ensures opened { MatchOption session.old.held
        (OpensOrTells (slices cedt.now topo.now []) None session.new.held result (take written.new out.new))
        (λ held. (result ≡ misused) × (written.new ≡ 0) × (session.new.held ≡ Some held)) }
    ensures within { written.new ≤ length out.new }
    ensures full { result ≡ 6 → written.new ≡ length out.new }
{
    session.open_from_reset(alloc, cedt, topo, out, written)
}

/// Opens one on the host with the registers of an image.
#[unsafe(no_mangle)]
pub extern "C" fn cxlplan_proved_session_open_from(
    alloc: Global,
    cedt: &[u8],
    topo: &[u8],
    image: &[u8],
    session: &mut SessionHandle,
    out: &mut [u8],
    written: &mut usize,
) -> u8
    ensures opened { MatchOption session.old.held
        (OpensOrTells (slices cedt.now topo.now image.now) (Some image_name) session.new.held result (take written.new out.new))
        (λ held. (result ≡ misused) × (written.new ≡ 0) × (session.new.held ≡ Some held)) }
    ensures within { written.new ≤ length out.new }
    ensures full { result ≡ 6 → written.new ≡ length out.new }
{
    session.open_from_image(alloc, cedt, topo, image, out, written)
}

/// Carries out lines on a session, and tells their replies.
#[unsafe(no_mangle)]
pub extern "C" fn cxlplan_proved_session_act(
    alloc: Global,
    session: &mut SessionHandle,
    lines: &[u8],
    out: &mut [u8],
    written: &mut usize,
) -> u8
    ensures acted { MatchOption session.old.held ((result ≡ misused) × (written.new ≡ 0) × (session.new.held ≡ session.old.held))
        (λ old. HoldsSuch session.new.held (λ new. HasActed old new lines.now result (take written.new out.new))) }
    ensures within { written.new ≤ length out.new }
    ensures full { result ≡ 6 → written.new ≡ length out.new }
{
    session.act(alloc, lines, out, written)
}

/// The register words that the last call on a session sent.
#[unsafe(no_mangle)]
pub extern "C" fn cxlplan_proved_session_words(
    alloc: Global,
    session: &mut SessionHandle,
    rows: &mut [WordFact],
    count: &mut usize,
) -> u8
    ensures same { session.new.held ≡ session.old.held }
    ensures told { MatchOption session.old.held ((result ≡ misused) × (count.new ≡ 0) × (rows.new ≡ rows.old))
        (λ held. (result ≡ 0) × AreWordsTold held.regs.trail count.new rows.old rows.new) }
{
    session.words(alloc, rows, count)
}

/// The file of a session's register image.
#[unsafe(no_mangle)]
pub extern "C" fn cxlplan_proved_session_image(
    alloc: Global,
    session: &mut SessionHandle,
    out: &mut [u8],
    written: &mut usize,
) -> u8
    ensures same { session.new.held ≡ session.old.held }
    ensures told { MatchOption session.old.held ((result ≡ misused) × (written.new ≡ 0))
        (λ held. IsImageTold held (length out.new) result (take written.new out.new)) }
    ensures within { written.new ≤ length out.new }
    ensures full { result ≡ 6 → written.new ≡ length out.new }
{
    session.image(alloc, out, written)
}

/// Closes a session, if there is one.
#[unsafe(no_mangle)]
pub extern "C" fn cxlplan_proved_session_close(alloc: Global, session: &mut SessionHandle)
    ensures { session.new.held ≡ None }
{
    session.close(alloc);
}
