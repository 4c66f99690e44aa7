//! The line of a window: its fields, and how a topology lets it be used.

ghost use Rattle.std.specs.Prelude.{◌≡◌, ◌++◌, OnOk, codes, decimal};
ghost use Rattle.cxl_reply.specs.Words.{hex_text};
ghost use Rattle.cxl_reads.specs.Windows.{span_text, dealing_text, policy_text, use_text, seen_line};

use crate::answers::put_bit;
use crate::window_verdicts::put_verdict;
use cxl_enc::Memory;
use cxl_io::put_number;
use cxl_table::Record;
use cxl_text::{put_address, put_gran, put_targets};
use cxl_window::Window;

/// Appends the line of a window of a table, whose record has this throttling group.
pub(crate) fn put_window_line(
    out: &mut Vec<u8>,
    records: &[Record],
    window: &Window,
    group: u16,
) -> Result<(), Memory>
    ensures { OnOk result (out.new.items ≡ out.old.items ++ seen_line records.now (window.now, group)) }
{
    put_span(out, window)?;
    put_dealing(out, window)?;
    put_policy(out, window.restrict(), group)?;
    put_use(out, records, window)?;
    out.push(b'\n')?;
    Ok(())
}

#[tactic(auto, unfolding(crate::specs::Windows::span_text))]
fn put_span(out: &mut Vec<u8>, window: &Window) -> Result<(), Memory>
    ensures { OnOk result (out.new.items ≡ out.old.items ++ span_text window.now) }
{
    out.extend_from_slice(b"window ")?;
    put_number(out, u64::from(window.index()))?;
    out.extend_from_slice(b" base ")?;
    put_address(out, window.base())?;
    out.extend_from_slice(b" size ")?;
    put_address(out, window.size())
}

#[tactic(auto, unfolding(crate::specs::Windows::dealing_text))]
fn put_dealing(out: &mut Vec<u8>, window: &Window) -> Result<(), Memory>
    ensures { OnOk result (out.new.items ≡ out.old.items ++ dealing_text window.now) }
{
    out.extend_from_slice(b" ways ")?;
    put_number(out, u64::from(window.ways()))?;
    out.extend_from_slice(b" gran ")?;
    put_gran(out, window.gran())?;
    put_bit(out, b" xor", window.xor())
}

#[tactic(auto, unfolding(crate::specs::Windows::policy_text))]
fn put_policy(out: &mut Vec<u8>, restrict: u16, group: u16) -> Result<(), Memory>
    ensures { OnOk result (out.new.items ≡ out.old.items ++ policy_text restrict group) }
{
    put_restrict(out, restrict)?;
    put_group(out, group)
}

fn put_restrict(out: &mut Vec<u8>, restrict: u16) -> Result<(), Memory>
    ensures { OnOk result (out.new.items ≡ out.old.items ++ (codes " restrict " ++ hex_text restrict)) }
{
    out.extend_from_slice(b" restrict ")?;
    put_address(out, u64::from(restrict))
}

fn put_group(out: &mut Vec<u8>, group: u16) -> Result<(), Memory>
    ensures { OnOk result (out.new.items ≡ out.old.items ++ (codes " qtg " ++ decimal group)) }
{
    out.extend_from_slice(b" qtg ")?;
    put_number(out, u64::from(group))
}

#[tactic(auto, unfolding(crate::specs::Windows::use_text))]
fn put_use(out: &mut Vec<u8>, records: &[Record], window: &Window) -> Result<(), Memory>
    ensures { OnOk result (out.new.items ≡ out.old.items ++ use_text records.now window.now) }
{
    out.extend_from_slice(b" targets ")?;
    put_targets(out, window.targets())?;
    out.extend_from_slice(b" verdict ")?;
    put_verdict(out, records, window)
}
