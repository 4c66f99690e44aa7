//! The line of a decoder: its place, its fields and its words.

ghost use Rattle.std.specs.Prelude.{◌≡◌, ◌++◌, ◌<◌, OnOk, length};
ghost use Rattle.cxl_regs.specs.Registers.{IsDecoder};
ghost use Rattle.cxl_reply.specs.Plans.{decoder_text};
ghost use Rattle.cxl_reads.specs.Decoders.{place_text, range_text, codes_text, commit_text, state_text, words_text, decoder_line};

use crate::answers::put_bit;
use cxl_enc::Memory;
use cxl_io::put_number;
use cxl_regs::{Decoder, words_of};
use cxl_text::{put_address, put_tail, put_words};
use cxl_topo::Topo;

/// Appends the line of decoder `i` of a node.
pub(crate) fn put_decoder_line(
    out: &mut Vec<u8>,
    node: u32,
    endpoint: bool,
    i: u8,
    d: &Decoder,
    topo: &Topo,
) -> Result<(), Memory>
    requires here { node < length topo.now.nodes }
    requires decoder { IsDecoder endpoint d.now }
    ensures { OnOk result (out.new.items ≡ out.old.items ++ decoder_line topo.now.nodes node endpoint (i, d.now)) }
{
    put_place(out, node, i, topo)?;
    put_fields(out, d)?;
    put_tail(out, endpoint, d)?;
    put_eight_words(out, endpoint, d)?;
    out.push(b'\n')?;
    Ok(())
}

#[tactic(auto, unfolding(crate::specs::Decoders::place_text))]
fn put_place(out: &mut Vec<u8>, node: u32, i: u8, topo: &Topo) -> Result<(), Memory>
    requires { node < length topo.now.nodes }
    ensures { OnOk result (out.new.items ≡ out.old.items ++ place_text topo.now.nodes node i) }
{
    out.extend_from_slice(b"decoder ")?;
    out.extend_from_slice(topo.node(node).name.bytes())?;
    out.extend_from_slice(b" ")?;
    put_number(out, u64::from(i))
}

/// Appends the fields of a decoder but for its tail.
fn put_fields(out: &mut Vec<u8>, d: &Decoder) -> Result<(), Memory>
    requires { d.now.gran < 16 }
    ensures { OnOk result (out.new.items ≡ out.old.items
        ++ (range_text d.now ++ decoder_text d.now ++ codes_text d.now ++ commit_text d.now ++ state_text d.now)) }
{
    put_range(out, d)?;
    put_interleave(out, d)?;
    put_codes(out, d)?;
    put_commit(out, d)?;
    put_state(out, d)
}

#[tactic(auto, unfolding(crate::specs::Decoders::range_text))]
fn put_range(out: &mut Vec<u8>, d: &Decoder) -> Result<(), Memory>
    ensures { OnOk result (out.new.items ≡ out.old.items ++ range_text d.now) }
{
    out.extend_from_slice(b" base ")?;
    put_address(out, d.base)?;
    out.extend_from_slice(b" size ")?;
    put_address(out, d.size)
}

/// Appends the ways of a decoder, and its granularity in bytes.
fn put_interleave(out: &mut Vec<u8>, d: &Decoder) -> Result<(), Memory>
    requires { d.now.gran < 16 }
    ensures { OnOk result (out.new.items ≡ out.old.items ++ decoder_text d.now) }
{
    out.extend_from_slice(b" ways ")?;
    put_number(out, u64::from(d.interleave_ways()))?;
    out.extend_from_slice(b" gran ")?;
    put_number(out, u64::from(d.interleave_granularity()))
}

#[tactic(auto, unfolding(crate::specs::Decoders::codes_text))]
fn put_codes(out: &mut Vec<u8>, d: &Decoder) -> Result<(), Memory>
    ensures { OnOk result (out.new.items ≡ out.old.items ++ codes_text d.now) }
{
    out.extend_from_slice(b" codes ")?;
    put_number(out, u64::from(d.ways))?;
    out.extend_from_slice(b" ")?;
    put_number(out, u64::from(d.gran))
}

#[tactic(auto, unfolding(crate::specs::Decoders::commit_text))]
fn put_commit(out: &mut Vec<u8>, d: &Decoder) -> Result<(), Memory>
    ensures { OnOk result (out.new.items ≡ out.old.items ++ commit_text d.now) }
{
    put_bit(out, b" lock", d.lock)?;
    put_bit(out, b" commit", d.commit)?;
    put_bit(out, b" committed", d.committed)
}

#[tactic(auto, unfolding(crate::specs::Decoders::state_text))]
fn put_state(out: &mut Vec<u8>, d: &Decoder) -> Result<(), Memory>
    ensures { OnOk result (out.new.items ≡ out.old.items ++ state_text d.now) }
{
    put_bit(out, b" error", d.error)?;
    put_bit(out, b" host-only", d.host_only)
}

#[tactic(auto, unfolding(crate::specs::Decoders::words_text))]
fn put_eight_words(out: &mut Vec<u8>, endpoint: bool, d: &Decoder) -> Result<(), Memory>
    requires { IsDecoder endpoint d.now }
    ensures { OnOk result (out.new.items ≡ out.old.items ++ words_text d.now) }
{
    out.extend_from_slice(b" words ")?;
    put_words(out, &words_of(d))
}
