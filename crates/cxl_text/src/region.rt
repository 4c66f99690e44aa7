//! The text of a region with its registers and its slots.

ghost use Rattle.std.specs.Prelude.{◌≡◌, ◌<◌, ◌≤◌, ◌++◌, All, codes, decimal, length, map, OnOk};
ghost use Rattle.std.specs.List.{flat_map};
ghost use Rattle.cxl_reply.specs.Words.{line, kind_text, node_text, more_spaced};
ghost use Rattle.cxl_reply.specs.Texts.{shown_head_text, layout_text, row_text, word_text, shown_words_text, shown_text};
ghost use Rattle.cxl_reply.specs.Conditions.{IsToldFound, IsToldShown};

use crate::refusal::{put_short_line, put_whole_text};
use crate::short_text::ShortText;
use crate::slots::put_slots;
use crate::words::kind_text;
use cxl_enc::{Memory, Name};
use cxl_io::put_hex;
use cxl_model::Found;
use cxl_reply::{Shown, ShownRow};
use cxl_topo::Topo;

/// Appends a region with its registers and its slots.
pub(crate) fn put_shown(out: &mut Vec<u8>, shown: &Shown, topo: &Topo) -> Result<(), Memory>
    requires { IsToldShown topo.now.nodes shown.now }
    ensures { OnOk result (out.new.items ≡ out.old.items ++ shown_text topo.now.nodes shown.now) }
{
    put_shown_head(out, shown)?;
    put_rows(out, shown.rows.items(), topo)?;
    put_slots(out, shown.found.spans.items(), topo)
}

fn put_shown_head(out: &mut Vec<u8>, shown: &Shown) -> Result<(), Memory>
    requires { shown.now.found.gran ≤ 6 }
    ensures { OnOk result (out.new.items ≡ out.old.items ++ shown_head_text shown.now) }
{
    put_head(out, b"region ", &shown.name, &shown.found)
}

/// Appends a word that ends with a space, and a name with its region's kind and layout.
pub(crate) fn put_head(
    out: &mut Vec<u8>,
    word: &[u8],
    name: &Name,
    found: &Found,
) -> Result<(), Memory>
    requires few { length word.now ≤ 7 }
    requires gran { found.now.gran ≤ 6 }
    ensures { OnOk result (out.new.items ≡ out.old.items ++ line (word.now ++ name.now ++ codes " " ++ kind_text found.now.kind ++ codes " "
        ++ layout_text found.now.window found.now.base found.now.size found.now.gran found.now.ways)) }
{
    let mut line = ShortText::new();
    line.put_name(word, name);
    line.put(b" ");
    line.put(kind_text(found.kind));
    line.put(b" ");
    line.put_layout(found.window, found.base, found.size, found.gran, found.ways);
    put_short_line(out, &mut line)
}

fn put_rows(out: &mut Vec<u8>, rows: &[ShownRow], topo: &Topo) -> Result<(), Memory>
    requires { All (λ row. row.node < length topo.now.nodes) rows.now }
    ensures { OnOk result (out.new.items ≡ out.old.items ++ flat_map (row_text topo.now.nodes) rows.now) }
{
    for row in rows {
        put_row(out, row, topo)?;
    }
    Ok(())
}

fn put_row(out: &mut Vec<u8>, row: &ShownRow, topo: &Topo) -> Result<(), Memory>
    requires { row.now.node < length topo.now.nodes }
    ensures { OnOk result (out.new.items ≡ out.old.items ++ row_text topo.now.nodes row.now) }
{
    put_row_head(out, row, topo)?;
    put_words(out, &row.words)?;
    put_whole_text(out, b"\n")
}

/// Appends a node and a decoder of it.
fn put_row_head(out: &mut Vec<u8>, row: &ShownRow, topo: &Topo) -> Result<(), Memory>
    requires { row.now.node < length topo.now.nodes }
    ensures { OnOk result (out.new.items ≡ out.old.items
        ++ (codes "node " ++ node_text topo.now.nodes row.now.node ++ codes " " ++ decimal row.now.decoder ++ codes " ")) }
{
    let mut head = ShortText::new();
    head.put_node(b"node ", row.node, topo);
    head.put_number(b" ", u32::from(row.decoder));
    head.put(b" ");
    put_whole_text(out, head.bytes())
}

/// Appends words of eight hexadecimal digits, with spaces between. Takes memory.
pub fn put_words(out: &mut Vec<u8>, words: &[u32]) -> Result<(), Memory>
    ensures { OnOk result (out.new.items ≡ out.old.items ++ shown_words_text words.now) }
{
    match words {
        [] => Ok(()),
        [first, others @ ..] => {
            put_hex(out, u64::from(*first), 8)?;
            put_more_words(out, others)
        }
    }
}

/// Appends words of eight hexadecimal digits, each behind a space.
fn put_more_words(out: &mut Vec<u8>, words: &[u32]) -> Result<(), Memory>
    ensures { OnOk result (out.new.items ≡ out.old.items ++ more_spaced (map word_text words.now)) }
{
    for word in words {
        out.push(b' ')?;
        put_hex(out, u64::from(*word), 8)?;
    }
    Ok(())
}
