//! The values of a table by key, found by one walk over its entries.

ghost use Rattle.std.specs.Prelude.{◌≡◌, ◌==◌, option_map, Err, IfOk, IfErr};
ghost use Rattle.std.specs.List.{list_any};
ghost use Rattle.toml.specs.Data.{get_member};
ghost use Rattle.toml.specs.View.{view, table_view};
ghost use Rattle.cxl_topofile.specs.Keys.{key_text, has_unknown};
ghost use Rattle.cxl_topofile.specs.Drafts.{known_in};
ghost use Rattle.cxl_topofile.specs.inner.Fields.{slot_of, value_in, members_of, HasFields, AreFields, AreAllFields};

use crate::fault::Wrong;
use crate::key::{Key, SLOTS, slot_at};
use toml::{Table, Value};

/// A table with the value at each key of a file.
#[derive(Clone, Copy)]
pub(crate) struct Fields<'a> {
    pub table: &'a Table,
    /// By the slot of the key.
    pub values: [Option<&'a Value>; SLOTS],
}

/// What stands at a key.
pub(crate) fn found<'a>(fields: &Fields<'a>, key: Key) -> Option<&'a Value>
    requires { AreFields fields.now }
    ensures { option_map (λ value. view value.now) result ≡ get_member (key_text key) (members_of fields.now) }
{
    value_in(&fields.values, key)
}

/// A table by its keys, where it has no other ones.
pub(crate) fn fields_of<'a>(table: &'a Table, keys: &[Key]) -> Result<Fields<'a>, Wrong>
    ensures all { IfOk result (λ fields. AreAllFields fields (table_view table.now) keys.now) }
    ensures fault { IfErr result (λ wrong. known_in (table_view table.now) keys.now ≡ Err wrong) }
{
    let (values, others) = values_of(table, keys);
    if others {
        return Err(Wrong::missing(Key::Unknown));
    }
    Ok(Fields { table, values })
}

/// The values of a table by the slots of their keys, and whether it has a key beside these.
pub(crate) fn values_of<'a>(table: &'a Table, keys: &[Key]) -> ([Option<&'a Value>; SLOTS], bool)
    ensures values { HasFields result.0 (table_view table.now) }
    ensures others { result.1 ≡ has_unknown (table_view table.now) keys.now }
{
    let mut values = [None; SLOTS];
    let mut others = false;
    'entries: for (text, value) in table.iter() {
        let slot = slot_at(text.as_bytes());
        others = others | !is_slot_of(slot, keys);
        // The first one counts, since that is seen without the order of keys.
        values[slot] = Some(values[slot].unwrap_or(value));
    }
    (values, others)
}

/// Whether a slot is that of one of these keys.
fn is_slot_of(slot: usize, keys: &[Key]) -> bool
    ensures { result ≡ list_any (λ key. slot_of key == slot) keys.now }
{
    keys.iter().any(|key| key.slot() == slot)
}

/// What stands in the slot of a key.
fn value_in<'a>(values: &[Option<&'a Value>; SLOTS], key: Key) -> Option<&'a Value>
    ensures { option_map (λ value. view value.now) result ≡ value_in values.now key }
{
    values[key.slot()]
}
