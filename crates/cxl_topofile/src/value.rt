//! The values at the keys of a table.

ghost use Rattle.std.specs.Prelude.{◌≡◌, ◌≤◌, None, IfOk, IsTrue};
ghost use Rattle.std.specs.Bool.{OnTrue};
ghost use Rattle.cxl_enc.specs.Caps.{is_decoder_count, is_target_count};
ghost use Rattle.cxl_enc.specs.Name.{is_name};
ghost use Rattle.toml.specs.Data.{as_integer, as_bool, as_str};
ghost use Rattle.cxl_topofile.specs.Values.{value_at, number_at, natural, is_within, within, flag_at, stated_name, stated_decoders, stated_targets, Gives};
ghost use Rattle.cxl_topofile.specs.inner.Fields.{members_of, AreFields};
ghost use Rattle.cxl_topofile.specs.inner.Steps.{natural_at};

use crate::fault::Wrong;
use crate::fields::{Fields, found};
use crate::key::Key;
use cxl_enc::Name;

fn integer(fields: &Fields<'_>, key: Key, default: Option<i64>) -> Result<i64, Wrong>
    requires { AreFields fields.now }
    ensures { result ≡ value_at as_integer (members_of fields.now) key default }
{
    match found(fields, key) {
        Some(value) => value.as_integer().ok_or(Wrong::of_other_kind(key)),
        None => default.ok_or(Wrong::missing(key)),
    }
}

/// The boolean at a key.
pub(crate) fn flag(fields: &Fields<'_>, key: Key, default: bool) -> Result<bool, Wrong>
    requires { AreFields fields.now }
    ensures { result ≡ flag_at (members_of fields.now) key default }
{
    match found(fields, key) {
        Some(value) => value.as_bool().ok_or(Wrong::of_other_kind(key)),
        None => Ok(default),
    }
}

fn text<'a>(fields: &Fields<'a>, key: Key) -> Result<&'a str, Wrong>
    requires { AreFields fields.now }
    ensures { Gives (λ text. text.now) result (value_at as_str (members_of fields.now) key None) }
{
    match found(fields, key) {
        Some(value) => value.as_str().ok_or(Wrong::of_other_kind(key)),
        None => Err(Wrong::missing(key)),
    }
}

/// The name at a key.
#[tactic(auto, unfolding(crate::specs::Values::stated_name))]
pub(crate) fn name(fields: &Fields<'_>, key: Key) -> Result<Name, Wrong>
    requires { AreFields fields.now }
    ensures { result ≡ stated_name (members_of fields.now) key }
{
    read_name(key, text(fields, key)?)
}

fn read_name(key: Key, text: &str) -> Result<Name, Wrong>
    ensures { result ≡ within key is_name text.now }
{
    Name::read(text.as_bytes()).ok_or(Wrong::out_of_range(key))
}

fn natural(key: Key, z: i64) -> Result<u64, Wrong>
    ensures { result ≡ natural key z }
{
    if z < 0 {
        return Err(Wrong::out_of_range(key));
    }
    Ok(z as u64)
}

/// The natural number at a key.
fn natural_at(fields: &Fields<'_>, key: Key, default: Option<i64>) -> Result<u64, Wrong>
    requires { AreFields fields.now }
    ensures { result ≡ natural_at (members_of fields.now) key default }
{
    let z = integer(fields, key, default)?;
    natural(key, z)
}

fn within(key: Key, n: u64, low: u64, high: u64) -> Result<u64, Wrong>
    ensures within { result ≡ within key (is_within low high) n }
    ensures range { IfOk result (λ n. (low ≤ n) × (n ≤ high)) }
{
    if low <= n && n <= high {
        Ok(n)
    } else {
        Err(Wrong::out_of_range(key))
    }
}

/// The integer at a key, from `low` to `high`.
pub(crate) fn number(
    fields: &Fields<'_>,
    key: Key,
    default: Option<i64>,
    low: u64,
    high: u64,
) -> Result<u64, Wrong>
    requires { AreFields fields.now }
    ensures number { result ≡ number_at (members_of fields.now) key default (is_within low high) }
    ensures range { IfOk result (λ n. (low ≤ n) × (n ≤ high)) }
{
    let n = natural_at(fields, key, default)?;
    within(key, n, low, high)
}

/// The number of decoders.
pub(crate) fn decoders(fields: &Fields<'_>) -> Result<u8, Wrong>
    requires { AreFields fields.now }
    ensures decoders { result ≡ stated_decoders (members_of fields.now) }
    ensures count { IfOk result (λ n. IsTrue (is_decoder_count n)) }
{
    let n = natural_at(fields, Key::Decoders, Some(4))?;
    if !is_decoder_count(n) {
        return Err(Wrong::out_of_range(Key::Decoders));
    }
    Ok(n as u8)
}

fn is_decoder_count(n: u64) -> bool
    ensures value { result ≡ is_decoder_count n }
    ensures few { OnTrue result (n ≤ 10) }
{
    matches!(n, 1 | 2 | 4 | 6 | 8 | 10)
}

/// The number of targets.
pub(crate) fn targets(fields: &Fields<'_>) -> Result<u8, Wrong>
    requires { AreFields fields.now }
    ensures targets { result ≡ stated_targets (members_of fields.now) }
    ensures count { IfOk result (λ n. IsTrue (is_target_count n)) }
{
    let n = natural_at(fields, Key::Targets, Some(8))?;
    if !is_target_count(n) {
        return Err(Wrong::out_of_range(Key::Targets));
    }
    Ok(n as u8)
}

fn is_target_count(n: u64) -> bool
    ensures value { result ≡ is_target_count n }
    ensures few { OnTrue result (n ≤ 8) }
{
    matches!(n, 1 | 2 | 4 | 8)
}
