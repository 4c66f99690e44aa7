//! The names of nodes and regions.

ghost use Rattle.std.specs.Prelude.{◌≡◌, ◌↔◌, IsTrue, IsSome, IfSome, position};
ghost use Rattle.std.specs.List.{list_all};
ghost use Rattle.std.specs.Str.{bytes_eq};
ghost use Rattle.cxl_enc.specs.Name.{IsName, is_name, is_name_byte};

use std::marker::Model;

/// How many bytes a name has at the most.
const ROOM: usize = 15;

/// A name of a node or a region: 1 to 15 ASCII letters, digits and `_`.
#[derive(Clone, Copy, PartialEq, Eq)]
pub struct Name {
    len: u8,
    // The bytes past `len` are zero, so that equal names are equal bytes.
    room: [u8; ROOM],
}

impl Model for Name {
    ghost use Rattle.std.specs.Prelude.{List, ℕ, length, take};

    ghost Value = { List ℕ };

    ghost use Rattle.cxl_enc.specs.Name.{IsPadded, padded};

    ghost view = { λ name. take name.len name.room };

    ghost invariant = { λ name. IsPadded name.len name.room };

    ghost inverse = { λ bytes. record { len = length bytes; room = padded bytes } };

    ghost use Rattle.std.proofs.Common.{sym};
    ghost use Rattle.cxl_enc.specs.inner.Name.{length-take_padded, same_inside};

    ghost inverse_ok = { λ name h. same_inside (length-take_padded name.len name.room h) (sym h.zeros) };
}

impl Name {
    /// The name of these bytes: 1 to 15 ASCII letters, digits and `_`. `None` where they are none. (This project's
    /// rule.)
    pub fn read(bytes: &[u8]) -> Option<Name>
        ensures name { IsSome result ↔ IsName bytes.now }
        ensures value { IfSome result (λ name. name ≡ bytes.now) }
    {
        if !is_name(bytes) {
            return None;
        }
        let mut room = [0; ROOM];
        room[..bytes.len()].copy_from_slice(bytes);
        Some(Name {
            len: bytes.len() as u8,
            room,
        })
    }

    /// Whether this is the same name.
    pub fn is_same(&self, other: &Name) -> bool
        ensures { result ≡ bytes_eq self.now other.now }
    {
        self.bytes() == other.bytes()
    }

    /// The bytes of the name.
    pub fn bytes(&self) -> &[u8]
        ensures value { result.now ≡ self.now }
        ensures name { IsName result.now }
    {
        &self.room[..self.len as usize]
    }
}

/// The place of a name among others.
pub fn place_among(names: &[Name], name: &Name) -> Option<usize>
    ensures { result ≡ position (λ own. bytes_eq own name.now) names.now }
{
    names.iter().position(|own| own.is_same(name))
}

fn is_name(bytes: &[u8]) -> bool
    ensures test { result ≡ is_name bytes.now }
    ensures name { IsTrue result ↔ IsName bytes.now }
{
    !bytes.is_empty() && bytes.len() <= ROOM && are_name_bytes(bytes)
}

fn are_name_bytes(bytes: &[u8]) -> bool
    ensures { result ≡ list_all is_name_byte bytes.now }
{
    bytes.iter().all(|byte| is_name_byte(*byte))
}

fn is_name_byte(byte: u8) -> bool
    ensures { result ≡ is_name_byte byte }
{
    matches!(byte, b'0'..=b'9' | b'A'..=b'Z' | b'a'..=b'z' | b'_')
}
