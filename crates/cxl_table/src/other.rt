//! A record of a type that is not judged, kept byte for byte.

ghost use Rattle.std.specs.Prelude.{◌≡◌, ◌<◌, ◌≤◌, length};

use cxl_enc::FixedList;
use std::marker::Model;

/// A record of another type, kept byte for byte.
#[derive(Drop)]
pub struct Other {
    kind: u8,
    reserved: u8,
    body: FixedList<u8>,
}

impl Model for Other {
    ghost use Rattle.cxl_table.specs.Fields.{OtherFields, IsOther};

    ghost Value = { OtherFields };

    ghost view = { λ c. record { kind = c.kind; reserved = c.reserved; body = c.body } };

    ghost invariant = { λ c. IsOther c.kind c.body };
}

impl Other {
    /// A record of this type, with the byte after the type and what follows the length. Takes no memory.
    pub fn new(kind: u8, reserved: u8, body: Vec<u8>) -> Other
        requires kind { 2 < kind }
        requires body { length body.items ≤ 65531 }
        ensures { result ≡ record { kind = kind; reserved = reserved; body = body.items } }
    {
        Other {
            kind,
            reserved,
            body: FixedList::new(body),
        }
    }

    /// The record's type.
    pub fn kind(&self) -> u8
        ensures value { result ≡ self.now.kind }
        ensures other { 2 < result }
    {
        self.kind
    }

    /// The byte after the type.
    pub fn reserved(&self) -> u8
        ensures { result ≡ self.now.reserved }
    {
        self.reserved
    }

    /// The bytes after the length.
    pub fn body(&self) -> &[u8]
        ensures value { result.now ≡ self.now.body }
        ensures few { length self.now.body ≤ 65531 }
    {
        self.body.items()
    }
}
