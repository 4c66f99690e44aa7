//! What a command comes to: how the run ends, and one piece of text.

ghost use Rattle.std.specs.Prelude.{◌≡◌, ◌≤◌};
ghost use Rattle.cxl_inputs.specs.Ends.{Ends};
ghost use Rattle.cxl_inputs.specs.Outcome.{one_piece};

use crate::status::Status;
use cxl_io::{Sink, write_all};
use std::marker::Model;

/// What a command comes to in one piece of text: how the run ends, and what is written before.
#[derive(Drop)]
pub struct Outcome {
    status: Status,
    text: Text,
}

/// A text that is fixed takes no memory.
#[derive(Drop)]
enum Text {
    Fixed(&'static str),
    Made(Vec<u8>),
}

impl Model for Outcome {
    ghost use Rattle.std.specs.Prelude.{[], ◌∷◌};
    ghost use Rattle.cxl_inputs.specs.Outcome.{Outcome};
    ghost use Rattle.cxl_inputs.specs.Text.{bytes_in};

    ghost Value = { Outcome };

    ghost view = { λ o. record { status = o.status; pieces = bytes_in o.text ∷ [] } };
}

impl Outcome {
    /// This status with a text that is fixed. Takes no memory.
    pub fn fixed(status: Status, text: &'static str) -> Outcome
        ensures { result ≡ one_piece status text.now }
    {
        Outcome {
            status,
            text: Text::Fixed(text),
        }
    }

    /// This status with a text that was made.
    pub fn made(status: Status, text: Vec<u8>) -> Outcome
        ensures { result ≡ one_piece status text.items }
    {
        Outcome {
            status,
            text: Text::Made(text),
        }
    }

    /// Writes the text, and says how the run ends: it is written whole and no write failed, or the sink failed behind
    /// a part of it, which has a status of its own. Takes no memory.
    pub fn write<K: Sink>(&self, out: &mut K) -> Status
        ensures ends { Ends self.now result (K.state out.old) (K.state out.new) }
        ensures counts { (K.state out.old).faults ≤ (K.state out.new).faults }
    {
        let written = match &self.text {
            Text::Fixed(text) => write_all(out, text.as_bytes()),
            Text::Made(text) => write_all(out, text.as_slice()),
        };
        match written {
            Ok(()) => self.status,
            Err(_) => Status::WriteFault,
        }
    }
}
