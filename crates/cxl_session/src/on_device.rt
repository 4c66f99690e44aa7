//! The live regions on a device of which its poison list names bytes.

ghost use Rattle.std.specs.Prelude.{◌≡◌, ◌==◌, IfOk, OnOk};
ghost use Rattle.std.specs.List.{list_any};
ghost use Rattle.cxl_machine.specs.Machine.{Machine};
ghost use Rattle.cxl_machine.specs.Sound.{IsMachine};
ghost use Rattle.cxl_session.specs.Standing.{StandsFor};
ghost use Rattle.cxl_session.specs.inner.OnDevice.{with_place, names_byte, is_named, ArePlacesNamed, AddsServed};

use crate::session::Session;
use cxl_enc::Memory;
use cxl_machine::live_regions_stay;
use cxl_model::{Entry, regions_lie_in_windows, regions_share_no_byte, slots_are_endpoints};
use cxl_regs::Decoder;
use std::alloc::Global;

impl Session {
    /// The places of the live regions that the decoders of an endpoint serve, each once, where one of these records names a
    /// byte of the decoder's span. Takes memory.
    pub(crate) fn places_named(
        &self,
        alloc: Global,
        endpoint: u32,
        records: &[Entry],
    ) -> Result<Vec<u32>, Memory>
        requires { (m : Machine) × StandsFor self.now m × IsMachine m }
        ensures { IfOk result (λ places. ArePlacesNamed self.now endpoint records.now places.items) }
    {
        live_regions_stay();
        slots_are_endpoints();
        let mut places = Vec::new(alloc);
        if endpoint >= self.image.count() {
            return Ok(places);
        }
        let block = self.image.block(endpoint);
        let mut taken = 0;
        for i in 0..block.count() {
            let decoder = block.decoder(i);
            let start = taken + u128::from(decoder.tail);
            taken = start + u128::from(decoder.span_length());
            if is_named(records, start, taken) {
                self.put_served(decoder, &mut places)?;
            }
        }
        Ok(places)
    }

    /// Puts the place of the live region that a decoder serves behind these, where it is not among them. Takes memory.
    fn put_served(&self, decoder: Decoder, places: &mut Vec<u32>) -> Result<(), Memory>
        requires { (m : Machine) × StandsFor self.now m × IsMachine m }
        ensures { OnOk result (AddsServed self.now decoder places.old.items places.new.items) }
    {
        regions_lie_in_windows();
        regions_share_no_byte();
        // There are few places, since few regions live.
        let _names = &self.names;
        if !decoder.committed {
            return Ok(());
        }
        let Some(place) = self.place_of_host(decoder.base) else {
            return Ok(());
        };
        put_place(places, place as u32)
    }
}

/// Puts a place behind these, where it is not among them. Takes memory.
fn put_place(places: &mut Vec<u32>, place: u32) -> Result<(), Memory>
    ensures { OnOk result (places.new.items ≡ with_place places.old.items place) }
{
    if is_among(places, place) {
        return Ok(());
    }
    places.push(place)?;
    Ok(())
}

/// Whether the place is among these.
fn is_among(places: &[u32], place: u32) -> bool
    ensures { result ≡ list_any (λ n. n == place) places.now }
{
    places.contains(&place)
}

/// Whether one of the records names a byte of the device from one on up to below another.
fn is_named(records: &[Entry], from: u128, end: u128) -> bool
    ensures { result ≡ is_named records.now from end }
{
    records.iter().any(|record| names_byte(record, from, end))
}

/// Whether a record does.
fn names_byte(entry: &Entry, from: u128, end: u128) -> bool
    ensures { result ≡ names_byte from end entry.now }
{
    let first = u128::from(entry.dpa);
    first < end && from < first + 64 * u128::from(entry.units)
}
