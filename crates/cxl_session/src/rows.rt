//! The own decoders of a region in an image, a row a node, and why they can't be released.

ghost use Rattle.std.specs.Prelude.{◌≡◌, find, IfOk};
ghost use Rattle.std.specs.List.{filter_map};
ghost use Rattle.cxl_model.specs.System.{blocks_alone};
ghost use Rattle.cxl_session.specs.inner.Rows.{is_not_last, is_locked, row_at};

use cxl_enc::Memory;
use cxl_image::Image;
use cxl_model::Row;
use cxl_walk::Own;
use std::alloc::Global;

/// The rows of a region's own decoders, in their order. Takes memory.
pub(crate) fn region_rows(alloc: Global, image: &Image, own: &[Own]) -> Result<Vec<Row>, Memory>
    ensures { IfOk result (λ rows. rows.items ≡ filter_map (row_at image.now) own.now) }
{
    let rows = own
        .iter()
        .filter_map(|own| row_at(image, own))
        .collect(alloc)?;
    Ok(rows)
}

/// The first of these rows whose decoder is locked. Takes no memory.
pub(crate) fn first_locked(image: &Image, own: &[Own]) -> Option<Row>
    ensures { result ≡ find is_locked (filter_map (row_at image.now) own.now) }
{
    own.iter()
        .filter_map(|own| row_at(image, own))
        .find(|row| row.decoder.lock)
}

/// The first of them above whose decoder another one of its node is committed. Takes no memory.
pub(crate) fn first_not_last(image: &Image, own: &[Own]) -> Option<Row>
    ensures { result ≡ find (is_not_last (blocks_alone image.now)) (filter_map (row_at image.now) own.now) }
{
    own.iter()
        .filter_map(|own| row_at(image, own))
        .find(|row| is_not_last(image, row))
}

/// The row of a decoder, where it stands.
fn row_at(image: &Image, own: &Own) -> Option<Row>
    ensures { result ≡ row_at image.now own.now }
{
    if own.node >= image.count() {
        return None;
    }
    let block = image.block(own.node);
    if own.index >= block.count() {
        return None;
    }
    Some(Row {
        node: own.node,
        index: own.index,
        decoder: block.decoder(own.index),
    })
}

/// Whether another decoder above the row's is committed.
fn is_not_last(image: &Image, row: &Row) -> bool
    ensures { result ≡ is_not_last (blocks_alone image.now) row.now }
{
    row.node < image.count() && image.block(row.node).has_committed_above(row.index)
}
