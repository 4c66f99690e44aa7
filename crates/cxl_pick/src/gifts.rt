//! What is known of what nodes give, in a table for each code and third of windows.

ghost use Rattle.std.specs.Prelude.{◌≡◌, ℕ, ◌<◌, ◌≤◌, false, true, length, All, IsSomeAnd, slice_get, IfOk, OnOk};
ghost use Rattle.cxl_enc.specs.Codes.{third_of};
ghost use Rattle.cxl_enc.specs.Limits.{address_limit};
ghost use Rattle.cxl_topo.specs.Tree.{is_endpoint_at};
ghost use Rattle.cxl_window.specs.Fields.{WindowFields};
ghost use Rattle.cxl_model.specs.Hosts.{as_system};
ghost use Rattle.cxl_model.specs.System.{System};
ghost use Rattle.cxl_pick.specs.declared.want.Want.{Want};
ghost use Rattle.cxl_pick.specs.Picking.{wanted_code};
ghost use Rattle.cxl_pick.specs.inner.Gifts.{AreChildrenKnown, AreGifts, IsAsked, IsGift, is_known, known_at, told_by, used};

use crate::terms::wanted_code;
use crate::want::Want;
use cxl_model::Host;
use cxl_window::Window;
use std::alloc::{AllocError, Global};

/// By how many of its ports a node gives something, for each number of endpoints: an endpoint by one, and none where it
/// gives nothing. (No node gives anything for another number: an endpoint gives itself for 1, and a port uses 1, 2, 4 or
/// 8 of its children.)
#[derive(Clone, Copy)]
pub struct Gift {
    pub one: u8,
    pub two: u8,
    pub four: u8,
    pub eight: u8,
    pub sixteen: u8,
}

/// Starts from which the same of the nodes that were asked are open.
#[derive(Clone, Copy)]
pub struct Starts {
    /// The least.
    pub from: u64,
    /// An address above them all.
    pub until: u64,
}

/// What each node that was asked gives in the windows of one code, and of ways that three divides or not. It is the same
/// from each of the starts.
#[derive(Drop)]
pub struct Gifts {
    /// The code of the region in those windows.
    pub code: u8,
    /// 3 where three divides the ways of those windows, else 1.
    pub third: u8,
    pub starts: Starts,
    /// By node.
    pub known: Vec<Option<Gift>>,
}

// ---- tables

/// The number of a table in which a window's code and third and this start are, which is made where there is none. Takes
/// memory.
pub(crate) fn table_for(
    tables: &mut Vec<Gifts>,
    alloc: Global,
    host: &Host,
    want: &Want,
    w: &Window,
    start: u64,
) -> Result<usize, AllocError>
    requires tables { All (AreGifts (as_system host.now) want.now) tables.old.items }
    requires low { start ≤ address_limit }
    ensures tables { OnOk result (All (AreGifts (as_system host.now) want.now) tables.new.items) }
    ensures asked { IfOk result
        (λ place. IsSomeAnd (slice_get tables.new.items place) (λ gifts. IsAsked want.now gifts w.now start)) }
{
    let code = wanted_code(want, w);
    let third = third_of(w);
    let place = place_for(tables, code, third);
    if place == tables.len() {
        let made = no_gifts(alloc, host.topo.count(), code, third)?;
        tables.push(made)?;
        return Ok(place);
    }
    if !is_among(&tables[place].starts, start) {
        let made = no_gifts(alloc, host.topo.count(), code, third)?;
        tables[place] = made;
    }
    Ok(place)
}

/// The number of the table of this code and third, or how many there are where none is.
fn place_for(tables: &[Gifts], code: u8, third: u8) -> usize
    ensures within { result ≤ length tables.now }
    ensures found { result < length tables.now
        → IsSomeAnd (slice_get tables.now result) (λ gifts. (gifts.code ≡ code) × (gifts.third ≡ third)) }
{
    for (place, gifts) in tables.iter().enumerate() {
        if gifts.code == code && gifts.third == third {
            return place;
        }
    }
    tables.len()
}

/// Nothing is known of so many nodes, from any start. Takes memory.
fn no_gifts(alloc: Global, count: u32, code: u8, third: u8) -> Result<Gifts, AllocError>
    ensures asked { IfOk result (λ gifts. (want : Want) (w : WindowFields) (start : ℕ) → wanted_code want w ≡ code
        → third_of w.ways ≡ third → start ≤ address_limit → IsAsked want gifts w start) }
    ensures gifts { IfOk result (λ gifts. (s : System) (want : Want) → length s.nodes ≡ count → AreGifts s want gifts) }
{
    let known = vec![in alloc; None; count as usize]?;
    Ok(Gifts {
        code,
        third,
        starts: Starts {
            from: 0,
            until: u64::MAX,
        },
        known,
    })
}

/// 3 where three divides the ways of a window, else 1.
fn third_of(w: &Window) -> u8
    ensures { result ≡ third_of w.now.ways }
{
    if w.ways() % 3 == 0 { 3 } else { 1 }
}

// ---- starts

/// Whether this is one of the starts.
fn is_among(starts: &Starts, start: u64) -> bool
    ensures from { result ≡ true → starts.now.from ≤ start }
    ensures until { result ≡ true → start < starts.now.until }
{
    starts.from <= start && start < starts.until
}

/// Those of the starts on the side of an end on which this one is.
pub(crate) fn narrowed(starts: Starts, start: u64, end: u64) -> Starts
    ensures from { starts.from ≤ result.from }
    ensures until { result.until ≤ starts.until }
    ensures least { starts.from ≤ start → result.from ≤ start }
    ensures most { start < starts.until → start < result.until }
    ensures below { end ≤ start → end ≤ result.from }
    ensures above { start < end → result.until ≤ end }
{
    if end <= start {
        Starts {
            from: starts.from.max(end),
            until: starts.until,
        }
    } else {
        Starts {
            from: starts.from,
            until: starts.until.min(end),
        }
    }
}

// ---- gifts

/// Whether it is known what a node gives.
pub(crate) fn is_known(gifts: &Gifts, node: u32) -> bool
    ensures { result ≡ is_known gifts.now.known.items node }
{
    match gifts.known.get(node as usize) {
        Some(known) => known.is_some(),
        None => false,
    }
}

/// By how many of its ports a node is known to give something for `m` endpoints, or 0.
pub(crate) fn known_at(gifts: &Gifts, node: u32, m: u8) -> u8
    ensures { result ≡ known_at gifts.now.known.items node m }
{
    match gifts.known.get(node as usize) {
        Some(Some(gift)) => told_by(gift, m),
        _ => 0,
    }
}

/// What a gift has for a number of endpoints.
fn told_by(gift: &Gift, m: u8) -> u8
    ensures { result ≡ told_by gift.now m }
{
    match m {
        1 => gift.one,
        2 => gift.two,
        4 => gift.four,
        8 => gift.eight,
        16 => gift.sixteen,
        _ => 0,
    }
}

/// Notes what a node gives of which nothing was known.
pub(crate) fn note(gifts: &mut Gifts, node: u32, gift: Gift)
    requires here { node < length gifts.old.known.items }
    ensures gifts { (s : System) (want : Want) → AreGifts s want gifts.old
        → ((w : WindowFields) (start : ℕ) → IsAsked want gifts.old w start → IsGift gift (used s want w start node))
        → (is_endpoint_at s.nodes node ≡ false → AreChildrenKnown s gifts.old.known.items node)
        → AreGifts s want gifts.new }
    ensures asked { (want : Want) (w : WindowFields) (start : ℕ) → IsAsked want gifts.old w start
        → IsAsked want gifts.new w start }
    ensures kept { (n : ℕ) → is_known gifts.old.known.items n ≡ true → is_known gifts.new.known.items n ≡ true }
    ensures here { is_known gifts.new.known.items node ≡ true }
{
    gifts.known[node as usize] = Some(gift);
}
