//! The first of two breaches: the least rule goes first, then the least node, then the least decoder.

ghost use Rattle.std.specs.Prelude.{ℕ, ◌+◌};
ghost use Rattle.cxl_check.specs.inner.Found.{Breaks, IsLeastBrokenAt, IsFoundWithin, IsFoundOfNode, IsFoundAmong};

use crate::fault::Breach;
use cxl_span::BlockBreach;

/// The first breach of a node's decoders up to this one, from that of the decoders before and the least rule that it
/// breaks itself.
pub(crate) fn earlier_in_node(
    first: Option<BlockBreach>,
    decoder: u8,
    rule: Option<u8>,
) -> Option<BlockBreach>
    ensures { (breaks : Breaks) (n : ℕ) → IsFoundWithin breaks n decoder first → IsLeastBrokenAt breaks n decoder rule
        → IsFoundWithin breaks n (decoder + 1) result }
{
    let Some(rule) = rule else {
        return first;
    };
    if let Some(breach) = first {
        if breach.rule <= rule {
            return first;
        }
    }
    Some(BlockBreach { rule, decoder })
}

/// The first breach of the nodes up to this one, from that of the nodes before and its own.
pub(crate) fn earlier_among_nodes(
    first: Option<Breach>,
    node: u32,
    found: Option<BlockBreach>,
) -> Option<Breach>
    ensures { (breaks : Breaks) → IsFoundAmong breaks node first → IsFoundOfNode breaks node found
        → IsFoundAmong breaks (node + 1) result }
{
    let Some(found) = found else {
        return first;
    };
    if let Some(breach) = first {
        if breach.rule <= found.rule {
            return first;
        }
    }
    Some(Breach {
        rule: found.rule,
        node,
        decoder: found.decoder,
    })
}
