//! The maps of a window, with zeros where it has fewer than four.

ghost use Rattle.std.specs.Prelude.{◌≡◌, ◌≤◌, ◌-◌, ◌++◌, length, take, replicate};

/// The first `bits` maps, or fewer where there are no more, and zeros behind them.
pub(crate) fn padded_maps(maps: &[u64], bits: u8) -> [u64; 4]
    requires { bits ≤ 4 }
    ensures { result ≡ take bits maps.now ++ replicate (4 - length (take bits maps.now)) 0 }
{
    let used = &maps[..maps.len().min(usize::from(bits))];
    let mut padded = [0; 4];
    padded[..used.len()].copy_from_slice(used);
    padded
}
