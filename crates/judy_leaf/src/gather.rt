//! Reads entries out of a leaf.
ghost use Rattle.std.specs.Prelude.{◌≡◌, ◌+◌, ◌≤◌, length, take, drop, map};
ghost use Rattle.judy_leaf.specs.Views.{of_leaf};

use crate::opened::Opened;

/// Copies keys and values out of a leaf, from the entry at place `from` on.
pub(crate) fn gather(leaf: Opened<'_>, from: u64, keys: &mut [u64], vals: &mut [u64])
    requires same { length vals.old ≡ length keys.old }
    requires within { from + length keys.old ≤ length (of_leaf leaf) }
    ensures keys { keys.new ≡ map (λ e. e.0) (take (length keys.old) (drop from (of_leaf leaf.entry))) }
    ensures values { vals.new ≡ map (λ e. e.1)
        (take (length keys.old) (drop from (of_leaf leaf.entry))) }
{
    for i in 0..keys.len() {
        let place = from + i as u64;
        let (key, value) = leaf.entry_at(place);
        keys[i] = key;
        vals[i] = value;
    }
}
