// A word that starts with nodes of a page: the node in its highest bits, and on bits.
ghost use Rattle.std.specs.Prelude.{◌≡◌, ◌+◌, ◌/◌, ◌^◌, ◌≤◌, ◌<◌, length};
ghost use Rattle.subtries.specs.OnBits.{on_bits_from};

use nodes::ones_in;
use reader::read_nodes;

// The node in the highest two bits.
pub fn top(nodes: u64) -> u32
    ensures { (result ≡ nodes / 2 ^ 62) × (result < 4) }
{
    (nodes >> 62) as u32
}

// The on bits of `n` nodes from node `from` on, 28 nodes at a time. No `for`: how many turns there are would take a division, and the last is a short one.
pub fn on_bits_from(page: &[u8], from: usize, n: usize) -> usize
    requires { (length page.now ≡ 64) × (from < 240) × (from + n ≤ 240) }
    ensures { (result ≡ on_bits_from page.now from n) × (result ≤ 480) }
{
    let mut sum = 0;
    let mut at = from;
    let mut left = n;
    while 28 < left {
        sum += ones_in(read_nodes(page, at, 28) >> 8);
        at += 28;
        left -= 28;
    }
    sum + ones_in((read_nodes(page, at, 28) >> 1) >> (63 - 2 * left))
}
