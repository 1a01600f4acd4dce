// The levels of a subtrie: where they start in a page, and their bits.
ghost use Rattle.std.specs.Prelude.{◌≡◌, ◌/◌, ◌%◌, ◌^◌, ◌≤◌, ◌<◌, length};
ghost use Rattle.std.specs.Int.Count.{ones};
ghost use Rattle.reader.specs.Page.{node_of};
ghost use Rattle.subtries.specs.Subtrie.{bits_after, path_set, place_after, start_in, StartsRight};

use crate::word::top;
use nodes::Words;
use reader::read_nodes;

// Node `at` of a page.
pub fn node(page: &[u8], at: usize) -> u32
    requires { (length page.now ≡ 64) × (at < 240) }
    ensures { (result ≡ node_of page.now at) × (result < 4) }
{
    top(read_nodes(page, at, 1))
}

// The on bits of a node.
pub fn on_bits(node: u32) -> usize
    requires { node < 4 }
    ensures { (result ≡ ones node) × (result ≤ 2) }
{
    (node / 2 + node % 2) as usize
}

// The out-links of a subtrie that is a single path: the two bits of its fourth node, at the ending to which the nodes above lead.
pub fn path_set(one: u32, two: u32, three: u32, four: u32) -> u32
    requires { four < 4 }
    ensures { result ≡ path_set one two three four }
{
    let place = 4 * (one % 2) + 2 * (two % 2) + three % 2;
    four << (14 - 2 * place)
}

// A level of a subtrie: the bits of its nodes, and the place after them.
#[derive(Clone, Copy, Debug, PartialEq, Eq)]
pub struct Level {
    pub bits: u32,
    pub place: usize,
}

// Bit `n` of a set.
fn bit(set: u32, n: usize) -> u32
    requires { n < 32 }
    ensures { (result ≡ set / 2 ^ n % 2) × (result ≤ 1) }
{
    (set >> n) % 2
}

// The next level of a subtrie, read from a word of nodes without branches. Under each on bit of `set`, `width` bits with the first the highest, stands the
// next node from `place` on: the nodes' bits in order, 00 under an off bit.
pub fn next_level(page: &[u8], place: usize, set: u32, width: usize) -> Level
    requires { (length page.now ≡ 64) × (place < 240) × (1 ≤ width) × (width ≤ 8) × (place_after set width place width ≤ 240) }
    ensures { (result.bits ≡ bits_after page.now set width place width) × (result.bits < 65536) × (result.place ≡ place_after set width place width) }
{
    let mut nodes = read_nodes(page, place, 8);
    let mut bits = 0u32;
    let mut at = place;
    for passed in 0..width {
        let on = bit(set, width - 1 - passed);
        bits = 4 * bits + on * top(nodes);
        nodes = nodes << (2 * on);
        at += on as usize;
    }
    Level { bits, place: at }
}

// Where the levels of a subtrie after its root start in the page, and where its out-links start past the page's nodes.
#[derive(Clone, Copy, Debug, PartialEq, Eq)]
pub struct Starts {
    pub second: usize,
    pub third: usize,
    pub fourth: usize,
    pub past: usize,
}

// The starts of the subtrie whose root stands at place `first`.
pub fn level_starts(words: &Words, roots: usize, first: usize) -> Starts
    requires { (roots ≤ 60) × (first ≤ 240) × (start_in words.now.word words.now.before roots first 1 ≤ 240) × (start_in words.now.word words.now.before roots first 2 ≤ 240) × (start_in words.now.word words.now.before roots first 3 ≤ 240) }
    ensures { StartsRight words.now.word words.now.before roots first result.second result.third result.fourth result.past }
{
    let second = roots + words.on_bits_before(first);
    let third = roots + words.on_bits_before(second);
    let fourth = roots + words.on_bits_before(third);
    Starts {
        second,
        third,
        fourth,
        past: roots + words.on_bits_before(fourth),
    }
}
