// The page writer: the bytes of one page, from the run of prefixes that packing puts on it. The nodes are filled in from the last to the
// first: the level above a list of ascending prefixes, read from the end, and then the level above their parents, which have taken the
// prefixes' last places.
#![tactic(auto)]

ghost use Rattle.std.specs.Prelude.{◌≡◌, ◌++◌, ◌+◌, ◌/◌, ◌≤◌, ◌<◌, length, take, drop, replicate};
ghost use Rattle.format.specs.Page.{two_bytes};
ghost use Rattle.page_writer.specs.Page.{bit_in, page_left, byte_left, LevelRoom, LevelDone, LevelsRoom, LevelsDone, PageRoom, PageDone};

use format::{OutLink, Root};

// Paper 01's T and B of a page: the numbers of its first root and its first out-link.
#[derive(Debug, Clone, Copy, PartialEq, Eq)]
pub struct Head {
    pub t: Root,
    pub b: OutLink,
}

// The place of the first parent among the prefixes, and the level's first node.
#[derive(Clone, Copy)]
struct Level {
    first: usize,
    node: usize,
}

// Two bytes, the higher first.
pub fn put_number(out: &mut [u8], at: usize, x: u16)
    requires { at + 2 ≤ length out.old }
    ensures { out.new ≡ take at out.old ++ (two_bytes x ++ drop (at + 2) out.old) }
{
    out[at..at + 2].copy_from_slice(&x.to_be_bytes());
}

// `n` bytes of zeros.
pub fn clear(out: &mut [u8], at: usize, n: usize)
    requires { at + n ≤ length out.old }
    ensures { out.new ≡ take at out.old ++ (replicate n 0 ++ drop (at + n) out.old) }
{
    out[at..at + n].fill(0);
}

// The bit that a prefix turns on in node `n`, as it stands in the node's byte.
#[tactic(auto, using(crate::proofs::Nodes::bit_place))]
fn bit_in(n: usize, x: u32) -> u8
    ensures { result ≡ bit_in n x }
{
    128 >> (2 * (n % 4) + ((x % 2) as usize))
}

// Leaves node `n` for the one before it: stores the byte if that one is in another; returns what the byte of that one holds.
#[tactic(auto, unfolding(crate::specs::Page::page_left, crate::specs::Page::byte_left))]
fn leave(page: &mut [u8], n: usize, byte: u8) -> u8
    requires { 4 + n / 4 < length page.old }
    ensures { (result ≡ byte_left n byte) × (page.new ≡ page_left page.old n byte) }
{
    if n % 4 == 0 {
        page[4 + n / 4] = byte;
        return 0;
    }
    byte
}

// Fills in the level above the prefixes from `from` on, its last node before `end`, and puts their parents in the last places. A prefix
// with the parent of the one after it is even and that one odd, so that its bit is twice the bit of that one.
#[tactic(auto, using(crate::proofs::Levels::end_some, crate::proofs::Levels::start_small, crate::proofs::Levels::node_some, crate::proofs::Levels::other_small, crate::proofs::Marks::other_parent))]
fn fill_level(page: &mut [u8], keys: &mut [u32], from: usize, end: usize) -> Level
    requires { LevelRoom page.old keys.old from end }
    ensures { LevelDone page.old keys.old from end page.new keys.new result }
{
    let mut first = keys.len() - 1;
    let last = keys[first];
    let mut parent = last / 2;
    keys[first] = parent;
    let mut node = end - 1;
    let mut bit = bit_in(node, last);
    let mut byte = page[4 + node / 4] + bit;
    for i in (from..first).rev() {
        let x = keys[i];
        if x / 2 == parent {
            byte += 2 * bit;
        } else {
            byte = leave(page, node, byte);
            node -= 1;
            bit = bit_in(node, x);
            byte += bit;
            first -= 1;
            parent = x / 2;
            keys[first] = parent;
        }
    }
    page[4 + node / 4] = byte;
    Level { first, node }
}

// Writes T and B, and nodes that are 00.
fn begin_page(page: &mut [u8], head: Head)
    requires { (64 ≤ length page.old) × (head.t.0 < 65536) × (head.b.0 < 65536) }
    ensures { page.new ≡ two_bytes head.t.0 ++ (two_bytes head.b.0 ++ (replicate 60 0 ++ drop 64 page.old)) }
{
    put_number(page, 0, head.t.0 as u16);
    put_number(page, 2, head.b.0 as u16);
    clear(page, 4, 60);
}

// Fills in the four levels above a run of prefixes, `count` nodes, and puts the prefixes of their roots in the last places; returns the
// place of the first of these, and the first node of the fourth level.
fn fill_levels(page: &mut [u8], keys: &mut [u32], count: usize) -> Level
    requires { LevelsRoom page.old keys.old count }
    ensures { LevelsDone page.old keys.old count page.new keys.new result }
{
    let fourth = fill_level(page, keys, 0, count);
    let third = fill_level(page, keys, fourth.first, fourth.node);
    let second = fill_level(page, keys, third.first, third.node);
    let first = fill_level(page, keys, second.first, second.node);
    Level {
        first: first.first,
        node: fourth.node,
    }
}

// Fills the page of `count` nodes above a run of prefixes in the first 64 bytes, and puts the prefixes of its roots in the last places;
// returns the T and B of the next page.
pub fn fill_page(page: &mut [u8], keys: &mut [u32], count: usize, head: Head) -> Head
    requires { PageRoom page.old keys.old count head }
    ensures { PageDone page.old keys.old head page.new keys.new result }
{
    begin_page(page, head);
    let levels = fill_levels(page, keys, count);
    let roots = keys.len() - levels.first;
    let words = nodes::gather(page, 0);
    let links = words.on_bits() - words.on_bits_before(levels.node);
    Head {
        t: Root(head.t.0 + roots),
        b: OutLink(head.b.0 + links),
    }
}
