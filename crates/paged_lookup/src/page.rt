// The way of a key in one page.
ghost use Rattle.std.specs.Prelude.{◌≡◌, true, not, cond, ◌&&◌, ◌+◌, ◌-◌, ◌*◌, ◌≤◌, ◌<◌, length};
ghost use Rattle.format.specs.Key.{key_bit};
ghost use Rattle.format.specs.Trie.{bit};
ghost use Rattle.format.specs.Page.{levels_in, number_at, pairs_at};
ghost use Rattle.format.specs.Question.{is_zero, node_questions, returns, settle};
ghost use Rattle.nodes.specs.Words.{node_in, pairs_in};
ghost use Rattle.pages.specs.Page.{Ready, HeadRead, child_in};
ghost use Rattle.paged_lookup.specs.Paged;
ghost use Rattle.paged_lookup.specs.Way.{way_at, way_of, way_outcome, JudgedIn, NodeOn};

use crate::child::child_place;
use checker::page::{check_nodes, fourth_level, third_level};
use format::{OutLink, Refusal, Root};
use header::number;
use nodes::{Words, gather};
use pages::PageHead;

// Where a key's bits lead: to an out-link of the band; past an off bit to a figure, by the out-links of the band that lie left.
#[derive(Clone, Copy, Debug, PartialEq, Eq)]
pub enum Way {
    Out(OutLink),
    Off(OutLink),
}

impl Way {
    // Whether the number is below the out-links due; a figure may be equal to them.
    pub(crate) fn is_below(self, due: usize) -> bool
        ensures { result ≡ Paged.is_below due (way_of self) }
    {
        match self {
            Way::Out(link) => link.0 < due,
            Way::Off(figure) => figure.0 <= due,
        }
    }
}

// A page that 9 to 11 gave a yes: how many roots and nodes it has, and B, its first out-link.
#[derive(Clone, Copy, Debug, PartialEq, Eq)]
pub struct Judged {
    pub roots: usize,
    pub nodes: usize,
    pub b: OutLink,
}

// A place in a page, and whether all the key's bits so far were on: the place is then that of the key's node, else the nodes of the level before it lie left.
// No enum of two places: both are counted up to in one way, without a branch on the key's bits (`left_end`), which an enum would have to be matched for.
#[derive(Clone, Copy, Debug, PartialEq, Eq)]
pub struct Position {
    pub place: usize,
    pub on: bool,
}

// The bit of a key at a level counted from 0.
fn key_bit(key: u32, level: usize) -> usize
    requires { level < 32 }
    ensures { (result ≡ key_bit key level) × (result ≤ 1) }
{
    ((key >> (31 - level)) % 2) as usize
}

// A bit of a node: the first for side 0, the second for side 1.
fn bit_of(node: u64, side: usize) -> u64
    ensures { result ≡ bit side node }
{
    if 0 < side {
        return node % 2;
    }
    node / 2
}

// Whether the key's bit is on, and all its bits before were.
fn is_on(words: &Words, from: Position, side: usize) -> bool
    requires { from.on ≡ true → from.place < 240 }
    ensures { result ≡ (from.on && not (is_zero (bit side (node_in words.now.word from.place)))) }
{
    if from.on {
        return bit_of(words.node_at(from.place), side) != 0;
    }
    false
}

// Where the nodes under the on bits left of a key's way end on the next level, or past the fourth level among the out-links, counted on from the page's nodes: the roots, and
// the page's on bits before the key's bit, or past an off bit before the place. Without a branch on the side, since a key's bits cannot be foreseen.
fn left_end(words: &Words, roots: usize, from: Position, side: usize) -> usize
    requires { (from.place ≤ 240) × (from.on ≡ true → from.place < 240) × (roots ≤ 60) × (side ≤ 1) }
    ensures { (result ≡ child_in words.now.word words.now.before roots from.place (cond from.on side 0)) × (result < 65700) }
{
    let place = from.place;
    let left = roots + words.on_bits_before(place);
    if from.on {
        let first_bit = (words.node_at(place) / 2) as usize;
        return left + side * first_bit;
    }
    left
}

// One level down, where the key's bit is `side` and the level's last node stands before place `end`. On the page's first three levels, where `inner` is true, an on bit leads
// to its child; on the fourth it leads out of the page, to the out-link that paper 01 counts. Past an off bit the place is where the nodes or out-links that lie left end.
fn step(
    words: &Words,
    roots: usize,
    end: usize,
    from: Position,
    side: usize,
    inner: bool,
) -> Position
    requires { (from.place ≤ 240) × (from.on ≡ true → from.place < 240) × (inner ≡ true → from.on ≡ true → NodeOn words.now.word words.now.before roots end from.place) × (roots ≤ 60) × (side ≤ 1) }
    ensures { (result.place ≡ child_in words.now.word words.now.before roots from.place (cond from.on side 0)) × (result.place < 65700) × (result.on ≡ (from.on && not (is_zero (bit side (node_in words.now.word from.place))))) }
{
    let on = is_on(words, from, side);
    if on {
        if inner {
            return Position {
                place: child_place(words, roots, end, from.place, side),
                on,
            };
        }
    }
    Position {
        place: left_end(words, roots, from, side),
        on,
    }
}

// Follows a key's four bits from level `level` on, in a page's words, from the page's root `root`, counted from 0 in the page. Where `on` is false a bit was off
// above, and the roots before this one lie left.
fn follow(words: &Words, page: Judged, root: usize, on: bool, key: u32, level: usize) -> Way
    requires { (JudgedIn words.now.word words.now.before page) × (root < page.roots) × (level + 4 ≤ 32) × (page.b.0 < 65536) }
    ensures { way_of result ≡ Paged.renumbered (page.b.0 +◌) (Paged.follow key level (levels_in 4 page.roots (pairs_in words.now.word)) (way_at on root)) }
{
    let mut at = Position { place: root, on };
    let mut end = page.roots;
    for passed in 0..4 {
        let side = key_bit(key, level + passed);
        at = step(words, page.roots, end, at, side, passed < 3);
        // the on bits up to here lead to the nodes of the next level and of those above it, but for the roots
        end = page.roots + words.on_bits_before(end);
    }
    // the fourth level's on bits are counted on from the page's nodes
    let link = OutLink(page.b.0 + (at.place - page.nodes));
    if at.on {
        return Way::Out(link);
    }
    Way::Off(link)
}

// Questions 10 and 11 of the page at `at` with so many roots, 9 having got a yes; then the way of a key's four bits from level `level` on, as `follow` says.
pub(crate) fn through_page(
    image: &[u8],
    at: usize,
    roots: usize,
    root: usize,
    on: bool,
    key: u32,
    level: usize,
) -> Result<Way, Refusal>
    requires { (at + 64 ≤ length image.now) × (1 ≤ roots) × (roots ≤ 60) × (root < roots) × (level + 4 ≤ 32) }
    ensures { way_outcome result ≡ settle (node_questions roots (pairs_at image.now at)) (Paged.renumbered (number_at image.now (at + 2) +◌) (Paged.follow key level (levels_in 4 roots (pairs_at image.now at)) (way_at on root))) }
{
    let words = gather(image, at);
    let third = third_level(&words, roots);
    let fourth = fourth_level(&words, roots, third);
    let shape = check_nodes(&words, roots, fourth)?;
    let page = Judged {
        roots,
        nodes: shape.nodes,
        b: OutLink(number(image, at + 2)),
    };
    Ok(follow(&words, page, root, on, key, level))
}

// The same in a page of an accepted image, which is not judged again: its nodes are counted by its out-links.
pub(crate) fn through_accepted_page(
    image: &[u8],
    head: PageHead,
    root: Root,
    on: bool,
    key: u32,
) -> Way
    requires { (Ready image.now) × (HeadRead image.now head) × (head.t.0 ≤ root.0) × (root.0 < head.t.0 + head.roots) }
    ensures { returns (way_of result) ≡ settle (node_questions head.roots (pairs_at image.now (64 * head.number))) (Paged.renumbered (number_at image.now (64 * head.number + 2) +◌) (Paged.follow key (4 * (head.band - 1)) (levels_in 4 head.roots (pairs_at image.now (64 * head.number))) (way_at on (root.0 - head.t.0)))) }
{
    let words = gather(image, 64 * head.number);
    let page = Judged {
        roots: head.roots,
        nodes: head.node_count(&words),
        b: head.b,
    };
    let level = 4 * (head.band - 1);
    follow(&words, page, root.0 - head.t.0, on, key, level)
}
