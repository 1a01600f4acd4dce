// The roots of a page, from its nodes alone: a search between bounds for the only number with which 9 to 11 can get a yes.
ghost use Rattle.std.specs.Prelude.{MatchOption, ◌≤◌};
ghost use Rattle.nodes.specs.Words.{Gathered, pairs_in};
ghost use Rattle.repair.specs.Inner.{EmptyAfter, FoundRoots, LevelsOf, NodesEnd, OnlyRoots};

use checker::page::{fourth_level, third_level};
use nodes::Words;

// How many nodes of `w`, the last 32 of them, stand after its last that is not 00.
fn empty_after(w: u64) -> usize
    ensures { EmptyAfter w result }
{
    (u64::trailing_zeros(w) as usize) / 2
}

// The place after the last node that is not 00, 0 where all are.
fn nodes_end(words: &Words) -> usize
    ensures { NodesEnd (pairs_in words.now.word) result }
{
    for j in (1..8).rev() {
        if words.word[j] != 0 {
            return 16 + 32 * j - empty_after(words.word[j]);
        }
    }
    let empty = empty_after(words.word[0]);
    if 16 < empty {
        return 0;
    }
    16 - empty
}

// A guess at the roots of a page of `nodes` nodes, where a page of `per` nodes has or would have `of`: between the bounds.
fn share(low: usize, high: usize, nodes: usize, of: usize, per: usize) -> usize
    requires { (low ≤ high) × (nodes ≤ 240) × (of ≤ 60) × (per ≤ 540) }
    ensures { (low ≤ result) × (result ≤ high) }
{
    // Most pages are as full as the one before.
    if nodes == per {
        return of.clamp(low, high);
    }
    if per == 0 {
        return low;
    }
    ((nodes * of + per / 2) / per).clamp(low, high)
}

// Where the levels of a page of so many roots start, from its words, and where the page ends: after its last node, or somewhere past the page.
#[derive(Clone, Copy, Debug, PartialEq, Eq)]
pub struct Levels {
    pub third: usize,
    pub fourth: usize,
    pub end: usize,
}

fn levels_of(words: &Words, roots: usize) -> Levels
    requires { (Gathered words.now.word words.now.before) × (1 ≤ roots) × (roots ≤ 60) }
    ensures { LevelsOf words.now.word words.now.before roots result }
{
    let third = third_level(words, roots);
    let fourth = fourth_level(words, roots, third);
    let mut end = fourth + fourth / 4;
    if fourth <= 240 {
        end = roots + words.on_bits_before(fourth);
    }
    Levels { third, fourth, end }
}

// The only number of roots that a page can have, and where its third and fourth level then start and its nodes end.
#[derive(Clone, Copy, Debug, PartialEq, Eq)]
pub struct Found {
    pub roots: usize,
    pub third: usize,
    pub fourth: usize,
    pub end: usize,
}

// Of the page of these words. More roots end further on: with a number that ends before the last node it has more roots, and with one that ends after
// it fewer. The search starts from `of` roots in `per` nodes, as in the page before. It is no search by halves, as the library has: a guess by the last
// number's nodes is right at once in most pages.
pub(crate) fn only_roots(words: &Words, of: usize, per: usize) -> Option<Found>
    requires { (Gathered words.now.word words.now.before) × (of ≤ 60) × (per ≤ 241) }
    ensures { MatchOption result (OnlyRoots (pairs_in words.now.word) 0) (FoundRoots words.now.word words.now.before) }
{
    let nodes = nodes_end(words);
    let mut known = of;
    let mut known_end = per;
    let mut low = 1;
    let mut high = 60;
    while low <= high {
        let roots = share(low, high, nodes, known, known_end);
        let levels = levels_of(words, roots);
        let end = levels.end;
        if end == nodes {
            return Some(Found {
                roots,
                third: levels.third,
                fourth: levels.fourth,
                end,
            });
        }
        known = roots;
        known_end = end;
        if end < nodes {
            low = roots + 1;
        } else {
            high = roots - 1;
        }
    }
    None
}
