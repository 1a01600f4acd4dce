// Whether an accepted image agrees in the kept bytes, and the numbers of that image: one pass over the pages.
ghost use Rattle.std.specs.Prelude.{◌≡◌, MatchOption, ◌+◌, ◌≤◌, length, replicate};
ghost use Rattle.format.specs.Page.{pairs_at};
ghost use Rattle.repair.specs.Repair.{is_repairable};
ghost use Rattle.repair.specs.Sound.{Sound, header_kept};
ghost use Rattle.repair.specs.Inner.{PageHeld, BandReady, SoundBand, Judged, roots_after};

use crate::roots::only_roots;
use checker::needed::page_needed;
use format::{OutLink, Root, cross};
use header::{lift_right, mark_right, page_count, total_pages, version_known, zeros_right};

// What is held in a page that 9 to 12 give a yes with some number of roots: that number, its nodes and its out-links.
#[derive(Clone, Copy, Debug, PartialEq, Eq)]
pub struct Held {
    pub roots: usize,
    pub nodes: usize,
    pub links: usize,
}

// What is held in the page at `at`, after a page of `previous` nodes: 241 in a band's first page. The search for its roots starts from those of that page.
fn page_held(image: &[u8], at: usize, previous: usize, start: usize) -> Option<Held>
    requires { (at + 64 ≤ length image.now) × (previous ≤ 241) × (start ≤ 60) }
    ensures { MatchOption result (roots_after (pairs_at image.now at) previous ≡ 0) (PageHeld (pairs_at image.now at) previous) }
{
    let words = nodes::gather(image, at);
    let found = only_roots(&words, start, previous)?;
    let roots = found.roots;
    let end = found.end;
    if !words.none_empty(end) {
        return None;
    }
    if !page_needed(&words, roots, found.third, found.fourth, previous) {
        return None;
    }
    // Every on bit leads to a node of the page that is no root, but for the out-links.
    let links = words.on_bits() - (end - roots);
    Some(Held {
        roots,
        nodes: end,
        links,
    })
}

// What is held in a band: the root after its last and the out-link after its last.
#[derive(Clone, Copy, Debug, PartialEq, Eq)]
pub struct Sums {
    pub roots: Root,
    pub links: OutLink,
}

// A number of at most 16 bits.
fn narrow(x: usize) -> u16
    requires { x ≤ 65535 }
    ensures { result ≡ x }
{
    x as u16
}

// Judges the pages of band `band`, the first of which is page `first` of the image, and notes the T and B of page p at place p - 1. No band of an
// accepted image has more than 4,096 out-links.
fn judge_band(
    image: &[u8],
    band: usize,
    first: usize,
    t: &mut [u16; 384],
    b: &mut [u16; 384],
) -> Option<Sums>
    requires { BandReady image.now band first t.old b.old }
    ensures { MatchOption result (Sound image.now → ⊥) (SoundBand image.now band first t.new b.new) }
{
    let mut roots = Root(0);
    let mut links = OutLink(0);
    let mut nodes = 241;
    let mut per_page = 60;
    for i in 0..page_count(image, band) {
        let before = first + i - 1;
        let held = page_held(image, 64 * (first + i), nodes, per_page)?;
        t[before] = narrow(roots.0);
        b[before] = narrow(links.0);
        roots = Root(roots.0 + held.roots);
        links = OutLink(links.0 + held.links);
        if 4096 < links.0 {
            return None;
        }
        nodes = held.nodes;
        per_page = held.roots;
    }
    Some(Sums { roots, links })
}

// Whether 1, 2, 3, 5, 35 and 6, which ask of kept bytes alone, get a yes.
fn header_kept(image: &[u8]) -> bool
    ensures { result ≡ header_kept image.now }
{
    if image.len() < 64 {
        return false;
    }
    if !mark_right(image) {
        return false;
    }
    if !version_known(image) {
        return false;
    }
    if !zeros_right(image) {
        return false;
    }
    if !lift_right(image) {
        return false;
    }
    image.len() == 64 * (1 + total_pages(image))
}

// Whether 37 gets a yes, and then the numbers: the header's in `counts`, key count first, and each page's in `t` and `b`. No accepted image has more
// than 384 pages; one without pages has no number but 0.
pub(crate) fn judge(
    image: &[u8],
    counts: &mut [u16; 9],
    t: &mut [u16; 384],
    b: &mut [u16; 384],
) -> bool
    requires { (counts.old ≡ replicate 9 0) × (length t.old ≡ 384) × (length b.old ≡ 384) }
    ensures { Judged image.now counts.new t.new b.new result }
{
    if !header_kept(image) {
        return false;
    }
    let all = total_pages(image);
    if all == 0 {
        return true;
    }
    if 384 < all {
        return false;
    }
    let mut due = Root(1);
    let mut first = 1;
    for passed in 0..8 {
        let band = passed + 1;
        let Some(sums) = judge_band(image, band, first, t, b) else {
            return false;
        };
        if sums.roots.0 != due.0 {
            return false;
        }
        counts[band] = narrow(sums.roots.0);
        due = cross(sums.links);
        first += page_count(image, band);
    }
    counts[0] = narrow(due.0);
    true
}
