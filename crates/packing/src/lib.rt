// Packing: which prefixes go on one page, and how many pages and roots a band has. The scans go over the prefixes that a band's out-links
// lead to: ascending numbers, whose last four bits are the band's. A page of the band holds the subtries above a run of them, and a
// subtrie ends where neighbours differ before the last four bits.
#![tactic(auto)]

ghost use Rattle.std.specs.Prelude.{◌≡◌, ◌<◌, ◌≤◌, length};
ghost use Rattle.format.specs.Writer.{ascending};
ghost use Rattle.packing.specs.Run.{differ, more_nodes, joined, Prefixes, PageIs, BandCounted};

// The end of a page's run of prefixes, and the page's nodes.
#[derive(Debug, Clone, Copy, PartialEq, Eq)]
pub struct PageRun {
    pub end: usize,
    pub nodes: usize,
}

// The pages begun, and the nodes on the last of them.
#[derive(Clone, Copy)]
struct Packing {
    pages: usize,
    used: usize,
}

// The pages and the roots of a band.
#[derive(Debug, Clone, Copy, PartialEq, Eq)]
pub struct BandCounts {
    pub pages: u16,
    pub roots: u16,
}

// 1 for two numbers that differ, else 0.
#[tactic(auto, unfolding(crate::specs::Run::differ))]
fn differs(x: u32, y: u32) -> usize
    ensures { (result ≡ differ x y) × (result ≤ 1) }
{
    usize::from(x != y)
}

// How many nodes a prefix adds to the subtrie of the prefix before it: one for each level where it leaves that one's node.
#[tactic(auto, unfolding(crate::specs::Run::more_nodes))]
fn more_nodes(x: u32, y: u32) -> usize
    ensures { (result ≡ more_nodes x y) × (result ≤ 3) }
{
    differs(x / 8, y / 8) + differs(x / 4, y / 4) + differs(x / 2, y / 2)
}

// Question 15. It reads all keys, with no way out of the loop, so that several are compared at a time.
pub fn is_ascending(keys: &[u32]) -> bool
    ensures { result ≡ ascending keys.now }
{
    let mut all = true;
    for pair in keys.windows(2) {
        all &= pair[0] < pair[1];
    }
    all
}

impl Packing {
    // A subtrie joins the open page if the page then has at most 240 nodes, whatever a larger one would have needed; else it starts a page.
    #[tactic(auto, unfolding(crate::specs::Run::joined))]
    fn join(self, size: usize) -> Packing
        requires { (self.pages ≤ 4096) × (self.used ≤ 240) × (size ≤ 15) }
        ensures { result ≡ joined self size }
    {
        if self.used + size <= 240 {
            Packing {
                pages: self.pages,
                used: self.used + size,
            }
        } else {
            Packing {
                pages: self.pages + 1,
                used: size,
            }
        }
    }
}

// Counts the pages and the roots of the band above the prefixes, and puts the prefixes of its roots in their first places.
pub fn count_band(keys: &mut [u32]) -> BandCounts
    requires { Prefixes keys.old }
    ensures { BandCounted keys.old result keys.new }
{
    if keys.is_empty() {
        return BandCounts { pages: 0, roots: 0 };
    }
    let mut x = keys[0];
    let mut root = x / 16;
    keys[0] = root;
    let mut roots = 1;
    let mut packing = Packing { pages: 1, used: 0 };
    let mut size = 4;
    for i in 1..keys.len() {
        let y = keys[i];
        if root == y / 16 {
            size += more_nodes(x, y);
        } else {
            root = y / 16;
            packing = packing.join(size);
            size = 4;
            keys[roots] = root;
            roots += 1;
        }
        x = y;
    }
    packing = packing.join(size);
    BandCounts {
        pages: packing.pages as u16,
        roots: roots as u16,
    }
}

// The run of prefixes of the first page above the prefixes.
pub fn page_run(keys: &[u32]) -> PageRun
    requires { Prefixes keys.now × (0 < length keys.now) }
    ensures { PageIs keys.now result }
{
    let mut used = 0;
    let mut size = 4;
    let mut start = 0;
    for i in 1..keys.len() {
        let x = keys[i - 1];
        let y = keys[i];
        if x / 16 == y / 16 {
            size += more_nodes(x, y);
        } else {
            if 240 < used + size {
                return PageRun {
                    end: start,
                    nodes: used,
                };
            }
            used += size;
            size = 4;
            start = i;
        }
    }
    if 240 < used + size {
        PageRun {
            end: start,
            nodes: used,
        }
    } else {
        PageRun {
            end: keys.len(),
            nodes: used + size,
        }
    }
}
