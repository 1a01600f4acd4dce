// The out-links of a page left of a place, counted one by one: the page's subtries are read node by node, left to right, each level from its own start.
use crate::plain::Page;

// How far a page is read: the next node of each level, counted in the page, and the out-links that were counted.
#[derive(Clone, Copy)]
pub struct Reading<'a> {
    page: Page<'a>,
    next: [usize; 4],
    links: usize,
}

impl<'a> Reading<'a> {
    // The next node of a level, which is then passed.
    fn pass(&mut self, level: usize) -> usize {
        match self.next.get_mut(level) {
            Some(next) => {
                let node = *next;
                *next = node.saturating_add(1);
                node
            }
            None => 0,
        }
    }

    // The next node of a level, and what lies under it. `path` is the bits that lead to the node in its subtrie. The on bits of the fourth level are
    // out-links, of which those count whose path, a number of four bits, is below `end`.
    fn read(&mut self, level: usize, path: usize, end: usize) {
        let node = self.pass(level);
        for side in 0..2 {
            let under = 2 * (path % 8) + side;
            if self.page.is_on(node, side) {
                if level < 3 {
                    self.read(level + 1, under, end);
                } else if under < end {
                    self.links = self.links.saturating_add(1);
                }
            }
        }
    }
}

// How many of a page's out-links lie in the subtries before a root, counted in the page, or in the root's own at a path below `end`. The levels start at these nodes.
pub fn links_left(page: Page, starts: [usize; 5], root: usize, end: usize) -> usize {
    let mut reading = Reading {
        page,
        next: [starts[0], starts[1], starts[2], starts[3]],
        links: 0,
    };
    for _ in 0..root {
        reading.read(0, 0, 16);
    }
    reading.read(0, 0, end);
    reading.links
}
