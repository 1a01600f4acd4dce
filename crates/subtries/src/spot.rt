// Where the reading of a band stands: at a root, with the places where its subtrie's levels start.
ghost use Rattle.std.specs.Prelude.{◌≡◌, ◌≤◌, ◌<◌};
ghost use Rattle.format.specs.Image.{root_count};
ghost use Rattle.pages.specs.Page.{Ready, BandRead};
ghost use Rattle.subtries.specs.Spot.{SpotAt, Standing, root_prefix};
ghost use Rattle.subtries.specs.Subtrie.{SubtrieRead};

use crate::Subtrie;
use crate::level::{level_starts, next_level, node, on_bits, path_set};
use crate::word::on_bits_from;
use format::{OutLink, Root};
use nodes::ones_in;
use pages::Band;

// A root, the first root after its page, where the page starts in the image, where the levels of the root's subtrie start in the page, and the root's
// first out-link. No reading stands where the root is not before the end.
#[derive(Clone, Copy, Debug, PartialEq, Eq)]
pub struct Spot {
    pub root: Root,
    pub end: Root,
    pub at: usize,
    pub first: usize,
    pub second: usize,
    pub third: usize,
    pub fourth: usize,
    pub link: OutLink,
}

// The spot of a band that has not been read.
pub const NO_SPOT: Spot = Spot {
    root: Root(0),
    end: Root(0),
    at: 0,
    first: 0,
    second: 0,
    third: 0,
    fourth: 0,
    link: OutLink(0),
};

impl Spot {
    // The spot of a root, whose page is tried first at index `hint`.
    fn of_root(image: &[u8], band: Band, root: Root, hint: usize) -> Spot
        requires { (Ready image.now) × (BandRead image.now band) × (root.0 < root_count image.now band.number) }
        ensures { (SpotAt image.now band.number result) × (result.root.0 ≡ root.0) }
    {
        let page = band.page_near(image, root, hint);
        let first = root.0 - page.t.0;
        let start = level_starts(&page.words, page.roots, first);
        Spot {
            root,
            end: Root(page.t.0 + page.roots),
            at: 64 * page.number,
            first,
            second: start.second,
            third: start.third,
            fourth: start.fourth,
            link: OutLink(page.b.0 + (start.past - page.nodes)),
        }
    }

    // The spot of a later root of the page: on each level the nodes of the roots between are skipped, and their on bits are the nodes to skip on the next.
    fn skip(self, image: &[u8], number: usize, root: Root) -> Spot
        requires { (Ready image.now) × (1 ≤ number) × (number ≤ 8) × (SpotAt image.now number self) × (self.root.0 ≤ root.0) × (root.0 < self.end.0) }
        ensures { (SpotAt image.now number result) × (result.root.0 ≡ root.0) }
    {
        let bytes = &image[self.at..self.at + 64];
        let one = root.0 - self.root.0;
        let two = on_bits_from(bytes, self.first, one);
        let three = on_bits_from(bytes, self.second, two);
        let four = on_bits_from(bytes, self.third, three);
        let out = on_bits_from(bytes, self.fourth, four);
        Spot {
            root,
            end: self.end,
            at: self.at,
            first: self.first + one,
            second: self.second + two,
            third: self.third + three,
            fourth: self.fourth + four,
            link: OutLink(self.link.0 + out),
        }
    }

    // Moves to the spot of a root: from this one if that is before it in its page. Else that page is tried first, since a walk often stays in a page.
    pub(crate) fn seek(&mut self, image: &[u8], number: usize, root: Root)
        requires { (Ready image.now) × (1 ≤ number) × (number ≤ 8) × (root.0 < root_count image.now number) × (Standing image.now number self.old) }
        ensures { (SpotAt image.now number self.new) × (self.new.root.0 ≡ root.0) }
    {
        if self.root.0 < root.0 && root.0 < self.end.0 {
            *self = self.skip(image, number, root);
            return;
        }
        let first = header::first_page(image, number);
        let band = Band::read(image, number, first);
        *self = Spot::of_root(image, band, root, (self.at / 64).saturating_sub(first));
    }

    // Reads the subtrie at the spot and moves the spot on. Most subtries are a single path: no node of the first three levels has both bits, so that each
    // level has one node. What both ways change is stored before they part: fewer numbers are then kept in registers.
    pub(crate) fn advance(&mut self, image: &[u8], number: usize) -> Subtrie
        requires { (Ready image.now) × (1 ≤ number) × (number ≤ 8) × (SpotAt image.now number self.old) }
        ensures { (SubtrieRead image.now number (root_prefix image.now number self.old.root.0) result.set result.link.0) × (Standing image.now number self.new) }
    {
        let bytes = &image[self.at..self.at + 64];
        let one = node(bytes, self.first);
        let two = node(bytes, self.second);
        let three = node(bytes, self.third);
        let link = self.link;
        self.root = Root(self.root.0 + 1);
        self.first += 1;
        if one != 3 && two != 3 && three != 3 {
            let four = node(bytes, self.fourth);
            self.second += 1;
            self.third += 1;
            self.fourth += 1;
            self.link = OutLink(link.0 + on_bits(four));
            return Subtrie {
                set: path_set(one, two, three, four),
                link,
            };
        }
        let two = next_level(bytes, self.second, one, 2);
        let four = next_level(bytes, self.third, two.bits, 4);
        let last = next_level(bytes, self.fourth, four.bits, 8);
        self.second = two.place;
        self.third = four.place;
        self.fourth = last.place;
        self.link = OutLink(link.0 + ones_in(u64::from(last.bits)));
        Subtrie {
            set: last.bits,
            link,
        }
    }
}
