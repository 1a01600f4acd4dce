// Bands and pages of an accepted image, read from its bytes.
#![tactic(auto)]

ghost use Rattle.std.specs.Prelude.{◌≡◌, ◌+◌, ◌-◌, ◌≤◌, ◌<◌, get_or};
ghost use Rattle.format.specs.Image.{page_number, page_count, root_count};
ghost use Rattle.format.specs.Question.{out_links_due};
ghost use Rattle.pages.specs.Page.{Ready, BandRead, HeadRead, PageRead, LastPage, head_at, offset_of, after_page};

use format::{OutLink, Root};
use nodes::{Words, gather};

// Which of the two numbers at a page's start: T, its first root, or B, its first out-link.
#[derive(Clone, Copy, Debug, PartialEq, Eq)]
enum Field {
    T,
    B,
}

impl Field {
    // How far from the page's start the number stands.
    fn offset(self) -> usize
        ensures { (result ≡ offset_of self) × (result ≤ 2) }
    {
        match self {
            Field::T => 0,
            Field::B => 2,
        }
    }
}

// A band: its number, from 1, the number of its first page, how many pages and roots it has.
#[derive(Clone, Copy, Debug, PartialEq, Eq)]
pub struct Band {
    pub number: usize,
    pub first: usize,
    pub pages: usize,
    pub roots: usize,
}

// A page: its band's number, its index in the band, its number in the image, T, B, how many roots and nodes it has, and its
// nodes gathered into words.
#[derive(Debug, PartialEq, Eq, Drop)]
pub struct Page {
    pub band: usize,
    pub index: usize,
    pub number: usize,
    pub t: Root,
    pub b: OutLink,
    pub roots: usize,
    pub nodes: usize,
    pub words: Words,
}

// A page without its nodes: its band's number, its index in the band, its number in the image, T, B, how many roots and out-links
// it has. The jobs that open each page once gather its nodes where they read them: a page with its words is a large copy.
#[derive(Clone, Copy, Debug, PartialEq, Eq)]
pub struct PageHead {
    pub band: usize,
    pub index: usize,
    pub number: usize,
    pub t: Root,
    pub b: OutLink,
    pub roots: usize,
    pub links: usize,
}

impl Band {
    // Band `number` of the image, whose first page has the number `first`.
    pub fn read(image: &[u8], number: usize, first: usize) -> Band
        requires { (Ready image.now) × (1 ≤ number) × (number ≤ 8) × (first ≡ page_number image.now number 0) }
        ensures { (BandRead image.now result) × (result.number ≡ number) }
    {
        Band {
            number,
            first,
            pages: header::page_count(image, number),
            roots: header::root_count(image, number),
        }
    }

    // T or B of page `index`.
    fn number_at(self, image: &[u8], field: Field, index: usize) -> usize
        requires { (Ready image.now) × (BandRead image.now self) × (index < page_count image.now self.number) }
        ensures { (result ≡ head_at image.now self.number (offset_of field) index) × (result < 65536) }
    {
        header::number(image, 64 * (self.first + index) + field.offset())
    }

    // The first root or out-link after page `index`: T or B of the next page, or after the last page the number of roots or out-links that the band has.
    // Question 13 ties that of the out-links to the count below.
    fn number_after(self, image: &[u8], field: Field, index: usize) -> usize
        requires { (Ready image.now) × (BandRead image.now self) × (index < page_count image.now self.number) }
        ensures { result ≡ after_page image.now self.number field index }
    {
        if index + 1 < self.pages {
            return self.number_at(image, field, index + 1);
        }
        match field {
            Field::T => self.roots,
            Field::B => header::links_due(image, self.number),
        }
    }

    // The last page whose T or B is at or below `x`, the number of a root or of an out-link. The first page's is.
    fn last_page(self, image: &[u8], field: Field, x: usize) -> usize
        requires { (Ready image.now) × (BandRead image.now self) × (head_at image.now self.number (offset_of field) 0 ≤ x) }
        ensures { LastPage image.now self.number (offset_of field) x result }
    {
        let start = 64 * self.first;
        let (pages, _) = image[start..start + 64 * self.pages].as_chunks::<64>();
        pages.partition_point(|page| header::number(page, field.offset()) <= x) - 1
    }

    // The head of page `index`.
    fn page_head(self, image: &[u8], index: usize) -> PageHead
        requires { (Ready image.now) × (BandRead image.now self) × (index < page_count image.now self.number) }
        ensures { (HeadRead image.now result) × (result.band ≡ self.number) × (result.index ≡ index) }
    {
        let t = self.number_at(image, Field::T, index);
        let b = self.number_at(image, Field::B, index);
        PageHead {
            band: self.number,
            index,
            number: self.first + index,
            t: Root(t),
            b: OutLink(b),
            roots: self.number_after(image, Field::T, index) - t,
            links: self.number_after(image, Field::B, index) - b,
        }
    }

    // The head of the page that has the root.
    pub fn head_of_root(self, image: &[u8], root: Root) -> PageHead
        requires { (Ready image.now) × (BandRead image.now self) × (root.0 < root_count image.now self.number) }
        ensures { (HeadRead image.now result) × (result.band ≡ self.number) × (result.t.0 ≤ root.0) × (root.0 < result.t.0 + result.roots) }
    {
        let index = self.last_page(image, Field::T, root.0);
        self.page_head(image, index)
    }

    // The head of the page that has the out-link.
    pub fn head_of_link(self, image: &[u8], link: OutLink) -> PageHead
        requires { (Ready image.now) × (BandRead image.now self) × (link.0 < out_links_due image.now self.number) }
        ensures { (HeadRead image.now result) × (result.band ≡ self.number) × (result.b.0 ≤ link.0) × (link.0 < result.b.0 + result.links) }
    {
        let index = self.last_page(image, Field::B, link.0);
        self.page_head(image, index)
    }

    // The page that has the root, tried first at index `hint`: a walk often stays in a page.
    pub fn page_near(self, image: &[u8], root: Root, hint: usize) -> Page
        requires { (Ready image.now) × (BandRead image.now self) × (root.0 < root_count image.now self.number) }
        ensures { (PageRead image.now result) × (result.band ≡ self.number) × (result.t.0 ≤ root.0) × (root.0 < result.t.0 + result.roots) }
    {
        if hint < self.pages {
            let head = self.page_head(image, hint);
            if head.t.0 <= root.0 && root.0 < head.t.0 + head.roots {
                return head.page(image);
            }
        }
        self.head_of_root(image, root).page(image)
    }
}

impl PageHead {
    // The nodes of the page, whose on bits lead to the nodes below the roots and out of the page.
    pub fn node_count(self, words: &Words) -> usize
        requires { (self.roots ≤ 60) × (self.links ≤ self.roots + get_or words.now.before 8 0) }
        ensures { result ≡ self.roots + get_or words.now.before 8 0 - self.links }
    {
        self.roots + words.on_bits() - self.links
    }

    // The page.
    fn page(self, image: &[u8]) -> Page
        requires { (Ready image.now) × (HeadRead image.now self) }
        ensures { (PageRead image.now result) × (result.band ≡ self.band) × (result.t.0 ≡ self.t.0) × (result.roots ≡ self.roots) }
    {
        let words = gather(image, 64 * self.number);
        let nodes = self.node_count(&words);
        Page {
            band: self.band,
            index: self.index,
            number: self.number,
            t: self.t,
            b: self.b,
            roots: self.roots,
            nodes,
            words,
        }
    }
}
