// Any bytes read plainly, bit by bit, and questions 1 to 7, written from the paper. Nothing here uses the library but for its types, so that an answer
// is held against another way to it. Bands are counted from 0.
use format::Refusal;

// The bytes of an image. Sums saturate, so that no caller has to show that they fit: none comes near the bound.
#[derive(Clone, Copy)]
pub struct Plain<'a> {
    pub image: &'a [u8],
}

impl<'a> Plain<'a> {
    // A byte; 0 past the end.
    fn byte(self, at: usize) -> u8 {
        self.image.get(at).copied().unwrap_or(0)
    }

    // The number of two bytes, the higher first.
    pub fn number(self, at: usize) -> usize {
        let high = self.byte(at);
        let low = self.byte(at.saturating_add(1));
        usize::from(u16::from_be_bytes([high, low]))
    }

    // Whether a bit is on, counted from the highest of the first byte.
    pub fn is_on(self, at: usize) -> bool {
        self.byte(at / 8) & (128 >> (at % 8)) != 0
    }

    // How many bits are on from one up to another.
    pub fn on_bits(self, from: usize, to: usize) -> usize {
        let mut n: usize = 0;
        for at in from..to {
            n = n.saturating_add(usize::from(self.is_on(at)));
        }
        n
    }

    fn page_count(self, band: usize) -> usize {
        self.number(8 + 4 * (band % 8))
    }

    pub fn root_count(self, band: usize) -> usize {
        self.number(10 + 4 * (band % 8))
    }

    pub fn key_count(self) -> usize {
        self.number(6)
    }

    // What the numbers that leave a band must be below.
    pub fn limit(self, band: usize) -> usize {
        if band == 7 {
            self.key_count()
        } else {
            self.root_count(band.saturating_add(1))
        }
    }

    // The number of a band's first page: one more than the pages of the bands before it.
    pub fn first_page(self, band: usize) -> usize {
        (0..band).fold(
            1,
            |page: usize, passed| page.saturating_add(self.page_count(passed)),
        )
    }

    // Question 5. In version 2 bytes 40 and 41 are the lift's.
    fn has_zeros(self, version: usize) -> bool {
        let first = if version == 2 { 42 } else { 40 };
        self.byte(5) == 0 && self.on_bits(8 * first, 8 * 64) == 0
    }

    // Question 35.
    fn has_lift(self, version: usize) -> bool {
        let lift = self.number(40);
        version == 1 || (1 <= lift && lift <= 999)
    }

    // Question 7.
    fn has_band_counts(self) -> bool {
        if self.key_count() == 0 {
            return self.on_bits(8 * 8, 8 * 40) == 0;
        }
        let all_have = (0..8).all(|band| self.page_count(band) != 0 && self.root_count(band) != 0);
        self.page_count(0) == 1 && self.root_count(0) == 1 && all_have
    }

    // Questions 1 to 7 in their order.
    pub fn check_header(self) -> Result<(), Refusal> {
        let version = self.number(3);
        let bytes = self.first_page(8).saturating_mul(64);
        if self.image.len() < 64 {
            Err(Refusal::Header)
        } else if !self.image.starts_with(b"LPT") {
            Err(Refusal::Mark)
        } else if version != 1 && version != 2 {
            Err(Refusal::Version)
        } else if 4096 < self.key_count() {
            Err(Refusal::KeyCount)
        } else if !self.has_zeros(version) {
            Err(Refusal::ZeroBytes)
        } else if !self.has_lift(version) {
            Err(Refusal::Lift)
        } else if self.image.len() != bytes {
            Err(Refusal::Length)
        } else if !self.has_band_counts() {
            Err(Refusal::BandCounts)
        } else {
            Ok(())
        }
    }

    pub fn page(self, number: usize) -> Page<'a> {
        Page {
            image: self,
            number,
        }
    }
}

// A page of an image.
#[derive(Clone, Copy)]
pub struct Page<'a> {
    image: Plain<'a>,
    pub number: usize,
}

impl<'a> Page<'a> {
    pub fn t(self) -> usize {
        self.image.number(self.number.saturating_mul(64))
    }

    pub fn b(self) -> usize {
        self.image
            .number(self.number.saturating_mul(64).saturating_add(2))
    }

    // The first bit of a node.
    fn node_bit(self, node: usize) -> usize {
        let nodes = self.number.saturating_mul(512).saturating_add(32);
        nodes.saturating_add(node.saturating_mul(2))
    }

    // Whether a node's left bit is on, or its right one for 1.
    pub fn is_on(self, node: usize, side: usize) -> bool {
        self.image.is_on(self.node_bit(node).saturating_add(side))
    }

    // The on bits of the nodes from one up to another.
    pub fn on_bits(self, from: usize, to: usize) -> usize {
        self.image.on_bits(self.node_bit(from), self.node_bit(to))
    }

    // The on bits of the nodes from one on, up to a bit of another.
    pub fn on_bits_before(self, from: usize, node: usize, side: usize) -> usize {
        let end = self.node_bit(node).saturating_add(side);
        self.image.on_bits(self.node_bit(from), end)
    }
}
