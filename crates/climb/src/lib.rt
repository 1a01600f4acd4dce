// From a rank up the bands to the key.
#![tactic(auto)]

mod select;

ghost use Rattle.std.specs.Prelude.{◌≡◌, ◌+◌, ◌≤◌, ◌<◌, get_or};
ghost use Rattle.format.specs.Image.{key_count, keys_of};
ghost use Rattle.pages.specs.Page.{Ready, HeadRead};
ghost use Rattle.climb.specs.Climb.{ClimbRight};

use crate::select::on_bit;
use format::{OutLink, Root, link_to};
use nodes::gather;
use pages::{Band, PageHead};

// A root of a band, and the four bits that lead from it to where the climb started.
#[derive(Clone, Copy, Debug, PartialEq, Eq)]
pub struct Climbed {
    pub root: Root,
    pub bits: u32,
}

// Climbs from an out-link of the page to its root.
fn climb(image: &[u8], head: PageHead, link: OutLink) -> Climbed
    requires { (Ready image.now) × (HeadRead image.now head) × (link.0 < 65536) × (head.b.0 ≤ link.0) × (link.0 < head.b.0 + head.links) }
    ensures { ClimbRight image.now head.band link.0 result.root.0 result.bits }
{
    let words = gather(image, 64 * head.number);
    let nodes = head.node_count(&words);
    let mut place = nodes + (link.0 - head.b.0);
    let mut bits = 0;
    for level in 0..4u32 {
        let bit = on_bit(&words, place - head.roots);
        place = bit / 2;
        bits += ((bit % 2) as u32) << level;
    }
    Climbed {
        root: Root(head.t.0 + place),
        bits,
    }
}

// The key of a rank: band by band from the last upward. The out-link of band 8 that leads to the key has the rank for its number.
pub fn key_at(image: &[u8], rank: usize) -> u32
    requires { (Ready image.now) × (rank < key_count image.now) }
    ensures { result ≡ get_or (keys_of image.now) rank 0 }
{
    let mut link = OutLink(rank);
    let mut first = image.len() / 64;
    let mut key = 0;
    for passed in 0..8 {
        let number = 8 - passed;
        first -= header::page_count(image, number);
        let head = Band::read(image, number, first).head_of_link(image, link);
        let climbed = climb(image, head, link);
        key += climbed.bits << (4 * passed);
        link = link_to(climbed.root);
    }
    key
}
