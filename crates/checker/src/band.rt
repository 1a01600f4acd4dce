// Questions 8 to 13 of a band, and of all eight bands.
ghost use Rattle.std.specs.Prelude.{◌≡◌, cond, ◌+◌, ◌*◌, ◌≤◌, ◌<◌, ltb, length};
ghost use mathlib.Core.List.{flat_map};
ghost use Rattle.format.specs.Page.{number_at};
ghost use Rattle.format.specs.Image.{bands};
ghost use Rattle.format.specs.Question.{first_no, band_questions};
ghost use Rattle.format.specs.Refusal.{refusal_of};
ghost use Rattle.checker.specs.Paged.{Sized, BandAt};

use crate::page::check_page;
use format::{OutLink, Refusal, Root};
use header::{links_due, number, page_count, root_count};

// The first root after page `i` of a band with so many pages and roots, whose first page is page `first` of the image.
pub fn next_root(image: &[u8], first: usize, i: usize, pages: usize, roots: usize) -> Root
    requires { (i < pages) × (64 * (first + pages) ≤ length image.now) }
    ensures { result.0 ≡ cond (ltb (i + 1) pages) (number_at image.now (64 * (first + (i + 1)))) roots }
{
    let next = i + 1;
    if next < pages {
        return Root(number(image, 64 * (first + next)));
    }
    Root(roots)
}

// The first question of band `band` that gets a no. The band's first page is page `first` of the image.
fn band_refusal(image: &[u8], band: usize, first: usize) -> Result<(), Refusal>
    requires { BandAt image.now band first }
    ensures { refusal_of result ≡ first_no (band_questions image.now band) }
{
    let pages = page_count(image, band);
    let roots = root_count(image, band);
    let mut t = Root(0);
    let mut b = OutLink(0);
    let mut nodes = 241;
    for i in 0..pages {
        let next = next_root(image, first, i, pages, roots);
        let found = check_page(image, 64 * (first + i), t, b, next, nodes)?;
        t = next;
        b = OutLink(b.0 + found.links);
        nodes = found.nodes;
    }
    // The number of the out-link after the band's last is how many the band has.
    if b.0 != links_due(image, band) {
        return Err(Refusal::Links);
    }
    Ok(())
}

// The first question of the bands that gets a no.
pub(crate) fn bands_refusal(image: &[u8]) -> Result<(), Refusal>
    requires { Sized image.now }
    ensures { refusal_of result ≡ first_no (flat_map (band_questions image.now) bands) }
{
    let mut first = 1;
    for band in 1..9 {
        band_refusal(image, band, first)?;
        first += page_count(image, band);
    }
    Ok(())
}
