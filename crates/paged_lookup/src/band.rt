// The way of a key through one band: its page is found, judged and followed.
ghost use Rattle.std.specs.Prelude.{◌≡◌, true, MatchOption, ◌+◌, ◌*◌, ◌≤◌, ◌<◌, length};
ghost use Rattle.format.specs.Image.{root_count};
ghost use Rattle.checker.specs.Paged.{BandAt};
ghost use Rattle.pages.specs.Page.{Ready};
ghost use Rattle.paged_lookup.specs.Paged;
ghost use Rattle.paged_lookup.specs.Way.{way_of, way_outcome, AllAbove, LastUpto, StepRight};

use crate::page::{Way, through_accepted_page, through_page};
use checker::band::next_root;
use checker::page::roots_from;
use format::{Refusal, Root};
use header::{links_due, number, page_count, root_count};
use pages::Band;

// A key's way through a band, and the number of its page in the image.
#[derive(Clone, Copy, Debug, PartialEq, Eq)]
pub struct Step {
    pub way: Way,
    pub page: usize,
}

// The index of the last of a band's pages whose T is at or below a root's number. The band's first page is page `first` of the image. The pages are gone
// through from the last: every T after the page found has to be read, since T may fall.
fn last_page(image: &[u8], first: usize, pages: usize, root: Root) -> Option<usize>
    requires { 64 * (first + pages) ≤ length image.now }
    ensures { MatchOption result (AllAbove image.now first pages root.0 0) (LastUpto image.now first pages root.0) }
{
    for index in (0..pages).rev() {
        if number(image, 64 * (first + index)) <= root.0 {
            return Some(index);
        }
    }
    None
}

// Question 28, on leaving band `band`: a figure may be equal to the out-links due.
fn leave(image: &[u8], band: usize, way: Way) -> Result<Way, Refusal>
    requires { (64 ≤ length image.now) × (band ≤ 8) }
    ensures { way_outcome result ≡ Paged.leaving image.now band (way_of way) }
{
    if !way.is_below(links_due(image, band)) {
        return Err(Refusal::Number);
    }
    Ok(way)
}

// The way of a key through band `band` from a root, in any image whose 1 to 7 get a yes: the page is judged. The band's first page is page `first` of the image. Where
// `on` is false a bit was off above, and the root is a figure.
fn through_judged(
    image: &[u8],
    band: usize,
    first: usize,
    root: Root,
    on: bool,
    key: u32,
) -> Result<Step, Refusal>
    requires { (BandAt image.now band first) × (root.0 < root_count image.now band) }
    ensures { StepRight image.now key band on root.0 result }
{
    let pages = page_count(image, band);
    let Some(index) = last_page(image, first, pages, root) else {
        return Err(Refusal::Page);
    };
    let page = first + index;
    let t = Root(number(image, 64 * page));
    let next = next_root(image, first, index, pages, root_count(image, band));
    let roots = roots_from(t, next)?;
    let level = 4 * (band - 1);
    let way = through_page(image, 64 * page, roots, root.0 - t.0, on, key, level)?;
    Ok(Step {
        way: leave(image, band, way)?,
        page,
    })
}

// The same in an accepted image, where the page is found by halves and not judged again.
fn through_accepted(
    image: &[u8],
    band: usize,
    first: usize,
    root: Root,
    on: bool,
    key: u32,
) -> Result<Step, Refusal>
    requires { (Ready image.now) × (BandAt image.now band first) × (root.0 < root_count image.now band) }
    ensures { StepRight image.now key band on root.0 result }
{
    let head = Band::read(image, band, first).head_of_root(image, root);
    let way = through_accepted_page(image, head, root, on, key);
    Ok(Step {
        way: leave(image, band, way)?,
        page: head.number,
    })
}

// The way of a key through band `band` from a root; where `accepted` is true the image is accepted, and the page is not judged again. A flag, since as a
// function parameter of the walk this would need `StepRight` of every band, root and figure in its contract: the walk would say it all once more.
pub(crate) fn through(
    image: &[u8],
    band: usize,
    first: usize,
    root: Root,
    on: bool,
    key: u32,
    accepted: bool,
) -> Result<Step, Refusal>
    requires { (accepted ≡ true → Ready image.now) × (BandAt image.now band first) × (root.0 < root_count image.now band) }
    ensures { StepRight image.now key band on root.0 result }
{
    if accepted {
        return through_accepted(image, band, first, root, on, key);
    }
    through_judged(image, band, first, root, on, key)
}
