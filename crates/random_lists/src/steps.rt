// A plain reader of the steps of the eight-page lookup on any bytes, written from the paper: bit by bit, and slow. It uses the library's types and
// none of its functions. Bands and levels are counted from 0.
use crate::links::links_left;
use crate::plain::{Page, Plain};
use format::Refusal;
use paged_lookup::Found;

// Where a key stands between two bands.
#[derive(Clone, Copy)]
enum Place {
    // On its path, at a root.
    On(usize),
    // Past an off bit, at a figure.
    Off(usize),
    // Past an off bit, where all keys are smaller: the walk ends.
    Past,
}

// The question that got a no, and whether a bit was off before.
#[derive(Clone, Copy)]
pub struct Refused {
    pub refusal: Refusal,
    pub is_off: bool,
}

fn refuse<T>(refusal: Refusal, is_off: bool) -> Result<T, Refused> {
    Err(Refused { refusal, is_off })
}

// 28 on an on bit: the number must be below the limit.
fn leave(image: Plain, band: usize, next: usize) -> Result<Place, Refused> {
    if next < image.limit(band) {
        Ok(Place::On(next))
    } else {
        refuse(Refusal::Number, false)
    }
}

// 28 past an off bit: a figure may be equal to the limit, and then all keys are smaller.
fn leave_off(image: Plain, band: usize, figure: usize) -> Result<Place, Refused> {
    let limit = image.limit(band);
    if limit < figure {
        refuse(Refusal::Number, true)
    } else if figure == limit {
        Ok(Place::Past)
    } else {
        Ok(Place::Off(figure))
    }
}

// The last of a band's pages whose T is at or below a root's number.
fn last_page(image: Plain<'_>, band: usize, root: usize) -> Option<Page<'_>> {
    let end = image.first_page(band.saturating_add(1));
    let mut found = None;
    for number in image.first_page(band)..end {
        let page = image.page(number);
        if page.t() <= root {
            found = Some(page);
        }
    }
    found
}

// A page's roots in its band; 0 where there would be fewer.
fn page_roots(image: Plain, page: Page, band: usize) -> usize {
    let next = page.number.saturating_add(1);
    let end = if next < image.first_page(band.saturating_add(1)) {
        image.page(next).t()
    } else {
        image.root_count(band)
    };
    end.saturating_sub(page.t())
}

// How many nodes stand before each of a page's four levels, and before what comes after them.
fn level_starts(page: Page, roots: usize) -> [usize; 5] {
    let third = roots.saturating_add(page.on_bits(0, roots));
    let fourth = third.saturating_add(page.on_bits(roots, third));
    let end = fourth.saturating_add(page.on_bits(third, fourth));
    [0, roots, third, fourth, end]
}

// Questions 10 and 11 of a page whose levels have so many nodes.
fn check_nodes(page: Page, nodes: usize) -> Result<(), Refusal> {
    let has_empty = (0..nodes).any(|node| !page.is_on(node, 0) && !page.is_on(node, 1));
    if 240 < nodes || has_empty {
        Err(Refusal::Nodes)
    } else if page.on_bits(nodes, 240) != 0 {
        Err(Refusal::Padding)
    } else {
        Ok(())
    }
}

// Takes the key's bit of a level from a node of a page's level that starts at node `start`, the node counted in its level. Says how many of the
// level's on bits stand before the one taken, which is the next level's node, or that it is off.
fn next_node(page: Page, start: usize, node: usize, key: u32, level: u32) -> Option<usize> {
    let node = start.saturating_add(node);
    let side = (key >> (31 - level % 32) & 1) as usize;
    page.is_on(node, side)
        .then_some(page.on_bits_before(start, node, side))
}

// Follows four bits of the key from a root, counted in the page. Says how many of the fourth level's on bits stand before the one taken, or that one is off.
fn follow(page: Page, starts: [usize; 5], root: usize, key: u32, band: usize) -> Option<usize> {
    let level = 4 * (band % 8) as u32;
    let second = next_node(page, starts[0], root, key, level)?;
    let third = next_node(page, starts[1], second, key, level + 1)?;
    let fourth = next_node(page, starts[2], third, key, level + 2)?;
    next_node(page, starts[3], fourth, key, level + 3)
}

// The four bits of a key in a band, as a number.
fn path_of(key: u32, band: usize) -> usize {
    (key >> (28 - 4 * (band % 8)) & 15) as usize
}

// The key in a page that 27 and 9 gave a yes, from a root or a figure, and out of its band.
fn through_page(
    image: Plain,
    page: Page,
    roots: usize,
    place: Place,
    key: u32,
    band: usize,
) -> Result<Place, Refused> {
    let starts = level_starts(page, roots);
    let is_off = !matches!(place, Place::On(_));
    check_nodes(page, starts[4]).map_err(|refusal| Refused { refusal, is_off })?;
    let b = page.b();
    match place {
        Place::On(number) => {
            let root = number.saturating_sub(page.t());
            if let Some(before) = follow(page, starts, root, key, band) {
                return leave(image, band, b.saturating_add(before));
            }
            let left = links_left(page, starts, root, path_of(key, band));
            leave_off(image, band, b.saturating_add(left))
        }
        // Only what lies before the root counts.
        Place::Off(figure) => {
            let root = figure.saturating_sub(page.t());
            let left = links_left(page, starts, root, 0);
            leave_off(image, band, b.saturating_add(left))
        }
        Place::Past => Ok(Place::Past),
    }
}

// The key in a band. Says the page read.
fn through(image: Plain, band: usize, place: Place, key: u32) -> Result<(usize, Place), Refused> {
    let (root, is_off) = match place {
        Place::On(root) => (root, false),
        Place::Off(figure) => (figure, true),
        Place::Past => return Ok((0, Place::Past)),
    };
    let Some(page) = last_page(image, band, root) else {
        return refuse(Refusal::Page, is_off);
    };
    let roots = page_roots(image, page, band);
    if roots == 0 || 60 < roots {
        return refuse(Refusal::Roots, is_off);
    }
    let next = through_page(image, page, roots, place, key, band)?;
    Ok((page.number, next))
}

// A number of an image, none of which comes near the bound.
fn narrow(n: usize) -> u32 {
    u32::try_from(n).unwrap_or(4294967295)
}

// From root 0 through the eight bands. Out of the last band the root is the rank, or past an off bit the number of smaller keys.
fn walk(image: Plain, key: u32) -> Result<Found, Refused> {
    let mut place = Place::On(0);
    let mut pages = [0; 8];
    for (band, number) in pages.iter_mut().enumerate() {
        let (page, next) = through(image, band, place, key)?;
        *number = narrow(page);
        place = next;
    }
    Ok(match place {
        Place::On(root) => Found::Listed {
            rank: narrow(root),
            pages,
        },
        Place::Off(figure) => Found::Absent {
            smaller: narrow(figure),
        },
        Place::Past => Found::Absent {
            smaller: narrow(image.key_count()),
        },
    })
}

// The steps' answer.
pub fn answer(image: &[u8], holder: u16, slot: u16) -> Result<Found, Refused> {
    let image = Plain { image };
    image.check_header().map_err(|refusal| Refused {
        refusal,
        is_off: false,
    })?;
    if image.key_count() == 0 {
        return Ok(Found::Absent { smaller: 0 });
    }
    walk(image, testing::key_of(holder, slot))
}

pub fn lookup(image: &[u8], holder: u16, slot: u16) -> Result<Found, Refusal> {
    answer(image, holder, slot).map_err(|refused| refused.refusal)
}
