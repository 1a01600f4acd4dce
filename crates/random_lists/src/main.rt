// A test: lists of many shapes from a generator with a fixed seed are written for several lifts, read back by every job, and held against the plain
// reader of a sorted array, and scans against a plain rule of the gate, with lockouts played to their end; rows of sales and withdrawals against the same array; their images are damaged, and one that is
// still accepted must be the exact image of its list, and the eight-page lookup must do on all of them what its steps say. Prints what was compared,
// and the differences.
#![tactic(auto)]

mod ask;
mod books;
mod cards;
mod damage;
mod edits;
mod eight;
mod history;
mod links;
mod list;
mod pairs;
mod path;
mod patience;
mod plain;
mod rule;
mod scans;
mod steps;
mod tally;
mod trial;

use answers::image_of;
use list::List;
use std::alloc::{AllocError, Global};
use std::io::{self, Stdout};
use tally::{Kind, Tally};
use testing::Random;

// All jobs on the image of a list, and its damaged images.
fn compare(tally: &mut Tally, alloc: Global, list: List, seed: Random) -> Result<(), AllocError> {
    ask::whole(tally, list);
    ask::ask(tally, list, seed);
    pairs::pairs(tally, alloc, list, seed)?;
    history::history(tally, alloc, list, seed)?;
    edits::edits(tally, alloc, list, seed)?;
    let mut image = Vec::from_slice(alloc, list.image)?;
    damage::damage(tally, &mut image, list.keys, list.lift, seed);
    path::damage(tally, &mut image, list.keys, list.lift, seed);
    Ok(())
}

// Writes the image of the keys for a lift, 0 for version 1, and compares.
fn compare_list(
    tally: &mut Tally,
    alloc: Global,
    keys: &[u32],
    lift: u32,
    seed: Random,
) -> Result<(), AllocError> {
    let Some(image) = image_of(alloc, keys, lift)? else {
        tally.expect(Kind::Lists, false);
        return Ok(());
    };
    let has_lift = checker::lift(&image) == Ok(lift as usize);
    tally.expect(Kind::Lists, has_lift);
    let list = List {
        keys,
        lift,
        image: &image,
    };
    compare(tally, alloc, list, seed)
}

// How the keys of a list are drawn.
#[derive(Clone, Copy)]
enum Shape {
    // Each 1 to `gap` above the one before it.
    Spaced { first: u32, gap: u32 },
    // Of holders who each have about `each` half-days of a season.
    Clustered { season: u32, each: u32 },
    NoKeys,
}

impl Shape {
    // Puts the keys into the first places. Returns how many.
    fn draw(self, keys: &mut [u32], seed: Random) -> usize {
        match self {
            Shape::Spaced { first, gap } => testing::spaced(keys, first, gap, seed),
            Shape::Clustered { season, each } => testing::clustered(keys, 4096, season, each, seed),
            Shape::NoKeys => 0,
        }
    }

    // The list of all keys, and of fewer, each for another lift; one in version 1.
    fn sizes(self, n: usize) -> [Option<(usize, u32)>; 4] {
        match self {
            Shape::NoKeys => [Some((0, 500)), None, None, None],
            _ => [
                Some((n, 999)),
                Some((n / 3, 0)),
                Some((n / 50, 258)),
                Some((n / 2000, 1)),
            ],
        }
    }
}

// The lists of a shape. Returns the differences.
fn compare_shape(
    out: Stdout,
    alloc: Global,
    name: &str,
    shape: Shape,
    seed: Random,
) -> io::Result<u32> {
    let mut keys = vec![in alloc; 0; 4096]?;
    let n = shape.draw(&mut keys, seed);
    keys.truncate(n);
    let mut tally = Tally::new();
    for (size, lift) in shape.sizes(n).into_iter().flatten() {
        if let Some(keys) = keys.as_slice().get(..size) {
            compare_list(&mut tally, alloc, keys, lift, seed)?;
        }
    }
    tally.say(out, name)?;
    Ok(tally.count(Kind::Differences))
}

fn spaced(first: u32, gap: u32) -> Shape {
    Shape::Spaced { first, gap }
}

fn clustered(season: u32, each: u32) -> Shape {
    Shape::Clustered { season, each }
}

fn main(rt: HostRuntime) -> io::Result<()> {
    let mut differences: u32 = 0;
    for (state, name, shape) in [
        (1, "every key", spaced(0, 1)),
        (2, "keys 1 to 3 apart", spaced(77, 3)),
        (3, "keys 1 to 40 apart", spaced(4000000000, 40)),
        (4, "keys 1 to 3,000 apart", spaced(5, 3000)),
        (5, "keys 1 to 2,000,000 apart", spaced(12345, 2000000)),
        (6, "20 half-days of 360 for each holder", clustered(360, 20)),
        (7, "2 half-days of 300 for each holder", clustered(300, 2)),
        (
            8,
            "400 half-days of 65,536 for each holder",
            clustered(65536, 400),
        ),
        (9, "no keys", Shape::NoKeys),
    ] {
        let seed = Random { state };
        let more = compare_shape(rt.stdout(), rt.alloc(), name, shape, seed)?;
        differences = differences.saturating_add(more);
    }
    println!(rt; "{differences} differences")
}
