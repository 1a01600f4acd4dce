// Edits of long lists: the 4,096th admission and the 4,097th, pages that start and pages that vanish, and the version and the lift that stay.
use crate::changes::{Edit, Held, THREE_RECORDS, add, three_for, withdraw};
use crate::images::{Base, change, steps};
use crate::say::Tally;
use answers::image_of;
use format::Refusal;
use std::alloc::{AllocError, Global};
use std::io;
use testing::Random;

// The keys of a list, and its records and counts, of which each is another number.
#[derive(Drop)]
struct Season {
    keys: Vec<u32>,
    records: Vec<u32>,
}

impl Season {
    // The first `n` of the keys 0, `step`, twice `step` and so on. The records are numbers from 7 on, each 1 to 3 above the one before it.
    fn of_steps(alloc: Global, step: u32, n: u16) -> Result<Season, AllocError> {
        let mut records = vec![in alloc; 0; usize::from(n) + 8]?;
        testing::spaced(&mut records, 7, 3, Random { state: 1 });
        Ok(Season {
            keys: steps(alloc, step, u32::from(n))?,
            records,
        })
    }

    // The season with a key put in at a rank, whose record is 0.
    fn with_key(&self, rank: usize, key: u32) -> Result<Season, AllocError> {
        let mut keys = self.keys.clone()?;
        let mut records = self.records.clone()?;
        if rank <= keys.len() && rank <= records.len() {
            keys.insert(rank, key)?;
            records.insert(rank, 0)?;
        }
        Ok(Season { keys, records })
    }

    // The season without the key at a rank.
    fn without_key(&self, rank: usize) -> Result<Season, AllocError> {
        let mut keys = self.keys.clone()?;
        let mut records = self.records.clone()?;
        if rank < keys.len() && rank < records.len() {
            keys.remove(rank);
            records.remove(rank);
        }
        Ok(Season { keys, records })
    }

    // Whether an edit of this season's image for lift 5 gives the other season's.
    fn leads(&self, alloc: Global, edit: Edit, other: &Season) -> Result<bool, AllocError> {
        let image = image_of(alloc, &self.keys, 5)?.unwrap_or(Vec::new(alloc));
        let held = Held {
            image: &image,
            records: &self.records,
        };
        Ok(held.gives(edit, &other.keys, 5, &other.records))
    }
}

// A case: an edit leads from one season to the other.
fn leads(
    tally: &mut Tally,
    name: &str,
    before: &Season,
    edit: Edit,
    after: &Season,
) -> io::Result<()> {
    let is_right = before.leads(tally.alloc, edit, after)?;
    tally.case(name, is_right)
}

// The 4,096th admission.
pub fn most(tally: &mut Tally) -> io::Result<()> {
    let names = "\
        the 4,096th key added, after all others\n\
        the 4,096th key added, before all others\n\
        the 4,096th key added, between others\n";
    let full = Season::of_steps(tally.alloc, 1, 4096)?;
    for (name, key) in names.lines().zip([4095u16, 0, 1000]) {
        let less = full.without_key(usize::from(key))?;
        let more = less.with_key(usize::from(key), u32::from(key))?;
        leads(tally, name, &less, add(u32::from(key)), &more)?;
    }
    full_list(tally, &full)
}

// The 4,097th, and withdrawals from 4,096.
fn full_list(tally: &mut Tally, full: &Season) -> io::Result<()> {
    let image = Base::Dense.image_for(tally.alloc, 5)?;
    let held = Held {
        image: &image,
        records: &[9; 4104],
    };
    let names = "\
        14: the 4,097th key added\n\
        14: the 4,097th key added, with no byte and no element\n\
        30: a listed key added to 4,096\n";
    let cases = [
        (add(4096), 1600, 4110, Refusal::More),
        (add(4096), 0, 0, Refusal::More),
        (add(17), 0, 0, Refusal::Change),
    ];
    for (name, (edit, bytes, elements, refusal)) in names.lines().zip(cases) {
        tally.case(name, held.ends(edit, bytes, elements, Some(refusal)))?;
    }
    let name = "one of 4,096 keys withdrawn";
    leads(tally, name, full, withdraw(1000), &full.without_key(1000)?)?;
    let names = "\
        17: one of 4,096 keys withdrawn, 4,102 elements for 4,103\n\
        17: one of 4,096 keys withdrawn, 1,535 bytes for 1,536\n\
        30: a key that is not listed withdrawn from 4,096\n";
    let cases = [
        (withdraw(1000), 1600, 4102, Refusal::Room),
        (withdraw(1000), 1535, 4110, Refusal::Room),
        (withdraw(4096), 1600, 4110, Refusal::Change),
    ];
    for (name, (edit, bytes, elements, refusal)) in names.lines().zip(cases) {
        tally.case(name, held.ends(edit, bytes, elements, Some(refusal)))?;
    }
    Ok(())
}

// 240 keys with 2 ^ 24 between them fill four pages of 60 subtries in each of the bands 3 to 8; another key starts a fifth in each.
pub fn pages(tally: &mut Tally) -> io::Result<()> {
    let four = Season::of_steps(tally.alloc, 16777216, 240)?;
    let names = "\
        the 241st of keys far apart starts a page in six bands\n\
        withdrawn again, six pages vanish\n\
        a key beside the first moves every subtrie of six bands on\n\
        withdrawn again, they move back\n";
    let mut names = names.lines();
    for (rank, key) in [(240, 4026531840), (1, 8388608)] {
        let more = four.with_key(rank, key)?;
        let less = more.without_key(rank)?;
        leads(tally, names.next().unwrap_or(""), &four, add(key), &more)?;
        leads(
            tally,
            names.next().unwrap_or(""),
            &more,
            withdraw(key),
            &less,
        )?;
    }
    Ok(())
}

// The version and the lift stay, and a damaged image is refused with its own number before all others.
pub fn kinds(tally: &mut Tally) -> io::Result<()> {
    let names = "\
        edits of a version 1 image give version 1\n\
        edits of an image for lift 1\n\
        edits of an image for lift 999\n";
    for (name, lift) in names.lines().zip([0, 1, 999]) {
        let image = three_for(tally.alloc, lift)?;
        let three = Held {
            image: &image,
            records: &THREE_RECORDS,
        };
        let more = [501, 0, 901, 1201, 10, 20, 30, 40, 50, 60, 70, 80];
        let less = [501, 1201, 10, 20, 30, 40, 50, 60, 70, 80];
        let are_right = three.gives(add(6), &[5, 6, 9, 12], lift, &more)
            && three.gives(withdraw(9), &[5, 12], lift, &less);
        tally.case(name, are_right)?;
    }
    let mut image = three_for(tally.alloc, 0)?;
    change(&mut image, &[(7, 4)]);
    let damaged = Held {
        image: &image,
        records: &[],
    };
    let are_refused = damaged.refuses(add(9), Refusal::Links)
        && damaged.refuses(withdraw(6), Refusal::Links);
    tally.case(
        "13: edits of an image with another key count, with no record",
        are_refused,
    )
}
