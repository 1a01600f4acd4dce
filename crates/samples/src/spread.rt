// Which of a holder's records is the largest: of three admissions, in a short list, and in one of 4,096 admissions where they lie in different pages of band 8.
use crate::gates::{Scan, opens, refused};
use crate::holders::few_holders;
use crate::images::Base;
use crate::say::Tally;
use format::Refusal;
use paged_lookup::Found;
use std::alloc::{AllocError, Global};
use std::io;

// An admission of the holder.
#[derive(Clone, Copy)]
struct Place {
    slot: u16,
    rank: u32,
}

// A holder of a list of `keys` keys, its image, and the records and counts.
#[derive(Drop)]
struct Holder {
    number: u16,
    keys: usize,
    image: Vec<u8>,
    records: Vec<u32>,
}

impl Holder {
    // The holder where nobody has opened.
    fn new(alloc: Global, number: u16, image: Vec<u8>, keys: u16) -> Result<Holder, AllocError> {
        let keys = usize::from(keys);
        Ok(Holder {
            number,
            keys,
            image,
            records: vec![in alloc; 0; keys + 8]?,
        })
    }

    fn copy(&self) -> Result<Holder, AllocError> {
        Ok(Holder {
            number: self.number,
            keys: self.keys,
            image: self.image.clone()?,
            records: self.records.clone()?,
        })
    }

    // Puts another record at a place.
    fn set(&mut self, place: Place, record: u32) {
        if let Some(element) = self.records.get_mut(place.rank as usize) {
            *element = record;
        }
    }

    // The holder after an opening in lane 1.
    fn after_opening(&self, rank: u32, time: u32) -> Result<Holder, AllocError> {
        let mut after = self.copy()?;
        if let Some(record) = after.records.get_mut(rank as usize) {
            *record = time.saturating_add(1);
        }
        if let Some(count) = after.records.get_mut(self.keys) {
            *count = count.saturating_add(1);
        }
        Ok(after)
    }

    // Whether a scan gets its answer, and leaves every element as it must: a refusal changes nothing.
    fn is_right(&self, asked: Scan) -> Result<bool, AllocError> {
        let after = match asked.due {
            Ok(rank) => self.after_opening(rank, asked.time)?,
            Err(_) => self.copy()?,
        };
        let mut records = self.records.clone()?;
        let is_answered = asked.is_answered(&self.image, &mut records, self.number);
        Ok(is_answered && records == after.records)
    }

    // Whether an admission of the holder, whose last opening was at 1000, gets 25 at 999 and 26 at 1599, and opens at 1600.
    fn is_locked(&self, place: Place) -> Result<bool, AllocError> {
        let slot = place.slot;
        Ok(
            self.is_right(refused(slot, 999, 600, Refusal::Earlier))?
                && self.is_right(refused(slot, 1599, 600, Refusal::Lockout))?
                && self.is_right(opens(slot, 1600, 600, place.rank))?,
        )
    }

    // Whether these are all so.
    fn are_locked(&self, places: [Place; 3]) -> Result<bool, AllocError> {
        for place in places {
            if !self.is_locked(place)? {
                return Ok(false);
            }
        }
        Ok(true)
    }

    // A case: the record of the first place is the largest, one more than that of the last.
    fn largest(&self, tally: &mut Tally, name: &str, places: [Place; 3]) -> io::Result<()> {
        let mut holder = self.copy()?;
        holder.set(places[0], 1001);
        holder.set(places[1], 501);
        holder.set(places[2], 1000);
        let are_locked = holder.are_locked(places)?;
        tally.case(name, are_locked)
    }

    // A case: the first place opens where nobody has opened, and the others are then locked out too.
    fn opening(&self, tally: &mut Tally, name: &str, places: [Place; 3]) -> io::Result<()> {
        let first = places[0];
        let opened = self.is_right(opens(first.slot, 1000, 600, first.rank))?;
        let after = self.after_opening(first.rank, 1000)?;
        let are_locked = after.are_locked(places)?;
        tally.case(name, opened && are_locked)
    }
}

// The short list's holder.
pub fn three_records(tally: &mut Tally) -> io::Result<()> {
    let names = "\
        the largest record at the holder's first rank: each slot 25 at 999, 26 at 1599, and opens at 1600\n\
        the largest record at the holder's middle rank: each slot 25 at 999, 26 at 1599, and opens at 1600\n\
        the largest record at the holder's last rank: each slot 25 at 999, 26 at 1599, and opens at 1600\n";
    let holder = Holder::new(tally.alloc, 5, few_holders(tally.alloc)?, 7)?;
    let first = Place { slot: 10, rank: 1 };
    let middle = Place { slot: 11, rank: 2 };
    let last = Place { slot: 500, rank: 5 };
    let cases = [
        [first, middle, last],
        [middle, last, first],
        [last, first, middle],
    ];
    for (name, places) in names.lines().zip(cases) {
        holder.largest(tally, name, places)?;
    }
    Ok(())
}

// The page of band 8 on the path of a listed admission.
fn last_page(image: &[u8], holder: u16, slot: u16) -> Option<u32> {
    match query::lookup(image, holder, slot) {
        Ok(Found::Listed { pages, .. }) => Some(pages[7]),
        _ => None,
    }
}

// Holder 33,792, with 64 slots in many pages of band 8, which are the pages 295 to 363.
pub fn several_pages(tally: &mut Tally) -> io::Result<()> {
    let image = Base::FarApart.image(tally.alloc)?;
    let are_in_pages = [(0, 329), (32768, 346), (64512, 351)].iter().all(|(slot, page)| last_page(
        &image, 33792, *slot,
    ) == Some(*page));
    tally.case(
        "several pages: a holder's first, middle and last rank in the pages 329, 346 and 351",
        are_in_pages,
    )?;
    several_openings(tally, Holder::new(tally.alloc, 33792, image, 4096)?)
}

fn several_openings(tally: &mut Tally, holder: Holder) -> io::Result<()> {
    let names = "\
        several pages: the first opened at 1000: each of the three 25 at 999, 26 at 1599, and opens at 1600\n\
        several pages: the middle opened at 1000: each of the three 25 at 999, 26 at 1599, and opens at 1600\n\
        several pages: the last opened at 1000: each of the three 25 at 999, 26 at 1599, and opens at 1600\n";
    let first = Place {
        slot: 0,
        rank: 2050,
    };
    let middle = Place {
        slot: 32768,
        rank: 3074,
    };
    let last = Place {
        slot: 64512,
        rank: 3415,
    };
    let cases = [
        [first, middle, last],
        [middle, last, first],
        [last, first, middle],
    ];
    for (name, places) in names.lines().zip(cases) {
        holder.opening(tally, name, places)?;
    }
    let name =
        "several pages: the largest record at the middle rank: each of the three 25 at 999, 26 at 1599, and opens at 1600";
    holder.largest(tally, name, [middle, last, first])?;
    other_holder(tally, holder, first)
}

// An admission of another holder, in page 329, opens at 1200 where the first of the holder's opened.
fn other_holder(tally: &mut Tally, mut holder: Holder, first: Place) -> io::Result<()> {
    let is_there = last_page(&holder.image, 32768, 0) == Some(329);
    holder.number = 32768;
    holder.set(first, 1001);
    let is_open = holder.is_right(opens(0, 1200, 600, 2048))?;
    tally.case(
        "several pages: another holder's admission in page 329 opens at 1200",
        is_there && is_open,
    )
}
