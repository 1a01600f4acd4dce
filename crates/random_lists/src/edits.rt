// Long rows of sales and withdrawals, against the sorted array: each answer, the new image beside the one that is written for the changed list, and every
// record and lane's count; after each that is done a card is scanned, so that the next one finds another record.
use crate::books::Books;
use crate::cards::{card_of, scan_card};
use crate::list::List;
use crate::tally::{Kind, Tally};
use answers::edit_key;
use edit::Change;
use format::{MOST_BYTES, Refusal};
use std::alloc::{AllocError, Global};
use testing::{Random, rank_of};

// An edit, and what it left in its outputs: bytes 0xee and elements 77 at first.
#[derive(Clone, Copy)]
struct Outputs {
    edited: Result<usize, Refusal>,
    image: [u8; MOST_BYTES],
    records: [u32; 4105],
}

impl Outputs {
    fn lent() -> Outputs {
        Outputs {
            edited: Ok(0),
            image: [0xee; MOST_BYTES],
            records: [77; 4105],
        }
    }

    fn edit(&mut self, books: &Books, change: Change, key: u32) {
        self.edited = edit_key(
            change,
            &books.image,
            &books.gate.records,
            key,
            &mut self.image,
            &mut self.records,
        );
    }

    // Whether both buffers are these, to their ends.
    fn are(&self, other: &Outputs) -> bool {
        self.image == other.image && self.records == other.records
    }

    // Whether the outputs are the books': the image of their keys for their lift, and their records.
    fn are_books(&self, books: &Books) -> bool {
        let mut expected = Outputs::lent();
        let written = writer::write_either(&books.keys, books.lift, &mut expected.image);
        for (element, record) in expected.records.iter_mut().zip(&books.gate.expected) {
            *element = *record;
        }
        written.is_ok() && self.edited == written && self.are(&expected)
    }
}

// The refusal that is due.
fn due(change: Change, n: usize, is_listed: bool) -> Option<Refusal> {
    match change {
        Change::Add if is_listed => Some(Refusal::Change),
        Change::Add if 4096 <= n => Some(Refusal::More),
        Change::Withdraw if !is_listed => Some(Refusal::Change),
        _ => None,
    }
}

fn kind_of(change: Change) -> Kind {
    match change {
        Change::Add => Kind::Sales,
        Change::Withdraw => Kind::Withdrawals,
    }
}

// A turn of the row: the edit beside the books.
fn turn(
    tally: &mut Tally,
    alloc: Global,
    books: &mut Books,
    change: Change,
    key: u32,
) -> Result<(), AllocError> {
    let rank = rank_of(&books.keys, key);
    let is_listed = books.keys.get(rank) == Some(&key);
    let mut outputs = Outputs::lent();
    outputs.edit(books, change, key);
    if let Some(refusal) = due(change, books.keys.len(), is_listed) {
        let is_right = outputs.edited == Err(refusal) && outputs.are(&Outputs::lent());
        tally.expect(Kind::RefusedEdits, is_right);
        return Ok(());
    }
    books.change(change, rank, key)?;
    let is_right = outputs.are_books(books);
    tally.expect(kind_of(change), is_right);
    let length = outputs.edited.unwrap_or(0);
    books.image = Vec::from_slice(alloc, outputs.image.get(..length).unwrap_or(&[]))?;
    let elements = books.gate.expected.len();
    books.gate.records = Vec::from_slice(alloc, outputs.records.get(..elements).unwrap_or(&[]))?;
    Ok(())
}

// A card after it, at the gate and by the plain rule.
fn scan_after(tally: &mut Tally, books: &mut Books, rank: usize, time: u32) {
    let list = List {
        keys: &books.keys,
        lift: books.lift,
        image: &books.image,
    };
    let card = card_of(list, rank, time, 100, 1 + time % 8);
    let compared = scan_card(list, &mut books.gate, card);
    tally.expect(Kind::CardsAfter, compared.is_right);
}

// A key: listed, beside a listed one, somewhere near it, or anywhere. In an empty list the key that was withdrawn last stands for a listed one.
fn pick_key(books: &Books, random: Random, turn: u32) -> u32 {
    let any = (random.state % 2147483648) as u32;
    let rank = random.pick(books.keys.len());
    let key = books.keys.get(rank).copied().unwrap_or(books.withdrawn);
    match turn % 4 {
        0 => key,
        1 => key ^ 1,
        2 => key ^ (any % 65536),
        _ => 2 * any,
    }
}

// Three withdrawals for every four sales.
fn pick_change(random: Random) -> Change {
    if random.state / 7 % 7 < 4 {
        Change::Add
    } else {
        Change::Withdraw
    }
}

// 150 turns on a list.
pub fn edits(tally: &mut Tally, alloc: Global, list: List, seed: Random) -> Result<(), AllocError> {
    let mut books = Books::new(alloc, list, seed)?;
    let mut random = seed;
    for i in 0..150 {
        random = random.next();
        let change = pick_change(random);
        random = random.next();
        let key = pick_key(&books, random, i);
        turn(tally, alloc, &mut books, change, key)?;
        random = random.next();
        let rank = random.pick(books.keys.len());
        scan_after(tally, &mut books, rank, 4000 + 20 * i);
    }
    Ok(())
}
