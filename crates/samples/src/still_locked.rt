// Lockouts through sales and withdrawals: the gate goes on with the new image and the new records, and knows what opened before.
use crate::gates::{Scan, opens, refused};
use crate::images::written;
use crate::say::Tally;
use answers::edit_key;
use edit::Change;
use format::Refusal;
use std::io;
use testing::key_of;

// A gate's image, and its records and counts.
#[derive(Drop)]
struct Gate {
    image: Vec<u8>,
    records: Vec<u32>,
}

impl Gate {
    // The gate of holder 3, with slots 10 and 11, and holder 8, with slot 10.
    fn opened(tally: &Tally) -> io::Result<Gate> {
        let keys = [key_of(3, 10), key_of(3, 11), key_of(8, 10)];
        let mut image = written(tally.alloc, &keys, 7, 640)?;
        image.truncate(576);
        Ok(Gate {
            image,
            records: vec![in tally.alloc; 0; 11]?,
        })
    }

    // A case: a scan of a holder gets its answer.
    fn scan(&mut self, tally: &mut Tally, name: &str, holder: u16, asked: Scan) -> io::Result<()> {
        let is_answered = asked.is_answered(&self.image, &mut self.records, holder);
        tally.case(name, is_answered)
    }

    // A case: the gate with an admission more or less, of which there are then `keys`. The new records have more places than they need.
    fn edit(
        &mut self,
        tally: &mut Tally,
        name: &str,
        change: Change,
        holder: u16,
        slot: u16,
        keys: u16,
    ) -> io::Result<()> {
        let key = key_of(holder, slot);
        let mut image = vec![in tally.alloc; 0; 640]?;
        let mut records = vec![in tally.alloc; 0; 16]?;
        let edited = edit_key(
            change,
            &self.image,
            &self.records,
            key,
            &mut image,
            &mut records,
        );
        image.truncate(edited.unwrap_or(0));
        records.truncate(usize::from(keys) + 8);
        self.image = image;
        self.records = records;
        tally.case(name, edited.is_ok())
    }
}

// Holder 3's lockout of 600 seconds from 1000 on, with a sale to the same holder and one to another meanwhile, and a withdrawal of another's.
pub fn lockouts(tally: &mut Tally) -> io::Result<()> {
    let mut gate = Gate::opened(tally)?;
    gate.scan(tally, "holder 3 opens at 1000", 3, opens(10, 1000, 600, 0))?;
    gate.edit(tally, "slot 12 sold to holder 3", Change::Add, 3, 12, 4)?;
    let name = "26: the slot just sold, at 1200";
    gate.scan(tally, name, 3, refused(12, 1200, 600, Refusal::Lockout))?;
    let name = "slot 9 sold to holder 1, before all others";
    gate.edit(tally, name, Change::Add, 1, 9, 5)?;
    let name = "holder 8's admission withdrawn";
    gate.edit(tally, name, Change::Withdraw, 8, 10, 4)?;
    let name = "26: holder 3 at 1599";
    gate.scan(tally, name, 3, refused(11, 1599, 600, Refusal::Lockout))?;
    let name = "24: holder 8 at 1599";
    gate.scan(tally, name, 8, refused(10, 1599, 600, Refusal::Admission))?;
    opened_and_withdrawn(tally, &mut gate)
}

fn opened_and_withdrawn(tally: &mut Tally, gate: &mut Gate) -> io::Result<()> {
    let name = "holder 3's slot 10, which opened, withdrawn: its record goes with it";
    gate.edit(tally, name, Change::Withdraw, 3, 10, 3)?;
    let name = "holder 3's slot 11 opens at 1599";
    gate.scan(tally, name, 3, opens(11, 1599, 600, 1))?;
    let name = "26: and locks out the slot that was sold, until 2199";
    gate.scan(tally, name, 3, refused(12, 2198, 600, Refusal::Lockout))?;
    gate.edit(
        tally,
        "holder 3's slot 10 sold again",
        Change::Add,
        3,
        10,
        4,
    )?;
    let name = "26: at 2198";
    gate.scan(tally, name, 3, refused(10, 2198, 600, Refusal::Lockout))?;
    gate.scan(tally, "it opens at 2199", 3, opens(10, 2199, 600, 1))
}
