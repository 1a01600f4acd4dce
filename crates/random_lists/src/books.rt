// The books that edits are held against: a sorted array of keys, and the image and the records that the edits made, with the records that are expected.
use crate::list::{List, Records};
use edit::Change;
use std::alloc::{AllocError, Global};
use testing::Random;

#[derive(Drop)]
pub struct Books {
    pub keys: Vec<u32>,
    pub lift: u32,
    pub image: Vec<u8>,
    pub gate: Records,
    // The key that was withdrawn last, 0 at first.
    pub withdrawn: u32,
}

impl Books {
    // The books of a list, with records and counts that rise by chance.
    pub fn new(alloc: Global, list: List, seed: Random) -> Result<Books, AllocError> {
        let mut records = vec![in alloc; 0; list.keys.len() + 8]?;
        testing::spaced(&mut records, 0, 3, seed);
        let expected = records.clone()?;
        Ok(Books {
            keys: Vec::from_slice(alloc, list.keys)?,
            lift: list.lift,
            image: Vec::from_slice(alloc, list.image)?,
            gate: Records { records, expected },
            withdrawn: 0,
        })
    }

    // Puts a key in at a rank, with record 0, or takes the rank's key out; the image and the records stay as they were.
    pub fn change(&mut self, change: Change, rank: usize, key: u32) -> Result<(), AllocError> {
        let keys = &mut self.keys;
        let expected = &mut self.gate.expected;
        match change {
            Change::Add => {
                if rank <= keys.len() && rank <= expected.len() {
                    keys.insert(rank, key)?;
                    expected.insert(rank, 0)?;
                }
            }
            Change::Withdraw => {
                if rank < keys.len() && rank < expected.len() {
                    self.withdrawn = keys.remove(rank);
                    expected.remove(rank);
                }
            }
        }
        Ok(())
    }
}
