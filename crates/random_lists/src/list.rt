// A list and what the gate holds of it.
use std::alloc::{AllocError, Global};

// The ascending keys of a list, and its image for a lift, 0 for version 1.
#[derive(Clone, Copy)]
pub struct List<'a> {
    pub keys: &'a [u32],
    pub lift: u32,
    pub image: &'a [u8],
}

// The records and counts at the gate, and those that the plain rule leaves.
#[derive(Drop)]
pub struct Records {
    pub records: Vec<u32>,
    pub expected: Vec<u32>,
}

impl Records {
    // Zeros, for so many keys.
    pub fn zeros(alloc: Global, list: List) -> Result<Records, AllocError> {
        let n = list.keys.len() + 8;
        Ok(Records {
            records: vec![in alloc; 0; n]?,
            expected: vec![in alloc; 0; n]?,
        })
    }
}
