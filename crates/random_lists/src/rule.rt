// A plain rule of the gate, over the sorted array of keys and the records: which scans open, and what an opening records.
use crate::list::List;
use format::Refusal;
use testing::{holder_of, key_of};

// A card at the gate.
#[derive(Clone, Copy)]
pub struct Card {
    pub holder: u16,
    pub slot: u16,
    pub time: u32,
    pub lockout: u32,
    pub lane: u32,
    // The gate's.
    pub lift: u32,
}

impl Card {
    // What a record asks for.
    fn check(self, record: u32) -> Result<(), Refusal> {
        let now = u64::from(self.time) + 1;
        let opened = u64::from(record);
        if opened == 0 {
            Ok(())
        } else if now < opened {
            Err(Refusal::Earlier)
        } else if now < opened + u64::from(self.lockout) {
            Err(Refusal::Lockout)
        } else {
            Ok(())
        }
    }

    // The rank that the plain reader finds.
    pub fn rank(self, keys: &[u32]) -> Option<usize> {
        let key = key_of(self.holder, self.slot);
        keys.iter().position(|listed| *listed == key)
    }

    // Whether a refusal comes from another of the holder's records: the rank's own asks for none.
    pub fn is_by_another(self, records: &[u32], keys: &[u32], refusal: Refusal) -> bool {
        let record = self.rank(keys).and_then(|rank| records.get(rank).copied());
        matches!(refusal, Refusal::Earlier | Refusal::Lockout)
            && self.check(record.unwrap_or(0)).is_ok()
    }
}

// The largest record among all keys of the holder.
fn holder_record(keys: &[u32], records: &[u32], holder: u16) -> u32 {
    let mut largest: u32 = 0;
    for (key, record) in keys.iter().zip(records) {
        if holder_of(*key) == holder {
            largest = largest.max(*record);
        }
    }
    largest
}

// The plain rule: the rank that opens, and the opening is recorded. The records end in eight counts, lane 1's first.
pub fn rule(list: List, records: &mut [u32], card: Card) -> Result<usize, Refusal> {
    if list.lift != 0 && list.lift != card.lift {
        return Err(Refusal::Gate);
    }
    if card.lane < 1 || 8 < card.lane {
        return Err(Refusal::Lane);
    }
    let lane = card.lane as usize;
    let Some(first) = records.len().checked_sub(8) else {
        return Err(Refusal::Records);
    };
    let Some(rank) = card.rank(list.keys) else {
        return Err(Refusal::Admission);
    };
    card.check(holder_record(list.keys, records, card.holder))?;
    if let Some(count) = records.get_mut(first + lane - 1) {
        *count = count.saturating_add(1);
    }
    if let Some(record) = records.get_mut(rank) {
        *record = card.time.saturating_add(1);
    }
    Ok(rank)
}
