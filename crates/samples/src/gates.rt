// The gate's scans of a version 1 image, which passes at any lift's gate: the lockout rows of the paper, and questions 22 to 26 on both sides of their edges.
// Both admissions are holder 0's, so the larger of their records counts for each.
use crate::images::Base;
use crate::say::Tally;
use format::Refusal;
use std::io;

// A scan of a holder in a lane, and the answer that is due.
#[derive(Clone, Copy)]
pub struct Scan {
    pub lane: u32,
    pub slot: u16,
    pub time: u32,
    pub lockout: u32,
    pub due: Result<u32, Refusal>,
}

// A scan in lane 1 that opens a rank.
pub fn opens(slot: u16, time: u32, lockout: u32, rank: u32) -> Scan {
    Scan {
        lane: 1,
        slot,
        time,
        lockout,
        due: Ok(rank),
    }
}

// A scan in lane 1 that is refused.
pub fn refused(slot: u16, time: u32, lockout: u32, refusal: Refusal) -> Scan {
    Scan {
        lane: 1,
        slot,
        time,
        lockout,
        due: Err(refusal),
    }
}

impl Scan {
    // The same scan in that lane.
    pub fn in_lane(self, lane: u32) -> Scan {
        Scan { lane, ..self }
    }

    // Whether the scan gets its answer at a gate of lift 7.
    pub fn is_answered(self, image: &[u8], records: &mut [u32], holder: u16) -> bool {
        let scanned = gate::scan(
            image,
            records,
            holder,
            self.slot,
            self.time,
            self.lockout,
            self.lane,
            7,
        );
        scanned == self.due
    }
}

// A gate: its image, and the records of the ranks, then the counts of the lanes 1 to 8.
#[derive(Drop)]
pub struct Door<const N: usize> {
    pub image: Vec<u8>,
    pub records: [u32; N],
}

impl<const N: usize> Door<N> {
    // A case: a scan of a holder gets its answer, and the records are then `after`.
    pub fn scan(
        &mut self,
        tally: &mut Tally,
        name: &str,
        holder: u16,
        asked: Scan,
        after: [u32; N],
    ) -> io::Result<()> {
        let is_answered = asked.is_answered(&self.image, &mut self.records, holder);
        tally.case(name, is_answered && self.records == after)
    }
}

// The door of two keys with these records.
pub fn two_key_door(tally: &Tally, records: [u32; 10]) -> io::Result<Door<10>> {
    Ok(Door {
        image: Base::TwoKeys.image(tally.alloc)?,
        records,
    })
}

// The records of the ranks 0 and 1, and `openings` in lane 1 alone.
fn records_of(first: u32, second: u32, openings: u32) -> [u32; 10] {
    [first, second, openings, 0, 0, 0, 0, 0, 0, 0]
}

// Lockout 600, slot 0 opened at 1000.
pub fn lockouts(tally: &mut Tally) -> io::Result<()> {
    let names = "\
        lockout 600: opened at 1000, record 1001\n\
        lockout 600: at 999, 25\n\
        lockout 600: at 1000 again, 26\n\
        lockout 600: at 1599, 26, and the record stays 1001\n\
        lockout 600: the holder's other slot at 1599, 26\n\
        lockout 600: at 1600 open, record 1601\n\
        lockout 0: at 1600 open again\n";
    let cases = [
        (opens(0, 1000, 600, 0), 1001, 1),
        (refused(0, 999, 600, Refusal::Earlier), 1001, 1),
        (refused(0, 1000, 600, Refusal::Lockout), 1001, 1),
        (refused(0, 1599, 600, Refusal::Lockout), 1001, 1),
        (refused(1, 1599, 600, Refusal::Lockout), 1001, 1),
        (opens(0, 1600, 600, 0), 1601, 2),
        (opens(0, 1600, 0, 0), 1601, 3),
    ];
    let mut door = two_key_door(tally, [0; 10])?;
    for (name, (asked, record, openings)) in names.lines().zip(cases) {
        door.scan(tally, name, 0, asked, records_of(record, 0, openings))?;
    }
    Ok(())
}

const MOST: u32 = 4294967295;

// 22, 24 and 26, at the largest numbers.
pub fn limits(tally: &mut Tally) -> io::Result<()> {
    let names = "\
        22: the last time\n\
        22: the time before it opens\n\
        26: the longest lockout\n\
        24: not listed\n";
    let cases = [
        (refused(0, MOST, 0, Refusal::Time), 0, 0),
        (opens(0, MOST - 1, 0, 0), MOST, 1),
        (refused(0, MOST - 1, MOST, Refusal::Lockout), MOST, 1),
        (refused(2, 9, 0, Refusal::Admission), MOST, 1),
    ];
    let mut door = two_key_door(tally, [0; 10])?;
    for (name, (asked, record, openings)) in names.lines().zip(cases) {
        door.scan(tally, name, 0, asked, records_of(record, 0, openings))?;
    }
    largest_counts(tally)
}

// 23, on both sides.
fn largest_counts(tally: &mut Tally) -> io::Result<()> {
    let full = records_of(MOST, 0, MOST);
    let asked = refused(1, 9, 0, Refusal::Openings);
    two_key_door(tally, full)?.scan(tally, "23: the largest count in lane 1", 0, asked, full)?;
    let name = "23: one below the largest count opens";
    let after = records_of(5, 10, MOST);
    two_key_door(tally, records_of(5, 0, MOST - 1))?.scan(tally, name, 0, opens(1, 9, 0, 1), after)
}
