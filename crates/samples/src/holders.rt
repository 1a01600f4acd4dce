// The lockout follows the holder: rows of scans of a short list, in which one holder has three admissions and each of the others has one.
use crate::gates::{Door, opens, refused};
use crate::images::written;
use crate::say::Tally;
use format::Refusal;
use std::alloc::{AllocError, Global};
use std::io;

// The image of seven admissions, by rank: slot 10 of holder 4, slots 10 and 11 of holder 5, slot 10 of holder 6, slot 20 of holder 9, slot 500 of holder 5,
// and slot 10 of holder 32,773, which is 5 in its lower 15 bits.
pub fn few_holders(alloc: Global) -> Result<Vec<u8>, AllocError> {
    written(alloc, &[100, 102, 103, 108, 402, 87346, 2147483750], 0, 576)
}

// The records of the ranks, and `openings` in lane 1 alone.
fn records_of(r: [u32; 7], openings: u32) -> [u32; 15] {
    [
        r[0], r[1], r[2], r[3], r[4], r[5], r[6], openings, 0, 0, 0, 0, 0, 0, 0,
    ]
}

// The door of the list with these records, and no opening in any lane before.
fn door(tally: &Tally, ranks: [u32; 7]) -> io::Result<Door<15>> {
    Ok(Door {
        image: few_holders(tally.alloc)?,
        records: records_of(ranks, 0),
    })
}

// Paper 02's row: slot 10 opened at 1000. Slot 12 is not listed.
pub fn passed_back(tally: &mut Tally) -> io::Result<()> {
    let names = "\
        lockout 600: holder 5's slot 10 opened at 1000, record 1001\n\
        lockout 600: the same holder's slot 11 at 1200, 26\n\
        lockout 600: the same holder's slot 11 at 1599, 26\n\
        lockout 600: the same holder's slot 12, not listed, at 1599, 24\n\
        lockout 600: slot 11 opens at 1600, record 1601, and slot 10's stays 1001\n\
        lockout 600: slot 10 at 1700, 26, by slot 11's record\n\
        lockout 600: slot 10 at 1500, 25, by slot 11's record\n\
        lockout 600: slot 500, whose own record is 0, at 2199, 26\n\
        lockout 600: slot 12, not listed, at 2200, 24\n\
        lockout 600: slot 10 opens at 2200, record 2201, and slot 11's stays 1601\n";
    let cases = [
        (opens(10, 1000, 600, 1), 1001, 0, 1),
        (refused(11, 1200, 600, Refusal::Lockout), 1001, 0, 1),
        (refused(11, 1599, 600, Refusal::Lockout), 1001, 0, 1),
        (refused(12, 1599, 600, Refusal::Admission), 1001, 0, 1),
        (opens(11, 1600, 600, 2), 1001, 1601, 2),
        (refused(10, 1700, 600, Refusal::Lockout), 1001, 1601, 2),
        (refused(10, 1500, 600, Refusal::Earlier), 1001, 1601, 2),
        (refused(500, 2199, 600, Refusal::Lockout), 1001, 1601, 2),
        (refused(12, 2200, 600, Refusal::Admission), 1001, 1601, 2),
        (opens(10, 2200, 600, 1), 2201, 1601, 3),
    ];
    let mut door = door(tally, [0; 7])?;
    for (name, (asked, first, second, openings)) in names.lines().zip(cases) {
        let after = records_of([0, first, second, 0, 0, 0, 0], openings);
        door.scan(tally, name, 5, asked, after)?;
    }
    Ok(())
}

// Other holders in the same slot, of numbers beside the holder's and with another high bit.
pub fn other_holders(tally: &mut Tally) -> io::Result<()> {
    let names = "\
        other holders: slot 10 of holder 5 opened at 1000\n\
        other holders: slot 10 of holder 4 opens at 1200\n\
        other holders: slot 10 of holder 6 opens at 1200\n\
        other holders: slot 10 of holder 32,773 opens at 1200\n\
        other holders: slot 11 of holder 5 at 1599, 26\n\
        other holders: slot 11 of holder 5 opens at 1600\n\
        other holders: slot 10 of holder 4 at 1600, 26\n";
    let all = [1201, 1001, 0, 1201, 0, 0, 1201];
    let again = [1201, 1001, 1601, 1201, 0, 0, 1201];
    let cases = [
        (5, opens(10, 1000, 600, 1), [0, 1001, 0, 0, 0, 0, 0], 1),
        (4, opens(10, 1200, 600, 0), [1201, 1001, 0, 0, 0, 0, 0], 2),
        (
            6,
            opens(10, 1200, 600, 3),
            [1201, 1001, 0, 1201, 0, 0, 0],
            3,
        ),
        (32773, opens(10, 1200, 600, 6), all, 4),
        (5, refused(11, 1599, 600, Refusal::Lockout), all, 4),
        (5, opens(11, 1600, 600, 2), again, 5),
        (4, refused(10, 1600, 600, Refusal::Lockout), again, 5),
    ];
    let mut door = door(tally, [0; 7])?;
    for (name, (holder, asked, ranks, openings)) in names.lines().zip(cases) {
        door.scan(tally, name, holder, asked, records_of(ranks, openings))?;
    }
    Ok(())
}

// Holder 9 has one admission. Every other admission of the list has opened, most of them later.
pub fn one_admission(tally: &mut Tally) -> io::Result<()> {
    let names = "\
        one admission: opens at 1000 among other holders' records, record 1001\n\
        one admission: at 999, 25\n\
        one admission: at 1599, 26\n\
        one admission: opens at 1600, record 1601\n";
    let cases = [
        (opens(20, 1000, 600, 4), 1001, 1),
        (refused(20, 999, 600, Refusal::Earlier), 1001, 1),
        (refused(20, 1599, 600, Refusal::Lockout), 1001, 1),
        (opens(20, 1600, 600, 4), 1601, 2),
    ];
    let mut door = door(tally, [901, 1500, 1601, 4000, 0, 1599, 4294967295])?;
    for (name, (asked, record, openings)) in names.lines().zip(cases) {
        let ranks = [901, 1500, 1601, 4000, record, 1599, 4294967295];
        door.scan(tally, name, 9, asked, records_of(ranks, openings))?;
    }
    Ok(())
}
