// Lanes: question 29, the length of the record buffer that ends in eight counts, question 23 of the named lane, and which elements an opening changes.
use crate::gates::{opens, refused, two_key_door};
use crate::images::Base;
use crate::judge::scans;
use crate::say::Tally;
use format::Refusal;
use std::io;

// 29: lane 257 is 1 in its lower 8 bits.
pub fn lanes(tally: &mut Tally) -> io::Result<()> {
    let names = "\
        29: lane 0\n\
        29: lane 9\n\
        29: lane 255\n\
        29: lane 257\n\
        29: lane 4,294,967,295\n";
    let before = [3, 4, 10, 20, 30, 40, 50, 60, 70, 80];
    let asked = refused(0, 9, 0, Refusal::Lane);
    for (name, lane) in names.lines().zip([0, 9, 255, 257, 4294967295]) {
        two_key_door(tally, before)?.scan(tally, name, 0, asked.in_lane(lane), before)?;
    }
    openings(tally, before)
}

// Openings in lanes 1, 8 and 2 that change their rank's record and their lane's count alone.
fn openings(tally: &mut Tally, before: [u32; 10]) -> io::Result<()> {
    let names = "\
        lane 1 opens: its count and the rank's record change alone\n\
        lane 8 opens: its count and the rank's record change alone\n\
        lane 2 opens: its count and the rank's record change alone\n";
    let cases = [
        (
            1,
            opens(0, 100, 0, 0),
            [101, 4, 11, 20, 30, 40, 50, 60, 70, 80],
        ),
        (
            8,
            opens(1, 200, 0, 1),
            [101, 201, 11, 20, 30, 40, 50, 60, 70, 81],
        ),
        (
            2,
            opens(0, 300, 0, 0),
            [301, 201, 11, 21, 30, 40, 50, 60, 70, 81],
        ),
    ];
    let mut door = two_key_door(tally, before)?;
    for (name, (lane, asked, after)) in names.lines().zip(cases) {
        door.scan(tally, name, 0, asked.in_lane(lane), after)?;
    }
    Ok(())
}

// A case: a scan in that lane, with a record buffer of `elements` zeros, gets this answer.
fn length_case(
    tally: &mut Tally,
    name: &str,
    image: &[u8],
    elements: usize,
    lane: u32,
    expected: Result<u32, Refusal>,
) -> io::Result<()> {
    let mut records = vec![in tally.alloc; 0; elements]?;
    tally.case(name, scans(image, &mut records, 9, lane, 7, expected))
}

// 21, and 29 before it. The image has two keys.
pub fn lengths(tally: &mut Tally) -> io::Result<()> {
    let names = "\
        21: no element\n\
        21: two elements\n\
        21: three elements, with one count\n\
        21: four elements\n\
        21: nine elements\n\
        21: eleven elements\n\
        21: ten elements open\n\
        21: nine elements, in lane 8\n\
        29: nine elements, in lane 9\n";
    let cases = [
        (0, 1, Err(Refusal::Records)),
        (2, 1, Err(Refusal::Records)),
        (3, 1, Err(Refusal::Records)),
        (4, 1, Err(Refusal::Records)),
        (9, 1, Err(Refusal::Records)),
        (11, 1, Err(Refusal::Records)),
        (10, 1, Ok(0)),
        (9, 8, Err(Refusal::Records)),
        (9, 9, Err(Refusal::Lane)),
    ];
    let image = Base::TwoKeys.image(tally.alloc)?;
    for (name, (elements, lane, expected)) in names.lines().zip(cases) {
        length_case(tally, name, &image, elements, lane, expected)?;
    }
    Ok(())
}

// The empty list, where lane 1's count is element 0.
pub fn empty_list(tally: &mut Tally) -> io::Result<()> {
    let names = "\
        24: eight elements for the empty list\n\
        29: eight elements for the empty list, in lane 9\n\
        21: seven elements for the empty list\n";
    let cases = [
        (8, 1, Refusal::Admission),
        (8, 9, Refusal::Lane),
        (7, 1, Refusal::Records),
    ];
    let image = Base::NoKey.image(tally.alloc)?;
    for (name, (elements, lane, refusal)) in names.lines().zip(cases) {
        length_case(tally, name, &image, elements, lane, Err(refusal))?;
    }
    Ok(())
}

// 23 looks at the named lane's count alone.
pub fn largest_count(tally: &mut Tally) -> io::Result<()> {
    let most: u32 = 4294967295;
    let full = refused(1, 9, 0, Refusal::Openings).in_lane(3);
    let fourth = opens(0, 9, 0, 0).in_lane(4);
    let before = [0, 0, 10, 20, most, 40, 50, 60, 70, 80];
    let mut d = two_key_door(tally, before)?;
    d.scan(tally, "23: the largest count in lane 3", 0, full, before)?;
    let name = "23: lane 4 opens beside it, and lane 3's count stays";
    let after = [10, 0, 10, 20, most, 41, 50, 60, 70, 80];
    d.scan(tally, name, 0, fourth, after)?;
    d.records = [10, 0, 10, 20, most - 1, 41, 50, 60, 70, 80];
    let name = "23: one below the largest count in lane 3 opens";
    let after = [10, 10, 10, 20, most, 41, 50, 60, 70, 80];
    d.scan(tally, name, 0, opens(1, 9, 0, 1).in_lane(3), after)?;
    d.scan(
        tally,
        "23: the largest count again in lane 3",
        0,
        full,
        after,
    )?;
    d.records = [0, 0, most, most, most, 40, most, most, most, most];
    let name = "23: lane 4 opens where every other count is the largest";
    let after = [10, 0, most, most, most, 41, most, most, most, most];
    d.scan(tally, name, 0, fourth, after)
}

// Eight openings, one in each lane.
pub fn each_lane(tally: &mut Tally) -> io::Result<()> {
    let names = "\
        an opening in lane 1\n\
        an opening in lane 2\n\
        an opening in lane 3\n\
        an opening in lane 4\n\
        an opening in lane 5\n\
        an opening in lane 6\n\
        an opening in lane 7\n\
        an opening in lane 8: each count is 1\n";
    let cases = [
        (1, [100, 0, 1, 0, 0, 0, 0, 0, 0, 0]),
        (2, [100, 0, 1, 1, 0, 0, 0, 0, 0, 0]),
        (3, [100, 0, 1, 1, 1, 0, 0, 0, 0, 0]),
        (4, [100, 0, 1, 1, 1, 1, 0, 0, 0, 0]),
        (5, [100, 0, 1, 1, 1, 1, 1, 0, 0, 0]),
        (6, [100, 0, 1, 1, 1, 1, 1, 1, 0, 0]),
        (7, [100, 0, 1, 1, 1, 1, 1, 1, 1, 0]),
        (8, [100, 0, 1, 1, 1, 1, 1, 1, 1, 1]),
    ];
    let asked = opens(0, 99, 0, 0);
    let mut door = two_key_door(tally, [0; 10])?;
    for (name, (lane, after)) in names.lines().zip(cases) {
        door.scan(tally, name, 0, asked.in_lane(lane), after)?;
    }
    Ok(())
}
