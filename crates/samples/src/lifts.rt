// Lifts: question 35 of an image and of the writer, the image of a lift, and question 36.
use crate::images::{Base, all_are, change, first, number, steps};
use crate::judge::{accepts, refuses, scans};
use crate::questions::are_not_written;
use crate::say::Tally;
use format::Refusal;
use std::alloc::{AllocError, Global};
use std::io;

// The image of key 0 in version 2, with these bytes in place of the lift's, and one that must be zero.
fn version_2(alloc: Global, high: u8, low: u8, zero: u8) -> Result<Vec<u8>, AllocError> {
    Base::OneKey.with(alloc, &[(4, 2), (40, high), (41, low), (42, zero)])
}

// 35, and 5 before it and 6 after it.
pub fn headers(tally: &mut Tally) -> io::Result<()> {
    let names = "\
        35: version 2 and lift 0\n\
        35: lift 1,000\n\
        35: lift 65,535\n\
        35: lift 0 and 575 bytes of 576\n\
        5: byte 42 in version 2\n\
        5: byte 42 in version 2, and lift 0\n";
    let cases = [
        (0, 0, 0, 576, Refusal::Lift),
        (3, 232, 0, 576, Refusal::Lift),
        (255, 255, 0, 576, Refusal::Lift),
        (0, 0, 0, 575, Refusal::Lift),
        (0, 7, 1, 576, Refusal::ZeroBytes),
        (0, 0, 1, 576, Refusal::ZeroBytes),
    ];
    for (name, (high, low, zero, size, refusal)) in names.lines().zip(cases) {
        let image = version_2(tally.alloc, high, low, zero)?;
        refuses(tally, name, first(&image, size), refusal)?;
    }
    accepts(tally, "lift 1", &version_2(tally.alloc, 0, 1, 0)?, 576)?;
    accepts(tally, "lift 999", &version_2(tally.alloc, 3, 231, 0)?, 576)
}

// Whether the writer refuses the keys for a lift with 35, and leaves the buffer as lent.
fn is_refused(keys: &[u32], lift: u32) -> bool {
    let mut out = [0xee; 2000];
    let written = writer::write_keys(keys, lift, &mut out);
    written == Err(Refusal::Lift) && all_are(&out, 0xee)
}

// 35 of the writer, before 14 and 15. Lift 65,537 is 1 in its lower 16 bits.
pub fn writers(tally: &mut Tally) -> io::Result<()> {
    let names = "\
        35: written for lift 0\n\
        35: written for lift 1,000\n\
        35: written for lift 65,537\n\
        35: 4,097 keys for lift 0\n";
    let cases = [(2, 0), (2, 1000), (2, 65537), (4097, 0)];
    for (name, (n, lift)) in names.lines().zip(cases) {
        let keys = steps(tally.alloc, 1, n)?;
        tally.case(name, is_refused(&keys, lift))?;
    }
    let names = "\
        35: an admission twice for lift 0\n\
        35: an admission twice for lift 65,537\n";
    for (name, lift) in names.lines().zip([0, 65537]) {
        tally.case(name, are_not_written(2, lift, Refusal::Lift))?;
    }
    Ok(())
}

// Whether an image has these numbers as version and lift, and is the one of version 1 in every other byte.
fn is_for(alloc: Global, image: &[u8], version: u16, lift: u16) -> Result<bool, AllocError> {
    let first = Base::TwoKeys.image(alloc)?;
    let mut other = Vec::from_slice(alloc, image)?;
    change(&mut other, &[(4, 1), (40, 0), (41, 0)]);
    let has_numbers = number(image, 3) == Some(version) && number(image, 40) == Some(lift);
    Ok(has_numbers && other == first)
}

// What is written for a lift.
pub fn images(tally: &mut Tally) -> io::Result<()> {
    let names = "\
        version 1 for lift 0\n\
        version 2 for lift 1\n\
        version 2 for lift 999\n";
    for (name, (version, lift)) in names.lines().zip([(1, 0), (2, 1), (2, 999)]) {
        let image = Base::TwoKeys.image_for(tally.alloc, u32::from(lift))?;
        let is_right = is_for(tally.alloc, &image, version, lift)?;
        tally.case(name, is_right)?;
    }
    lift_numbers(tally)
}

// What the checker says of it.
fn lift_numbers(tally: &mut Tally) -> io::Result<()> {
    let names = "\
        the lift of version 1 is 0\n\
        the lift of lift 1's image is 1\n\
        the lift of lift 999's image is 999\n";
    for (name, lift) in names.lines().zip([0u16, 1, 999]) {
        let image = Base::TwoKeys.image_for(tally.alloc, u32::from(lift))?;
        tally.case(name, checker::lift(&image) == Ok(usize::from(lift)))?;
    }
    let image = version_2(tally.alloc, 0, 0, 0)?;
    let refused = checker::lift(&image) == Err(Refusal::Lift);
    tally.case("the lift of a refused image", refused)
}

// A case: a scan in lane 1 of a lift's gate, with a record buffer of ten elements, gets this answer.
fn gate_case(
    tally: &mut Tally,
    name: &str,
    image: &[u8],
    lift: u32,
    expected: Result<u32, Refusal>,
) -> io::Result<()> {
    let mut records = [0; 10];
    tally.case(name, scans(image, &mut records, 9, 1, lift, expected))
}

// 36. Lift 65,543 is 7 in its lower 16 bits.
pub fn gates(tally: &mut Tally) -> io::Result<()> {
    let names = "\
        lift 7 at its gate\n\
        36: lift 7 at lift 8's gate\n\
        36: lift 7 at a gate of lift 0\n\
        36: lift 7 at a gate of lift 65,543\n\
        version 1 at lift 7's gate\n\
        version 1 at a gate of lift 0\n\
        version 1 at a gate of lift 4,294,967,295\n";
    let cases = [
        (7, 7, Ok(0)),
        (7, 8, Err(Refusal::Gate)),
        (7, 0, Err(Refusal::Gate)),
        (7, 65543, Err(Refusal::Gate)),
        (0, 7, Ok(0)),
        (0, 0, Ok(0)),
        (0, 4294967295, Ok(0)),
    ];
    for (name, (lift, gate, expected)) in names.lines().zip(cases) {
        let image = Base::TwoKeys.image_for(tally.alloc, lift)?;
        gate_case(tally, name, &image, gate, expected)?;
    }
    Ok(())
}

// 13 before 36 and 29, and 36 before 29, 21 and 22: lift 7's image, with another low byte of the key count, at lift 8's gate.
pub fn gate_order(tally: &mut Tally) -> io::Result<()> {
    let names = "\
        13: another key count, in lane 9 at another lift's gate\n\
        36: lane 9 at another lift's gate\n\
        36: two elements at another lift's gate\n\
        36: the last time at another lift's gate\n";
    let cases = [
        (1, 10, 9, 9, Refusal::Links),
        (2, 10, 9, 9, Refusal::Gate),
        (2, 2, 9, 1, Refusal::Gate),
        (2, 10, 4294967295, 1, Refusal::Gate),
    ];
    for (name, (keys, elements, time, lane, refusal)) in names.lines().zip(cases) {
        let mut image = Base::TwoKeys.image_for(tally.alloc, 7)?;
        change(&mut image, &[(7, keys)]);
        let mut records = vec![in tally.alloc; 0; elements]?;
        let is_refused = scans(&image, &mut records, time, lane, 8, Err(refusal));
        tally.case(name, is_refused)?;
    }
    Ok(())
}
