// One sale and one withdrawal: the changed list's image, each record at its new rank, and questions 21, 30, 14 and 17 in their order.
use crate::changes::{Edit, Held, THREE_RECORDS, add, three_for, withdraw};
use crate::images::Base;
use crate::say::Tally;
use format::Refusal;
use std::io;

const LAST: u32 = 4294967295;

// A key at each place of the keys 5, 9 and 12, and the records of those beside it.
pub fn ranks(tally: &mut Tally) -> io::Result<()> {
    let names = "\
        key 3 added before the first: every record moves up\n\
        key 0 added before the first\n\
        key 6 added at rank 1\n\
        key 10 added at rank 2\n\
        the last key of all added after the last: only the counts move\n\
        the first key withdrawn: every other record moves down\n\
        the second key withdrawn\n\
        the last key withdrawn: only the counts move\n";
    let cases: [(Edit, &[u32], &[u32]); 8] = [
        (add(3), &[3, 5, 9, 12], &[0, 501, 901, 1201]),
        (add(0), &[0, 5, 9, 12], &[0, 501, 901, 1201]),
        (add(6), &[5, 6, 9, 12], &[501, 0, 901, 1201]),
        (add(10), &[5, 9, 10, 12], &[501, 901, 0, 1201]),
        (add(LAST), &[5, 9, 12, LAST], &[501, 901, 1201, 0]),
        (withdraw(5), &[9, 12], &[901, 1201]),
        (withdraw(9), &[5, 12], &[501, 1201]),
        (withdraw(12), &[5, 9], &[501, 901]),
    ];
    let image = three_for(tally.alloc, 0)?;
    let three = Held {
        image: &image,
        records: &THREE_RECORDS,
    };
    for (name, (edit, keys, ranks)) in names.lines().zip(cases) {
        let mut after = Vec::from_slice(tally.alloc, ranks)?;
        after.extend_from_slice(&[10, 20, 30, 40, 50, 60, 70, 80])?;
        tally.case(name, three.gives(edit, keys, 0, &after))?;
    }
    Ok(())
}

// Into the empty list, and out of a list of one.
pub fn smallest(tally: &mut Tally) -> io::Result<()> {
    let empty = Base::NoKey.image(tally.alloc)?;
    let none = Held {
        image: &empty,
        records: &[1, 2, 3, 4, 5, 6, 7, 8],
    };
    let first = Base::OneKey.image(tally.alloc)?;
    let one = Held {
        image: &first,
        records: &[9, 1, 2, 3, 4, 5, 6, 7, 8],
    };
    tally.case(
        "key 0 added to the empty list: the image of key 0, and its record is 0",
        none.gives(add(0), &[0], 0, &[0, 1, 2, 3, 4, 5, 6, 7, 8]),
    )?;
    tally.case(
        "key 0 withdrawn from its own list: the empty image, and the counts",
        one.gives(withdraw(0), &[], 0, none.records),
    )?;
    let names = "\
        30: key 0 withdrawn from the empty list\n\
        30: key 0 added to its own list\n\
        30: key 1 withdrawn from the list of key 0\n";
    let cases = [(none, withdraw(0)), (one, add(0)), (one, withdraw(1))];
    for (name, (held, edit)) in names.lines().zip(cases) {
        tally.case(name, held.refuses(edit, Refusal::Change))?;
    }
    Ok(())
}

// 21, before 30: edits of keys that can be changed, and of keys that cannot.
pub fn records(tally: &mut Tally) -> io::Result<()> {
    let names = "\
        21: no record\n\
        21: records one short\n\
        21: records one long\n";
    let cases: [&[u32]; 3] = [
        &[],
        &[501, 901, 1201, 10, 20, 30, 40, 50, 60, 70],
        &[501, 901, 1201, 10, 20, 30, 40, 50, 60, 70, 80, 90],
    ];
    let image = three_for(tally.alloc, 7)?;
    for (name, records) in names.lines().zip(cases) {
        let held = Held {
            image: &image,
            records,
        };
        let are_refused = [add(6), withdraw(9), add(9), withdraw(6)]
            .iter()
            .all(|edit| held.refuses(*edit, Refusal::Records));
        tally.case(name, are_refused)?;
    }
    Ok(())
}

// 17 of either output, and 30 before it. The images of two and of four keys have 576 bytes too.
pub fn outputs(tally: &mut Tally) -> io::Result<()> {
    let names = "\
        17: an addition, 575 bytes for 576\n\
        17: an addition, 11 elements for 12\n\
        17: an addition, no byte and no element\n\
        17: an addition, 576 bytes and 12 elements are enough\n\
        17: a withdrawal, 575 bytes for 576\n\
        17: a withdrawal, 9 elements for 10\n\
        17: a withdrawal, 576 bytes and 10 elements are enough\n\
        30: a listed key added, with no byte and no element\n\
        30: a key that is not listed withdrawn, with no byte and no element\n";
    let cases = [
        (add(6), 575, 12, Some(Refusal::Room)),
        (add(6), 576, 11, Some(Refusal::Room)),
        (add(6), 0, 0, Some(Refusal::Room)),
        (add(6), 576, 12, None),
        (withdraw(9), 575, 10, Some(Refusal::Room)),
        (withdraw(9), 576, 9, Some(Refusal::Room)),
        (withdraw(9), 576, 10, None),
        (add(9), 0, 0, Some(Refusal::Change)),
        (withdraw(6), 0, 0, Some(Refusal::Change)),
    ];
    let image = three_for(tally.alloc, 7)?;
    let three = Held {
        image: &image,
        records: &THREE_RECORDS,
    };
    for (name, (edit, bytes, elements, expected)) in names.lines().zip(cases) {
        tally.case(name, three.ends(edit, bytes, elements, expected))?;
    }
    Ok(())
}
