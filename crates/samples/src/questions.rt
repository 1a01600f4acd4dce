// Questions 14 to 20, and the answers beside them.
use crate::found::{absent, in_page};
use crate::images::{Base, all_are, steps};
use crate::say::Tally;
use format::{Admission, Rectangle, Refusal};
use std::io;
use testing::rectangle;

// A case: the writer refuses the keys and leaves the buffer as lent.
fn writer_refuses(tally: &mut Tally, name: &str, keys: &[u32], refusal: Refusal) -> io::Result<()> {
    let mut out = [0xee; 2000];
    let written = writer::write_keys(keys, 999, &mut out);
    tally.case(name, written == Err(refusal) && all_are(&out, 0xee))
}

// 14 and 15: the keys 0, 1 and so on with some others at the start or at the end.
pub fn lists(tally: &mut Tally) -> io::Result<()> {
    let names = "\
        14: 4,097 keys\n\
        14: 4,097 keys with an equal pair\n\
        15: an equal pair\n\
        15: an equal pair among 4,096 keys\n\
        15: a descending pair\n";
    let cases: [(u32, [u32; 2], Refusal); 5] = [
        (4097, [0, 1], Refusal::More),
        (4097, [0, 0], Refusal::More),
        (2, [0, 0], Refusal::Order),
        (4096, [0, 0], Refusal::Order),
        (2, [1, 0], Refusal::Order),
    ];
    for (name, (n, pair, refusal)) in names.lines().zip(cases) {
        let mut keys = steps(tally.alloc, 1, n)?;
        for (key, other) in keys.iter_mut().zip(pair) {
            *key = other;
        }
        writer_refuses(tally, name, &keys, refusal)?;
    }
    let mut keys = vec![in tally.alloc; 0]?;
    for key in 2..4095 {
        keys.push(key)?;
    }
    keys.push(4094)?;
    writer_refuses(tally, "15: an equal pair at the end", &keys, Refusal::Order)
}

// 17.
pub fn buffers(tally: &mut Tally) -> io::Result<()> {
    let mut out = [0xee; 575];
    let written = writer::write_keys(&[0], 1, &mut out);
    tally.case("17: 575 bytes for 576", written == Err(Refusal::Room))?;
    tally.case("17: the buffer stays as lent", all_are(&out, 0xee))?;
    let mut out = [0xee; 576];
    let written = writer::write_keys(&[0], 1, &mut out);
    tally.case("17: 576 bytes for 576", written == Ok(576))
}

// Whether a list of one admission `n` times is refused for a lift, and the buffer stays as lent.
pub fn are_not_written(n: usize, lift: u32, refusal: Refusal) -> bool {
    let list = [Admission { holder: 0, slot: 0 }; 4096];
    let mut out = [0xee; 576];
    let written = writer::write_first(list, n, lift, &mut out);
    written == Err(refusal) && all_are(&out, 0xee)
}

// 14, 15 and plate 9, through the list of admissions.
pub fn admissions(tally: &mut Tally) -> io::Result<()> {
    let names = "\
        15: an admission twice\n\
        14: n 4,097 of an array of 4,096\n\
        35: n 4,097 of an array of 4,096, for lift 0\n";
    let cases = [
        (2, 7, Refusal::Order),
        (4097, 7, Refusal::More),
        (4097, 0, Refusal::Lift),
    ];
    for (name, (n, lift, refusal)) in names.lines().zip(cases) {
        tally.case(name, are_not_written(n, lift, refusal))?;
    }
    let mut list = [Admission { holder: 0, slot: 0 }; 4096];
    list[1] = Admission { holder: 0, slot: 1 };
    let mut out = [0xee; 576];
    let written = writer::write_first(list, 2, 7, &mut out);
    tally.case("plate 9 from admissions: 576 bytes", written == Ok(576))?;
    let image = Base::TwoKeys.image_for(tally.alloc, 7)?;
    tally.case(
        "plate 9 from admissions: the same bytes",
        out.starts_with(&image),
    )
}

// Whether count and listing are refused, and the listing leaves the buffer as lent.
fn are_refused(image: &[u8], asked: Rectangle, refusal: Refusal) -> bool {
    let mut keys = [77; 4];
    query::count(image, asked) == Err(refusal)
        && query::list(image, asked, &mut keys) == Err(refusal)
        && all_are(&keys, 77)
}

// 18: a low end above its high end.
pub fn rectangles(tally: &mut Tally) -> io::Result<()> {
    let image = Base::TwoKeys.image(tally.alloc)?;
    let cases = [rectangle(1, 0, 0, 0), rectangle(0, 0, 65535, 65534)];
    for (name, asked) in "18: holders\n18: slots\n".lines().zip(cases) {
        tally.case(name, are_refused(&image, asked, Refusal::Rectangle))?;
    }
    places(tally)
}

// A case: a listing into a buffer of `places` places gets this count, or this refusal and leaves the buffer as lent.
fn listing(
    tally: &mut Tally,
    name: &str,
    image: &[u8],
    asked: Rectangle,
    places: usize,
    expected: Result<usize, Refusal>,
) -> io::Result<()> {
    let mut keys = vec![in tally.alloc; 77; places]?;
    let listed = query::list(image, asked, &mut keys);
    let is_lent = expected.is_ok() || all_are(&keys, 77);
    tally.case(name, listed == expected && is_lent)
}

// 19.
fn places(tally: &mut Tally) -> io::Result<()> {
    let names = "\
        19: 60 places for 61 members\n\
        19: 61 places for 61 members\n\
        19: no place for no member\n\
        19: no place for one member\n\
        19: one place for one member\n";
    let whole = Rectangle::whole_square();
    let cases = [
        (Base::TwoPages, whole, 60, Err(Refusal::Place)),
        (Base::TwoPages, whole, 61, Ok(61)),
        (Base::TwoKeys, rectangle(1, 9, 0, 9), 0, Ok(0)),
        (Base::TwoKeys, rectangle(0, 0, 1, 1), 0, Err(Refusal::Place)),
        (Base::TwoKeys, rectangle(0, 0, 1, 1), 1, Ok(1)),
    ];
    for (name, (base, asked, places, expected)) in names.lines().zip(cases) {
        let image = base.image(tally.alloc)?;
        listing(tally, name, &image, asked, places, expected)?;
    }
    Ok(())
}

// 20, and lookup. Key 944 is holder 28, slot 20, and key 960, the last of 61, is holder 24, slot 24.
pub fn ranks(tally: &mut Tally) -> io::Result<()> {
    let image = Base::TwoPages.image(tally.alloc)?;
    let names = "\
        20: rank 61 of 61\n\
        20: rank 60 of 61\n\
        20: rank 59 of 61\n\
        20: rank 4,294,967,295\n";
    let last = Admission {
        holder: 24,
        slot: 24,
    };
    let before = Admission {
        holder: 28,
        slot: 20,
    };
    let cases = [
        (61, Err(Refusal::Rank)),
        (60, Ok(last)),
        (59, Ok(before)),
        (4294967295, Err(Refusal::Rank)),
    ];
    for (name, (rank, expected)) in names.lines().zip(cases) {
        tally.case(name, query::find(&image, rank) == expected)?;
    }
    lookups(tally, &image)
}

fn lookups(tally: &mut Tally, image: &[u8]) -> io::Result<()> {
    let names = "\
        lookup of the last key of page 8\n\
        lookup of the first key of page 9\n\
        lookup of an absent key of page 9: 61 smaller\n\
        lookup of the last key of all, absent: 61 smaller\n";
    let cases = [
        (28, 20, in_page(59, 8)),
        (24, 24, in_page(60, 9)),
        (24, 25, absent(61)),
        (65535, 65535, absent(61)),
    ];
    for (name, (holder, slot, expected)) in names.lines().zip(cases) {
        tally.case(name, query::lookup(image, holder, slot) == expected)?;
    }
    Ok(())
}
