// Long rows of scans, against the plain rule of the gate: each answer, and after it every record and every lane's count.
use crate::cards::{Compared, card_of, lockout_of, next_of_holder, pick_rank, scan_card};
use crate::list::{List, Records};
use crate::rule::Card;
use crate::tally::{Kind, Tally};
use testing::Random;

// A scan of the row, counted.
fn count_scan(tally: &mut Tally, compared: Compared) {
    tally.expect(Kind::Scans, compared.is_right);
    if compared.by_another {
        tally.note(Kind::Another);
    }
}

// A time: later with each turn, but for up to 300 seconds.
fn time_of(turn: u32, random: Random) -> u32 {
    20 * (turn % 1000) + random.below(300)
}

// The card of a rank, or one beside it, in the lanes in turn.
fn turn_card(list: List, rank: usize, turn: u32, random: Random) -> Card {
    let time = time_of(turn, random);
    card_of(list, rank, time, lockout_of(turn), 1 + turn % 8).vary(turn)
}

// 150 scans, at times that mostly rise. Some must be refused by another of the holder's records if the holder of rank 0 has several.
pub fn scans(tally: &mut Tally, list: List, held: &mut Records, seed: Random) {
    let before = tally.count(Kind::Another);
    let mut random = seed;
    for i in 0..150 {
        random = random.next();
        let rank = pick_rank(random, list.keys);
        random = random.next();
        let card = turn_card(list, rank, i, random);
        count_scan(tally, scan_card(list, held, card));
    }
    let has_several = 0 < next_of_holder(list.keys, 0);
    tally.must(!has_several || before < tally.count(Kind::Another));
}
