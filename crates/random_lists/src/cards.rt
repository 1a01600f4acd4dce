// Cards at the gate: whose they are, what is wrong with some of them, and how a scan of one compares with the plain rule.
use crate::ask::at_rank;
use crate::list::{List, Records};
use crate::rule::{Card, rule};
use format::Refusal;
use testing::{Random, holder_of};

// A scan beside the rule.
#[derive(Clone, Copy)]
pub struct Compared {
    // The rank that opened.
    pub answer: Result<u32, Refusal>,
    // Whether it got the rule's answer, and left the records and counts that the rule leaves.
    pub is_right: bool,
    // Whether the rule refuses it by another of the holder's records.
    pub by_another: bool,
}

// A scan of the card, by the gate and by the rule.
pub fn scan_card(list: List, held: &mut Records, card: Card) -> Compared {
    let ruled = rule(list, &mut held.expected, card);
    let answer = gate::scan(
        list.image,
        &mut held.records,
        card.holder,
        card.slot,
        card.time,
        card.lockout,
        card.lane,
        card.lift,
    );
    let is_answer = answer.map(|rank| rank as usize) == ruled;
    let refusal = ruled.err();
    Compared {
        answer,
        is_right: is_answer && held.records == held.expected,
        by_another: refusal.is_some_and(|refusal| card.is_by_another(
            &held.expected,
            list.keys,
            refusal,
        )),
    }
}

// The first rank from `from` on that has the holder of `rank`, or else the first of all that has.
pub fn same_holder(keys: &[u32], rank: usize, from: usize) -> usize {
    let Some(key) = keys.get(rank) else {
        return rank;
    };
    let holder = holder_of(*key);
    let mut first = rank;
    for (i, other) in keys.iter().enumerate() {
        if holder_of(*other) == holder {
            if from <= i {
                return i;
            }
            if i < first {
                first = i;
            }
        }
    }
    first
}

// The next rank that has the holder of `rank`, or else the first of all.
pub fn next_of_holder(keys: &[u32], rank: usize) -> usize {
    same_holder(keys, rank, rank.saturating_add(1))
}

// A rank: one in three times any, one in three times one of the first four, so that some are scanned often, and else one that has the holder of these.
pub fn pick_rank(random: Random, keys: &[u32]) -> usize {
    let rank = random.pick(keys.len());
    let often = rank % 4;
    match rank % 3 {
        0 => rank,
        1 => often,
        _ if rank / 4 % 2 == 0 => same_holder(keys, often, rank),
        _ => next_of_holder(keys, often),
    }
}

// The card of a rank, at a gate of the image's lift.
pub fn card_of(list: List, rank: usize, time: u32, lockout: u32, lane: u32) -> Card {
    let admission = at_rank(list.image, rank);
    Card {
        holder: admission.holder,
        slot: admission.slot,
        time,
        lockout,
        lane,
        lift: list.lift,
    }
}

// Mostly 100 seconds; now and then none, or the longest.
pub fn lockout_of(turn: u32) -> u32 {
    if turn % 7 == 6 {
        0
    } else if turn % 11 == 10 {
        4294967295
    } else {
        100
    }
}

// The lane, or on each ninth turn a number that is no lane's.
fn lane_of(lane: u32, turn: u32) -> u32 {
    if turn % 9 == 8 {
        [0, 9, 255][(turn / 9 % 3) as usize]
    } else {
        lane
    }
}

impl Card {
    // The card of the turn: on some turns with another slot, which may not be listed, another lane or at another lift's gate.
    pub fn vary(self, turn: u32) -> Card {
        let slot = if turn % 5 == 4 {
            self.slot ^ 4
        } else {
            self.slot
        };
        let lift = if turn % 13 == 12 {
            self.lift ^ 8
        } else {
            self.lift
        };
        Card {
            slot,
            lane: lane_of(self.lane, turn),
            lift,
            ..self
        }
    }
}
