// A trial of a lockout: its opening, how long it lasts, and the cards that are scanned in turn, with the answers that some must get.
ghost use Rattle.std.specs.Prelude.{◌≤◌};

use crate::ask::at_rank;
use crate::cards::{card_of, lockout_of, next_of_holder, pick_rank, same_holder};
use crate::list::List;
use crate::rule::Card;
use format::Refusal;
use testing::Random;

// How many trials there are, and how many scans a trial has.
pub const TRIALS: u32 = 6;

pub const SCANS_OF_TRIAL: u32 = 45;

// The last time at which a card can open.
const LAST_TIME: u32 = 4294967294;

// Every opening of a trial lies at least so many seconds before the one with which the next trial begins.
const REST: u32 = 10000000;

// A holder's opening, and the lockout after it.
#[derive(Clone, Copy)]
pub struct Trial {
    pub holder: u16,
    // The rank that opens, and another of the holder's; the same where there is no other.
    rank: usize,
    other: usize,
    // The time of the opening.
    pub opening: u32,
    lockout: u32,
    lane: u32,
}

// What a scan of a trial must get.
#[derive(Clone, Copy)]
pub enum Due {
    Opening,
    Refused(Refusal),
    // The rule's answer, whatever it is.
    ByTheRule,
}

// A scan of a trial.
#[derive(Clone, Copy)]
pub struct Step {
    pub card: Card,
    pub due: Due,
}

// The time of a trial's opening. Its other openings are at most three times REST later, but for the last trial's.
fn opening_of(turn: u32, random: Random) -> u32
    ensures { result ≤ 4294967294 }
{
    5 * REST * (1 + turn % TRIALS) + random.below(1000000)
}

// The lockout of a trial. The last trial's leaves only the last time at which a card can open.
fn trial_lockout(turn: u32, opening: u32) -> u32
    requires { opening ≤ 4294967294 }
{
    match turn {
        0 => 1,
        1 => 2,
        2 => 100,
        3 => 5400,
        4 => REST,
        _ => LAST_TIME - opening,
    }
}

// The time some seconds later, or the last.
fn later(time: u32, seconds: u32) -> u32 {
    time.saturating_add(seconds).min(LAST_TIME)
}

// A number below `n`, or 0 where there is none, drawn from more than the generator's own numbers, which end below the longest lockout.
fn wide_below(random: Random, n: u32) -> u32 {
    if n == 0 {
        return 0;
    }
    let state = random.state % 4294967296 * 48271;
    Random { state }.below(n)
}

impl Trial {
    // The trial of a turn.
    pub fn new(list: List, turn: u32, random: Random) -> Trial {
        let rank = pick_rank(random, list.keys);
        let opening = opening_of(turn, random);
        Trial {
            holder: at_rank(list.image, rank).holder,
            rank,
            other: next_of_holder(list.keys, rank),
            opening,
            lockout: trial_lockout(turn, opening),
            lane: 1 + turn % 8,
        }
    }

    // The first second after the lockout.
    fn end(self) -> u32 {
        later(self.opening, self.lockout)
    }

    // A time within the lockout.
    fn time_within(self, random: Random) -> u32 {
        later(self.opening, wide_below(random, self.lockout))
    }

    // The opening. An earlier one of the holder's may lie less than the last trial's lockout before it, but not less than REST.
    fn opening_step(self, list: List) -> Step {
        let lockout = self.lockout.min(REST);
        Step {
            card: card_of(list, self.rank, self.opening, lockout, self.lane),
            due: Due::Opening,
        }
    }

    // A scan of the holder's other rank.
    fn own_step(self, list: List, time: u32, lane: u32, due: Due) -> Step {
        Step {
            card: card_of(list, self.other, time, self.lockout, lane),
            due,
        }
    }

    // The rank of a card between: any, or on every other turn one of the holder's.
    fn rank_between(self, keys: &[u32], turn: u32, random: Random) -> usize {
        let rank = random.pick(keys.len());
        if turn % 2 == 0 {
            rank
        } else {
            same_holder(keys, self.rank, rank)
        }
    }

    // A time before the opening, within the lockout or, unless it is for the trial's holder, after it.
    fn time_between(self, is_own: bool, turn: u32, random: Random) -> u32 {
        match turn / 2 % 3 {
            0 => wide_below(random, self.opening),
            2 if !is_own => later(self.end(), wide_below(random, 2 * REST)),
            _ => self.time_within(random),
        }
    }

    // A scan between: on some turns of a card that is not listed, in no lane or at another lift's gate.
    fn step_between(self, list: List, turn: u32, random: Random) -> Step {
        let rank = self.rank_between(list.keys, turn, random);
        let is_own = at_rank(list.image, rank).holder == self.holder;
        let time = self.time_between(is_own, turn, random.next());
        let lockout = if is_own {
            self.lockout
        } else {
            lockout_of(turn)
        };
        let lane = 1 + turn / 2 % 8;
        Step {
            card: card_of(list, rank, time, lockout, lane).vary(turn),
            due: Due::ByTheRule,
        }
    }

    // The scan of a turn: first the opening, one within the lockout and one before the opening, then 40 between, and in another lane the lockout's last second and the
    // one after it.
    pub fn step(self, list: List, turn: u32, random: Random) -> Step {
        let earlier = Due::Refused(Refusal::Earlier);
        let locked = Due::Refused(Refusal::Lockout);
        let before = self.opening.saturating_sub(1);
        let end = self.end();
        let other_lane = 1 + self.lane % 8;
        match turn {
            0 => self.opening_step(list),
            1 => self.own_step(list, self.time_within(random), self.lane, locked),
            2 => self.own_step(list, before, self.lane, earlier),
            3..43 => self.step_between(list, turn, random),
            43 => self.own_step(list, end.saturating_sub(1), other_lane, locked),
            _ => self.own_step(list, end, other_lane, Due::Opening),
        }
    }
}
