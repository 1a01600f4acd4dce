// Patience: who is refused with 26 opens at the first second after the lockout, and at none before it, whatever was refused and whichever other holders opened
// between. A trial states this by the time of the opening that it made and by the lockout, and each of its scans is compared with the plain rule too.
use crate::cards::{Compared, scan_card};
use crate::list::{List, Records};
use crate::tally::{Kind, Tally};
use crate::trial::{Due, SCANS_OF_TRIAL, Step, TRIALS, Trial};
use format::Refusal;
use testing::{Random, holder_of};

// A scan between. No admission of the trial's holder may open.
fn count_between(tally: &mut Tally, compared: Compared, is_own: bool) {
    match compared.answer {
        Ok(_) => tally.expect(Kind::OpenedBetween, compared.is_right && !is_own),
        Err(refusal) => {
            tally.expect(Kind::RefusedBetween, compared.is_right);
            if is_own && refusal == Refusal::Lockout {
                tally.note(Kind::TriedAgain);
            }
        }
    }
}

// A scan of a trial, which must get the rule's answer, and the step's where the step has one.
fn count_step(tally: &mut Tally, holder: u16, step: Step, compared: Compared) {
    let answer = compared.answer;
    match step.due {
        Due::Opening => tally.must(compared.is_right && answer.is_ok()),
        Due::Refused(refusal) => tally.must(compared.is_right && answer == Err(refusal)),
        Due::ByTheRule => count_between(tally, compared, step.card.holder == holder),
    }
}

// The scans of a trial. Its opening is the seed, so that no two trials of a list draw alike. The holder must have tried again between.
fn play(tally: &mut Tally, list: List, held: &mut Records, trial: Trial) {
    tally.note(Kind::Lockouts);
    let before = tally.count(Kind::TriedAgain);
    let mut random = Random {
        state: u64::from(trial.opening),
    };
    for i in 0..SCANS_OF_TRIAL {
        random = random.next().next();
        let step = trial.step(list, i, random);
        let compared = scan_card(list, held, step.card);
        count_step(tally, trial.holder, step, compared);
    }
    tally.must(before < tally.count(Kind::TriedAgain));
}

// The trials of a list that has keys, in turn. Each meets the records that the scans before it left. Over all of them some scans between must open if the
// list has several holders.
pub fn patience(tally: &mut Tally, list: List, held: &mut Records, seed: Random) {
    let Some(first) = list.keys.first() else {
        return;
    };
    let before = tally.count(Kind::OpenedBetween);
    let mut random = seed;
    for i in 0..TRIALS {
        random = random.next();
        play(tally, list, held, Trial::new(list, i, random));
    }
    let holder = holder_of(*first);
    let has_others = list.keys.iter().any(|key| holder_of(*key) != holder);
    tally.must(!has_others || before < tally.count(Kind::OpenedBetween));
}
