// A test: the sample plates that are not proved as theorems, packings at their edges, and every refusal number, through the public jobs.
// Each case prints a line, and the last line counts those that were right.
#![tactic(auto)]

mod beside;
mod between;
mod changes;
mod children;
mod edits;
mod eight_pages;
mod eight_refusals;
mod figures;
mod found;
mod gates;
mod holders;
mod images;
mod judge;
mod lanes;
mod lifts;
mod numbers;
mod plates;
mod questions;
mod refusals;
mod say;
mod sold_out;
mod spread;
mod still_locked;

use say::Tally;
use std::io;

// The groups of cases, in the order in which they are printed.
const GROUPS: [fn(&mut Tally) -> io::Result<()>; 74] = [
    plates::dense,
    plates::packings,
    plates::far_apart,
    plates::printed,
    refusals::headers,
    refusals::counts,
    refusals::inputs,
    refusals::empties,
    refusals::heads,
    refusals::nodes,
    refusals::packed,
    questions::lists,
    questions::buffers,
    questions::admissions,
    questions::rectangles,
    questions::ranks,
    // The eight-page lookup.
    eight_pages::single_pages,
    eight_pages::subtries,
    eight_pages::dense_pages,
    eight_pages::far_apart,
    children::eight,
    children::siblings,
    eight_pages::headers,
    eight_refusals::band_pages,
    eight_refusals::two_heads,
    eight_refusals::root_counts,
    eight_refusals::page_nodes,
    eight_refusals::links,
    eight_refusals::several_links,
    eight_refusals::large_links,
    eight_refusals::large_figures,
    beside::order,
    beside::exchanged,
    beside::last_pages,
    beside::other_pages,
    beside::packing,
    beside::sums,
    // The number that comes with "absent": of both lookups in sound images, and of the eight-page lookup in others.
    between::ends,
    between::neighbours,
    between::first_levels,
    between::fourth_levels,
    between::after_pages,
    between::before_pages,
    between::longer_lists,
    figures::next_band,
    figures::further_bands,
    figures::other_pages,
    figures::limits,
    figures::wrong_counters,
    gates::lockouts,
    gates::limits,
    holders::passed_back,
    holders::other_holders,
    holders::one_admission,
    spread::three_records,
    spread::several_pages,
    lanes::lanes,
    lanes::lengths,
    lanes::empty_list,
    lanes::largest_count,
    lanes::each_lane,
    lifts::headers,
    lifts::writers,
    lifts::images,
    lifts::gates,
    lifts::gate_order,
    // One sale, one withdrawal.
    edits::ranks,
    edits::smallest,
    edits::records,
    edits::outputs,
    sold_out::most,
    sold_out::pages,
    sold_out::kinds,
    still_locked::lockouts,
];

fn main(rt: HostRuntime) -> io::Result<()> {
    let mut tally = Tally::new(rt.stdout(), rt.alloc());
    for group in GROUPS {
        group(&mut tally)?;
    }
    if !numbers::are_right() {
        println!(rt; "the numbers of the refusals are WRONG")?;
    }
    tally.finish()
}
