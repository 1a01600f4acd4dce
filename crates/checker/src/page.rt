// Questions 8 to 12 of one page.
ghost use Rattle.std.specs.Prelude.{◌≡◌, ◌+◌, ◌-◌, ◌≤◌, length};
ghost use Rattle.format.specs.Page.{pairs_at};
ghost use Rattle.format.specs.Question.{node_questions};
ghost use Rattle.format.specs.Refusal.{outcome_of};
ghost use Rattle.nodes.specs.Words.{Gathered, pairs_in};
ghost use Rattle.checker.specs.Paged.{roots_from, third_in, fourth_in, first_nodes, questions_after, questions_at, Asked};

use crate::needed::page_needed;
use format::{OutLink, Refusal, Root, one_to};
use header::number;
use nodes::Words;

// A page that gets a yes throughout: its nodes and out-links.
#[derive(Clone, Copy, Debug, PartialEq, Eq)]
pub struct Shape {
    pub nodes: usize,
    pub links: usize,
}

// Question 9 of a page whose first root is `t`, where `next` is the first after it: how many roots it has.
pub fn roots_from(t: Root, next: Root) -> Result<usize, Refusal>
    ensures { outcome_of result ≡ roots_from t.0 next.0 }
{
    let roots = next.0.saturating_sub(t.0);
    if !one_to(60, roots) {
        return Err(Refusal::Roots);
    }
    Ok(roots)
}

// The place where the third level of a page of so many roots starts, from its words.
pub fn third_level(words: &Words, roots: usize) -> usize
    requires { (Gathered words.now.word words.now.before) × (1 ≤ roots) × (roots ≤ 60) }
    ensures { (result ≡ third_in words.now.word words.now.before roots) × (result ≤ 180) }
{
    roots + words.on_bits_before(roots)
}

// And the fourth, from the third.
pub fn fourth_level(words: &Words, roots: usize, third: usize) -> usize
    requires { (roots ≤ 60) × (third ≡ third_in words.now.word words.now.before roots) × (third ≤ 180) }
    ensures { result ≡ fourth_in words.now.word words.now.before roots }
{
    roots + words.on_bits_before(third)
}

// Questions 10 and 11 of a page's words, with so many roots, whose fourth level starts at place `fourth`; 9 got a yes.
pub fn check_nodes(words: &Words, roots: usize, fourth: usize) -> Result<Shape, Refusal>
    requires { (Gathered words.now.word words.now.before) × (1 ≤ roots) × (roots ≤ 60) × (fourth ≡ fourth_in words.now.word words.now.before roots) }
    ensures { Asked (node_questions roots (pairs_in words.now.word)) (pairs_in words.now.word) roots result }
{
    if 240 < fourth {
        return Err(Refusal::Nodes);
    }
    let fourth_on = words.on_bits_before(fourth);
    let end = roots + fourth_on;
    if 240 < end {
        return Err(Refusal::Nodes);
    }
    if !words.none_empty(end) {
        return Err(Refusal::Nodes);
    }
    if !words.rest_empty(end) {
        return Err(Refusal::Padding);
    }
    Ok(Shape {
        nodes: end,
        links: words.on_bits() - fourth_on,
    })
}

// The nodes of the first subtrie of a page, from its words, its roots and the places where its third and fourth levels start.
pub(crate) fn first_nodes(words: &Words, roots: usize, third: usize, fourth: usize) -> usize
    requires { (Gathered words.now.word words.now.before) × (1 ≤ roots) × (roots ≤ 60) × (third ≡ third_in words.now.word words.now.before roots) × (fourth ≡ fourth_in words.now.word words.now.before roots) }
    ensures { (result ≡ first_nodes roots (pairs_in words.now.word)) × (result ≤ 15) }
{
    let first2 = words.on_bits_before(1);
    let first3 = words.on_bits_before(roots + first2) - (third - roots);
    let first4 = words.on_bits_before(third + first3) - (fourth - roots);
    1 + first2 + first3 + first4
}

// Questions 10 to 12 of the page at `at` with so many roots, after a page of `previous` nodes; 9 got a yes.
fn check_shape(image: &[u8], at: usize, roots: usize, previous: usize) -> Result<Shape, Refusal>
    requires { (at + 64 ≤ length image.now) × (1 ≤ roots) × (roots ≤ 60) × (previous ≤ 241) }
    ensures { Asked (questions_after image.now at roots previous) (pairs_at image.now at) roots result }
{
    let words = nodes::gather(image, at);
    let third = third_level(&words, roots);
    let fourth = fourth_level(&words, roots, third);
    let shape = check_nodes(&words, roots, fourth)?;
    if !page_needed(&words, roots, third, fourth, previous) {
        return Err(Refusal::Packing);
    }
    Ok(shape)
}

// Questions 8 to 12 of the page at `at`. Before it stand the band's roots below `t` and its out-links below `b`, `next` is the first root after it, and
// the page before has `previous` nodes: 241 in a band's first page, which is always needed.
pub(crate) fn check_page(
    image: &[u8],
    at: usize,
    t: Root,
    b: OutLink,
    next: Root,
    previous: usize,
) -> Result<Shape, Refusal>
    requires { (at + 64 ≤ length image.now) × (previous ≤ 241) }
    ensures { Asked (questions_at image.now at t.0 b.0 next.0 previous) (pairs_at image.now at) (next.0 - t.0) result }
{
    if number(image, at) != t.0 {
        return Err(Refusal::Counters);
    }
    if number(image, at + 2) != b.0 {
        return Err(Refusal::Counters);
    }
    check_shape(image, at, roots_from(t, next)?, previous)
}
