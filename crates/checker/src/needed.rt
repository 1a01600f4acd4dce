// Question 12 alone, for callers that have gathered a page's words and asked 9 to 11.
ghost use Rattle.std.specs.Prelude.{◌≡◌, ◌≤◌};
ghost use Rattle.format.specs.Seq.{All};
ghost use Rattle.format.specs.Page.{levels_in};
ghost use Rattle.format.specs.Question.{Yes, no_room, node_questions};
ghost use Rattle.nodes.specs.Words.{Gathered, pairs_in};
ghost use Rattle.checker.specs.Paged.{third_in, fourth_in};

use crate::page::first_nodes;
use nodes::Words;

// Question 12 of a page's words, with so many roots, whose third and fourth level start at these places, after a page of `previous` nodes: whether its
// first subtrie had no room there; 9 to 11 got a yes.
pub fn page_needed(
    words: &Words,
    roots: usize,
    third: usize,
    fourth: usize,
    previous: usize,
) -> bool
    requires { (Gathered words.now.word words.now.before) × (All Yes (node_questions roots (pairs_in words.now.word))) × (third ≡ third_in words.now.word words.now.before roots) × (fourth ≡ fourth_in words.now.word words.now.before roots) × (previous ≤ 241) }
    ensures { result ≡ no_room previous (levels_in 4 roots (pairs_in words.now.word)) }
{
    // The smallest subtrie has four nodes: after so full a page none can fit.
    if 236 < previous {
        return true;
    }
    240 < first_nodes(words, roots, third, fourth) + previous
}
