// From a node to its child on the next level of its page, by the steps of source document 000, Algorithm 2.1, in their order. In the algorithm's words, for a node n:
//
//     step 1     Position := n.OutLink;                             OutLink: the level's out-links through n
//     step 2     if (which = left) and (n has right child) then
//                  Position := Position - 1;
//     step 3     while (n.jNode < n.Tnode) do ..                    to the last node of the level
//     step 4     if ((n.iLevel mod k) = 0) then ..                  the last level of the page: not taken here
//     steps 5-7  n.Tnode := n.OutLink; ..                           a new level starts
//     step 8     while (n.jNode < Position) do ..                   to the child
//
ghost use Rattle.std.specs.Prelude.{◌≡◌, ◌≤◌};
ghost use Rattle.format.specs.Child.{child_by_steps, step_back};
ghost use Rattle.paged_lookup.specs.Way.{four_levels, NodeOn};

use nodes::Words;

// One back for a left child that has a sibling, which the node's second bit leads to. Without a branch on the side, since a key's bits cannot be foreseen.
fn step_back(node: u64, side: usize) -> usize
    requires { side ≤ 1 }
    ensures { (result ≡ step_back node side) × (result ≤ 1) }
{
    let second_bit = (node % 2) as usize;
    (1 - side) * second_bit
}

// The place of the child that the bit of this side of the node at a place leads to, where that bit is on. The node is on one of the page's first three levels, and the
// level's last node stands before place `end`.
pub(crate) fn child_place(
    words: &Words,
    roots: usize,
    end: usize,
    place: usize,
    side: usize,
) -> usize
    requires { (NodeOn words.now.word words.now.before roots end place) × (side ≤ 1) }
    ensures { result ≡ child_by_steps (four_levels words.now.word roots) place side }
{
    // The on bits above the level lead to the nodes before `end`, but for the roots.
    let above = end - roots;
    // Step 1: the out-links so far, the level's on bits in the page through the node itself.
    let out_links = words.on_bits_through(place) - above;
    // Step 2: one back for a left child that has a sibling.
    let position = out_links - step_back(words.node_at(place), side);
    // Step 3: on past the nodes after it, to the level's last node.
    let after = end - 1 - place;
    let last = place + after;
    // Steps 5 to 8: on the next level that many nodes on, to the child.
    last + position
}
