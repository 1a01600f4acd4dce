// A reader that holds a page and the node reached, and moves forward only.
#![tactic(auto)]

ghost use Rattle.std.specs.Prelude.{◌≡◌, ◌+◌, ◌≤◌, ◌<◌, ◌^◌, length};
ghost use Rattle.reader.specs.Page.{NodesIn};

use nodes::word;

// A page, and the node reached.
#[derive(Clone, Copy, Debug, PartialEq, Eq)]
pub struct Reader<'a> {
    pub page: &'a [u8],
    pub node: usize,
}

// A node in the highest bits of a word, from its byte.
fn one_at(page: &[u8], node: usize) -> u64
    requires { (length page.now ≡ 64) × (node < 240) }
    ensures { NodesIn result page.now node 1 }
{
    let b = u64::from(page[4 + node / 4]);
    b << (56 + 2 * (node % 4))
}

// The nodes from `node` on in the highest bits of a word, from eight bytes: those from the node's byte on, or the last of the page.
fn many_at(page: &[u8], node: usize) -> u64
    requires { (length page.now ≡ 64) × (node < 240) }
    ensures { NodesIn result page.now node 28 }
{
    let byte = (node / 4).min(52);
    word(page, 4 + byte) << (2 * (node - 4 * byte))
}

impl<'a> Reader<'a> {
    // At the first node of a page.
    pub fn new(page: &'a [u8]) -> Reader<'a>
        ensures { (result.page ≡ page.entry) × (result.node ≡ 0) }
    {
        Reader { page, node: 0 }
    }

    // The `n` nodes from the node reached on, as far as the page has them, in the highest bits of a word; what is in the bits below is not said.
    pub fn next_nodes(self, n: usize) -> u64
        requires { (length self.page.now ≡ 64) × (self.node < 240) × (n ≤ 28) }
        ensures { NodesIn result self.entry.page.now self.entry.node n }
    {
        if n <= 1 {
            one_at(self.page, self.node)
        } else {
            many_at(self.page, self.node)
        }
    }

    // The reader `n` nodes further.
    pub fn forward(self, n: usize) -> Reader<'a>
        requires { self.node + n < 2 ^ 64 }
        ensures { (result.page ≡ self.entry.page) × (result.node ≡ self.entry.node + n) }
    {
        Reader {
            page: self.page,
            node: self.node + n,
        }
    }
}

// The `n` nodes of a page from `node` on, as far as it has them, in the highest bits of a word.
pub fn read_nodes(page: &[u8], node: usize, n: usize) -> u64
    requires { (length page.now ≡ 64) × (node < 240) × (n ≤ 28) }
    ensures { NodesIn result page.now node n }
{
    Reader::new(page).forward(node).next_nodes(n)
}
