// The eight-page lookup: it asks 1 to 7, then reads one page in each band.
#![tactic(auto)]

mod band;
mod child;
mod page;

ghost use Rattle.std.specs.Prelude.{◌≡◌, true};
ghost use Rattle.format.specs.Exact.{Accepted};
ghost use Rattle.paged_lookup.specs.Paged.{paged_answer, paged_lookup};
ghost use Rattle.paged_lookup.specs.Outcomes.{lookup_outcome, rank_in, smaller_in};
ghost use Rattle.paged_lookup.specs.Way.{HeaderYes};

use band::through;
use format::{OutLink, Refusal, cross};
use header::{header_refusal, key_count, links_due, page_count};
use page::Way;
use zorder::weave;

// What lookup of a holder and a slot finds.
#[derive(Clone, Copy, Debug, PartialEq, Eq)]
pub enum Found {
    // The rank, and the eight page numbers on the key's path.
    Listed { rank: u32, pages: [u32; 8] },
    // How many listed admissions have a smaller key.
    Absent { smaller: u32 },
}

impl Found {
    // The rank of a listed admission.
    pub fn rank(self) -> Option<u32>
        ensures { result ≡ rank_in self }
    {
        match self {
            Found::Listed { rank, .. } => Some(rank),
            Found::Absent { .. } => None,
        }
    }

    // How many listed admissions have a smaller key: of a listed one its rank.
    pub fn smaller(self) -> u32
        ensures { result ≡ smaller_in self }
    {
        match self {
            Found::Listed { rank, .. } => rank,
            Found::Absent { smaller } => smaller,
        }
    }
}

// The walk of a key from band to band, in an image whose 1 to 7 get a yes; where `accepted` is true all of 1 to 13 do, and no page is judged again.
fn walk(image: &[u8], key: u32, accepted: bool) -> Result<Found, Refusal>
    requires { (HeaderYes image.now) × (accepted ≡ true → Accepted image.now) }
    ensures { lookup_outcome result ≡ paged_answer image.now key }
{
    let keys = key_count(image);
    if keys == 0 {
        return Ok(Found::Absent { smaller: 0 });
    }
    let mut pages = [0u32; 8];
    // The link that leads to root 0 of band 1; past an off bit the figure. Two variables, since a figure goes on as a root's number too (`cross`).
    let mut link = OutLink(0);
    let mut on = true;
    let mut first = 1;
    for passed in 0..8 {
        let band = passed + 1;
        let step = through(image, band, first, cross(link), on, key, accepted)?;
        match step.way {
            Way::Out(next) => link = next,
            Way::Off(figure) => {
                if figure.0 == links_due(image, band) {
                    // all keys are smaller
                    return Ok(Found::Absent {
                        smaller: keys as u32,
                    });
                }
                on = false;
                link = figure;
            }
        }
        pages[passed] = step.page as u32;
        first += page_count(image, band);
    }
    if on {
        return Ok(Found::Listed {
            rank: link.0 as u32,
            pages,
        });
    }
    Ok(Found::Absent {
        smaller: link.0 as u32,
    })
}

// Looks a holder and a slot up in one page a band: the rank and the eight page numbers, or absent with the number of smaller keys.
pub fn lookup(image: &[u8], holder: u16, slot: u16) -> Result<Found, Refusal>
    ensures { lookup_outcome result ≡ paged_lookup image.now holder slot }
{
    header_refusal(image)?;
    walk(image, weave(holder, slot), false)
}

// The same in an accepted image, whose pages are not judged again: for a job that has checked it.
pub fn lookup_accepted(image: &[u8], holder: u16, slot: u16) -> Result<Found, Refusal>
    requires { Accepted image.now }
    ensures { lookup_outcome result ≡ paged_lookup image.now holder slot }
{
    walk(image, weave(holder, slot), true)
}
