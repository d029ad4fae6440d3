//! The best entry of a table for a packet.

ghost use Rattle.std.specs.Prelude.{◌≡◌, All, nat_lt, true};
ghost use Rattle.std.specs.Option.{option_map_or};
ghost use Rattle.flow_table.specs.Best.{best_place};
ghost use Rattle.flow_table.specs.Entry.{IsValidEntry};

use crate::entry::Entry;
use of10_match::Header;

/// Where an entry stands, and its rank.
type Ranked = (usize, u32);

/// Where the best entry stands: one scan, which keeps the best place so far and its rank.
pub(crate) fn best_place(entries: &[Entry], in_port: u16, header: &Header) -> Option<usize>
    requires { All IsValidEntry entries.now }
    ensures { result ≡ best_place entries.now in_port header.now }
{
    let mut best = None;
    for (place, entry) in entries.iter().enumerate() {
        let rank = entry.rank();
        if outranks(rank, best) && entry.takes(in_port, header) {
            best = Some((place, rank));
        }
    }
    let (place, _) = best?;
    Some(place)
}

/// Whether a rank is greater than that of the best entry so far, if there is one.
fn outranks(rank: u32, best: Option<Ranked>) -> bool
    ensures { result ≡ option_map_or (λ ranked. nat_lt ranked.1 rank) best true }
{
    best.is_none_or(|(_, greatest)| greatest < rank)
}
