// Whether flops are in some order, and the places in it.
ghost use Rattle.std.specs.Prelude.{◌≡◌, ◌≤◌, map, length, OnOk};
ghost use Rattle.std.specs.List.{range_with_len};
ghost use Rattle.circuits.specs.Checks.{unless_due};
ghost use Rattle.layers.specs.Matching.{flop_check};
ghost use Rattle.layers.specs.Orders.{KeptPlaces, PlacesOf};

use crate::fault::MatchFault;
use circuits::counts::{FLOPS, MOST_FLOPS};

// A place for each flop: one that is named stands there.
pub(crate) fn places_in(flops: &[u32]) -> [u32; FLOPS]
    requires { length flops.now ≤ 256 }
    ensures { KeptPlaces flops.now result }
{
    let mut places = [0; FLOPS];
    for (j, &flop) in flops.iter().enumerate() {
        if flop < MOST_FLOPS {
            places[flop as usize] = j as u32;
        }
    }
    places
}

// Judges whether each flop is named: one that is stands at the place that is kept for it.
#[tactic(auto, using(crate::proofs::Matches::flop_steps))]
pub(crate) fn judge_flops(flops: &[u32], places: &[u32; FLOPS]) -> Result<(), MatchFault>
    requires few { length flops.now ≤ 256 }
    requires placed { KeptPlaces flops.now places.now }
    ensures answer { result ≡ unless_due (map (flop_check flops.now) (range_with_len 0 (length flops.now))) tt }
    ensures placed { OnOk result (PlacesOf flops.now places.now) }
{
    for (flop, &place) in places[..flops.len()].iter().enumerate() {
        let flop = flop as u32;
        if flops[place as usize] != flop {
            return Err(MatchFault::Unmatched(flop));
        }
    }
    Ok(())
}
