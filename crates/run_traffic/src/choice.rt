// The choice of a link, by the first of the four lines that fits (line-first).
ghost use Rattle.std.specs.Prelude.{◌≡◌, ◌-◌, take};
ghost use Rattle.links.specs.Run.{over};
ghost use Rattle.traffic.specs.Arrives.{indication, choose, chosen_for};
ghost use Rattle.run_traffic.specs.Choice.{stop_place};

use links::{Chosen, Head, LinkIndex, Slot};
use search::{Overlapping, SameGround};
use traffic::{Destination, IndicationHead};

// The place of the stop link that line 2 or 3 gives: by the area, or by the packet's destination and failing that its source.
#[tactic(auto, using(crate::proofs::Laws::Stops::no_stop))]
fn stop_for(run: &[Slot], max: usize, h: IndicationHead, packet: &[u8]) -> Option<usize>
    ensures { result ≡ stop_place (choose (take (max - 1) run.now) (indication h packet.now)) }
{
    let count = run_slots::slot_count(max);
    match h.transport {
        traffic::GEO_UNICAST => {
            let to = Overlapping(prefix::of_address(ipv6::destination_of(packet)));
            let from = Overlapping(prefix::of_address(ipv6::source_of(packet)));
            run_slots::find(run, count, to).or_else(|| run_slots::find(run, count, from))
        }
        traffic::GEO_ANYCAST | traffic::GEO_BROADCAST => match h.destination {
            Destination::Within(area) => run_slots::find(run, count, SameGround::of(area)),
            Destination::Mid(_) | Destination::Nothing => None,
        },
        _ => None,
    }
}

// The link by its index, and its kind.
pub fn chosen_for(run: &[Slot], head: Head, h: IndicationHead, packet: &[u8]) -> Chosen
    ensures { result ≡ chosen_for (over head run.now) (indication h packet.now) }
{
    if h.transport == traffic::TSB {
        return Chosen {
            index: LinkIndex::TVL,
            kind: head.tvl.kind,
        };
    }
    match stop_for(run, head.max, h, packet) {
        Some(place) => Chosen {
            index: LinkIndex(place + LinkIndex::FIRST_STOP.0),
            kind: run[place].settings.interface.kind,
        },
        None => Chosen {
            index: LinkIndex::DGVL,
            kind: head.dgvl.kind,
        },
    }
}
