// RULES, What leaves: the half of a request, and of the question for an interface address, that knows no layout of the
// table. A request is refused, or sent down with its transport and destination, on the link that was found for its index.
#![tactic(auto)]

ghost use Rattle.std.specs.Prelude.{◌≡◌, [], IfOk};
ghost use Rattle.replies.specs.Numbers.{reply_number};
ghost use Rattle.replies.specs.Rules.{refusal};
ghost use Rattle.traffic.specs.Replies.{sending_of, address_of};
ghost use Rattle.traffic.specs.Leaves.{request, neighbour_ok, neighbour_of, within, down, request_values, resolve_rules, link_rules, send_named, send_on, interface_on};

use area::Area;
use links::{Interface, LinkIndex, Named};
use replies::Refusal;
use traffic::{Destination, Fault, OwnAddress, RequestHead, Sent};

fn neighbour_ok(neighbour: Option<u64>) -> bool
    ensures { result ≡ neighbour_ok neighbour }
{
    match neighbour {
        Some(m) => links::checks::mid_ok(m),
        None => true,
    }
}

// The neighbour's MID: derived from the next hop, or the one given. A next hop that is not good has none to derive, so it is asked
// only where the MID is given.
#[tactic(auto, using(traffic::proofs::Laws::Send::neighbour_derived, traffic::proofs::Laws::Send::neighbour_given, traffic::proofs::Laws::Send::neighbour_nobody))]
fn neighbour_of(f: Interface, given: Option<u64>, hop: &[u8]) -> Option<u64>
    ensures { result ≡ neighbour_of f given hop.now }
{
    if (f.kind == links::POINT_TO_POINT) | (f.flag == 1) {
        return ipv6::mid_of(hop);
    }
    if !ipv6::is_good_hop(hop) {
        return None;
    }
    given
}

fn within_area(a: Option<Area>) -> Destination
    ensures { result ≡ within a }
{
    match a {
        Some(x) => Destination::Within(x),
        None => Destination::Nothing,
    }
}

// What its values refuse a request for: 1.
#[tactic(auto, unfolding(traffic::specs::Leaves::request_values))]
pub fn check_values(h: RequestHead) -> Result<(), Refusal>
    ensures { reply_number result ≡ refusal (request_values (request h [] [])) }
{
    if !neighbour_ok(h.neighbour) {
        return Err(Refusal::ValueOutOfRange);
    }
    Ok(())
}

// How a good packet goes down: one for many to all, or on another link than the topological one to the area of the link; one for a
// neighbour to the MID of the next hop. Refused: 11, 12.
#[tactic(auto, unfolding(traffic::specs::Leaves::resolve_rules, traffic::specs::Leaves::down))]
fn resolve(
    link: Named,
    h: RequestHead,
    hop: &[u8],
    packet: &[u8],
) -> Result<(u8, Destination), Refusal>
    ensures number { reply_number result ≡ refusal (resolve_rules link (request h hop.now packet.now)) }
    ensures way { IfOk result (λ way. record { transport = way.0; destination = way.1 } ≡ down link (request h hop.now packet.now)) }
{
    if !ipv6::is_multicast(ipv6::destination_of(packet)) {
        return match neighbour_of(link.interface, h.neighbour, hop) {
            Some(mid) => Ok((traffic::GEO_UNICAST, Destination::Mid(mid))),
            None => Err(Refusal::NeighbourUnknown),
        };
    }
    if (h.index == LinkIndex::DGVL) & link.area.is_none() {
        return Err(Refusal::AreaMissing);
    }
    if h.index == LinkIndex::TVL {
        return Ok((traffic::TSB, Destination::Nothing));
    }
    Ok((traffic::GEO_BROADCAST, within_area(link.area)))
}

// The same of any packet, on a link that is enabled or not. Refused besides: 7 and by the packet.
#[tactic(auto, using(replies::proofs::Laws::Numbers::first_refuses, replies::proofs::Laws::Numbers::next_decides, ipv6::proofs::Laws::Packet::packet_numbered), unfolding(traffic::specs::Leaves::link_rules))]
fn way_down(
    link: Named,
    h: RequestHead,
    hop: &[u8],
    packet: &[u8],
) -> Result<(u8, Destination), Refusal>
    ensures number { reply_number result ≡ refusal (link_rules link (request h hop.now packet.now)) }
    ensures way { IfOk result (λ way. record { transport = way.0; destination = way.1 } ≡ down link (request h hop.now packet.now)) }
{
    if !link.enabled {
        return Err(Refusal::NoSuchLink);
    }
    ipv6::check_packet(packet)?;
    resolve(link, h, hop, packet)
}

// A request whose values are good, on the link that its index names.
#[tactic(auto, using(traffic::proofs::Laws::Send::on_done))]
pub fn send_on(link: Named, h: RequestHead, hop: &[u8], packet: &[u8]) -> Result<Sent, Fault>
    ensures { sending_of result ≡ send_on link (request h hop.now packet.now) }
{
    match way_down(link, h, hop, packet) {
        Ok((transport, destination)) => Ok(Sent {
            transport,
            destination,
            class: h.class,
            length: packet.len(),
        }),
        Err(refusal) => Err(Fault::of(refusal, packet)),
    }
}

// A request on the link that its index names: its values are asked first.
#[tactic(auto, using(traffic::proofs::Laws::Send::named_on), unfolding(traffic::specs::Leaves::request_values))]
pub fn request_on(link: Named, h: RequestHead, hop: &[u8], packet: &[u8]) -> Result<Sent, Fault>
    ensures { sending_of result ≡ send_named link (request h hop.now packet.now) }
{
    if let Err(refusal) = check_values(h) {
        return Err(Fault::of(refusal, packet));
    }
    send_on(link, h, hop, packet)
}

// The interface address of a link that is enabled or not, in a box with this own MID.
#[tactic(auto, unfolding(traffic::specs::Leaves::interface_on, traffic::specs::Leaves::interface_rules))]
pub fn address_on(enabled: bool, own: u64) -> Result<OwnAddress, Refusal>
    ensures { address_of result ≡ interface_on enabled own }
{
    if !enabled {
        return Err(Refusal::NoSuchLink);
    }
    Ok(OwnAddress {
        mid: own,
        address: ipv6::link_local_of(own),
    })
}
