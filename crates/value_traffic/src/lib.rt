// RULES, What arrives and What leaves, over a table by value: its own slots are lent as the run of a table over a run, where the link
// is looked for, and the rest is `arrives` and `leaves`. No run is too short here (23). The table does not change.
// The three calls have the parts of those of `run_traffic` without 23, and do not call them: no plainer, since a law more would have to
// say that a lent table with another maximum answers alike.
#![tactic(auto)]

ghost use Rattle.std.specs.Prelude.{◌≡◌, MatchResult};
ghost use Rattle.replies.specs.Numbers.{number_of};
ghost use Rattle.replies.specs.Rules.{refusal};
ghost use Rattle.ipv6.specs.Packet.{fault_place};
ghost use Rattle.links.specs.Index.{named};
ghost use Rattle.links.specs.Run.{head_of};
ghost use Rattle.traffic.specs.Replies.{reception_of, choice_made, sending_of, address_of};
ghost use Rattle.traffic.specs.Arrives.{indication, choice_rules, choice_of, chosen_for, Promised};
ghost use Rattle.traffic.specs.Leaves.{request, send, interface};

use links::{Chosen, Head, LinkIndex, Named, Table};
use replies::Refusal;
use run_traffic::choice;
use traffic::{Delivery, Fault, IndicationHead, OwnAddress, RequestHead, Sent};

// The table without its slots.
fn head_of(t: &Table) -> Head
    ensures { result ≡ head_of t.now }
{
    Head {
        own: t.own,
        max: t.max,
        tvl: t.tvl,
        dgvl: t.dgvl,
        area: t.area,
    }
}

fn chosen_for(t: &Table, h: IndicationHead, packet: &[u8]) -> Chosen
    ensures { result ≡ chosen_for t.now (indication h packet.now) }
{
    choice::chosen_for(&t.slots, head_of(t), h, packet)
}

// The link, whose slot is looked for. It takes the table by value, so that the table is copied where a slot is looked for, and nowhere else.
fn looked_up(t: Table, index: LinkIndex) -> Named
    ensures { result ≡ named t index }
{
    run_traffic::link_at(&t.slots, head_of(&t), index)
}

// The link itself. A fixed link is asked for no slot, so that no table is copied.
fn link_at(t: Table, index: LinkIndex) -> Named
    ensures { result ≡ named t index }
{
    if index.0 < LinkIndex::FIRST_STOP.0 {
        return links::index::link_from(t.tvl, t.dgvl, t.area, index, links::blank_slot());
    }
    looked_up(t, index)
}

// What refuses an indication before a link is chosen, with the place of the fault.
fn check(h: IndicationHead, packet: &[u8]) -> Result<(), Fault>
    ensures { MatchResult result (λ x. refusal (choice_rules (indication h packet.now)) ≡ 0) (λ f. (number_of f.refusal ≡ refusal (choice_rules (indication h packet.now))) × (f.place ≡ fault_place (number_of f.refusal) packet.now)) }
{
    arrives::check(h, packet).map_err(|refusal| Fault::of(refusal, packet))
}

// Which link an indication would take, where no buffer is lent.
pub fn link_of(t: Table, h: IndicationHead, packet: &[u8]) -> Result<LinkIndex, Fault>
    ensures { choice_made result ≡ choice_of t (indication h packet.now) }
{
    check(h, packet)?;
    Ok(chosen_for(&t, h, packet).index)
}

pub fn indication(
    t: Table,
    h: IndicationHead,
    packet: &[u8],
    out: &mut [u8],
) -> Result<Delivery, Fault>
    ensures { Promised t (indication h packet.now) out.old (reception_of result) out.new }
{
    check(h, packet)?;
    arrives::deliver(chosen_for(&t, h, packet), h, packet, out)
}

pub fn request(t: Table, h: RequestHead, hop: &[u8], packet: &[u8]) -> Result<Sent, Fault>
    ensures { sending_of result ≡ send t (request h hop.now packet.now) }
{
    leaves::request_on(link_at(t, h.index), h, hop, packet)
}

pub fn interface_address(t: Table, index: LinkIndex) -> Result<OwnAddress, Refusal>
    ensures { address_of result ≡ interface t index }
{
    leaves::address_on(link_at(t, index).enabled, t.own)
}
