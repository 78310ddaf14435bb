// RULES, A table over a run: what arrives and what leaves, over a head by value and a lent run of link records, which are looked for and
// read where they lie. Neither head nor run changes.
// Run and head stay two parameters: a struct with the lent run would be no plainer, since its owner lends the run anew for each call.
#![tactic(auto)]

pub mod choice;

ghost use Rattle.std.specs.Prelude.{◌≡◌, [], ◌++◌};
ghost use Rattle.replies.specs.Numbers.{reply_number};
ghost use Rattle.replies.specs.Rules.{refusal, ◌if◌, ◌then◌};
ghost use Rattle.links.specs.Index.{named};
ghost use Rattle.links.specs.Run.{over, too_short};
ghost use Rattle.traffic.specs.Replies.{reception_of, sending_of, address_of};
ghost use Rattle.traffic.specs.Arrives.{indication};
ghost use Rattle.traffic.specs.Leaves.{request, request_values};
ghost use Rattle.traffic.specs.Run.{PromisedOver, choice_rules_over, send_over, interface_over};

use links::{Head, LinkIndex, Named, Slot};
use replies::Refusal;
use traffic::{Delivery, Fault, IndicationHead, OwnAddress, RequestHead, Sent};

// What refuses an indication before a link is chosen: 1, 23, 2, 9, 20, 21, 22, 10 in this order.
fn check(run: &[Slot], head: Head, h: IndicationHead, packet: &[u8]) -> Result<(), Refusal>
    ensures { reply_number result ≡ refusal (choice_rules_over (over head run.now) (indication h packet.now)) }
{
    arrives::check_values(h)?;
    run_slots::check_length(run, head.max)?;
    arrives::check_content(h, packet)
}

pub fn indication(
    run: &[Slot],
    head: Head,
    h: IndicationHead,
    packet: &[u8],
    out: &mut [u8],
) -> Result<Delivery, Fault>
    ensures { PromisedOver (over head run.now) (indication h packet.now) out.old (reception_of result) out.new }
{
    check(run, head, h, packet).map_err(|refusal| Fault::of(refusal, packet))?;
    arrives::deliver(choice::chosen_for(run, head, h, packet), h, packet, out)
}

// The link that an index names.
pub fn link_at(run: &[Slot], head: Head, index: LinkIndex) -> Named
    ensures { result ≡ named (over head run.now) index }
{
    let slot = run_slots::slot_at(run, head.max, index);
    links::index::link_from(head.tvl, head.dgvl, head.area, index, slot)
}

// What refuses a request before its link is read: 1, 23 in this order.
#[tactic(auto, using(replies::proofs::Laws::Numbers::first_refuses, replies::proofs::Laws::Numbers::next_decides, traffic::proofs::Laws::Send::values_numbered))]
fn check_request(run: &[Slot], head: Head, h: RequestHead) -> Result<(), Refusal>
    ensures { reply_number result ≡ refusal (request_values (request h [] []) ++ (23 if too_short head.max run.now then [])) }
{
    leaves::check_values(h)?;
    run_slots::check_length(run, head.max)
}

pub fn request(
    run: &[Slot],
    head: Head,
    h: RequestHead,
    hop: &[u8],
    packet: &[u8],
) -> Result<Sent, Fault>
    ensures { sending_of result ≡ send_over (over head run.now) (request h hop.now packet.now) }
{
    check_request(run, head, h).map_err(|refusal| Fault::of(refusal, packet))?;
    leaves::send_on(link_at(run, head, h.index), h, hop, packet)
}

pub fn interface_address(run: &[Slot], head: Head, index: LinkIndex) -> Result<OwnAddress, Refusal>
    ensures { address_of result ≡ interface_over (over head run.now) index }
{
    run_slots::check_length(run, head.max)?;
    leaves::address_on(link_at(run, head, index).enabled, head.own)
}
