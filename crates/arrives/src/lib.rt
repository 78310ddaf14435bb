// RULES, What arrives: the half of an indication that knows no layout of the table. What refuses it sees no table, and
// what is delivered needs of the link that was chosen no more than its index and its kind.
#![tactic(auto)]

mod checks;

ghost use Rattle.std.specs.Prelude.{◌≡◌, []};
ghost use Rattle.replies.specs.Numbers.{reply_number};
ghost use Rattle.replies.specs.Rules.{refusal};
ghost use Rattle.frames.specs.Frame.{put, put_length};
ghost use Rattle.traffic.specs.Replies.{reception_of};
ghost use Rattle.traffic.specs.Arrives.{indication, indication_values, content_rules, choice_rules, mac_to, frame_or_packet, deliver_on};

use links::Chosen;
use replies::Refusal;
use traffic::{Delivery, Destination, Fault, IndicationHead};

// What its values refuse an indication for: 1.
#[tactic(auto, unfolding(traffic::specs::Arrives::indication_values))]
pub fn check_values(h: IndicationHead) -> Result<(), Refusal>
    ensures { reply_number result ≡ refusal (indication_values (indication h [])) }
{
    if !(links::checks::mid_ok(h.source) & checks::of_right_sort(h.destination, h.transport)) {
        return Err(Refusal::ValueOutOfRange);
    }
    Ok(())
}

// What its area and its packet refuse an indication for: 2, 9, 20, 21, 22, 10 in this order.
#[tactic(auto, unfolding(traffic::specs::Arrives::content_rules))]
pub fn check_content(h: IndicationHead, packet: &[u8]) -> Result<(), Refusal>
    ensures { reply_number result ≡ refusal (content_rules (indication h packet.now)) }
{
    if !checks::is_good(h.destination) {
        return Err(Refusal::AreaNotGood);
    }
    ipv6::check_packet(packet)
}

// Both: what refuses an indication before a link is chosen.
#[tactic(auto, using(replies::proofs::Laws::Numbers::first_refuses, replies::proofs::Laws::Numbers::next_decides, traffic::proofs::Laws::Receive::values_numbered), unfolding(traffic::specs::Arrives::choice_rules, traffic::specs::Arrives::indication_values))]
pub fn check(h: IndicationHead, packet: &[u8]) -> Result<(), Refusal>
    ensures { reply_number result ≡ refusal (choice_rules (indication h packet.now)) }
{
    check_values(h)?;
    check_content(h, packet)
}

fn mac_to(d: Destination) -> u64
    ensures { result ≡ mac_to d }
{
    match d {
        Destination::Mid(m) => m,
        Destination::Within(_) | Destination::Nothing => 0xffff_ffff_ffff,
    }
}

// What a link of this kind is given: a frame, or the packet alone.
#[tactic(auto, unfolding(traffic::specs::Arrives::frame_or_packet))]
fn write(kind: u8, h: IndicationHead, packet: &[u8], out: &mut [u8]) -> usize
    ensures { (result ≡ put_length (frame_or_packet kind (indication h packet.now)) out.old) × (out.new ≡ put (frame_or_packet kind (indication h packet.now)) out.old) }
{
    if kind == links::ETHERNET {
        return frames::write_frame(out, mac_to(h.destination), h.source, packet);
    }
    frames::write_packet(out, packet)
}

// An indication that nothing refuses but perhaps the room (13), on the link that was chosen for it.
pub fn deliver(
    link: Chosen,
    h: IndicationHead,
    packet: &[u8],
    out: &mut [u8],
) -> Result<Delivery, Fault>
    ensures { (reception_of result ≡ (deliver_on link (indication h packet.now) out.old).reply) × (out.new ≡ (deliver_on link (indication h packet.now) out.old).buffer) }
{
    if out.len() < packet.len() + frames::HEADER {
        return Err(Fault::of(Refusal::NoRoom, packet));
    }
    let length = write(link.kind, h, packet, out);
    Ok(Delivery {
        link: link.index,
        length,
        source: h.source,
        class: h.class,
    })
}
