// IPv6 as far as the rules need it: is a packet good, and where not; where are its addresses, and what they say of a MID.
#![tactic(auto)]

ghost use Rattle.std.specs.Prelude.{◌≡◌};
ghost use Rattle.octets.specs.Runs.{same};
ghost use Rattle.replies.specs.Numbers.{reply_number};
ghost use Rattle.replies.specs.Rules.{refusal};
ghost use Rattle.ipv6.specs.Address.{multicast, zeros_then, loopback, unspecified, good_hop};
ghost use Rattle.ipv6.specs.Packet.{source, destination, forbidden, packet_rules, fault_place};
ghost use Rattle.ipv6.specs.Identifier.{flipped, identifier, link_local, mid_of};

use replies::Refusal;

#[tactic(auto, unfolding(crate::specs::Address::multicast))]
pub fn is_multicast(address: &[u8]) -> bool
    ensures { result ≡ multicast address.now }
{
    address.first() == Some(&0xff)
}

// Fifteen zeros and this last byte.
fn is_zeros_then(address: &[u8], last: u8) -> bool
    ensures { result ≡ same address.now (zeros_then last) }
{
    octets::equal(
        address,
        &[0, 0, 0, 0, 0, 0, 0, 0, 0, 0, 0, 0, 0, 0, 0, last],
    )
}

pub fn is_loopback(address: &[u8]) -> bool
    ensures { result ≡ loopback address.now }
{
    is_zeros_then(address, 1)
}

pub fn is_unspecified(address: &[u8]) -> bool
    ensures { result ≡ unspecified address.now }
{
    is_zeros_then(address, 0)
}

// Whether a next hop can be a neighbour's address.
#[tactic(auto, unfolding(crate::specs::Address::good_hop))]
pub fn is_good_hop(address: &[u8]) -> bool
    ensures { result ≡ good_hop address.now }
{
    let unspecified = is_unspecified(address);
    let loopback = is_loopback(address);
    let multicast = is_multicast(address);
    (address.len() == 16) & !unspecified & !loopback & !multicast
}

pub fn source_of(packet: &[u8]) -> &[u8]
    ensures { result.now ≡ source packet.now }
{
    octets::part(packet, 8, 16)
}

pub fn destination_of(packet: &[u8]) -> &[u8]
    ensures { result.now ≡ destination packet.now }
{
    octets::part(packet, 24, 16)
}

#[tactic(auto, unfolding(crate::specs::Packet::forbidden))]
fn is_forbidden(packet: &[u8]) -> bool
    ensures { result ≡ forbidden packet.now }
{
    let from = source_of(packet);
    let to = destination_of(packet);
    is_multicast(from) | is_loopback(from) | is_unspecified(to) | is_loopback(to)
}

// Refuses a bad packet by the first that holds of 9, 20, 21, 22, 10.
#[tactic(auto, unfolding(crate::specs::Packet::packet_rules))]
pub fn check_packet(packet: &[u8]) -> Result<(), Refusal>
    ensures { reply_number result ≡ refusal (packet_rules packet.now) }
{
    if 1280 < packet.len() {
        return Err(Refusal::PacketTooLong);
    }
    if packet.len() < 40 {
        return Err(Refusal::PacketShort);
    }
    // A good packet passes all three, and nearly every packet is good; so they are tested first, and told in their order.
    let wrong_version = packet[0] / 16 != 6;
    let wrong_length = octets::number16(packet, 4) as usize + 40 != packet.len();
    let forbidden = is_forbidden(packet);
    if wrong_version {
        return Err(Refusal::VersionNot6);
    }
    if wrong_length {
        return Err(Refusal::LengthFieldWrong);
    }
    if forbidden {
        return Err(Refusal::AddressNotAllowed);
    }
    Ok(())
}

// The place in the packet that a reply of this number gives: where the fault stands, and 0 where none does. Of any number, so that it asks
// no more of a caller than the rule does.
#[tactic(auto, unfolding(crate::specs::Packet::fault_place))]
pub fn fault_place(number: u8, packet: &[u8]) -> usize
    ensures { result ≡ fault_place number packet.now }
{
    if number == Refusal::PacketShort.number() {
        return packet.len();
    }
    if number == Refusal::LengthFieldWrong.number() {
        return 4;
    }
    0
}

#[tactic(auto, unfolding(crate::specs::Identifier::flipped))]
fn flip(b: u8) -> u8
    ensures { result ≡ flipped b }
{
    if b / 2 % 2 == 0 {
        return b + 2;
    }
    b - 2
}

// The interface identifier of a MID.
#[tactic(auto, unfolding(crate::specs::Identifier::identifier, octets::specs::Digits::digits))]
pub fn identifier_of(mid: u64) -> [u8; 8]
    ensures { result ≡ identifier mid }
{
    let m = octets::mac_of(mid);
    [flip(m[0]), m[1], m[2], 0xff, 0xfe, m[3], m[4], m[5]]
}

// The address of a MID within fe80::/64.
#[tactic(auto, unfolding(crate::specs::Identifier::link_local, crate::specs::Identifier::identifier, octets::specs::Digits::digits))]
pub fn link_local_of(mid: u64) -> [u8; 16]
    ensures { result ≡ link_local mid }
{
    let i = identifier_of(mid);
    [
        0xfe, 0x80, 0, 0, 0, 0, 0, 0, i[0], i[1], i[2], i[3], i[4], i[5], i[6], i[7],
    ]
}

// The MID from which an address was built, if it was. With FF FE in its place it is neither :: nor ::1, so these are not asked.
#[tactic(auto, using(crate::proofs::Laws::Identifier::no_address, crate::proofs::Laws::Identifier::without_ff_fe, crate::proofs::Laws::Identifier::many_without_mid, crate::proofs::Laws::Identifier::with_ff_fe, crate::proofs::Laws::Identifier::mid_bytes))]
pub fn mid_of(address: &[u8]) -> Option<u64>
    ensures { result ≡ mid_of address.now }
{
    if address.len() != 16 {
        return None;
    }
    if !((address[11] == 0xff) & (address[12] == 0xfe)) {
        return None;
    }
    if address[0] == 0xff {
        return None;
    }
    let mac = [
        flip(address[8]),
        address[9],
        address[10],
        address[13],
        address[14],
        address[15],
    ];
    Some(octets::mid(&mac, 0))
}
