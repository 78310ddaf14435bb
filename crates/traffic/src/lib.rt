// RULES, What arrives and What leaves: the types of indications and requests. What they are answered is defined in specs/,
// and demand 3 is proved here of the definitions, for every layout of the table.
#![tactic(auto)]

ghost use Rattle.std.specs.Prelude.{◌≡◌};
ghost use Rattle.replies.specs.Numbers.{number_of};
ghost use Rattle.ipv6.specs.Packet.{fault_place};

use area::Area;
use links::LinkIndex;
use replies::Refusal;

// The transports of GeoNetworking. Numbers, what is sent too, so that what comes in and what goes down have one list.
pub const GEO_UNICAST: u8 = 1;

pub const GEO_ANYCAST: u8 = 2;

pub const GEO_BROADCAST: u8 = 3;

pub const TSB: u8 = 4;

// A destination is a MID, an area, or nothing.
#[derive(Clone, Copy)]
pub enum Destination {
    Mid(u64),
    Within(Area),
    Nothing,
}

// An indication but for its packet, which is lent beside it.
#[derive(Clone, Copy)]
pub struct IndicationHead {
    // a number, since a transport outside the list is an input that 1 answers (right_sort; the clause of arrives::check_values)
    pub transport: u8,
    pub source: u64,
    pub class: u8,
    pub destination: Destination,
}

// A request but for its packet, which is lent beside it.
#[derive(Clone, Copy)]
pub struct RequestHead {
    pub index: LinkIndex,
    pub class: u8,
    pub neighbour: Option<u64>,
}

// Why a call with a packet is refused, and the place of the fault in the packet: 0 where none is bad.
#[derive(Clone, Copy)]
pub struct Fault {
    pub refusal: Refusal,
    // 0 for a refusal of no part of the packet, and for 21 whose part stands there (packet-place)
    pub place: usize,
}

impl Fault {
    // Of a call that is refused with this packet.
    pub fn of(refusal: Refusal, packet: &[u8]) -> Fault
        ensures { result ≡ record { refusal = refusal; place = fault_place (number_of refusal) packet.now } }
    {
        Fault {
            refusal,
            place: ipv6::fault_place(refusal.number(), packet),
        }
    }
}

// What an indication gives a link; what is written stands in the lent buffer.
#[derive(Clone, Copy)]
pub struct Delivery {
    pub link: LinkIndex,
    pub length: usize,
    pub source: u64,
    pub class: u8,
}

// What a request sends down to GeoNetworking with its packet.
#[derive(Clone, Copy)]
pub struct Sent {
    // a number like that of an indication: one list of transports for what comes in and what goes down
    pub transport: u8,
    pub destination: Destination,
    pub class: u8,
    pub length: usize,
}

// The interface address of a link, and the MID that it is built from.
#[derive(Clone, Copy)]
pub struct OwnAddress {
    pub mid: u64,
    pub address: [u8; 16],
}
