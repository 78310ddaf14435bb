// RULES, Cases at the edges: those not marked *, each printed with what is expected and what came. The twin prints the
// same lines from its own code. A line that standard output does not take can be told nowhere: the others are printed, and the program
// ends as ever.
#![tactic(auto)]

use area::Area;
use links::{Interface, LinkIndex, Settings, StartValues, Table};
use prefix::Prefix;
use prefixes::Prefixes;
use std::fmt;
use traffic::{Destination, Fault, IndicationHead, RequestHead, Sent};

fn rectangle(latitude: i32, angle: u16) -> Area {
    Area {
        shape: 1,
        latitude,
        longitude: 0,
        a: 500,
        b: 300,
        angle,
    }
}

fn plain() -> Interface {
    Interface {
        kind: links::ETHERNET,
        flag: 1,
    }
}

fn settings(area: Area, interface: Interface, prefixes: Prefixes) -> Settings {
    Settings {
        area,
        interface,
        prefixes,
    }
}

// A table with this stop link alone.
fn only_stop(max: usize, stop: Settings) -> Table {
    let start = value_table::start(StartValues {
        own: 1,
        max,
        tvl: plain(),
        dgvl: plain(),
    });
    value_table::enable(start.table, stop).table
}

// Maximum 2, and its only stop link enabled, with this interface.
fn with_stop(interface: Interface) -> Table {
    only_stop(2, settings(rectangle(0, 90), interface, prefixes::none()))
}

fn with_one_stop() -> Table {
    with_stop(plain())
}

// 40 bytes from fe80::1 to ff02::1.
fn packet() -> [u8; 40] {
    let mut bytes = [0u8; 40];
    bytes[0] = 0x60;
    bytes[8] = 0xfe;
    bytes[9] = 0x80;
    bytes[23] = 1;
    bytes[24] = 0xff;
    bytes[25] = 0x02;
    bytes[39] = 1;
    bytes
}

// What the enable of one more link is answered: the number of its refusal, or its link.
fn print_enabled(rt: &HostRuntime, expected: &str, table: Table, second: Settings) {
    let _ = match value_table::enable(table, second).answer {
        Ok(Some(index)) => println!(rt; "{expected} got link {}", index.0),
        Ok(None) => println!(rt; "{expected} got no link"),
        Err(refusal) => println!(rt; "{expected} got {}", refusal.number()),
    };
}

fn second_stop(rt: &HostRuntime) {
    let list = prefixes::single(prefix::of_bytes(
        8,
        &[0x20, 0, 0, 0, 0, 0, 0, 0, 0, 0, 0, 0, 0, 0, 0, 0],
    ));
    print_enabled(
        rt,
        "second stop link at maximum 2: expected 6",
        with_one_stop(),
        settings(rectangle(1_000, 90), plain(), list),
    );
}

// An indication from MID 2 with class 0.
fn from_two(transport: u8, destination: Destination) -> IndicationHead {
    IndicationHead {
        transport,
        source: 2,
        class: 0,
        destination,
    }
}

// The link that an indication is delivered on.
fn print_link(rt: &HostRuntime, expected: &str, table: Table, h: IndicationHead, packet: &[u8]) {
    let mut buffer = [0u8; 1294];
    let _ = match value_traffic::indication(table, h, packet, &mut buffer) {
        Ok(delivery) => println!(rt; "{expected} got link {}", delivery.link.0),
        Err(fault) => println!(rt; "{expected} got reply {}", fault.refusal.number()),
    };
}

fn broadcast_beside_the_stop(rt: &HostRuntime) {
    print_link(
        rt,
        "broadcast to a rectangle with the angle one off: expected link 1",
        with_one_stop(),
        from_two(
            traffic::GEO_BROADCAST,
            Destination::Within(rectangle(0, 91)),
        ),
        &packet(),
    );
}

fn buffer_of_packet_and_13(rt: &HostRuntime) {
    let before = [0x5au8; 53];
    let mut buffer = before;
    let h = from_two(traffic::TSB, Destination::Nothing);
    let number = match value_traffic::indication(with_one_stop(), h, &packet(), &mut buffer) {
        Ok(_) => replies::DONE,
        Err(fault) => fault.refusal.number(),
    };
    let kept = if buffer == before {
        "unchanged"
    } else {
        "changed"
    };
    let _ = println!(rt; "buffer of packet + 13: expected 13 unchanged got {number} {kept}");
}

fn print_fault(rt: &HostRuntime, expected: &str, fault: Option<Fault>) {
    let _ = match fault {
        Some(f) => println!(rt; "{expected} got {} at {}", f.refusal.number(), f.place),
        None => println!(rt; "{expected} got 0 at 0"),
    };
}

// A bad packet, as an indication by TSB and as a request on the TVL, with its far end as next hop.
fn bad_packet(rt: &HostRuntime, expected: &str, packet: &[u8]) {
    let mut buffer = [0u8; 1294];
    let h = from_two(traffic::TSB, Destination::Nothing);
    let received = value_traffic::indication(with_one_stop(), h, packet, &mut buffer);
    let _ = print!(rt; "indication ");
    print_fault(rt, expected, received.err());
    let q = RequestHead {
        index: LinkIndex::TVL,
        class: 0,
        neighbour: None,
    };
    let sent = value_traffic::request(with_one_stop(), q, octets::part(packet, 24, 16), packet);
    let _ = print!(rt; "request ");
    print_fault(rt, expected, sent.err());
}

fn parts_that_are_bad(rt: &HostRuntime) {
    let whole = packet();
    let cut = octets::part(&whole, 0, 39);
    bad_packet(rt, "of 39 bytes: expected 20 at 39", cut);
    let mut version_five = packet();
    version_five[0] = 0x50;
    bad_packet(rt, "of version 5: expected 21 at 0", &version_five);
    let mut too_large = packet();
    too_large[5] = 1;
    bad_packet(
        rt,
        "with the length field one too large: expected 22 at 4",
        &too_large,
    );
}

// edge-film-server, and two cases of edge-next-hop, with all that the reply gives: transport, destination, class and length, or the
// number of a refusal.
#[derive(Clone, Copy)]
struct Shown(Destination);

impl fmt::Display for Shown {
    fn fmt<W: fmt::Write>(&self, f: &mut fmt::Formatter<W>) -> fmt::Result {
        match self.0 {
            Destination::Mid(mid) => {
                let [a, b, c, d, e, g] = octets::mac_of(mid);
                write!(f, "{a:02x}:{b:02x}:{c:02x}:{d:02x}:{e:02x}:{g:02x}")
            }
            Destination::Within(area) => write!(
                f,
                "{} {} {} {} {} {}",
                area.shape, area.latitude, area.longitude, area.a, area.b, area.angle
            ),
            Destination::Nothing => write!(f, "nothing"),
        }
    }
}

// A request on the only stop link, of kind 1 and this flag.
fn show(
    rt: &HostRuntime,
    expected: &str,
    flag: u8,
    neighbour: Option<u64>,
    hop: &[u8],
    packet: &[u8],
) {
    let table = with_stop(Interface {
        kind: links::ETHERNET,
        flag,
    });
    let h = RequestHead {
        index: LinkIndex::FIRST_STOP,
        class: 7,
        neighbour,
    };
    let _ = match value_traffic::request(table, h, hop, packet) {
        Ok(sent) => println!(rt;
            "{expected} got {} to {} class {} length {}",
            sent.transport,
            Shown(sent.destination),
            sent.class,
            sent.length
        ),
        Err(fault) => println!(rt; "{expected} got {}", fault.refusal.number()),
    };
}

// fe80::ff:fe00:1, which is 02:00:00:00:00:01's.
fn mast() -> [u8; 16] {
    [0xfe, 0x80, 0, 0, 0, 0, 0, 0, 0, 0, 0, 0xff, 0xfe, 0, 0, 1]
}

// 2001:db8::, with this last byte.
fn in_internet(last: u8) -> [u8; 16] {
    [
        0x20, 0x01, 0x0d, 0xb8, 0, 0, 0, 0, 0, 0, 0, 0, 0, 0, 0, last,
    ]
}

// 40 bytes from fe80::1 to the film server, 2001:db8::5.
fn to_film_server() -> [u8; 40] {
    let mut bytes = packet();
    bytes[24..].copy_from_slice(&in_internet(5));
    bytes
}

fn show_next_hops(rt: &HostRuntime) {
    let film = to_film_server();
    show(
        rt,
        "request to a film server behind the mast: expected 1 to 02:00:00:00:00:01 class 7 length 40",
        1,
        None,
        &mast(),
        &film,
    );
    show(
        rt,
        "request to a film server as its own next hop: expected 12",
        1,
        None,
        &in_internet(5),
        &film,
    );
    show(
        rt,
        "request by a mast without FF FE, MID given: expected 1 to 02:00:00:00:00:02 class 7 length 40",
        0,
        Some(0x0200_0000_0002),
        &in_internet(1),
        &film,
    );
    show(
        rt,
        "multicast request with next hop ::: expected 3 to 1 0 0 500 300 90 class 7 length 40",
        1,
        None,
        &[0u8; 16],
        &packet(),
    );
}

// edge-operators. 2001:db8:N::/48, and 2001:db8:N:1::/64 inside it.
fn operator(n: u8) -> Prefix {
    let mut bytes = in_internet(0);
    bytes[5] = n;
    prefix::of_bytes(48, &bytes)
}

fn inside_operator(n: u8) -> Prefix {
    let mut bytes = in_internet(0);
    bytes[5] = n;
    bytes[7] = 1;
    prefix::of_bytes(64, &bytes)
}

fn two_prefixes(a: Prefix, b: Prefix) -> Prefixes {
    prefixes::of_four(2, a, b, prefix::none(), prefix::none())
}

// The mast of two operators, which is link 2.
fn with_two_operators() -> Table {
    let list = two_prefixes(operator(0x0a), operator(0x0b));
    only_stop(65, settings(rectangle(0, 90), plain(), list))
}

// 40 bytes from 2001:db8:N::1 to 2001:db8:M::1. With 0 it is an address of nobody.
fn between(source: u8, destination: u8) -> [u8; 40] {
    let mut bytes = packet();
    bytes[8..24].copy_from_slice(&in_internet(1));
    bytes[24..].copy_from_slice(&in_internet(1));
    bytes[13] = source;
    bytes[29] = destination;
    bytes
}

fn unicast_on_the_mast(rt: &HostRuntime, expected: &str, packet: &[u8]) {
    let h = from_two(traffic::GEO_UNICAST, Destination::Mid(1));
    print_link(rt, expected, with_two_operators(), h, packet);
}

fn second_mast(rt: &HostRuntime, expected: &str, list: Prefixes) {
    let second = settings(rectangle(1_000, 90), plain(), list);
    print_enabled(rt, expected, with_two_operators(), second);
}

fn operators_on_a_mast(rt: &HostRuntime) {
    unicast_on_the_mast(
        rt,
        "indication to the first operator: expected link 2",
        &between(0, 0x0a),
    );
    unicast_on_the_mast(
        rt,
        "indication to the second operator: expected link 2",
        &between(0, 0x0b),
    );
    unicast_on_the_mast(
        rt,
        "indication from the second operator: expected link 2",
        &between(0x0b, 0),
    );
    let own = operator(0x0c);
    second_mast(
        rt,
        "second mast with a prefix inside the second operator's: expected 5",
        two_prefixes(own, inside_operator(0x0b)),
    );
    second_mast(
        rt,
        "second mast with its own prefix twice: expected 5",
        two_prefixes(own, own),
    );
    second_mast(
        rt,
        "second mast with five prefixes: expected 29",
        prefixes::of_four(5, own, operator(0x0d), operator(0x0e), operator(0x0f)),
    );
    second_mast(
        rt,
        "second mast without a prefix: expected link 3",
        prefixes::none(),
    );
}

fn main(rt: HostRuntime) {
    operators_on_a_mast(&rt);
    second_stop(&rt);
    broadcast_beside_the_stop(&rt);
    buffer_of_packet_and_13(&rt);
    parts_that_are_bad(&rt);
    show_next_hops(&rt);
}
