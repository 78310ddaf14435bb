// RULES, Virtual links: the types of the table of virtual links. What the calls on it answer is defined in specs/;
// the laws of demands 1 and 2 are proved here of the definitions, for every layout of the table.
#![tactic(auto)]

pub mod checks;
pub mod index;

ghost use Rattle.std.specs.Prelude.{◌≡◌};
ghost use Rattle.links.specs.Slots.{free, value_slots};
ghost use Rattle.links.specs.Calls.{fresh, plain_start};

use area::Area;
use prefixes::Prefixes;
use replies::Refusal;

// The index of a virtual link. The two fixed links bear index 0 and 1 always.
#[derive(Clone, Copy, PartialEq, Eq)]
pub struct LinkIndex(pub usize);

impl LinkIndex {
    pub const TVL: LinkIndex = LinkIndex(0);

    pub const DGVL: LinkIndex = LinkIndex(1);

    pub const FIRST_STOP: LinkIndex = LinkIndex(2);
}

// The kinds of an interface.
pub const ETHERNET: u8 = 1;

pub const NBMA: u8 = 2;

pub const POINT_TO_POINT: u8 = 3;

// How many slots a table by value has, and so its largest index maximum.
pub const SLOTS: usize = 64;

pub const MOST: usize = 65;

// The largest index maximum of a table over a lent run.
pub const MOST_OVER_A_RUN: usize = 4093;

// A link's interface: its kind and its resolve flag.
#[derive(Clone, Copy)]
pub struct Interface {
    // kind and flag are numbers, since one outside its list is an input that 1 answers (table_demand_1; the clause of value_table::enable)
    pub kind: u8,
    pub flag: u8,
}

// What a stop link is enabled with. The prefixes stand last: the interface fills the room that their words leave before them.
#[derive(Clone, Copy)]
pub struct Settings {
    pub area: Area,
    pub interface: Interface,
    pub prefixes: Prefixes,
}

// The record of one stop index: the first slot is that of the first stop index.
#[derive(Clone, Copy)]
pub struct Slot {
    // no Option of the settings, since a slot that is not enabled has some: they are blank (free, Sound.blank, Removes.gone)
    pub enabled: bool,
    pub settings: Settings,
}

// What a start is given.
#[derive(Clone, Copy)]
pub struct StartValues {
    pub own: u64,
    pub max: usize,
    pub tvl: Interface,
    pub dgvl: Interface,
}

// A table by value. The area is the dynamic link's, which may be set and cleared.
#[derive(Clone, Copy)]
pub struct Table {
    pub own: u64,
    pub max: usize,
    pub tvl: Interface,
    pub dgvl: Interface,
    pub area: Option<Area>,
    // an array with the maximum beside it: no heap, fixed memory
    pub slots: [Slot; SLOTS],
}

// The same table without its slots: the head of a table over a lent run, whose slots are the run's records.
#[derive(Clone, Copy)]
pub struct Head {
    pub own: u64,
    pub max: usize,
    pub tvl: Interface,
    pub dgvl: Interface,
    pub area: Option<Area>,
}

// The link that was chosen for a packet: all that a delivery asks of it, whatever the layout of the table.
#[derive(Clone, Copy)]
pub struct Chosen {
    pub index: LinkIndex,
    // a number like that of an interface, of which it is
    pub kind: u8,
}

// The link that an index names: all that a request asks of it, whatever the layout of the table.
#[derive(Clone, Copy)]
pub struct Named {
    // no Option of the link, since one that is not enabled has an interface and an area too (named; the clause of link_from)
    pub enabled: bool,
    pub interface: Interface,
    pub area: Option<Area>,
}

// What a disabled slot holds.
pub fn blank_slot() -> Slot
    ensures { result ≡ free }
{
    let area = Area {
        shape: 0,
        latitude: 0,
        longitude: 0,
        a: 0,
        b: 0,
        angle: 0,
    };
    Slot {
        enabled: false,
        settings: Settings {
            area,
            interface: Interface { kind: 0, flag: 0 },
            prefixes: prefixes::none(),
        },
    }
}

impl Table {
    // The table with no stop link enabled. A maximum above 65 finds no more than 64 slots.
    pub fn fresh(v: StartValues) -> Self
        ensures { result ≡ fresh value_slots v }
    {
        Table {
            own: v.own,
            max: v.max,
            tvl: v.tvl,
            dgvl: v.dgvl,
            area: None,
            slots: [blank_slot(); SLOTS],
        }
    }

    // The table that a refused start returns, and that of a box which nobody has started.
    pub fn plain() -> Self
        ensures { result ≡ fresh value_slots plain_start }
    {
        Table::fresh(StartValues {
            own: 0,
            max: 2,
            tvl: Interface {
                kind: ETHERNET,
                flag: 1,
            },
            dgvl: Interface {
                kind: ETHERNET,
                flag: 1,
            },
        })
    }
}

// Two types and not one generic in what is given back: table and head are seen by two views (reply_of, Left).
// What a call on the table answers: the link if it gives one, or why it is refused; and the table after it.
#[derive(Clone, Copy)]
pub struct TableReply {
    pub answer: Result<Option<LinkIndex>, Refusal>,
    pub table: Table,
}

// What a call on a table over a run answers, with the head after it. The records after it are in the run.
#[derive(Clone, Copy)]
pub struct HeadReply {
    pub answer: Result<Option<LinkIndex>, Refusal>,
    pub head: Head,
}
