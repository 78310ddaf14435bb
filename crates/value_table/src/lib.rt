// RULES, Virtual links: the calls that alter the table, over a table by value. Its own slots are lent as the run of a table over a run,
// which has the calls. A call takes the table and returns it with the reply; a refusal returns it as it was.
#![tactic(auto)]

ghost use Rattle.std.specs.Prelude.{◌≡◌};
ghost use Rattle.links.specs.Replies.{reply_of};
ghost use Rattle.links.specs.Calls.{start_by_value, reply, enable, disable, set_area, set_own};
ghost use Rattle.value_table.specs.Lent.{lent_head, replied};

use area::Area;
use links::{Head, HeadReply, LinkIndex, Settings, StartValues, Table, TableReply};

pub fn start(v: StartValues) -> TableReply
    ensures { reply_of result ≡ start_by_value v }
{
    match links::checks::check_start(links::MOST, v) {
        Ok(()) => TableReply {
            answer: Ok(None),
            table: Table::fresh(v),
        },
        Err(refusal) => TableReply {
            answer: Err(refusal),
            table: Table::plain(),
        },
    }
}

// The head that goes with its slots. A maximum above 65 counts no more slots than 65, and the run is never too short.
fn lent_head(t: &Table) -> Head
    ensures { result ≡ lent_head t.now }
{
    Head {
        own: t.own,
        max: t.max.min(links::MOST),
        tvl: t.tvl,
        dgvl: t.dgvl,
        area: t.area,
    }
}

// The reply with the table, whose slots are as they were left: of its head no call alters more than own MID and area.
fn replied(t: Table, r: HeadReply) -> TableReply
    ensures { result ≡ replied t r }
{
    TableReply {
        answer: r.answer,
        table: Table {
            own: r.head.own,
            area: r.head.area,
            ..t
        },
    }
}

pub fn enable(mut t: Table, s: Settings) -> TableReply
    ensures { reply_of result ≡ reply t (enable s) }
{
    let head = lent_head(&t);
    let reply = run_table::enable(&mut t.slots, head, s);
    replied(t, reply)
}

pub fn disable(mut t: Table, index: LinkIndex) -> TableReply
    ensures { reply_of result ≡ reply t (disable index) }
{
    let head = lent_head(&t);
    let reply = run_table::disable(&mut t.slots, head, index);
    replied(t, reply)
}

pub fn set_dgvl_area(t: Table, a: Option<Area>) -> TableReply
    ensures { reply_of result ≡ reply t (set_area a) }
{
    let reply = run_table::set_dgvl_area(&t.slots, lent_head(&t), a);
    replied(t, reply)
}

pub fn set_own_mid(t: Table, mid: u64) -> TableReply
    ensures { reply_of result ≡ reply t (set_own mid) }
{
    let reply = run_table::set_own_mid(&t.slots, lent_head(&t), mid);
    replied(t, reply)
}
