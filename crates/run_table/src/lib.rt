// RULES, A table over a run: the calls that alter the table, over a head by value and a lent run of link records, which are looked for,
// read and stored where they lie.
// Run and head stay two parameters: a struct with the lent run would be no plainer, since its owner lends the run anew for each call.
#![tactic(auto)]

ghost use Rattle.std.specs.Prelude.{◌≡◌, take};
ghost use Rattle.replies.specs.Numbers.{reply_number};
ghost use Rattle.replies.specs.Rules.{refusal};
ghost use Rattle.links.specs.Calls.{enable, disable, set_area, set_own};
ghost use Rattle.links.specs.Run.{over, reply_over, start_over, Left, Begins};
ghost use Rattle.links.specs.Settings.{stored};
ghost use Rattle.run_table.specs.Parts.{apart_rules, changed};

use area::Area;
use links::{Head, HeadReply, LinkIndex, Settings, Slot, StartValues};
use replies::Refusal;
use search::{SameGround, Unused};

// The first maximum - 1 records are cleared, and the rest stays.
pub fn start(run: &mut [Slot], v: StartValues) -> Result<Head, Refusal>
    ensures { Begins (start_over run.old v) result run.new }
{
    links::checks::check_start(links::MOST_OVER_A_RUN, v)?;
    run_slots::check_length(run, v.max)?;
    run_slots::clear(run, run_slots::slot_count(v.max));
    Ok(Head {
        own: v.own,
        max: v.max,
        tvl: v.tvl,
        dgvl: v.dgvl,
        area: None,
    })
}

pub fn enable(run: &mut [Slot], head: Head, s: Settings) -> HeadReply
    ensures { Left (reply_over (over head run.old) (enable s)) result run.new }
{
    HeadReply {
        answer: enabled(run, head, s),
        head,
    }
}

// The refusals in their order: 1, 30, 23, 2, 29, 3, 4, 5, 6. The link takes the lowest record that is unused.
fn enabled(run: &mut [Slot], head: Head, s: Settings) -> Result<Option<LinkIndex>, Refusal>
    ensures { Left (reply_over (over head run.old) (enable s)) (record { answer = result; head = head }) run.new }
{
    links::checks::check_settings_values(s)?;
    run_slots::check_length(run, head.max)?;
    links::checks::check_ground(s)?;
    let count = run_slots::slot_count(head.max);
    check_apart(run, count, s)?;
    let Some(place) = run_slots::find(run, count, Unused) else {
        return Err(Refusal::NoIndexFree);
    };
    let slot = Slot {
        enabled: true,
        settings: stored(s),
    };
    run_slots::store(run, place, slot);
    Ok(Some(LinkIndex(place + LinkIndex::FIRST_STOP.0)))
}

// What the enabled links refuse: 4 where one has the area, 5 where one has a prefix that overlaps these, or two of these overlap.
fn check_apart(run: &[Slot], count: usize, s: Settings) -> Result<(), Refusal>
    ensures { reply_number result ≡ refusal (apart_rules (take count run.now) s) }
{
    if run_slots::find(run, count, SameGround::of(s.area)).is_some() {
        return Err(Refusal::AreaInUse);
    }
    if prefixes::overlap_within(s.prefixes) || run_slots::overlapping(run, count, s.prefixes) {
        return Err(Refusal::PrefixOverlaps);
    }
    Ok(())
}

// What the table keeps of the settings: places past the count are blank.
#[tactic(auto, unfolding(links::specs::Settings::stored))]
fn stored(s: Settings) -> Settings
    ensures { result ≡ stored s }
{
    Settings {
        prefixes: prefixes::kept(s.prefixes),
        ..s
    }
}

pub fn disable(run: &mut [Slot], head: Head, index: LinkIndex) -> HeadReply
    ensures { Left (reply_over (over head run.old) (disable index)) result run.new }
{
    HeadReply {
        answer: disabled(run, head, index),
        head,
    }
}

// The refusals in their order: 23, 15, 7.
#[tactic(auto, unfolding(links::specs::Run::reply_over, links::specs::Run::rules_over, links::specs::Calls::rules, links::specs::Calls::link_after, links::specs::Calls::table_after))]
fn disabled(run: &mut [Slot], head: Head, index: LinkIndex) -> Result<Option<LinkIndex>, Refusal>
    ensures { Left (reply_over (over head run.old) (disable index)) (record { answer = result; head = head }) run.new }
{
    run_slots::check_length(run, head.max)?;
    if index.0 < LinkIndex::FIRST_STOP.0 {
        return Err(Refusal::FixedLink);
    }
    let slot = run_slots::slot_at(run, head.max, index);
    if !slot.enabled {
        return Err(Refusal::NoSuchLink);
    }
    let place = index.0 - LinkIndex::FIRST_STOP.0;
    run_slots::store(run, place, links::blank_slot());
    Ok(None)
}

pub fn set_dgvl_area(run: &[Slot], head: Head, a: Option<Area>) -> HeadReply
    ensures { Left (reply_over (over head run.now) (set_area a)) result run.now }
{
    changed(head, with_area(run, head, a))
}

#[tactic(auto, unfolding(links::specs::Run::reply_over, links::specs::Run::rules_over, links::specs::Calls::rules, links::specs::Calls::link_after, links::specs::Calls::table_after))]
fn with_area(run: &[Slot], head: Head, a: Option<Area>) -> Result<Head, Refusal>
    ensures { Left (reply_over (over head run.now) (set_area a)) (changed head result) run.now }
{
    run_slots::check_length(run, head.max)?;
    if !links::checks::dynamic_area_good(a) {
        return Err(Refusal::AreaNotGood);
    }
    Ok(Head { area: a, ..head })
}

pub fn set_own_mid(run: &[Slot], head: Head, mid: u64) -> HeadReply
    ensures { Left (reply_over (over head run.now) (set_own mid)) result run.now }
{
    changed(head, with_own_mid(run, head, mid))
}

#[tactic(auto, unfolding(links::specs::Run::reply_over, links::specs::Run::rules_over, links::specs::Calls::rules, links::specs::Calls::link_after, links::specs::Calls::table_after))]
fn with_own_mid(run: &[Slot], head: Head, mid: u64) -> Result<Head, Refusal>
    ensures { Left (reply_over (over head run.now) (set_own mid)) (changed head result) run.now }
{
    if !links::checks::mid_ok(mid) {
        return Err(Refusal::ValueOutOfRange);
    }
    run_slots::check_length(run, head.max)?;
    Ok(Head { own: mid, ..head })
}

// The reply of a call that alters the head alone: another head, or this one where it is refused.
fn changed(head: Head, new: Result<Head, Refusal>) -> HeadReply
    ensures { result ≡ changed head new }
{
    match new {
        Ok(now) => HeadReply {
            answer: Ok(None),
            head: now,
        },
        Err(refusal) => HeadReply {
            answer: Err(refusal),
            head,
        },
    }
}
