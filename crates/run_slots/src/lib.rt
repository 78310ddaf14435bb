// The records of a table that lie in a lent run: look for one, ask for those that overlap prefixes, read one, store one, clear the
// first of them. Who holds the run lends it, and nothing of it is copied but the record that is asked for. None of these asks
// anything of its caller.
#![tactic(auto)]

ghost use Rattle.std.specs.Prelude.{◌≡◌, ◌-◌, [], take, set};
ghost use Rattle.replies.specs.Numbers.{reply_number};
ghost use Rattle.replies.specs.Rules.{refusal, ◌if◌, ◌then◌};
ghost use Rattle.prefixes.specs.Prefixes.{overlapping};
ghost use Rattle.links.specs.Slots.{slot_at, any, with};
ghost use Rattle.links.specs.Calls.{cleared};
ghost use Rattle.links.specs.Run.{too_short};
ghost use Rattle.search.specs.Search.{found_in};

use links::{LinkIndex, Slot};
use prefixes::Prefixes;
use replies::Refusal;
use search::{Overlapping, Question};

// 23 where there are too few records for the slots that count.
pub fn check_length(run: &[Slot], max: usize) -> Result<(), Refusal>
    ensures { reply_number result ≡ refusal (23 if too_short max run.now then []) }
{
    if links::checks::too_short(max, run.len()) {
        return Err(Refusal::RunTooShort);
    }
    Ok(())
}

// How many slots count.
pub fn slot_count(max: usize) -> usize
    ensures { result ≡ max - 1 }
{
    max.saturating_sub(1)
}

// The one search: the place of the first of the first `count` records that passes. A record behind these is never read.
pub fn find<Q: Question>(run: &[Slot], count: usize, asked: Q) -> Option<usize>
    ensures { result ≡ found_in (take count run.now) (Q.test asked) }
{
    let counted = &run[..count.min(run.len())];
    counted
        .iter()
        .position(|x| asked.may_pass(x) && asked.passes(x))
}

// Whether one of the first `count` records is that of a link with a prefix that overlaps one of these.
pub fn overlapping(run: &[Slot], count: usize, s: Prefixes) -> bool
    ensures { result ≡ any (with (λ x. overlapping x.prefixes s)) (take count run.now) }
{
    let listed = s.count.min(prefixes::MOST);
    (0..listed).any(|k| find(run, count, Overlapping(prefixes::at(s, k))).is_some())
}

// The record of a link; a blank one for a fixed link and for an index that does not count.
pub fn slot_at(run: &[Slot], max: usize, index: LinkIndex) -> Slot
    ensures { result ≡ slot_at (take (max - 1) run.now) index }
{
    match index.0.checked_sub(LinkIndex::FIRST_STOP.0) {
        Some(place) if place < slot_count(max) && place < run.len() => run[place],
        _ => links::blank_slot(),
    }
}

// One record is stored; past the end nothing is.
pub fn store(run: &mut [Slot], place: usize, slot: Slot)
    ensures { run.new ≡ set run.old place slot }
{
    if place < run.len() {
        run[place] = slot;
    }
}

// The first `count` records are cleared, or as many as there are.
pub fn clear(run: &mut [Slot], count: usize)
    ensures { run.new ≡ cleared count run.old }
{
    let n = count.min(run.len());
    run[..n].fill(links::blank_slot());
}
