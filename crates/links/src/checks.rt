// Which values of the settings are good: what refuses a call before the table is looked at. A call's values (1, 30) are asked apart
// from the rest, because a layout of the table may have a refusal of its own between the two.
ghost use Rattle.std.specs.Prelude.{◌≡◌, [], ◌-◌, ltb};
ghost use Rattle.replies.specs.Numbers.{reply_number};
ghost use Rattle.replies.specs.Rules.{refusal, ◌if◌, ◌then◌};
ghost use Rattle.links.specs.Settings.{mid_ok, interface_ok, retired, settings_values, ground_rules};
ghost use Rattle.links.specs.Calls.{good_dynamic, start_values};

use crate::{ETHERNET, Interface, LinkIndex, NBMA, POINT_TO_POINT, Settings, StartValues};
use area::Area;
use replies::Refusal;

pub fn mid_ok(mid: u64) -> bool
    ensures { result ≡ mid_ok mid }
{
    mid < 0x1_0000_0000_0000
}

#[tactic(auto, unfolding(crate::specs::Settings::interface_ok))]
pub fn interface_ok(f: Interface) -> bool
    ensures { result ≡ interface_ok f }
{
    (ETHERNET <= f.kind) & (f.kind <= POINT_TO_POINT) & (f.flag <= 1)
}

// Whether no link can be started or enabled with this kind any more.
pub fn retired(f: Interface) -> bool
    ensures { result ≡ retired f }
{
    f.kind == NBMA
}

pub fn dynamic_area_good(a: Option<Area>) -> bool
    ensures { result ≡ good_dynamic a }
{
    match a {
        Some(x) => area::good(x),
        None => true,
    }
}

// 1 where a value is outside its list or range, then 30 where a kind is retired.
fn check_values(outside: bool, retired: bool) -> Result<(), Refusal>
    ensures { reply_number result ≡ refusal (1 if outside then 30 if retired then []) }
{
    if outside {
        return Err(Refusal::ValueOutOfRange);
    }
    if retired {
        return Err(Refusal::KindRetired);
    }
    Ok(())
}

// Whether there are too few records for the slots that count.
pub fn too_short(max: usize, records: usize) -> bool
    ensures { result ≡ ltb records (max - 1) }
{
    records < max.saturating_sub(1)
}

// What the values of a start refuse it for, where `most` is the largest maximum: 1, 30 in this order.
#[tactic(auto, unfolding(crate::specs::Calls::start_values))]
pub fn check_start(most: usize, v: StartValues) -> Result<(), Refusal>
    ensures { reply_number result ≡ refusal (start_values most v) }
{
    let good = mid_ok(v.own)
        & (LinkIndex::FIRST_STOP.0 <= v.max)
        & (v.max <= most)
        & interface_ok(v.tvl)
        & interface_ok(v.dgvl);
    check_values(!good, retired(v.tvl) | retired(v.dgvl))
}

// What the values of an enable refuse it for: 1, 30 in this order.
#[tactic(auto, unfolding(crate::specs::Settings::settings_values))]
pub fn check_settings_values(s: Settings) -> Result<(), Refusal>
    ensures { reply_number result ≡ refusal (settings_values s) }
{
    check_values(!interface_ok(s.interface), retired(s.interface))
}

// What area and prefixes refuse an enable for: 2, 29, 3 in this order.
#[tactic(auto, unfolding(crate::specs::Settings::ground_rules))]
pub fn check_ground(s: Settings) -> Result<(), Refusal>
    ensures { reply_number result ≡ refusal (ground_rules s) }
{
    if !area::good(s.area) {
        return Err(Refusal::AreaNotGood);
    }
    if prefixes::too_many(s.prefixes) {
        return Err(Refusal::TooManyPrefixes);
    }
    if !prefixes::good(s.prefixes) {
        return Err(Refusal::PrefixNotGood);
    }
    Ok(())
}
