// RULES, Prefix: the prefixes of one stop link, up to four. They are told as numbers, four of each sort and a count: a record of the
// table takes 104 bytes so, and 136 with an array of prefixes.
#![tactic(auto)]

ghost use Rattle.std.specs.Prelude.{◌≡◌, ◌<◌};
ghost use Rattle.prefix.specs.Prefix.{overlap, good_prefix};
ghost use Rattle.prefixes.specs.Prefixes.{place, too_many, good_prefixes, meets, may_meet, overlap_within, no_prefixes, listed_at, of_four, kept, single};

use prefix::Prefix;

// How many prefixes a stop link can have.
pub const MOST: u8 = 4;

// The count may say more than there are places, so that a call can be refused for it.
#[derive(Clone, Copy)]
pub struct Prefixes {
    pub count: u8,
    pub lens: [u8; MOST as usize],
    pub highs: [u64; MOST as usize],
    pub lows: [u64; MOST as usize],
}

pub fn none() -> Prefixes
    ensures { result ≡ no_prefixes }
{
    Prefixes {
        count: 0,
        lens: [0; MOST as usize],
        highs: [0; MOST as usize],
        lows: [0; MOST as usize],
    }
}

// These four prefixes, of which as many count.
pub fn of_four(count: u8, a: Prefix, b: Prefix, c: Prefix, d: Prefix) -> Prefixes
    ensures { result ≡ of_four count a b c d }
{
    Prefixes {
        count,
        lens: [a.len, b.len, c.len, d.len],
        highs: [a.high, b.high, c.high, d.high],
        lows: [a.low, b.low, c.low, d.low],
    }
}

// One prefix; none where its length is 0.
pub fn single(p: Prefix) -> Prefixes
    ensures { result ≡ single p }
{
    if p.len == 0 {
        return none();
    }
    let blank = prefix::none();
    of_four(1, p, blank, blank, blank)
}

// The prefix at a place, listed or not.
fn place(s: Prefixes, k: usize) -> Prefix
    requires { k < 4 }
    ensures { result ≡ place s k }
{
    Prefix {
        len: s.lens[k],
        high: s.highs[k],
        low: s.lows[k],
    }
}

// The prefix that is listed at a place; none past the count, and past the last place.
pub fn at(s: Prefixes, k: u8) -> Prefix
    ensures { result ≡ listed_at s k }
{
    if s.count.min(MOST) <= k {
        return prefix::none();
    }
    place(s, k as usize)
}

pub fn too_many(s: Prefixes) -> bool
    ensures { result ≡ too_many s }
{
    MOST < s.count
}

pub fn good(s: Prefixes) -> bool
    ensures { result ≡ good_prefixes s }
{
    for k in 0..s.count.min(MOST) {
        let p = at(s, k);
        let listable = (0 < p.len) & prefix::good(p);
        if !listable {
            return false;
        }
    }
    true
}

// Whether one of them overlaps a prefix.
pub fn meets(s: Prefixes, p: Prefix) -> bool
    ensures { result ≡ meets s p }
{
    for k in 0..MOST {
        if prefix::overlaps(at(s, k), p) {
            return true;
        }
    }
    false
}

// Whether one of them may overlap a prefix, by a look at the first place: a search goes past most links with it.
pub fn may_meet(s: Prefixes, p: Prefix) -> bool
    ensures { result ≡ may_meet s p }
{
    (1 < s.count) | prefix::may_overlap(place(s, 0), p)
}

// Whether one of them overlaps another: six pairs by name, since two loops over the places are no shorter.
pub fn overlap_within(s: Prefixes) -> bool
    ensures { result ≡ overlap_within s }
{
    let a = at(s, 0);
    let b = at(s, 1);
    let c = at(s, 2);
    let d = at(s, 3);
    prefix::overlaps(a, b)
        | prefix::overlaps(a, c)
        | prefix::overlaps(a, d)
        | prefix::overlaps(b, c)
        | prefix::overlaps(b, d)
        | prefix::overlaps(c, d)
}

// The same, with the places past the count blank; of_four takes the four by name.
pub fn kept(s: Prefixes) -> Prefixes
    ensures { result ≡ kept s }
{
    of_four(s.count, at(s, 0), at(s, 1), at(s, 2), at(s, 3))
}
