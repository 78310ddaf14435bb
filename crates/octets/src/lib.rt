// Bytes and numbers: parts and equal runs of bytes, big-endian numbers, and the six MAC bytes of a MID.
// A part reaches only as far as its slice: what lies past the end is missing, and no call refuses it.
#![tactic(auto)]

ghost use Rattle.std.specs.Prelude.{◌≡◌, ◌+◌, ◌*◌, ◌≤◌, ◌<◌, ◌^◌, ◌++◌, min, length, get_or, take, drop};
ghost use Rattle.octets.specs.Digits.{big_endian, mac};
ghost use Rattle.octets.specs.Runs.{same};

// The n bytes from a place on, or as many of them as there are.
pub fn part(s: &[u8], at: usize, n: usize) -> &[u8]
    ensures { result.now ≡ take n (drop at s.now) }
{
    let rest = &s[at.min(s.len())..];
    &rest[..n.min(rest.len())]
}

pub fn equal(a: &[u8], b: &[u8]) -> bool
    ensures { result ≡ same a.now b.now }
{
    a == b
}

// Copies bytes to the front of a slice, as many as it has room for, and answers how many. The others stay as they were. The library's
// copy_from_slice asks for equal lengths.
pub fn copy(from: &[u8], to: &mut [u8]) -> usize
    ensures { (result ≡ min (length from.now) (length to.old)) × (to.new ≡ take (length to.old) from.now ++ drop (length from.now) to.old) }
{
    let n = from.len().min(to.len());
    to[..n].copy_from_slice(&from[..n]);
    n
}

// The number that up to eight bytes are, for every width at once: `from_be_bytes` takes all bytes of a type, and no six, and none fewer.
fn number(s: &[u8]) -> u64
    requires { length s.now ≤ 8 }
    ensures { (result ≡ big_endian s.now) × (result < 256 ^ length s.now) }
{
    let mut n: u64 = 0;
    for b in s {
        n = n * 256 + *b as u64;
    }
    n
}

// The 16-bit number at a place.
pub fn number16(s: &[u8], at: usize) -> u16
    ensures { result ≡ big_endian (take 2 (drop at s.now)) }
{
    number(part(s, at, 2)) as u16
}

// The MID whose MAC bytes stand at a place.
pub fn mid(s: &[u8], at: usize) -> u64
    ensures { result ≡ big_endian (take 6 (drop at s.now)) }
{
    number(part(s, at, 6))
}

// The number that the eight bytes from a place on are, or those that are there.
pub fn word(s: &[u8], at: usize) -> u64
    ensures { result ≡ big_endian (take 8 (drop at s.now)) }
{
    let b = part(s, at, 8);
    match b.first_chunk() {
        Some(all) => u64::from_be_bytes(*all),
        None => number(b),
    }
}

// The MAC bytes of a MID: of a number above 2^48 - 1, those of its lowest 48 bits.
pub fn mac_of(mid: u64) -> [u8; 6]
    ensures { result ≡ mac mid }
{
    let [_, _, a, b, c, d, e, f] = mid.to_be_bytes();
    [a, b, c, d, e, f]
}
