// RULES, Prefix: which addresses and prefixes a prefix holds, which two overlap, and which are good. A prefix is its length and
// two words, the first eight of its 16 bytes and the last eight: two compares decide what a loop over bytes would.
#![tactic(auto)]

ghost use Rattle.std.specs.Prelude.{◌≡◌, ◌<◌, take, drop};
ghost use Rattle.octets.specs.Digits.{bits};
ghost use Rattle.octets.specs.Runs.{same, all_zero};
ghost use Rattle.prefix.specs.Prefix.{no_prefix, bytes_of, of_bytes, of_address, holds, holds_prefix, overlap, may_overlap, good_prefix, bytes_needed};

#[derive(Clone, Copy, PartialEq, Eq)]
pub struct Prefix {
    pub len: u8,
    pub high: u64,
    pub low: u64,
}

// The longest length: an address has 128 bits.
pub const LONGEST: u8 = 128;

// fe80::/10 and ff00::/8
const LINK_LOCAL: Prefix = Prefix {
    len: 10,
    high: 0xfe80_0000_0000_0000,
    low: 0,
};

const MULTICAST: Prefix = Prefix {
    len: 8,
    high: 0xff00_0000_0000_0000,
    low: 0,
};

// The prefix that holds nothing.
pub fn none() -> Prefix
    ensures { result ≡ no_prefix }
{
    Prefix {
        len: 0,
        high: 0,
        low: 0,
    }
}

// As many bytes as a length needs; a length above 128 needs no more than an address has.
pub fn bytes_needed(len: u64) -> usize
    ensures { result ≡ bytes_needed len }
{
    len.min(LONGEST as u64).div_ceil(8) as usize
}

// The 16 bytes that the two words stand for.
pub fn bytes_of(p: Prefix) -> [u8; 16]
    ensures { result ≡ bytes_of p }
{
    let mut bytes = [0; 16];
    bytes[..8].copy_from_slice(&p.high.to_be_bytes());
    bytes[8..].copy_from_slice(&p.low.to_be_bytes());
    bytes
}

// The prefix with these 16 bytes; where there are fewer, those that are there make shorter words.
pub fn of_bytes(len: u8, bytes: &[u8]) -> Prefix
    ensures { result ≡ of_bytes len bytes.now }
{
    Prefix {
        len,
        high: octets::word(bytes, 0),
        low: octets::word(bytes, 8),
    }
}

// The prefix that holds this address and no other: a search for what holds an address is then one for what overlaps. An address
// is 16 bytes; where they are not there, the prefix that holds nothing. Its words are read here and not by of_bytes, so that their
// length is known where they are loaded.
pub fn of_address(address: &[u8]) -> Prefix
    ensures { result ≡ of_address address.now }
{
    if address.len() != 16 {
        return none();
    }
    Prefix {
        len: LONGEST,
        high: octets::word(address, 0),
        low: octets::word(address, 8),
    }
}

// Whether the first n bits are the same, of the addresses that two prefixes have; of more than 128 all are meant.
fn same_first_bits(n: u8, p: Prefix, q: Prefix) -> bool
    requires { 0 < n }
    ensures { result ≡ same (take n (bits (bytes_of p))) (take n (bits (bytes_of q))) }
{
    if n <= 64 {
        return (p.high >> (64 - n)) == (q.high >> (64 - n));
    }
    if n < 128 {
        return (p.high == q.high) && ((p.low >> (128 - n)) == (q.low >> (128 - n)));
    }
    (p.high == q.high) && (p.low == q.low)
}

// Whether no bit is set behind the length: the first bits are shifted out.
fn is_clear_behind(p: Prefix) -> bool
    ensures { result ≡ all_zero (drop p.len (bits (bytes_of p))) }
{
    if p.len < 64 {
        return ((p.high << p.len) == 0) & (p.low == 0);
    }
    if p.len < 128 {
        return (p.low << (p.len - 64)) == 0;
    }
    true
}

pub fn holds_address(p: Prefix, address: &[u8]) -> bool
    ensures { result ≡ holds p address.now }
{
    overlaps(p, of_address(address))
}

pub fn holds_prefix(p: Prefix, q: Prefix) -> bool
    ensures { result ≡ holds_prefix p q }
{
    (p.len <= q.len) & overlaps(p, q)
}

// Two overlap as far as the shorter goes.
pub fn overlaps(p: Prefix, q: Prefix) -> bool
    ensures { result ≡ overlap p q }
{
    let shorter = p.len.min(q.len);
    if shorter == 0 {
        return false;
    }
    same_first_bits(shorter, p, q)
}

// Whether two prefixes may overlap, by a look at their first words: where the shorter has 1 to 64 bits it is told, else not. A search
// goes past most prefixes with it, and asks the rest.
pub fn may_overlap(p: Prefix, q: Prefix) -> bool
    ensures { result ≡ may_overlap p q }
{
    let n = p.len.min(q.len);
    if (n == 0) | (64 < n) {
        return true;
    }
    same_first_bits(n, p, q)
}

pub fn good(p: Prefix) -> bool
    ensures { result ≡ good_prefix p }
{
    (p.len <= LONGEST) & is_clear_behind(p) & !overlaps(p, LINK_LOCAL) & !overlaps(p, MULTICAST)
}
