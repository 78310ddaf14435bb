// RULES, Area: a circle, rectangle or ellipse on the map, when it is good, and the normal form by which two are compared.
#![tactic(auto)]

ghost use Rattle.std.specs.Prelude.{◌≡◌};
ghost use Rattle.area.specs.Area.{good_area, normal_longitude, described, is_round, normal, has_normal};

#[derive(Clone, Copy, PartialEq, Eq)]
pub struct Area {
    // a number, since a shape outside the list is an input that 2 answers (good_area; the clause of area::good)
    pub shape: u8,
    pub latitude: i32,
    pub longitude: i32,
    pub a: u16,
    pub b: u16,
    pub angle: u16,
}

pub fn good(x: Area) -> bool
    ensures { result ≡ good_area x }
{
    (x.shape <= 2)
        & (-900_000_000..=900_000_000).contains(&x.latitude)
        & (-1_800_000_000..=1_800_000_000).contains(&x.longitude)
        & (x.angle <= 359)
        & (1 <= x.a)
        & ((x.shape == 0) | (1 <= x.b))
}

fn normal_longitude(longitude: i32) -> i32
    ensures { result ≡ normal_longitude longitude }
{
    if longitude == 1_800_000_000 {
        return -1_800_000_000;
    }
    longitude
}

fn is_round(x: Area) -> bool
    ensures { result ≡ is_round x }
{
    (x.shape == 0) | ((x.shape == 2) & (x.a == x.b))
}

// The centre of x, and what else describes the area.
fn described(x: Area, shape: u8, a: u16, b: u16, angle: u16) -> Area
    ensures { result ≡ described x shape a b angle }
{
    Area {
        shape,
        longitude: normal_longitude(x.longitude),
        a,
        b,
        angle,
        ..x
    }
}

// Of a bad area too: whoever asks need not ask whether it is good.
pub fn normal(x: Area) -> Area
    ensures { result ≡ normal x }
{
    if is_round(x) {
        return described(x, 0, x.a, 0, 0);
    }
    if x.a == x.b {
        return described(x, x.shape, x.a, x.b, x.angle % 90);
    }
    if x.a < x.b {
        return described(x, x.shape, x.a, x.b, x.angle % 180);
    }
    // modulo 180 before the sum too: a bad angle can be as large as its type
    described(x, x.shape, x.b, x.a, (x.angle % 180 + 90) % 180)
}

// A search asks for many areas, and most differ in their centre, which needs no normal form but for the ends: it stops there.
pub fn has_normal(x: Area, n: Area) -> bool
    ensures { result ≡ has_normal x n }
{
    x.latitude == n.latitude && normal_longitude(x.longitude) == n.longitude && normal(x) == n
}
