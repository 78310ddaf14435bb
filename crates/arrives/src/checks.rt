// What is asked of an indication's destination.
ghost use Rattle.std.specs.Prelude.{◌≡◌};
ghost use Rattle.traffic.specs.Arrives.{right_sort, good_destination};

use traffic::Destination;

pub fn of_right_sort(d: Destination, transport: u8) -> bool
    ensures { result ≡ right_sort d transport }
{
    match d {
        Destination::Mid(m) => (transport == traffic::GEO_UNICAST) & links::checks::mid_ok(m),
        Destination::Within(_) => (transport == traffic::GEO_ANYCAST)
            | (transport == traffic::GEO_BROADCAST),
        Destination::Nothing => transport == traffic::TSB,
    }
}

pub fn is_good(d: Destination) -> bool
    ensures { result ≡ good_destination d }
{
    match d {
        Destination::Within(a) => area::good(a),
        Destination::Mid(_) | Destination::Nothing => true,
    }
}
