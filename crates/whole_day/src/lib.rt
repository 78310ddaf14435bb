// A whole day file replayed in one call that C can link: what the benchmark times.
#![tactic(auto)]

ghost use Rattle.std.specs.Prelude.{◌≡◌, length};
ghost use Rattle.replay.specs.Day.{day_into, all_numbers, in_front};

#[unsafe(no_mangle)]
pub extern "C" fn gn6_whole_day(input: &[u8], out: &mut [u8], lines: &mut [u64]) -> usize
    ensures { (result ≡ length (day_into lines.old input.now out.old).lines) × (out.new ≡ (day_into lines.old input.now out.old).buffer) × (lines.new ≡ in_front (all_numbers (day_into lines.old input.now out.old).lines) lines.old) }
{
    replay::day(input, out, lines)
}
