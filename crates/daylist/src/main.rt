// RULES, The listing: the listing of the day file on standard input. What is written is the text that proved functions gave; what
// went wrong is told on standard error, of which the command ./daylist makes the exit status.
#![tactic(auto)]

ghost use Rattle.std.specs.Prelude.{◌≡◌, ◌≤◌, length};
ghost use Rattle.replay.specs.Day.{all_numbers, in_front};
ghost use Rattle.listing.specs.Room.{text_buffer};
ghost use Rattle.daylist.specs.Listing.{most_bytes, day_into, lines_of, listed_of};

use std::alloc::AllocError;
use std::env::{Env, FillError};
use std::io::{self, Print, Read};

// Input past so many bytes counts as missing.
const MOST: usize = 65536;

// On the dispatch server's table.
const MOST_DISPATCHED: usize = 262144;

// The day's lines as numbers: on a table by value, or on the dispatch server's, over a run.
fn day_of(dispatched: bool, input: &[u8], out: &mut [u8], lines: &mut [u64]) -> usize
    ensures { (result ≡ length (day_into dispatched lines.old input.now out.old).lines) × (lines.new ≡ in_front (all_numbers (day_into dispatched lines.old input.now out.old).lines) lines.old) }
{
    if dispatched {
        return run_replay::day(octets::part(input, 0, MOST_DISPATCHED), out, lines);
    }
    replay::day(octets::part(input, 0, MOST), out, lines)
}

// So many lines are listed. On a table by value no day has more.
const LINES: usize = 65536;

// What was listed: how many bytes, whether they are all of these lines, and how many lines; bytes and lines count either way.
#[derive(Clone, Copy)]
struct Listed {
    length: usize,
    whole: bool,
    lines: usize,
}

// The listing's text, at the front of a lent buffer, as far as it has room for whole lines.
fn list(dispatched: bool, input: &[u8], text: &mut [u8]) -> Listed
    ensures { (result ≡ listed_of (lines_of dispatched input.now) text.old) × (text.new ≡ text_buffer (all_numbers (lines_of dispatched input.now)) text.old) }
{
    let mut out = [0u8; 1294];
    let mut lines = [0u64; 262144];
    let count = day_of(dispatched, input, &mut out, &mut lines);
    let written = listing::write(&lines[..count * listing::NUMBERS], text);
    Listed {
        length: written.length,
        whole: written.whole,
        lines: count,
    }
}

// Room for every listing: its header, and 65,536 lines of at most 21 bytes.
fn room_for_text() -> [u8; 1441792]
    ensures { 1441792 ≡ length result }
{
    [0; 1441792]
}

fn room_for_input() -> [u8; 262144]
    ensures { 262144 ≡ length result }
{
    [0; 262144]
}

// So many bytes are listed.
fn limit(dispatched: bool) -> usize
    ensures { result ≡ most_bytes dispatched }
{
    if dispatched { MOST_DISPATCHED } else { MOST }
}

// What standard error does not take can be told nowhere.
fn say(rt: &HostRuntime, message: &str) {
    let _ = rt.stderr().print(message);
}

fn without_number(text: &str) -> &str {
    match text.split_once(" (os error ") {
        Some((words, _)) => words,
        None => text,
    }
}

// What the system says of an error, without its number.
fn reason(rt: &HostRuntime, error: io::Error) -> Result<String, AllocError> {
    let text = error.to_string(rt.alloc())?;
    without_number(text.as_str()).to_string(rt.alloc())
}

fn fail(rt: &HostRuntime, part: &str, error: io::Error) {
    let _ = match reason(rt, error) {
        Ok(words) => eprintln!(rt; "daylist: {part}: {words}"),
        Err(_) => eprintln!(rt; "daylist: {part}"),
    };
}

fn show(rt: &HostRuntime, text: &[u8]) {
    if let Err(error) = rt.stdout().write_all(text) {
        fail(rt, "standard output", error);
    }
}

// Reads to the end of the input, or until the room is full or a read fails, and answers how many bytes came.
fn read_full(rt: &HostRuntime, room: &mut [u8]) -> usize
    ensures within { result ≤ length room.old }
    ensures size { length room.new ≡ length room.old }
{
    let mut n = 0;
    for _ in 0..room.len() {
        if n == room.len() {
            break;
        }
        match rt.stdin().read(&mut room[n..]) {
            Ok(0) => break,
            Ok(got) => n += got,
            Err(_) => break,
        }
    }
    n
}

fn say_more(rt: &HostRuntime, dispatched: bool) {
    if dispatched {
        say(
            rt,
            "daylist: the input has more than 262,144 bytes; what is past them is not listed\n",
        );
        return;
    }
    say(
        rt,
        "daylist: the input has more than 65,536 bytes; what is past them is not listed\n",
    );
}

// Whether something is left of an input of which `n` bytes were read: what is past the limit, or what could not be read.
fn tell_what_is_missing(rt: &HostRuntime, dispatched: bool, n: usize) {
    if limit(dispatched) < n {
        say_more(rt, dispatched);
        return;
    }
    let mut byte = [0u8; 1];
    match rt.stdin().read(&mut byte) {
        Err(error) => fail(rt, "standard input", error),
        Ok(0) => {}
        Ok(_) => {
            if n < limit(dispatched) {
                say(
                    rt,
                    "daylist: standard input: reading ended early; what came later is not listed\n",
                );
                return;
            }
            say_more(rt, dispatched);
        }
    }
}

// An argument, whatever it is, asks for the dispatch server's table.
fn has_argument(rt: &HostRuntime) -> bool {
    let mut name = [0u8; 16];
    match rt.arg(1, &mut name) {
        Ok(_) => true,
        Err(FillError::TooLong) => true,
        Err(FillError::NotPresent) => false,
    }
}

fn main(rt: HostRuntime) {
    let dispatched = has_argument(&rt);
    let mut input = room_for_input();
    let n = read_full(&rt, &mut input);
    let mut text = room_for_text();
    let listed = list(dispatched, &input[..n], &mut text);
    show(&rt, octets::part(&text, 0, listed.length));
    if !listed.whole {
        say(
            &rt,
            "daylist: the listing has more than 1,441,792 bytes; what is past them is not shown\n",
        );
    }
    if listed.lines == LINES {
        say(
            &rt,
            "daylist: 65,536 records are listed; what is past them is not\n",
        );
    }
    tell_what_is_missing(&rt, dispatched, n);
}
