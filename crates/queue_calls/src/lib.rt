// RULES, Two queues: adding, showing and taking, over queues that their owner lends. What is shown is a part of one of the two, where
// it lies.
#![tactic(auto)]

ghost use Rattle.std.specs.Prelude.{◌≡◌, ◌+◌, ◌≤◌, length, take, drop, Ok};
ghost use Rattle.numbers.specs.Numbers.{number_bytes, shifted, written};
ghost use Rattle.replies.specs.Numbers.{reply_number};
ghost use Rattle.replies.specs.Rules.{refusal};
ghost use Rattle.queues.specs.Packets.{packed, front, walks, good};
ghost use Rattle.queues.specs.Replies.{reply_of, is_film, shown_of};
ghost use Rattle.queues.specs.Calls.{add_rules, laid, add, add_to_control, add_to_film, next_rules, film_goes, shown_at, show, part_of, place_of, moved_down, row_after, take_next};
ghost use Rattle.queue_calls.specs.Parts.{held_after, behind};

use numbers::NumberRun;
use queues::{LONGEST, NextPacket, Queue, ROW, SIZE, State};
use replies::Refusal;

// The packet at a place of held bytes: its length, and the place behind that. None where adding can't have left one there.
#[tactic(auto, using(crate::proofs::Laws::Front::broken, crate::proofs::Laws::Front::too_long, crate::proofs::Laws::Front::cut, crate::proofs::Laws::Front::there))]
fn front_at(held: &[u8], at: usize) -> Option<(u64, usize)>
    ensures { result ≡ shifted at (front (drop at held.now)) }
{
    let (length, start) = numbers::read(held, at)?;
    if LONGEST < length {
        return None;
    }
    if held.len() - start < length as usize {
        return None;
    }
    Some((length, start))
}

// Whether held bytes are packets, one behind the other. A loop by place, and no `for`: how far a turn goes is read from the bytes.
fn are_packets(held: &[u8]) -> bool
    ensures { result ≡ walks (length held.now) held.now }
{
    let mut at: usize = 0;
    while at < held.len() {
        let Some((length, start)) = front_at(held, at) else {
            return false;
        };
        at = start + length as usize;
    }
    true
}

// Whether adding can leave the queue, with so many bytes held.
#[tactic(auto, unfolding(queues::specs::Packets::good))]
fn is_good(held: usize, queue: &[u8]) -> bool
    ensures { result ≡ good held queue.now }
{
    if queue.len() != SIZE {
        return false;
    }
    if SIZE < held {
        return false;
    }
    are_packets(&queue[..held])
}

// What refuses adding, in order. The packet's length takes so many digits.
fn check_add(held: usize, queue: &[u8], packet: &[u8], digits: usize) -> Result<(), Refusal>
    requires { digits ≡ length (number_bytes (length packet.now)) }
    ensures { reply_number result ≡ refusal (add_rules held queue.now packet.now) }
{
    if !is_good(held, queue) {
        return Err(Refusal::QueueNotGood);
    }
    if LONGEST < packet.len() as u64 {
        return Err(Refusal::PacketTooLong);
    }
    if SIZE < held + digits + packet.len() {
        return Err(Refusal::QueueFull);
    }
    Ok(())
}

// The packet, preceded by its length, goes behind the bytes held.
fn lay(queue: &mut [u8], held: usize, run: NumberRun, packet: &[u8])
    requires { (run ≡ written (length packet.now)) × (held + length (packed packet.now) ≤ length queue.old) }
    ensures { queue.new ≡ laid held queue.old packet.now }
{
    let at = held + run.length;
    octets::copy(run.as_bytes(), &mut queue[held..]);
    frames::write_packet(&mut queue[at..], packet);
}

// Adds to one queue, whichever it is, and answers the bytes then held.
#[tactic(auto, using(crate::proofs::Laws::Added::not_added, crate::proofs::Laws::Added::is_added, crate::proofs::Laws::Added::added_fits, crate::proofs::Laws::Laid::digits_count))]
fn add(held: usize, queue: &mut [u8], packet: &[u8]) -> Result<usize, Refusal>
    ensures number { reply_number result ≡ (add held queue.old packet.now).number }
    ensures held { held_after held result ≡ (add held queue.old packet.now).held }
    ensures bytes { queue.new ≡ (add held queue.old packet.now).bytes }
{
    let run = numbers::write(packet.len() as u64);
    let digits = run.length;
    check_add(held, queue, packet, digits)?;
    lay(queue, held, run, packet);
    Ok(held + digits + packet.len())
}

// Two calls of two lines, for control and for film: each alters its own field of the state, and `add` is the work of both.
#[tactic(auto, using(crate::proofs::Laws::Added::to_control))]
pub fn add_control(state: State, queue: &mut [u8], packet: &[u8]) -> Result<State, Refusal>
    ensures { (reply_of state result ≡ add_to_control state queue.old packet.now) × (queue.new ≡ (add state.control queue.old packet.now).bytes) }
{
    let control = add(state.control, queue, packet)?;
    Ok(State { control, ..state })
}

#[tactic(auto, using(crate::proofs::Laws::Added::to_film))]
pub fn add_film(state: State, queue: &mut [u8], packet: &[u8]) -> Result<State, Refusal>
    ensures { (reply_of state result ≡ add_to_film state queue.old packet.now) × (queue.new ≡ (add state.film queue.old packet.now).bytes) }
{
    let film = add(state.film, queue, packet)?;
    Ok(State { film, ..state })
}

// What refuses showing and taking, in order.
fn check_next(state: State, control: &[u8], film: &[u8]) -> Result<(), Refusal>
    ensures { reply_number result ≡ refusal (next_rules state control.now film.now) }
{
    if !(is_good(state.control, control) && is_good(state.film, film)) {
        return Err(Refusal::QueueNotGood);
    }
    if (state.control == 0) & (state.film == 0) {
        return Err(Refusal::QueuesEmpty);
    }
    Ok(())
}

// Whether the next packet is film's.
fn film_goes(state: State) -> bool
    ensures { result ≡ film_goes state }
{
    (state.film != 0) & ((state.control == 0) | (ROW <= state.row))
}

// The first packet of these held bytes, which are this queue's.
fn shown_in(queue: Queue, held: &[u8]) -> NextPacket
    ensures { shown_of (Ok result) ≡ shown_at (is_film queue) (front held.now) }
{
    let (length, at) = front_at(held, 0).unwrap_or((0, 0));
    NextPacket {
        queue,
        at,
        length: length as usize,
    }
}

#[tactic(auto, using(crate::proofs::Laws::Shown::refused, crate::proofs::Laws::Shown::next_is))]
pub fn show(state: State, control: &[u8], film: &[u8]) -> Result<NextPacket, Refusal>
    ensures { shown_of result ≡ show state control.now film.now }
{
    check_next(state, control, film)?;
    if film_goes(state) {
        return Ok(shown_in(Queue::Film, octets::part(film, 0, state.film)));
    }
    Ok(shown_in(Queue::Control, octets::part(control, 0, state.control)))
}

// Bytes of a queue, where they lie.
fn part_there<'a>(queue: &'a [u8], at: usize, n: usize) -> &'a [u8]
    requires { at + n ≤ length queue.now }
    ensures { (result.now ≡ take n (drop at queue.now)) × (result.ref_ptr ≡ behind queue.entry.ref_ptr at) }
{
    &queue[at..at + n]
}

// The next packet, as a part of whichever queue holds it; an empty one where showing is refused.
pub fn next_packet<'a>(state: State, control: &'a [u8], film: &'a [u8]) -> &'a [u8]
    ensures { (result.now ≡ part_of (show state control.now film.now) control.now film.now) × (result.ref_ptr ≡ place_of (show state control.now film.now) control.entry.ref_ptr film.entry.ref_ptr) }
{
    let Ok(next) = show(state, control, film) else {
        return part_there(control, 0, 0);
    };
    match next.queue {
        Queue::Control => part_there(control, next.at, next.length),
        Queue::Film => part_there(film, next.at, next.length),
    }
}

// The first n held bytes go, and the others move down. By way of a local array, because the compiler makes one move of memory of
// the two copies, and no array. (`copy_within` goes byte by byte: its loop in C takes 3,000 ns for 2.8 KB, and this 100.)
fn move_down(queue: &mut [u8], n: usize, held: usize)
    requires { (n ≤ held) × (held ≤ 4096) × (length queue.old ≡ 4096) }
    ensures { queue.new ≡ moved_down n held queue.old }
{
    let mut room = [0u8; SIZE];
    let rest = octets::copy(&queue[n..held], &mut room);
    octets::copy(&room[..rest], queue);
}

// The count after the next packet is taken.
fn row_after(state: State) -> usize
    ensures { result ≡ row_after state }
{
    if film_goes(state) | (state.film == 0) {
        return 0;
    }
    state.row + 1
}

// Each branch moves its own queue down and lessens its own field of the state.
#[tactic(auto, using(crate::proofs::Laws::Taken::not_taken, crate::proofs::Laws::Taken::control_taken, crate::proofs::Laws::Taken::film_taken))]
pub fn take(state: State, control: &mut [u8], film: &mut [u8]) -> Result<State, Refusal>
    ensures { (reply_of state result ≡ (take_next state control.old film.old).reply) × (control.new ≡ (take_next state control.old film.old).control) × (film.new ≡ (take_next state control.old film.old).film) }
{
    let next = show(state, control, film)?;
    let n = next.at + next.length;
    let row = row_after(state);
    match next.queue {
        Queue::Control => {
            move_down(control, n, state.control);
            Ok(State {
                control: state.control - n,
                row,
                ..state
            })
        }
        Queue::Film => {
            move_down(film, n, state.film);
            Ok(State {
                film: state.film - n,
                row,
                ..state
            })
        }
    }
}
