// RULES, Two queues: the state that stands beside them, and what the calls on them answer. The definitions and the laws of two queues
// stand here; the calls are those of `queue_calls`.
#![tactic(auto)]

ghost use Rattle.std.specs.Prelude.{◌≡◌};
ghost use Rattle.queues.specs.Calls.{empty};

// A queue is lent with so many bytes.
pub const SIZE: usize = 4096;

// The longest packet that waits in a queue.
pub const LONGEST: u64 = 1280;

// After so many control packets in a row a waiting film packet goes.
pub const ROW: usize = 4;

// The bytes held in each queue, and the count of the current control row.
#[derive(Clone, Copy)]
pub struct State {
    pub control: usize,
    pub film: usize,
    pub row: usize,
}

// Which of the two.
#[derive(Clone, Copy, PartialEq, Eq, Debug)]
pub enum Queue {
    Control,
    Film,
}

// Where the next packet stands, behind its length, and how long it is.
#[derive(Clone, Copy)]
pub struct NextPacket {
    pub queue: Queue,
    pub at: usize,
    pub length: usize,
}

// Nothing waits.
pub fn empty() -> State
    ensures { result ≡ empty }
{
    State {
        control: 0,
        film: 0,
        row: 0,
    }
}
