// RULES, What arrives: an Ethernet frame or a packet alone, written at the front of a lent buffer.
#![tactic(auto)]

ghost use Rattle.std.specs.Prelude.{◌≤◌, ◌≡◌, ◌++◌, length, drop};
ghost use Rattle.frames.specs.Frame.{frame, put, put_length};

const IPV6: [u8; 2] = [0x86, 0xdd];

// What a frame has before its packet: two MACs and the two bytes above.
pub const HEADER: usize = 14;

// The longest packet that the layer takes.
const LONGEST: usize = 1280;

// Copies a packet to the front of a buffer that has room for it. It goes by way of a local array: of the two copies the compiler
// makes one move of memory and no array, where one copy from slice to slice would stay a loop over bytes. A packet longer than any
// that is taken goes byte by byte.
fn put_packet(packet: &[u8], out: &mut [u8])
    requires { length packet.now ≤ length out.old }
    ensures { out.new ≡ packet.now ++ drop (length packet.now) out.old }
{
    let n = packet.len();
    if LONGEST < n {
        out[..n].copy_from_slice(packet);
        return;
    }
    let mut room = [0u8; LONGEST];
    room[..n].copy_from_slice(packet);
    out[..n].copy_from_slice(&room[..n]);
}

// Writes nothing where the buffer has no room for the whole packet, and answers how many bytes it wrote.
pub fn write_packet(out: &mut [u8], packet: &[u8]) -> usize
    ensures { (result ≡ put_length packet.now out.old) × (out.new ≡ put packet.now out.old) }
{
    if out.len() < packet.len() {
        return 0;
    }
    put_packet(packet, out);
    packet.len()
}

// The frame from one MID to another, in the same way.
pub fn write_frame(out: &mut [u8], to: u64, from: u64, packet: &[u8]) -> usize
    ensures { (result ≡ put_length (frame to from packet.now) out.old) × (out.new ≡ put (frame to from packet.now) out.old) }
{
    let whole = packet.len() + HEADER;
    if out.len() < whole {
        return 0;
    }
    out[..6].copy_from_slice(&octets::mac_of(to));
    out[6..12].copy_from_slice(&octets::mac_of(from));
    out[12..HEADER].copy_from_slice(&IPV6);
    put_packet(packet, &mut out[HEADER..]);
    whole
}
