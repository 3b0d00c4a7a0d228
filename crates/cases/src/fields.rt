// The fields of a case on standard input.
ghost use Rattle.std.specs.Prelude.{◌≤◌, length};

use std::io::Read;

// Reads until the room is full, the input ends or a read fails. Returns how many octets it put at the start of the room.
pub fn read_full(input: &mut impl Read, room: &mut [u8]) -> usize
    ensures { result ≤ length room.new }
{
    let mut done: usize = 0;
    while done < room.len() {
        match input.read(&mut room[done..]) {
            Err(_) | Ok(0) => break,
            Ok(more) => done += more,
        }
    }
    done
}

// A number of two octets, high octet first.
pub fn number(input: &mut impl Read) -> usize {
    let mut two = [0u8; 2];
    read_full(input, &mut two);
    usize::from(u16::from_be_bytes(two))
}

// Octets with their count before them; none where there is no room for so many.
pub fn octets<'a>(input: &mut impl Read, room: &'a mut [u8]) -> &'a [u8] {
    let n = number(input);
    if room.len() < n {
        return &[];
    }
    let done = read_full(input, &mut room[..n]);
    &room[..done]
}

// A number of eight octets, high octet first.
pub fn long(input: &mut impl Read) -> u64 {
    let mut eight = [0u8; 8];
    read_full(input, &mut eight);
    u64::from_be_bytes(eight)
}

// Numbers of eight octets with their count before them; as many as there is room for.
pub fn longs<'a>(input: &mut impl Read, room: &'a mut [u64]) -> &'a [u64] {
    let n = number(input).min(room.len());
    let numbers = &mut room[..n];
    for place in numbers.iter_mut() {
        *place = long(input);
    }
    numbers
}
