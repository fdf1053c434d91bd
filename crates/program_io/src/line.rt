// A line put together in a buffer, so that it can be written at once.
ghost use Rattle.std.specs.Prelude.{◌≡◌, ◌≤◌, min};

use std::fmt;

// Room for the first 4,096 bytes of an argument and the words around them.
const ROOM: usize = 4352;

#[derive(Drop)]
pub struct Line {
    bytes: [u8; ROOM],
    len: usize,
    room: usize,
    ghost within: { (len ≤ room) × (room ≤ 4352) },
}

// A byte as it is shown: a control byte, as a line end, would break the line.
fn shown(byte: u8) -> u8 {
    match byte {
        0..=31 | 127 => b'?',
        _ => byte,
    }
}

impl Line {
    pub fn new() -> Line {
        Line::with_room(ROOM)
    }

    // A line that has room for so many bytes, its end among them, or for as many as a line can have.
    pub fn with_room(room: usize) -> Line
        ensures { result.room ≡ min room 4352 }
    {
        Line {
            bytes: [0; ROOM],
            len: 0,
            room: room.min(ROOM),
        }
    }

    // More bytes, as far as they fit.
    pub fn add(&mut self, bytes: &[u8]) {
        for byte in bytes {
            if self.len == self.room {
                return;
            }
            self.bytes[self.len] = shown(*byte);
            self.len += 1;
        }
    }

    // The line with its end, which takes the last place where the line is full. Without room it has none.
    pub fn ended(&mut self) -> &[u8] {
        if self.room == 0 {
            return &self.bytes[..0];
        }
        if self.len == self.room {
            self.len -= 1;
        }
        self.bytes[self.len] = b'\n';
        self.len += 1;
        &self.bytes[..self.len]
    }
}

// What does not fit is left out, which is no error.
impl fmt::Write for Line {
    fn write_str(&mut self, text: &str) -> fmt::Result {
        self.add(text.as_bytes());
        Ok(())
    }
}
