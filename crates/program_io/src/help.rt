// Help and version texts.
use crate::line::Line;
use crate::start::Program;
use crate::status::Status;

const VERSION: &str = "1.5";

// Room for the line of a version. What does not fit of a long name is left out.
const VERSION_ROOM: usize = 64;

// What all programs have.
const OPTIONS: &str = "  --help     show this text\n  \
    --version  show the version\n  \
    --status   write 0, 1 or 2 to descriptor 3 at the end: answered, refused, no answer\n\
    By itself this program always ends with 0; under the command penthluk it ends with 0, 1 or 2.\n";

impl Program<'_> {
    pub fn put_version(self) -> Status {
        let mut line = Line::with_room(VERSION_ROOM);
        line.add(self.name);
        line.add(b" (penthluk) ");
        line.add(VERSION.as_bytes());
        self.put(line.ended(), Status::Answered)
    }

    // The program's own lines, then the others. Nothing is written after a write that failed.
    pub fn put_help(self, help: &[u8]) -> Status {
        if self.put_part(help) {
            return self.put(OPTIONS.as_bytes(), Status::Answered);
        }
        Status::NoAnswer
    }
}
