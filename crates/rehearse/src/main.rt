// Rehearse: calls from standard input, one a line, performed on an area of 8,192 words, each answer a line. Assumes nothing.
#![tactic(auto)]

ghost use Rattle.std.specs.Prelude.{◌*◌, ◌≤◌, length};
ghost use Rattle.print.specs.Print.{longest};
ghost use Rattle.lines.specs.Lines.{TakesIn, Rehearsed};
ghost use Rattle.lines.specs.Session.{progress_of, told};

use lines::Session;
use serve::Desk;
use std::io::{Read, Write};

// Room for what a read brings, and the session that takes it in.
#[derive(Drop)]
struct Player<'a> {
    chunk: &'a mut [u8],
    session: Session<'a>,
    ghost answers_fit: { length chunk.now * longest ≤ length session.answers.room.now },
}

impl Player<'_> {
    // One read: what it brings is taken in, and what comes of it is written; a write that fails is let go. The answer is how many bytes came, 0 at the
    // end of the input, or that the read failed.
    fn turn<R: Read, W: Write>(&mut self, input: &mut R, output: &mut W) -> Option<usize>
        ensures { TakesIn result self.new.chunk.now (progress_of self.old.session) (progress_of self.new.session) (told self.new.session) }
    {
        let chunk = &mut *self.chunk;
        let got = input.read(chunk).ok();
        self.session.take_in(got, chunk);
        let _ = output.write_all(self.session.answers.bytes());
        got
    }

    // Read after read, to the end of the input or to a read that fails, which is told.
    fn all<R: Read, W: Write, E: Write>(&mut self, input: &mut R, output: &mut W, errors: &mut E)
        ensures { Rehearsed self.old.session.desk.area.now self.new.session.desk.area.now }
    {
        self.session.begin();
        // no `loop`: it has to end, and no input brings more reads
        for _ in 0..u64::MAX {
            let Some(n) = self.turn(input, output) else {
                let _ = errors.write_all(b"rehearse: standard input cannot be read\n");
                return;
            };
            if n == 0 {
                return;
            }
        }
    }
}

// How many bytes a read may bring.
const PIECE: usize = 8192;

// How many bytes the answers to them may have: each byte may end a line.
const ANSWERS: usize = PIECE * print::LONGEST;

// How many bytes of a line are kept: one more than a line that means something has at most.
const ROOM: usize = 8193;

fn main(rt: HostRuntime) {
    let mut chunk = [0u8; PIECE];
    let mut area = [0u16; 8192];
    let mut table = [0u16; 8192];
    let mut bytes = [0u8; 8192];
    let mut line = [0u8; ROOM];
    let mut answers = [0u8; ANSWERS];
    let desk = Desk {
        area: &mut area,
        table: &mut table,
        bytes: &mut bytes,
    };
    let session = Session::new(desk, &mut line, &mut answers);
    let mut player = Player {
        chunk: &mut chunk,
        session,
    };
    player.all(&mut rt.stdin(), &mut rt.stdout(), &mut rt.stderr());
}
