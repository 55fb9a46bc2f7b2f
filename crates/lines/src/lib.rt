// Input in pieces, as reads bring it: cut into lines, each line served, the answers gathered for one write. Assumes nothing.
#![tactic(auto)]

ghost use Rattle.std.specs.Prelude.{◌≡◌, ◌+◌, ◌*◌, ◌≤◌, ◌<◌, ◌++◌, eqb, length, take, position};
ghost use Rattle.print.specs.Print.{longest};

use serve::Desk;

// Room for bytes, and how many are there, at its front.
#[derive(Drop)]
pub struct Buffer<'a> {
    pub room: &'a mut [u8],
    pub fill: usize,
    pub ghost within: { fill ≤ length room.now },
}

impl<'a> Buffer<'a> {
    ghost use Rattle.serve.specs.Desk.{SameSlice};

    fn new(room: &'a mut [u8]) -> Buffer<'a>
        ensures lent { result.room ≡ room.entry }
        ensures empty { result.fill ≡ 0 }
    {
        Buffer { room, fill: 0 }
    }

    pub fn bytes(&self) -> &[u8]
        ensures { result.now ≡ take self.now.fill self.now.room.now }
    {
        &self.room[..self.fill]
    }

    fn clear(&mut self)
        ensures empty { self.new.fill ≡ 0 }
        ensures same_room { self.new.room ≡ self.old.room }
    {
        self.fill = 0;
    }

    // Bytes more, as many as there is room for.
    fn extend(&mut self, bytes: &[u8])
        ensures kept { take self.new.fill self.new.room.now ≡ take (length self.old.room.now) (take self.old.fill self.old.room.now ++ bytes.now) }
        ensures same_slice { SameSlice self.old.room self.new.room }
    {
        let n = bytes.len().min(self.room.len() - self.fill);
        let end = self.fill + n;
        self.room[self.fill..end].copy_from_slice(&bytes[..n]);
        self.fill = end;
    }
}

// Where the first newline stands.
fn newline(bytes: &[u8]) -> Option<usize>
    ensures { result ≡ position (λ b. eqb b 10) bytes.now }
{
    bytes.iter().position(|b| *b == b'\n')
}

// The desk that serves the lines of an input, the line that is open, of which the bytes past its room are dropped, and the answers to what was taken
// in last.
#[derive(Drop)]
pub struct Session<'a> {
    pub desk: Desk<'a>,
    pub line: Buffer<'a>,
    pub answers: Buffer<'a>,
    pub ghost line_fits: { 8192 < length line.room.now },
    pub ghost answer_fits: { longest ≤ length answers.room.now },
}

impl<'a> Session<'a> {
    ghost use Rattle.lines.specs.Lines.{Puts, Feeds, Closes, TakesIn};
    ghost use Rattle.lines.specs.Session.{progress_of, told, SameSlices};

    // Nothing is taken in yet.
    pub fn new(desk: Desk<'a>, line: &'a mut [u8], answers: &'a mut [u8]) -> Session<'a>
        requires line_fits { 8192 < length line.old }
        requires answer_fits { longest ≤ length answers.old }
        ensures desk { result.desk ≡ desk.entry }
        ensures line { result.line.room ≡ line.entry }
        ensures answers { result.answers.room ≡ answers.entry }
        ensures empty { result.line.fill ≡ 0 }
    {
        Session {
            desk,
            line: Buffer::new(line),
            answers: Buffer::new(answers),
        }
    }

    // A new input: no line of it is open.
    pub fn begin(&mut self)
        ensures empty { self.new.line.fill ≡ 0 }
        ensures same_area { self.new.desk ≡ self.old.desk }
        ensures same_slices { SameSlices self.old self.new }
    {
        self.line.clear();
    }

    // The open line is whole: its answer goes behind those that are there, and the next line begins.
    fn answer(&mut self)
        requires answer_fits { self.old.answers.fill + longest ≤ length self.old.answers.room.now }
        ensures within { self.new.answers.fill ≤ self.old.answers.fill + longest }
        ensures puts { Puts (take self.old.line.fill self.old.line.room.now) self.old.desk.area.now self.new.desk.area.now (told self.old) (told self.new) }
        ensures next { self.new.line.fill ≡ 0 }
        ensures same_slices { SameSlices self.old self.new }
    {
        let Session {
            desk,
            line,
            answers,
        } = self;
        let end = answers.fill + print::LONGEST;
        let n = desk.serve(line.bytes(), &mut answers.room[answers.fill..end]);
        answers.fill += n;
        line.clear();
    }

    // The bytes of one piece.
    fn feed(&mut self, piece: &[u8])
        requires answers_fit { length piece.now * longest ≤ length self.old.answers.room.now }
        ensures feeds { Feeds piece.now (progress_of self.old) (progress_of self.new) (told self.new) }
        ensures same_slices { SameSlices self.old self.new }
    {
        self.answers.clear();
        // no `split`: what stands behind the last newline is no line yet
        let mut left = piece;
        while let Some(at) = newline(left) {
            self.line.extend(&left[..at]);
            self.answer();
            left = &left[at + 1..];
        }
        self.line.extend(left);
    }

    // The end of the input: the last line, where it lacks its newline.
    fn close(&mut self)
        ensures closes { Closes (progress_of self.old) (progress_of self.new) (told self.new) }
        ensures same_slices { SameSlices self.old self.new }
    {
        self.answers.clear();
        if self.line.fill > 0 {
            self.answer();
        }
    }

    // What a read answered, and the bytes that it was lent: so many of them are a piece, 0 is the end of the input, and where the read failed nothing
    // came.
    pub fn take_in(&mut self, got: Option<usize>, chunk: &[u8])
        requires answers_fit { length chunk.now * longest ≤ length self.old.answers.room.now }
        ensures takes_in { TakesIn got chunk.now (progress_of self.old) (progress_of self.new) (told self.new) }
        ensures same_slices { SameSlices self.old self.new }
    {
        match got {
            None => self.answers.clear(),
            Some(0) => self.close(),
            Some(n) => self.feed(&chunk[..n.min(chunk.len())]),
        }
    }
}
