// One line of Rehearse: its call is performed on the area, and its answer's line written. Assumes nothing.
#![tactic(auto)]

ghost use Rattle.std.specs.Prelude.{◌≤◌, length, take};
ghost use Rattle.script.specs.Line.{meaning};
ghost use Rattle.print.specs.Print.{longest};

use outcomes::answers;
use script::Line;

// The area on which calls are performed, and room for what a line says: its numbers, and the bytes of Start.
#[derive(Drop)]
pub struct Desk<'a> {
    pub area: &'a mut [u16],
    pub table: &'a mut [u16],
    pub bytes: &'a mut [u8],
    pub ghost numbers_fit: { 8192 ≤ length table.now },
    pub ghost bytes_fit: { 8192 ≤ length bytes.now },
}

impl Desk<'_> {
    ghost use Rattle.serve.specs.Serve.{Serves};
    ghost use Rattle.serve.specs.Desk.{SameDesk};

    // One whole line: its call is performed, and its answer's line put at the front of `out`.
    pub fn serve(&mut self, line: &[u8], out: &mut [u8]) -> usize
        requires answer_fits { longest ≤ length out.old }
        ensures within { result ≤ length out.old }
        ensures serves { Serves (meaning line.now) self.old.area.now self.new.area.now (take result out.new) }
        ensures same_desk { SameDesk self.old self.new }
    {
        match script::parse(line, self.table, self.bytes) {
            Some(Line::Call(call)) => {
                let answer = monitor::perform(self.area, call);
                print::line(answer, out)
            }
            Some(Line::Start(shape, count)) => {
                let outcome = start::start(self.area, shape, &self.bytes[..count]);
                print::line(answers::answer(outcome), out)
            }
            None => {
                out[..2].copy_from_slice(b"?\n");
                2
            }
        }
    }
}
