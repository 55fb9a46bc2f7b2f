// What ends a call: a refusal, or dispatch and the answer of an accepted one. Assumes nothing.
ghost use Rattle.std.specs.Prelude.{◌≡◌};
ghost use Rattle.model.specs.Machine as machine;
ghost use Rattle.model.specs.Machine.{State, model};
ghost use Rattle.model.specs.Refusals as refusals;
ghost use Rattle.area.specs.Holds.{Holds, Held, Gives};

use crate::dispatch;
use model::{Answer, Refusal, Report, Shape};

// A refusal: its code, and zeros; of any number, as its contract has it.
pub fn refusal(code: u16) -> Answer
    ensures { result ≡ machine.refusal code }
{
    Answer {
        code,
        running: 0,
        retry: 0,
        mark: 0,
        moved: 0,
        ahead: 0,
    }
}

// What is told of a call: its answer or, where it is refused, the code and zeros.
pub fn answer(outcome: Result<Answer, Refusal>) -> Answer
    ensures { result ≡ refusals.answer_in outcome }
{
    match outcome {
        Ok(answer) => answer,
        Err(why) => refusal(u16::from(why)),
    }
}

// What is told of a read into a buffer: how much it wrote there or, where it is refused, the code and 0.
pub fn report(outcome: Result<u16, Refusal>) -> Report
    ensures { result ≡ refusals.report_in outcome }
{
    match outcome {
        Ok(count) => Report { code: 0, count },
        Err(why) => Report {
            code: u16::from(why),
            count: 0,
        },
    }
}

// Dispatch, and the answer of an accepted call; of any mark, as its contract has it.
pub fn finish(area: &mut [u16], shape: Shape, mark: u16, moved: u16, ahead: u16) -> Answer
    requires { Held shape area.old }
    ensures { (s : State model) → Holds shape area.old s → Gives shape area.old area.new result (machine.finish model s.fields s.queues mark moved ahead) }
{
    let d = dispatch(area, shape);
    Answer {
        code: 0,
        running: d.running,
        retry: d.retry,
        mark,
        moved,
        ahead,
    }
}
