// The tests that several calls share, each with the refusal that it ends a call by. Assumes nothing.
ghost use Rattle.model.specs.Refusals.{code_in};
ghost use Rattle.area.specs.Calls.{Missing, Calling, CallingTwo};

use model::Refusal;

// No such thing where i is none of the n that there are.
pub fn missing(n: u16, i: u16) -> Result<(), Refusal>
    ensures { Missing n i (code_in result) }
{
    if !(1..=n).contains(&i) {
        return Err(Refusal::NoSuch);
    }
    Ok(())
}

// Nobody where nobody runs to make the call, else no such thing where i is none of the n.
pub fn calling(running: u16, n: u16, i: u16) -> Result<(), Refusal>
    ensures { Calling running n i (code_in result) }
{
    if running == 0 {
        return Err(Refusal::Nobody);
    }
    missing(n, i)
}

// Nobody where nobody runs to make the call, else no such thing where i is none of the n or j none of the m.
pub fn calling_two(running: u16, n: u16, i: u16, m: u16, j: u16) -> Result<(), Refusal>
    ensures { CallingTwo running n i m j (code_in result) }
{
    calling(running, n, i)?;
    missing(m, j)
}
