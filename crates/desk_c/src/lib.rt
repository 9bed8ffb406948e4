// The one function that the archive exports, under its name in C.
#![tactic(auto)]

ghost use Rattle.gmch.specs.Machine.{lent};
ghost use Rattle.desk.specs.Calls.{Calls};

// The host's call, as `desk` has it.
#[unsafe(no_mangle)]
pub extern "C" fn gmch_replay(
    kind: u32,
    memory: &mut [u8],
    records: &[u8],
    answers: &mut [u8],
    display: &mut [u8],
) -> u32
    ensures { Calls kind (lent memory.old display.old) records.now answers.old result (lent memory.new display.new) answers.new }
{
    desk::gmch_replay(kind, memory, records, answers, display)
}
