// The host's call. The crate desk_c exports it.
#![tactic(auto)]

ghost use Rattle.std.specs.Prelude.{◌≡◌, ◌/◌, ◌%◌, leb, eqb};
ghost use Rattle.gmch.specs.Choice.{◌and◌};
ghost use Rattle.gmch.specs.Machine.{cache_length, lent};
ghost use Rattle.gmch.specs.Map.{largest_tom};
ghost use Rattle.gmch.specs.Call.{good_call};
ghost use Rattle.desk.specs.Calls.{Calls};

use gmch::{Board, Entries};

// The length of the display cache of a board of this kind.
#[tactic(auto, unfolding(gmch::specs::Machine::cache_length, gmch::specs::Machine::has_cache, gmch::specs::Choice::pick))]
fn cache_length(kind: u32) -> usize
    ensures { result ≡ cache_length kind }
{
    if kind % 2 == 1 { 0x400000 } else { 0 }
}

// Main memory may have this length.
#[tactic(auto, using(gmch::proofs::Choice::tests, gmch::proofs::Choice::choices))]
fn memory_fits(tom: usize) -> bool
    ensures { result ≡ (leb 0x800000 tom and leb tom largest_tom and eqb (tom % 0x800000) 0) }
{
    (0x800000..=0x40000000).contains(&tom) && tom % 0x800000 == 0
}

// A list of records may have this length.
#[tactic(auto, using(gmch::proofs::Choice::tests, gmch::proofs::Choice::choices))]
fn records_fit(length: usize) -> bool
    ensures { result ≡ (eqb (length % 16) 0 and leb (length / 16) 65535) }
{
    length % 16 == 0 && length / 16 <= 65535
}

// The board's kind and the lengths lent are right; else code 1.
#[tactic(auto, using(gmch::proofs::Choice::tests, gmch::proofs::Choice::choices), unfolding(gmch::specs::Call::good_call))]
pub fn good_call(kind: u32, tom: usize, records: usize, answers: usize, display: usize) -> bool
    ensures { result ≡ good_call (record { kind = kind; tom = tom }) records answers display }
{
    kind <= 3
        && memory_fits(tom)
        && records_fit(records)
        && answers == records
        && display == cache_length(kind)
}

// A cold start, and a replay of all records in order on the memory and the display cache lent. Returns 0, with both and the
// answers as the definitions say; or 1, with all three as they were, where an argument is wrong.
pub fn gmch_replay(
    kind: u32,
    memory: &mut [u8],
    records: &[u8],
    answers: &mut [u8],
    display: &mut [u8],
) -> u32
    ensures { Calls kind (lent memory.old display.old) records.now answers.old result (lent memory.new display.new) answers.new }
{
    // 1 and 0 are the C interface's: desk_c exports this function with its clauses.
    let tom = memory.len();
    if !good_call(kind, tom, records.len(), answers.len(), display.len()) {
        return 1;
    }
    let b = Board {
        kind,
        tom: tom as u32,
    };
    let start = config::cold_start(kind);
    let mut table: Entries = [0; 16384];
    replay::replay(b, start, &mut table, memory, records, answers, display);
    0
}
