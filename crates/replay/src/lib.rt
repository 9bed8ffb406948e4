// One record of any content, and a list of records replayed.
// A record is decided with the state only read, and table and memories lent; the state is changed in the loop, by an effect,
// so that an access that reaches memory never copies it.
#![tactic(auto)]

ghost use Rattle.std.specs.Prelude.{◌≡◌, ◌%◌, Bool, length};
ghost use Rattle.gmch.specs.Smram.{smram_error};
ghost use Rattle.gmch.specs.Config.{with_once};
ghost use Rattle.gmch.specs.Machine.{cache_length, machine};
ghost use Rattle.gmch.specs.Map.{Tom, Sized, Cached, map_of};
ghost use Rattle.gmch.specs.Replay.{run_reply, cold_table, one_record};
ghost use Rattle.access.specs.Decide.{Sound, changed, applied, carried};
ghost use Rattle.replay.specs.Flat.{Replays};

use access::{Decided, Effect, Rare};
use gmch::{Answer, Board, Entries, Map, Ran, Record, State, Target};
use graphics::Translation;
use ring::Parser;

// ---- one record

// SMRAM with its error bit set.
fn with_error(smram: u8) -> u8
    ensures { result ≡ smram_error smram }
{
    smram / 2 * 2 + 1
}

// Changes the state by what comes rarely. Out of line: in line it takes registers from the parser's loop.
#[tactic(auto, unfolding(access::specs::Decide::changed))]
#[inline(never)]
pub fn apply(s: &mut State, e: Rare)
    ensures { s.new ≡ changed s.old e }
{
    match e {
        Rare::Store(o, v) => *s = mapped::written(*s, o, v),
        Rare::StoreCache(o, v) => s.dram = mapped::dram_written(s.dram, o, v),
        Rare::Error => s.dev0[0x70] = with_error(s.dev0[0x70]),
        Rare::Reset(kind) => *s = config::cold_start(kind),
    }
}

// A parser run's answer. No `From`: both types are another crate's.
fn run_reply(q: Ran) -> Answer
    ensures { result ≡ run_reply q }
{
    Answer {
        code: q.code,
        target: 0,
        address: q.regs.head,
        value: 0,
        count: q.count,
    }
}

// Decides a record: its answer and its effect; table and memories are changed here. `replay` shows the lengths.
// Table, main memory and display cache as one struct would be no plainer: each callee takes others of them, and would take it apart.
pub fn decide(
    b: Board,
    m: Map,
    s: &State,
    table: &mut Entries,
    memory: &mut [u8],
    display: &mut [u8],
    r: Record,
) -> Decided
    requires { (m ≡ map_of b s.now) × Sized m table.old memory.old × Cached m display.old }
    ensures outcome { (c e : Bool) → carried (with_once s.now c e) table.new memory.new display.new result ≡ one_record b (machine (with_once s.now c e) table.old memory.old display.old) r }
    ensures sound { Sound result.effect }
{
    if !records::well_formed(r) {
        return access::done(Target::Refused(13, 0), 0, Effect::Keep);
    }
    let translation = Translation {
        map: m,
        control: s.regs.control,
        table,
        memory,
    };
    match r.kind {
        8 => {
            let parser = Parser {
                translation,
                display,
            };
            let q = parser.run(r.value, s.regs);
            Decided {
                answer: run_reply(q),
                effect: Effect::Ring(q.regs.head, q.regs.identity),
            }
        }
        9 => {
            table.fill(0);
            Decided {
                answer: records::reset_reply(),
                effect: Effect::Rarely(Rare::Reset(b.kind)),
            }
        }
        _ => {
            let a = records::access_of(r);
            let t = access::target_of(&translation, s, r.kind, a);
            access::act(m, s, table, memory, display, a, r.value, t)
        }
    }
}

// ---- a list of records

// Carries out what a record asks of the state, with the map read off it again where that may change. `replay` shows that the
// bytes written are there.
#[tactic(auto, unfolding(access::specs::Decide::applied))]
fn carry_out(b: Board, s: &mut State, m: &mut Map, e: Effect)
    requires { (m.old ≡ map_of b s.old) × Sound e }
    ensures state { s.new ≡ applied s.old e }
    ensures map { m.new ≡ map_of b s.new }
{
    match e {
        Effect::Keep => {}
        Effect::Ring(head, identity) => {
            s.regs.head = head;
            s.regs.identity = identity;
        }
        Effect::Select(v) => s.cf8 = v,
        Effect::Configure(n, width, v) => {
            let data = config::access::effective(n, s.dev1[0xE0], v);
            let bits = rows::bits_of(n / 4, s.wrote2c, s.wrote2e);
            let wrote2c = config::access::is_touched(0x12C, n, width);
            let wrote2e = config::access::is_touched(0x12E, n, width);
            if n < 256 {
                config::access::write(&mut s.dev0, bits, n, width, data);
            } else {
                config::access::write(&mut s.dev1, bits, n, width, data);
            }
            s.wrote2c |= wrote2c;
            s.wrote2e |= wrote2e;
            *m = access::map_of(b, s);
        }
        Effect::Rarely(x) => {
            apply(s, x);
            *m = access::map_of(b, s);
        }
    }
}

// Replays the records in order, and answers each. The host's call shows the lengths. No zip of chunks: `record_at` and `put_answer` take
// a list and a place, and would be given place 0 of each chunk.
pub fn replay(
    b: Board,
    start: State,
    table: &mut Entries,
    memory: &mut [u8],
    records: &[u8],
    answers: &mut [u8],
    display: &mut [u8],
) -> State
    requires { Tom b.tom × (length memory.old ≡ b.tom) × (length records.now % 16 ≡ 0) × (length answers.old ≡ length records.now) × (length display.old ≡ cache_length b.kind) }
    ensures { Replays b (machine start table.old memory.old display.old) records.now (machine result table.new memory.new display.new) answers.new }
{
    let mut s = start;
    // Read off the state once, and again after each effect that may change it.
    let mut m = access::map_of(b, &s);
    for at in (0..records.len()).step_by(16) {
        let r = records::record_at(records, at);
        let d = decide(b, m, &s, table, memory, display, r);
        carry_out(b, &mut s, &mut m, d.effect);
        records::put_answer(answers, at, d.answer, mapped::line(s.regs));
    }
    s
}
