// One access: where it ends, and what it does there. It is decided with the state only read; table and memories are changed
// here, and what is left to do to the state is given as an effect.
#![tactic(auto)]

ghost use Rattle.std.specs.Prelude.{◌≡◌, Bool, true, ◌+◌, ◌≤◌, length};
ghost use Rattle.gmch.specs.Choice.{pick};
ghost use Rattle.gmch.specs.Words.{load_le, store_le};
ghost use Rattle.gmch.specs.Records.{reply};
ghost use Rattle.gmch.specs.Config.{with_once};
ghost use Rattle.gmch.specs.Machine.{machine};
ghost use Rattle.gmch.specs.Map.{map_of, shadow_in};
ghost use Rattle.gmch.specs.Table.{word_reach};
ghost use Rattle.gmch.specs.Mapped.{is_entry, entry_number, mapped_value, table_written};
ghost use Rattle.gmch.specs.Access.{entry_target, resolved, target_in, settled, act};
ghost use Rattle.access.specs.Decide.{Reachable, InWindow, Sound, store_effect, register_effect, carried};
ghost use Rattle.words.specs.Width.{Width};
ghost use Rattle.graphics.specs.Lookup.{look};

use gmch::{Access, Answer, Board, Entries, Map, Place, Route, State, Target};
use graphics::Translation;

// What a record asks of the state. The replay's loop carries it out, in place where it comes often. A value and no closure: `applied` says
// what each does, and `Sound` what it may hold.
#[derive(Clone, Copy)]
pub enum Effect {
    Keep,
    // A parser run leaves this head and this interrupt identity.
    Ring(u32, u32),
    // CF8h is this.
    Select(u32),
    // A write of configuration registers: at device * 256 + register, width, value.
    Configure(u32, u32, u32),
    Rarely(Rare),
}

// What comes so rarely that the state may be copied.
#[derive(Clone, Copy)]
pub enum Rare {
    // A write of a fence or of a memory-mapped register: offset, value.
    Store(u32, u32),
    // A write of a register of the display cache: offset, value.
    StoreCache(u32, u32),
    // SMRAM's error bit is set.
    Error,
    // A cold start of a board of this kind.
    Reset(u32),
}

// What a record answers, and what it asks of the state.
#[derive(Clone, Copy)]
pub struct Decided {
    pub answer: Answer,
    pub effect: Effect,
}

// What the map goes by, read off the devices' bytes and 3000h.
pub fn map_of(b: Board, s: &State) -> Map
    ensures { result ≡ map_of b s.now }
{
    map::map_from(
        b,
        s.dev0[0x70],
        s.dev0[0x72],
        s.dev1[0x04],
        s.dev1[0x13],
        s.dev1[0x16],
        s.dev1[0x17],
        s.dram[0],
    )
}

// ---- where it ends

// The entry at the register offset `o`, of a table in main memory. The caller shows that it is one.
fn entry_target(m: Map, control: u32, o: u32) -> Target
    requires { is_entry o ≡ true }
    ensures { result ≡ entry_target o (word_reach m control (entry_number o)) }
{
    let i = mapped::entry_number(o);
    match graphics::word_reach(m, control, i as u32) {
        Ok(p) => Target::Entry(o, p),
        Err(denied) => Target::Refused(denied.code, denied.offset),
    }
}

// What the rules leave open: the list of registers, or fences and table. `target_of` shows that an offset is in the window.
#[tactic(auto, using(gmch::proofs::Choice::choices, crate::proofs::Laws::entry_unlisted), unfolding(gmch::specs::Access::resolved, gmch::specs::Choice::pick))]
fn resolve(t: &Translation, s: &State, a: Access, route: Route) -> Target
    requires { InWindow route }
    ensures { result ≡ resolved t.now.map s.now.fences t.now.control (look t.now) a route }
{
    match route {
        Route::To(target) => target,
        Route::Registers(o) => {
            if mapped::misfit(t.map.kind, o, a.width) {
                Target::Refused(10, 0)
            } else if mapped::is_entry(o) {
                if 2 <= t.map.kind {
                    entry_target(t.map, t.control, o)
                } else {
                    Target::Mapped(o)
                }
            } else if mapped::listed_byte(t.map.kind, o) {
                Target::CacheRegister(o)
            } else {
                Target::Mapped(o)
            }
        }
        Route::Window(o) => match t.window(s.fences, o) {
            Ok(Place::InMain(p)) => Target::Memory(p),
            Ok(Place::InCache(p)) => Target::Cache(p),
            Err(refusal) => Target::Refused(refusal.code, refusal.offset),
        },
    }
}

// An access of kinds 1 to 7.
#[tactic(auto, unfolding(gmch::specs::Access::target_in, gmch::specs::Choice::pick))]
pub fn target_of(t: &Translation, s: &State, kind: u32, a: Access) -> Target
    ensures { result ≡ target_in t.now.map (shadow_in s.now.dev0) s.now.cf8 s.now.fences t.now.control (look t.now) kind a }
{
    if !records::fits_word(a.width, a.address) {
        Target::Refused(2, 0)
    } else if kind <= 2 {
        config::port_target(s.cf8, t.map.smram, a.width, a.address)
    } else if kind <= 5 {
        resolve(t, s, a, map::route(t.map, &s.dev0, a))
    } else {
        map::master_target(t.map, &s.dev0, a)
    }
}

// ---- what it does there

// The answer for a target with the value that was read, and what is asked of the state.
pub fn done(t: Target, v: u32, effect: Effect) -> Decided
    ensures { result ≡ record { answer = reply t v; effect = effect } }
{
    Decided {
        answer: records::reply(t, v),
        effect,
    }
}

// At an address of main memory or of the display cache: the value read. Whether it is a write and its data stay apart, here and below, as
// `act` of the definitions takes an access and its data.
#[tactic(auto, unfolding(gmch::specs::Choice::pick))]
fn in_memory(memory: &mut [u8], write: bool, width: u32, v: u32, p: u32) -> u32
    requires { Width width × (p + width ≤ length memory.old) }
    ensures { (result ≡ pick write 0 (load_le width p memory.old)) × (memory.new ≡ pick write (store_le width p v memory.old) memory.old) }
{
    if write {
        words::store(memory, p as usize, width, v);
        0
    } else {
        words::load(memory, p as usize, width)
    }
}

// At a memory-mapped register: the value read. Entries of the private table are stored here, all else is left to the state. An entry is
// read here too: `value` takes the fences and the registers, and the compiler would copy them for it.
#[tactic(auto, unfolding(gmch::specs::Choice::pick, gmch::specs::Mapped::mapped_value))]
fn at_mapped(s: &State, table: &mut Entries, write: bool, v: u32, o: u32) -> u32
    ensures { (result ≡ pick write 0 (mapped_value s.now.fences s.now.regs table.old o)) × (table.new ≡ pick write (table_written table.old o v) table.old) }
{
    if write {
        mapped::table_written(table, o, v);
        0
    } else if mapped::is_entry(o) {
        table[mapped::entry_number(o)]
    } else {
        mapped::value(s.fences, s.regs, table, o)
    }
}

// What an access at a memory-mapped register asks of the state.
#[tactic(auto, unfolding(crate::specs::Decide::store_effect, gmch::specs::Choice::pick))]
fn store_effect(write: bool, o: u32, v: u32) -> Effect
    ensures { result ≡ store_effect write o v }
{
    if write && !mapped::is_entry(o) {
        Effect::Rarely(Rare::Store(o, v))
    } else {
        Effect::Keep
    }
}

// What a write of CF8h or of configuration registers asks of the state.
#[tactic(auto, unfolding(crate::specs::Decide::register_effect, gmch::specs::Choice::pick))]
fn register_effect(n: u32, width: u32, v: u32) -> Effect
    ensures { result ≡ register_effect n width v }
{
    if n == 0xCF8 {
        Effect::Select(config::selected(v))
    } else {
        Effect::Configure(n, width, v)
    }
}

// An access where it ends; or code 16, which alone looks at the data. It is asked where a word of the table would be stored, so
// that no other access pays for it. `decide` shows that the bytes are there.
#[tactic(auto, using(crate::proofs::Laws::arms), unfolding(gmch::specs::Access::act, gmch::specs::Access::is_table_word, gmch::specs::Choice::pick, crate::specs::Decide::applied, crate::specs::Decide::changed))]
pub fn act(
    m: Map,
    s: &State,
    table: &mut Entries,
    memory: &mut [u8],
    display: &mut [u8],
    a: Access,
    v: u32,
    t: Target,
) -> Decided
    requires { Reachable (length memory.old) (length display.old) a.width t }
    ensures outcome { (c e : Bool) → carried (with_once s.now c e) table.new memory.new display.new result ≡ act (machine (with_once s.now c e) table.old memory.old display.old) a v (settled m a v t) }
    ensures sound { Sound result.effect }
{
    let Access { write, width, .. } = a;
    match t {
        Target::Memory(p) => {
            let x = in_memory(memory, write, width, v, p);
            done(t, x, Effect::Keep)
        }
        Target::Mapped(o) => {
            if write && mapped::is_entry(o) && lock::barred(m, v) {
                return done(Target::Refused(16, 0), 0, Effect::Keep);
            }
            let x = at_mapped(s, table, write, v, o);
            done(t, x, store_effect(write, o, v))
        }
        Target::Register(n) => {
            if write {
                done(t, 0, register_effect(n, width, v))
            } else {
                let x = config::register_value(s.cf8, &s.dev0, &s.dev1, n, width);
                done(t, x, Effect::Keep)
            }
        }
        Target::HubError(_) => done(t, 0, Effect::Rarely(Rare::Error)),
        Target::Refused(_, _) | Target::Hub(_) | Target::Vga(_) => done(t, 0, Effect::Keep),
        Target::Entry(_, p) => {
            if write && lock::barred(m, v) {
                done(Target::Refused(16, 0), 0, Effect::Keep)
            } else {
                let x = in_memory(memory, write, 4, mapped::stored(v), p);
                done(t, x, Effect::Keep)
            }
        }
        Target::Cache(p) => {
            let x = in_memory(display, write, width, v, p);
            done(t, x, Effect::Keep)
        }
        Target::CacheRegister(o) => {
            if write {
                done(t, 0, Effect::Rarely(Rare::StoreCache(o, v)))
            } else {
                done(t, mapped::dram_value(s.dram, o), Effect::Keep)
            }
        }
    }
}
