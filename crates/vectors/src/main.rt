// The examples of document 01 that are not marked as proved, and the power states of request 3 of document 02: the proved
// functions are run, and what they give is held to the file stdout. What needs main memory is replayed from the host instead.
#![tactic(auto)]

use gmch::{Map, Place, State, Target};
use std::io;

// ---- the whole case, board kind 0: CF8h is written 80000000h, then four bytes at CFCh are read

// CF8h after a write of `v`, if that is where it ends.
fn select(rt: &impl Print, s: State, v: u32) -> io::Result<State> {
    match config::port_target(s.cf8, 0, 4, 0xCF8) {
        Target::Register(0xCF8) => {
            println!(rt; "CF8h is written {v:08x}: register 00000cf8")?;
            Ok(State {
                cf8: config::selected(v),
                ..s
            })
        }
        _ => Ok(s),
    }
}

// Four bytes at CFCh.
fn read(rt: &impl Print, s: State) -> io::Result<()> {
    match config::port_target(s.cf8, 0, 4, 0xCFC) {
        Target::Register(n) => {
            print!(rt; "CFCh is read: register {n:08x}")?;
            if n % 4 == 0 && n < 512 {
                let value = config::register_value(s.cf8, &s.dev0, &s.dev1, n, 4);
                print!(rt; ", value {value:08x}")?;
            }
            println!(rt; "")
        }
        _ => println!(rt; "CFCh is read: the hub"),
    }
}

// ---- an entry that is 0, where translation is on and main memory has 8 MiB

fn entry(rt: &impl Print, v: u32) -> io::Result<()> {
    print!(rt; "entry {v:08x}")?;
    let m = Map {
        kind: 0,
        tom: 0x800000,
        smram: 0xBE,
        window: 0x4000000,
        gmadr: 0x20000000,
        mmadr: 0x10000000,
        on: true,
        cache: false,
    };
    match graphics::entry_reach(m, v, 0) {
        Ok(Place::InMain(p)) => println!(rt; " reaches {p:08x}"),
        Ok(Place::InCache(p)) => println!(rt; " reaches the display cache at {p:08x}"),
        Err(refusal) => println!(rt; " is refused with code {}", refusal.code),
    }
}

// ---- zero records

fn call(rt: &impl Print, length: usize) -> io::Result<()> {
    let result = u32::from(!desk::good_call(0, 0x800000, length, length, 0));
    println!(rt; "a call with records of {length} bytes: result {result}")
}

// ---- the power state of device 1, from any value: 01 and 10 cannot be left there by a replay from a cold start

// PM_CS holds `held`, and the n low bytes of v are written to it.
fn power(rt: &impl Print, held: u8, v: u32, n: u32) -> io::Result<()> {
    print!(rt; "PM_CS {held:08x}, written {v:08x} in {n:08x}")?;
    let dev0 = [0u8; 256];
    let mut dev1 = [0u8; 256];
    dev1[0xE0] = held;
    if n <= 4 {
        let data = config::access::effective(0x1E0, held, v);
        config::access::write(&mut dev1, rows::bits_of(0x78, false, false), 0x1E0, n, data);
    }
    let value = config::register_value(0, &dev0, &dev1, 0x1E0, 4);
    println!(rt; " bytes: {value:08x}")
}

// Each state held and each written, with bit 8.
fn powers(rt: &impl Print, n: u32) -> io::Result<()> {
    for held in 0..4 {
        for state in 0..4 {
            power(rt, held, 0x100 + state, n)?;
        }
    }
    Ok(())
}

fn main(rt: HostRuntime) -> io::Result<()> {
    let s = select(&rt, config::cold_start(0), 0x80000000)?;
    read(&rt, s)?;
    entry(&rt, 0)?;
    call(&rt, 0)?;
    powers(&rt, 1)?;
    powers(&rt, 2)?;
    powers(&rt, 4)
}
