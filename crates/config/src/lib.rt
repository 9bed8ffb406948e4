// Configuration space of document 01: cold start, the ports, reads and writes of registers.
#![tactic(auto)]

ghost use Rattle.std.specs.Prelude.{◌≡◌, ◌⊎◌, ◌+◌, ◌%◌, ◌<◌, ◌≤◌};
ghost use Rattle.std.specs.Int.Bits.{bit_and};
ghost use Rattle.gmch.specs.Config.{ours, port_target, register_value};
ghost use Rattle.gmch.specs.Replay.{cold_dram, cold_start};

use gmch::{Regs, State, Target};

pub mod access;

// The display cache's registers at a cold start. A board without one has none of them.
fn cold_dram(board: u32) -> [u32; 3]
    ensures { result ≡ cold_dram board }
{
    if board % 2 == 1 {
        [0, 0x17, 0x08]
    } else {
        [0; 3]
    }
}

// The state at a cold start. The kind stays a number and no enum: the contract speaks of every board.
pub fn cold_start(board: u32) -> State
    ensures { result ≡ cold_start board }
{
    let regs = Regs {
        control: 0,
        tail: 0,
        head: 0,
        start: 0,
        pages: 0,
        enable: 0,
        identity: 0,
        mask: 0xFFFF,
    };
    State {
        cf8: 0,
        dev0: rows::cold_bytes(board, 0),
        dev1: rows::cold_bytes(board, 1),
        wrote2c: false,
        wrote2e: false,
        fences: [0; 8],
        regs,
        dram: cold_dram(board),
    }
}

// Whether CF8h is enabled and names one of our devices: device 0, and device 1 while GMS is not 00.
fn is_ours(cf8: u32, smram: u32) -> bool
    ensures { result ≡ ours cf8 smram }
{
    let device = cf8 / 2048 % 32;
    let present = (device == 0) | ((device == 1) & (0 < map::gms(smram)));
    (cf8 / 0x80000000 % 2 == 1) & ((cf8 / 65536 % 256 == 0) & ((cf8 / 256 % 8 == 0) & present))
}

// Where an access at a port ends: at CF8h, at one of our registers, or at the hub.
pub fn port_target(cf8: u32, smram: u32, width: u32, port: u32) -> Target
    ensures { result ≡ port_target cf8 smram width port }
{
    if (port == 0xCF8) & (width == 4) {
        return Target::Register(0xCF8);
    }
    if (0xCFC <= port) & (port < 0xD00) & is_ours(cf8, smram) {
        let x = cf8 / 2048 % 32 * 256 + (cf8 / 4 % 64 * 4 + port % 4);
        return Target::Register(x);
    }
    Target::Hub(port)
}

// What a read of `width` bytes at x gives, where x is CF8h or device * 256 + register.
// The caller has x from port_target and the width from the test for code 2.
pub fn register_value<'a>(
    cf8: u32,
    dev0: &'a [u8; 256],
    dev1: &'a [u8; 256],
    x: u32,
    width: u32,
) -> u32
    requires { ((x ≡ 0xCF8) ⊎ (x < 512)) × (x % 4 + width ≤ 4) }
    ensures { result ≡ register_value cf8 dev0.now dev1.now x width }
{
    if x == 0xCF8 {
        return cf8;
    }
    access::config_read(dev0, dev1, x, width)
}

// What CF8h keeps of the data written.
pub fn selected(v: u32) -> u32
    ensures { result ≡ bit_and v 0x80FFFFFC }
{
    v & 0x80FFFFFC
}
