// The register rows of documents 01 and 02: the bytes at a cold start, and what a write may change.
#![tactic(auto)]

ghost use Rattle.std.specs.Prelude.{◌≡◌, ◌*◌, ◌<◌};
ghost use Rattle.gmch.specs.Rows.{defaults_from, id_byte, cold_bytes};
ghost use Rattle.rows.specs.Word.{joined, row_bits, fixed_bits, bits_of};

use gmch::Row;

// What a write may change of an aligned word of four bytes: the bits that it stores, and those that a written 1 clears. No `Masks`: a
// word has no default.
#[derive(Clone, Copy)]
pub struct Bits {
    pub writable: u32,
    pub clearing: u32,
}

// Written out: a constant may not call a function, as a `const fn row` (tried: unsupported-constant-expression).
const ROWS: [Row; 26] = [
    // device 0: VID
    Row {
        at: 0x000,
        width: 2,
        default: 0x8086,
        writable: 0,
        clearing: 0,
    },
    // DID; 7122h on a DC100
    Row {
        at: 0x002,
        width: 2,
        default: 0x7120,
        writable: 0,
        clearing: 0,
    },
    // PCICMD
    Row {
        at: 0x004,
        width: 2,
        default: 0x0006,
        writable: 0x0100,
        clearing: 0,
    },
    // PCISTS
    Row {
        at: 0x006,
        width: 2,
        default: 0x0080,
        writable: 0,
        clearing: 0x7000,
    },
    // RID
    Row {
        at: 0x008,
        width: 1,
        default: 0x02,
        writable: 0,
        clearing: 0,
    },
    // BCC
    Row {
        at: 0x00B,
        width: 1,
        default: 0x06,
        writable: 0,
        clearing: 0,
    },
    // PAMR
    Row {
        at: 0x051,
        width: 1,
        default: 0x00,
        writable: 0xFF,
        clearing: 0,
    },
    // FDHC
    Row {
        at: 0x058,
        width: 1,
        default: 0x00,
        writable: 0x80,
        clearing: 0,
    },
    // SMRAM: what a write leaves has a rule of its own, smram_written
    Row {
        at: 0x070,
        width: 1,
        default: 0x00,
        writable: 0,
        clearing: 0,
    },
    // MISCC
    Row {
        at: 0x072,
        width: 2,
        default: 0x0000,
        writable: 0x0001,
        clearing: 0,
    },
    // MISCC2
    Row {
        at: 0x080,
        width: 1,
        default: 0x00,
        writable: 0xFF,
        clearing: 0,
    },
    // BUFF_SC
    Row {
        at: 0x092,
        width: 2,
        default: 0xFFFF,
        writable: 0xFFFF,
        clearing: 0,
    },
    // device 1: VID1
    Row {
        at: 0x100,
        width: 2,
        default: 0x8086,
        writable: 0,
        clearing: 0,
    },
    // DID1; 7123h on a DC100
    Row {
        at: 0x102,
        width: 2,
        default: 0x7121,
        writable: 0,
        clearing: 0,
    },
    // PCICMD1
    Row {
        at: 0x104,
        width: 2,
        default: 0x0004,
        writable: 0x0003,
        clearing: 0,
    },
    // BCC1
    Row {
        at: 0x10B,
        width: 1,
        default: 0x03,
        writable: 0,
        clearing: 0,
    },
    // GMADR
    Row {
        at: 0x110,
        width: 4,
        default: 0x00000008,
        writable: 0xFE000000,
        clearing: 0,
    },
    // MMADR
    Row {
        at: 0x114,
        width: 4,
        default: 0x00000000,
        writable: 0xFFF80000,
        clearing: 0,
    },
    // SVID and SID, write once
    Row {
        at: 0x12C,
        width: 2,
        default: 0x0000,
        writable: 0xFFFF,
        clearing: 0,
    },
    Row {
        at: 0x12E,
        width: 2,
        default: 0x0000,
        writable: 0xFFFF,
        clearing: 0,
    },
    // CAPPOINT
    Row {
        at: 0x134,
        width: 1,
        default: 0xDC,
        writable: 0,
        clearing: 0,
    },
    // INTRLINE
    Row {
        at: 0x13C,
        width: 1,
        default: 0x00,
        writable: 0xFF,
        clearing: 0,
    },
    // INTRPIN
    Row {
        at: 0x13D,
        width: 1,
        default: 0x01,
        writable: 0,
        clearing: 0,
    },
    // PM_CAPID
    Row {
        at: 0x1DC,
        width: 2,
        default: 0x0001,
        writable: 0,
        clearing: 0,
    },
    // PM_CAP
    Row {
        at: 0x1DE,
        width: 2,
        default: 0x0021,
        writable: 0,
        clearing: 0,
    },
    // PM_CS: what a write leaves in bits 1:0, the power state, has a rule of its own, config::access::effective
    Row {
        at: 0x1E0,
        width: 2,
        default: 0x0000,
        writable: 0x0103,
        clearing: 0,
    },
];

// The defaults of a device's 256 bytes, row by row.
fn default_bytes(device: u32) -> [u8; 256]
    requires { device < 2 }
    ensures { result ≡ defaults_from (device * 256) 256 }
{
    let mut a = [0u8; 256];
    for r in &ROWS {
        if r.at / 256 == device {
            words::store(&mut a, (r.at % 256) as usize, r.width, r.default);
        }
    }
    a
}

// The low byte of the device identification: 7120h and 7121h on an 82810, kinds 0 and 2; 7122h and 7123h on a DC100.
fn id_byte(board: u32, device: u32) -> u8
    requires { device < 2 }
    ensures { result ≡ id_byte board device }
{
    if board % 2 == 0 {
        return (0x20 + device) as u8;
    }
    (0x20 + device + 2) as u8
}

// A device's 256 bytes at a cold start. Out of line: in line it takes registers from the loop over records. The device stays a number:
// an enum of the two would be no plainer, since all three functions use it as one.
#[inline(never)]
pub fn cold_bytes(board: u32, device: u32) -> [u8; 256]
    requires { device < 2 }
    ensures { result ≡ cold_bytes board device }
{
    let mut a = default_bytes(device);
    a[2] = id_byte(board, device);
    a
}

// ---- what a write may change

// p, and what a number n of the register at `at` has of the aligned word w.
fn joined(p: u32, n: u32, at: u32, w: u32) -> u32
    ensures { result ≡ joined p n at w }
{
    if at / 4 == w {
        return p | n << (8 * (at % 4));
    }
    p
}

// What the rows say of the aligned word w. The compiler unrolls each chain, and the rows are then constants.
fn row_bits(w: u32) -> Bits
    ensures { result ≡ row_bits w }
{
    Bits {
        writable: ROWS.iter().fold(0, |p, r| joined(p, r.writable, r.at, w)),
        clearing: ROWS.iter().fold(0, |p, r| joined(p, r.clearing, r.at, w)),
    }
}

// The bits of the write-once registers 2Ch and 2Eh of device 1 that have been written. Two flags, as `State` has them.
fn fixed_bits(w: u32, wrote2c: bool, wrote2e: bool) -> u32
    ensures { result ≡ fixed_bits wrote2c wrote2e w }
{
    if w != 0x4B {
        return 0;
    }
    if wrote2c {
        if wrote2e {
            return 0xFFFFFFFF;
        }
        return 0xFFFF;
    }
    if wrote2e {
        return 0xFFFF0000;
    }
    0
}

// What a write may change now of the aligned word w.
pub fn bits_of(w: u32, wrote2c: bool, wrote2e: bool) -> Bits
    ensures { result ≡ bits_of wrote2c wrote2e w }
{
    let b = row_bits(w);
    Bits {
        writable: b.writable & !fixed_bits(w, wrote2c, wrote2e),
        clearing: b.clearing,
    }
}
