// The memory-mapped registers: the accesses that fit them, their values, what writes leave, and the interrupt line.
#![tactic(auto)]

ghost use Rattle.std.specs.Prelude.{◌≡◌, true, ◌<◌};
ghost use Rattle.gmch.specs.Mapped.{listed_word, listed_half, listed_byte, misfit, is_entry, entry_number, is_fence, fence_number, regs_value, mapped_value, regs_written, mapped_written, stored, table_written, dram_value, dram_written, line_of};

use gmch::{Entries, Regs, State};
use words::within;

// ---- the list

// `o` is in an entry of the translation table, 10000h-1FFFFh.
pub fn is_entry(o: u32) -> bool
    ensures { result ≡ is_entry o }
{
    within(0x10000, 0x10000, o)
}

// The number of the entry that has `o`. The caller shows that one has.
pub fn entry_number(o: u32) -> usize
    requires { is_entry o ≡ true }
    ensures { (result ≡ entry_number o) × (result < 16384) }
{
    ((o - 0x10000) / 4) as usize
}

// `o` is in a fence, FENCE, 2000h-201Fh. This and `is_entry` are one function already, `within`; their names are the plainer.
fn is_fence(o: u32) -> bool
    ensures { result ≡ is_fence o }
{
    within(0x2000, 0x20, o)
}

// The number of the fence that has `o`. The caller shows that one has. Apart from `entry_number`, since each is bounded by its array.
fn fence_number(o: u32) -> usize
    requires { is_fence o ≡ true }
    ensures { (result ≡ fence_number o) × (result < 8) }
{
    ((o - 0x2000) / 4) as usize
}

// The aligned word at `o` is a register of four bytes: FENCE, PGTBL_CTL, RINGBUF or an entry of the table.
fn listed_word(o: u32) -> bool
    ensures { result ≡ listed_word o }
{
    within(0x2000, 0x24, o) | (within(0x2030, 0x10, o) | is_entry(o))
}

// `o` is in a register of two bytes: IER, IIR, IMR or ISR.
fn listed_half(o: u32) -> bool
    ensures { result ≡ listed_half o }
{
    within(0x20A0, 0x10, o) & (o % 4 < 2)
}

// `o` is in a register of one byte: DRT, DRAMCL or DRAMCH, which only a board with a display cache has.
pub fn listed_byte(kind: u32, o: u32) -> bool
    ensures { result ≡ listed_byte kind o }
{
    (kind % 2 == 1) & within(0x3000, 3, o)
}

// Code 10: an access of `width` bytes at `o` touches a listed register without being exactly it.
pub fn misfit(kind: u32, o: u32, width: u32) -> bool
    ensures { result ≡ misfit kind o width }
{
    if listed_word(o) {
        return !((o % 4 == 0) & (width == 4));
    }
    if listed_half(o) {
        return !((o % 4 == 0) & (width == 2));
    }
    listed_byte(kind, o) & !(width == 1)
}

// ---- reads

// What a register that is a single number reads at `o`. ISR, 20ACh, reads 0.
pub fn regs_value(r: Regs, o: u32) -> u32
    ensures { result ≡ regs_value r o }
{
    match o {
        0x2020 => r.control, // PGTBL_CTL
        0x2030 => r.tail, // RINGBUF tail
        0x2034 => r.head, // RINGBUF head
        0x2038 => r.start, // RINGBUF start
        0x203C => r.pages, // RINGBUF length
        0x20A0 => r.enable, // IER
        0x20A4 => r.identity, // IIR
        0x20A8 => r.mask, // IMR
        _ => 0,
    }
}

// What an access that fits reads at `o`.
pub fn value(fences: [u32; 8], r: Regs, table: &Entries, o: u32) -> u32
    ensures { result ≡ mapped_value fences r table.now o }
{
    if is_entry(o) {
        return table[entry_number(o)];
    }
    if is_fence(o) {
        return fences[fence_number(o)];
    }
    regs_value(r, o)
}

// ---- writes

// The registers that are single numbers, after `v` is written at `o`.
pub fn regs_written(r: Regs, o: u32, v: u32) -> Regs
    ensures { result ≡ regs_written r o v }
{
    match o {
        0x2020 => Regs {
            control: v & 0xFFFFF001,
            ..r
        }, // PGTBL_CTL: base 31:12, on 0
        0x2030 => Regs {
            tail: v & 0x1FFFF8,
            ..r
        }, // RINGBUF tail: 20:3
        0x2034 => Regs {
            head: v & 0xFFFFFFFC,
            ..r
        }, // RINGBUF head: wraps 31:21, offset 20:2
        0x2038 => Regs {
            start: v & 0x3FFF000,
            ..r
        }, // RINGBUF start: 25:12
        0x203C => Regs {
            pages: v & 0x1FF001,
            ..r
        }, // RINGBUF length: pages less one 20:12, enable 0
        0x20A0 => Regs {
            enable: v % 65536,
            ..r
        }, // IER
        0x20A4 => Regs {
            identity: r.identity & (65535 - v % 65536),
            ..r
        }, // IIR: cleared by writing 1
        0x20A8 => Regs {
            mask: v % 65536,
            ..r
        }, // IMR
        _ => r,
    }
}

// The state after `v` is written at `o`.
pub fn written(s: State, o: u32, v: u32) -> State
    ensures { result ≡ mapped_written s o v }
{
    let mut t = s;
    if is_fence(o) {
        // Start 25:19, walk 12, size 10:8, pitch 6:4, valid 0.
        t.fences[fence_number(o)] = v & 0x3F81771;
    } else {
        t.regs = regs_written(s.regs, o, v);
    }
    t
}

// What a write of `v` stores in an entry of the translation table, in either home.
pub fn stored(v: u32) -> u32
    ensures { result ≡ stored v }
{
    v & 0x3FFFF007
}

// The private translation table after `v` is written at `o`.
pub fn table_written(table: &mut Entries, o: u32, v: u32)
    ensures { table.new ≡ table_written table.old o v }
{
    if is_entry(o) {
        table[entry_number(o)] = stored(v);
    }
}

// ---- the display cache's registers

// What the register at `o` reads.
pub fn dram_value(dram: [u32; 3], o: u32) -> u32
    ensures { result ≡ dram_value dram o }
{
    match o {
        0x3000 => dram[0], // DRT
        0x3001 => dram[1], // DRAMCL
        _ => dram[2], // DRAMCH
    }
}

// The registers after `v` is written at `o`.
pub fn dram_written(dram: [u32; 3], o: u32, v: u32) -> [u32; 3]
    ensures { result ≡ dram_written dram o v }
{
    let mut q = dram;
    match o {
        0x3000 => q[0] = v % 2, // DRT: bit 0
        0x3001 => q[1] = v % 256, // DRAMCL
        0x3002 => q[2] = v % 256, // DRAMCH
        _ => {}
    }
    q
}

// ---- interrupts

// The interrupt line: IIR AND IER is not 0.
pub fn line(r: Regs) -> u8
    ensures { result ≡ line_of r }
{
    u8::from(r.identity & r.enable != 0)
}
