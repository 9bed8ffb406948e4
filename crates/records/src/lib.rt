// Records and answers: the layout (code 13), the width (code 2), the access that a record asks for, and the answer for a
// target.
#![tactic(auto)]

ghost use Rattle.std.specs.Prelude.{◌≡◌, ◌+◌, ◌≤◌, length, take, drop};
ghost use Rattle.std.proofs.lemmas.List.Edits.{sets};
ghost use Rattle.gmch.specs.Records.{record_of, is_write, is_processor, is_management, access_of, well_formed, fits_word, answer, reply, reset_reply, answer_bytes};

use gmch::{Access, Answer, Record, Target};

// ---- records

// The fields of the 16 bytes at `at`.
pub fn record_at(records: &[u8], at: usize) -> Record
    requires { at + 16 ≤ length records.now }
    ensures { result ≡ record_of (take 16 (drop at records.now)) }
{
    Record {
        kind: u32::from(records[at]),
        width: u32::from(records[at + 1]),
        flags: u32::from(records[at + 2]),
        zero: u32::from(records[at + 3]),
        address: words::load4(records, at + 4),
        value: words::load4(records, at + 8),
        rest: words::load4(records, at + 12),
    }
}

// Kinds 2, 5 and 7 write. A kind stays a number and no enum: this and `well_formed`'s contract speak of every number.
pub fn is_write(kind: u32) -> bool
    ensures { result ≡ is_write kind }
{
    (kind == 2) | ((kind == 5) | (kind == 7))
}

// Kinds 3 to 5 are the processor's.
fn is_processor(kind: u32) -> bool
    ensures { result ≡ is_processor kind }
{
    (3 <= kind) & (kind <= 5)
}

// A management-mode access.
pub fn is_management(r: Record) -> bool
    ensures { result ≡ is_management r }
{
    is_processor(r.kind) & (r.flags % 2 == 1)
}

// What a record of kinds 1 to 7 asks for. No `From`: both types are another crate's (tried: orphan-impl).
pub fn access_of(r: Record) -> Access
    ensures { result ≡ access_of r }
{
    Access {
        management: is_management(r),
        code: r.kind == 4,
        write: is_write(r.kind),
        width: r.width,
        address: r.address,
    }
}

// The record keeps the layout; else code 13. By kind, so that each is asked only what its layout says.
pub fn well_formed(r: Record) -> bool
    ensures { result ≡ well_formed r }
{
    let reserved = (r.zero == 0) & (r.rest == 0);
    let plain = (r.flags == 0) & reserved;
    let flagged = ((r.flags == 1) | (r.flags == 0)) & reserved;
    let kind = r.kind;
    match kind {
        1 => (r.value == 0) & ((r.address <= 65535) & plain),
        2 => (r.address <= 65535) & plain,
        3 => (r.value == 0) & flagged,
        4 => (r.value == 0) & flagged,
        5 => flagged,
        6 => (r.value == 0) & plain,
        7 => plain,
        8 => ((r.width == 0) & (r.address == 0)) & plain,
        9 => (r.value == 0) & (((r.width == 0) & (r.address == 0)) & plain),
        _ => false,
    }
}

// One, two or four bytes inside an aligned word of four; else code 2.
pub fn fits_word(width: u32, address: u32) -> bool
    ensures { result ≡ fits_word width address }
{
    ((width == 1) | ((width == 2) | (width == 4))) && address % 4 + width <= 4
}

// ---- answers

// An answer that counts no steps.
fn answer(code: u8, target: u8, address: u32, value: u32) -> Answer
    ensures { result ≡ answer code target address value }
{
    Answer {
        code,
        target,
        address,
        value,
        count: 0,
    }
}

// An access's answer, with the value that was read.
pub fn reply(t: Target, v: u32) -> Answer
    ensures { result ≡ reply t v }
{
    match t {
        Target::Refused(c, o) => answer(c, 0, o, v),
        Target::Memory(p) => answer(0, 1, p, v),
        Target::Cache(p) => answer(0, 6, p, v),
        Target::Register(n) => answer(0, 2, n, v),
        Target::Hub(p) | Target::HubError(p) => answer(0, 3, p, v),
        Target::Vga(o) => answer(0, 4, o, v),
        Target::Mapped(o) | Target::Entry(o, _) | Target::CacheRegister(o) => answer(0, 5, o, v),
    }
}

// A reset's answer.
pub fn reset_reply() -> Answer
    ensures { result ≡ reset_reply }
{
    answer(0, 0, 0, 0)
}

// Stores an answer's 16 bytes at `at`, field by field: an array of the 16 would be no plainer, and be copied.
pub fn put_answer(answers: &mut [u8], at: usize, a: Answer, line: u8)
    requires { at + 16 ≤ length answers.old }
    ensures { answers.new ≡ sets answers.old at (answer_bytes a line) }
{
    answers[at] = a.code;
    answers[at + 1] = a.target;
    answers[at + 2] = line;
    answers[at + 3] = 0;
    words::store4(answers, at + 4, a.address);
    words::store4(answers, at + 8, a.value);
    words::store4(answers, at + 12, a.count);
}
