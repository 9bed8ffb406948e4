// Reads and writes of configuration bytes. A byte is named by x = device * 256 + register, and its callers
// show that it is below 512. The devices' bytes are lent: by value they would be copied. They stay two parameters, as `config_read` of the
// definitions has them, and no State: `vectors` reads devices that belong to none.
ghost use Rattle.std.specs.Prelude.{◌≡◌, ◌+◌, ◌%◌, ◌<◌, ◌≤◌};
ghost use Rattle.gmch.specs.Smram.{smram_written};
ghost use Rattle.gmch.specs.Config.{effective, touches, read_byte, config_read};
ghost use Rattle.config.specs.Word.{new_in, written_in};

use rows::Bits;

// What a write leaves in SMRAM: bit 0 is cleared by writing 1, and the lock holds the others.
fn smram_written(old: u8, v: u8) -> u8
    ensures { result ≡ smram_written old v }
{
    if old / 2 % 2 == 1 {
        if v % 2 == 1 {
            return old / 2 * 2;
        }
        return old / 2 * 2 + old % 2;
    }
    if v % 2 == 1 {
        return v / 2 * 2;
    }
    v / 2 * 2 + old % 2
}

// What a write of v leaves in the byte x, which was old. b is what a write may change of the aligned word of x.
fn new_byte(b: Bits, x: u32, old: u8, v: u8) -> u8
    ensures { result ≡ new_in b x old v }
{
    if x == 0x70 {
        return smram_written(old, v);
    }
    let k = 8 * (x % 4);
    let writable = ((b.writable >> k) % 256) as u8;
    let clearing = ((b.clearing >> k) % 256) as u8;
    (old & !writable | v & writable) & !(v & clearing)
}

// What acts of a write of v at x, where device 1's E0h is old: a power state that is not supported is discarded, so that
// its two bits stay. They are the lowest of their word, so a write that touches them begins there.
pub fn effective(x: u32, old: u8, v: u32) -> u32
    ensures { result ≡ effective x old v }
{
    if x == 0x1E0 {
        if (v % 4 == 1) | (v % 4 == 2) {
            return v / 4 * 4 + u32::from(old % 4);
        }
    }
    v
}

// Writes the n low bytes of v, all of which act, at x, in the bytes of x's device. b is what a write may change of the
// aligned word of x. By quotients of v, as the definition has them: `to_le_bytes` would be counted beside the place.
pub fn write(dev: &mut [u8; 256], b: Bits, x: u32, n: u32, v: u32)
    requires { x % 4 + n ≤ 4 }
    ensures { dev.new ≡ written_in b x (x % 256) n v dev.old }
{
    let mut rest = v;
    for i in 0..n {
        let at = (x % 256 + i) as usize;
        dev[at] = new_byte(b, x + i, dev[at], (rest % 256) as u8);
        rest /= 256;
    }
}

// Whether n bytes at x touch one of the two bytes at k.
pub fn is_touched(k: u32, x: u32, n: u32) -> bool
    requires { (k < 512) × (x + n ≤ 512) }
    ensures { result ≡ touches k x n }
{
    (x < k + 2) & (k < x + n)
}

// What the byte x of the two devices reads as: GMADR bit 25 reads 0 while the window is 64 MiB.
fn read_byte<'a>(dev0: &'a [u8; 256], dev1: &'a [u8; 256], x: u32) -> u8
    requires { x < 512 }
    ensures { result ≡ read_byte dev0.now dev1.now x }
{
    if x < 256 {
        return dev0[x as usize];
    }
    let b = dev1[(x - 256) as usize];
    if (x == 0x113) & (dev0[0x72] % 2 == 0) {
        return b & 0xFD;
    }
    b
}

// A read of n bytes of configuration registers.
pub fn config_read<'a>(dev0: &'a [u8; 256], dev1: &'a [u8; 256], x: u32, n: u32) -> u32
    requires { (n ≤ 4) × (x + n ≤ 512) }
    ensures { result ≡ config_read dev0.now dev1.now x n }
{
    let mut v: u32 = 0;
    for i in (0..n).rev() {
        v = u32::from(read_byte(dev0, dev1, x + i)) + 256 * v;
    }
    v
}
