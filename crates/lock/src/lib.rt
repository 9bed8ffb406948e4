// Code 16: what a write may not store in the translation table while SMRAM is locked.
#![tactic(auto)]

ghost use Rattle.std.specs.Prelude.{◌≡◌};
ghost use Rattle.gmch.specs.Access.{barred};

use gmch::Map;

// With the lock set, a write of `v` may not store its entry.
pub fn barred(m: Map, v: u32) -> bool
    ensures { result ≡ barred m v }
{
    if m.smram / 2 % 2 == 0 {
        return false;
    }
    graphics::forbidden(m, mapped::stored(v))
}
