// The parser on the memories that it fetches from.
ghost use Rattle.std.specs.Prelude.{◌≡◌};
ghost use Rattle.std.proofs.Props.{props};
ghost use Rattle.gmch.specs.Map.{Cached};

use gmch::{Place, Ran, Regs, Step};
use graphics::Translation;

// The translation table, with 2020h, which no step changes, and the display cache. The host's call shows its length.
#[derive(Clone, Copy)]
pub struct Parser<'t, 'm, 'd> {
    pub translation: Translation<'t, 'm>,
    pub display: &'d [u8],
    pub ghost cached: { Cached translation.map display.now } by { Prim.hlevel props },
}

impl Parser<'_, '_, '_> {
    ghost use Rattle.std.specs.Prelude.{◌%◌, ◌≤◌};
    ghost use Rattle.gmch.specs.Table.{in_memory};
    ghost use Rattle.gmch.specs.Ring.{step, run, words_left};
    ghost use Rattle.ring.specs.Fetch.{fetched, memories};

    // The word at the graphics address `o`, a multiple of 4, which is not fenced: code 8, then the table's. This and `step` are
    // always in line: of itself the compiler calls them from the loops, and a step takes 152 instructions for 52.
    #[inline(always)]
    pub fn fetch(&self, o: u32) -> Result<u32, u8>
        requires { o % 4 ≡ 0 }
        ensures { result ≡ fetched self.now (memories self.now) o }
    {
        let table = &self.translation;
        if table.map.window <= o {
            return Err(8);
        }
        match graphics::entered(table.map, o, table.entry_at(o)) {
            Ok(Place::InMain(a)) => Ok(words::load4(table.memory, a as usize)),
            Ok(Place::InCache(a)) => Ok(words::load4(self.display, a as usize)),
            Err(refusal) => Err(refusal.code),
        }
    }

    // One step from the registers `r`.
    #[inline(always)]
    pub fn step(&self, r: Regs) -> Step
        ensures { result ≡ step (fetched self.now (memories self.now)) r }
    {
        match super::begin(r) {
            Ok(Some(o)) => super::stepped(r, self.fetch(o)),
            Ok(None) => Step::Ended,
            Err(code) => Step::Failed(code),
        }
    }

    // A run with the display cache on or off and the table in either home: a loop for each, so that no step asks which it is. It
    // counts down: one number less to hold than a count and its bound.
    fn steps<const CACHE: bool, const MAIN: bool>(&self, budget: u32, r: Regs) -> Ran
        requires { (self.now.translation.map.cache ≡ CACHE) × (in_memory self.now.translation.map ≡ MAIN) }
        ensures { result ≡ (run (fetched self.now) budget 0 r (memories self.now)).ran }
    {
        let mut parser = *self;
        parser.translation.map.cache = CACHE;
        let mut regs = r;
        for left in (0..budget).rev() {
            match parser.step(regs) {
                Step::Ended => return ran(0, regs, budget - 1 - left),
                Step::Failed(code) => return ran(code, regs, budget - 1 - left),
                Step::Done(after) => regs = after,
            }
        }
        ran(0, regs, budget)
    }

    // A run of at most `budget` steps from the registers `r`, which counts those that it completes: no more than the words left.
    pub fn run(&self, budget: u32, r: Regs) -> Ran
        ensures { (result ≡ (run (fetched self.now) budget 0 r (memories self.now)).ran) × (result.count ≤ words_left r) }
    {
        let map = self.translation.map;
        // Two tests: with a match of the pair a step with the display cache takes three instructions more.
        if map.cache {
            if map.kind < 2 {
                self.steps::<true, false>(budget, r)
            } else {
                self.steps::<true, true>(budget, r)
            }
        } else if map.kind < 2 {
            self.steps::<false, false>(budget, r)
        } else {
            self.steps::<false, true>(budget, r)
        }
    }
}

// The end of a run.
fn ran(code: u8, regs: Regs, count: u32) -> Ran
    ensures { result ≡ record { code = code; regs = regs; count = count } }
{
    Ran { code, regs, count }
}
