// The translation table in either home, with what a lookup goes by.
ghost use Rattle.std.proofs.Props.{props};
ghost use Rattle.gmch.specs.Map.{Sized};

use gmch::{Entries, Map, Place, Refusal};

// The map, 2020h, the private table and main memory. The host's call shows the lengths.
#[derive(Clone, Copy)]
pub struct Translation<'t, 'm> {
    pub map: Map,
    pub control: u32,
    pub table: &'t Entries,
    pub memory: &'m [u8],
    pub ghost sized: { Sized map table.now memory.now } by { Prim.hlevel props },
}

impl Translation<'_, '_> {
    ghost use Rattle.std.specs.Prelude.{◌≡◌, ◌<◌};
    ghost use Rattle.gmch.specs.Table.{entry_at, window_reach};
    ghost use Rattle.graphics.specs.Lookup.{look};

    // Entry `i` of the table, from its home. The caller shows that there is such an entry.
    fn lookup(&self, i: u32) -> Result<u32, u8>
        requires { i < 16384 }
        ensures { result ≡ look self.now i }
    {
        if self.map.kind < 2 {
            return Ok(self.table[i as usize]);
        }
        let p = super::main_word(self.map, self.control, i)?;
        Ok(words::load4(self.memory, p as usize))
    }

    // The entry of the graphics address `o`: code 3, then the lookup's. The caller shows that there is an entry. This and `entered`
    // are a translation; one function of both would be too big for the compiler to put into its two places.
    pub fn entry_at(&self, o: u32) -> Result<u32, u8>
        requires { o < 0x4000000 }
        ensures { result ≡ entry_at self.now.control (look self.now) o }
    {
        if self.control % 2 == 0 {
            return Err(3);
        }
        self.lookup(o / 4096)
    }

    // Where a processor access at the window's offset `o` lies. Routing shows that the offset is in the window.
    pub fn window(&self, fences: [u32; 8], o: u32) -> Result<Place, Refusal>
        requires { o < 0x4000000 }
        ensures { result ≡ window_reach self.now.map fences self.now.control (look self.now) o }
    {
        let v = super::fence(fences, o)?;
        super::entered(self.map, v, self.entry_at(v))
    }
}
