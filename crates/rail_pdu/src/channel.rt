// The memory that calls on chunks are lent.
ghost use Rattle.std.specs.Prelude.{◌≡◌, ◌-◌, length, take};

use script::Stop;

#[derive(Drop)]
pub(crate) struct ChunkMemory<'m> {
    bytes: &'m mut [u8],
    // How many bytes the next call lacks.
    missing: usize,
}

impl<'m> ChunkMemory<'m> {
    // An empty one.
    pub(crate) fn new(bytes: &'m mut [u8; chunk::MEMORY]) -> ChunkMemory<'m> {
        // It is long enough.
        let _ = chunk_join::reset(bytes);
        ChunkMemory { bytes, missing: 0 }
    }

    // The next call lacks so many bytes.
    pub(crate) fn shorten(&mut self, missing: usize) {
        self.missing = missing;
    }

    // Changes a byte by exclusive or, lent or not. Bad where there is none.
    pub(crate) fn change(&mut self, at: usize, by: u8) -> Result<(), Stop> {
        let byte = self.bytes.get_mut(at).ok_or(Stop::BadItem)?;
        *byte ^= by;
        Ok(())
    }

    // What a call is lent; the one after it is lent the whole again.
    pub(crate) fn lend(&mut self) -> &mut [u8]
        ensures { result.now ≡ take (length self.old.bytes.now - self.old.missing) self.old.bytes.now }
    {
        let len = self.bytes.len().saturating_sub(self.missing);
        self.missing = 0;
        &mut self.bytes[..len]
    }
}
