// The memory of a run: the state memory in three parts and the store in five, and the calls on what of it is lent.
ghost use Rattle.std.specs.Prelude.{◌≡◌, ◌-◌, min, length, take};

use script::Stop;
use session::{LookupTarget, Reply};
use update::Report;

// The room of a part of the store.
pub(crate) const ROOM: usize = 65536;

// At first four parts of the store are lent with 15 places and one with 4.
const MANY: usize = 15 * store::PLACE;

const FEW: usize = 4 * store::PLACE;

// A part of the memory.
#[derive(Drop)]
struct Part<'m> {
    bytes: &'m mut [u8],
    // How many of them are lent.
    lent: usize,
    // How many bytes fewer the next call is lent.
    missing: usize,
}

impl<'m> Part<'m> {
    fn new(bytes: &'m mut [u8], lent: usize) -> Part<'m>
        ensures { (result.bytes.now ≡ bytes.old) × (result.lent ≡ lent) × (result.missing ≡ 0) }
    {
        Part {
            bytes,
            lent,
            missing: 0,
        }
    }

    // What the next call is lent. One that has fewer bytes than are missing is lent empty.
    fn lend(&self) -> &[u8]
        ensures { result.now ≡ take (min (self.now.lent - self.now.missing) (length self.now.bytes.now)) self.now.bytes.now }
    {
        let len = self.lent.saturating_sub(self.missing).min(self.bytes.len());
        &self.bytes[..len]
    }

    fn lend_mut(&mut self) -> &mut [u8]
        ensures { result.now ≡ take (min (self.old.lent - self.old.missing) (length self.old.bytes.now)) self.old.bytes.now }
    {
        let len = self.lent.saturating_sub(self.missing).min(self.bytes.len());
        &mut self.bytes[..len]
    }

    // What is lent where nothing is missing.
    fn whole(&self) -> &[u8]
        ensures { result.now ≡ take (min self.now.lent (length self.now.bytes.now)) self.now.bytes.now }
    {
        let len = self.lent.min(self.bytes.len());
        &self.bytes[..len]
    }
}

#[derive(Drop)]
pub(crate) struct State<'m> {
    index: Part<'m>,
    bodies: Part<'m>,
    journal: Part<'m>,
    a: Part<'m>,
    b: Part<'m>,
    c: Part<'m>,
    d: Part<'m>,
    e: Part<'m>,
}

impl<'m> State<'m> {
    // An empty one, over memory for each part.
    pub(crate) fn new(
        index: &'m mut [u8; session::INDEX],
        bodies: &'m mut [u8; session::BODIES],
        journal: &'m mut [u8; session::JOURNAL],
        a: &'m mut [u8; ROOM],
        b: &'m mut [u8; ROOM],
        c: &'m mut [u8; ROOM],
        d: &'m mut [u8; ROOM],
        e: &'m mut [u8; ROOM],
    ) -> State<'m> {
        let mut state = State {
            index: Part::new(index, session::INDEX),
            bodies: Part::new(bodies, session::BODIES),
            journal: Part::new(journal, session::JOURNAL),
            a: Part::new(a, MANY),
            b: Part::new(b, MANY),
            c: Part::new(c, MANY),
            d: Part::new(d, MANY),
            e: Part::new(e, FEW),
        };
        state.reset();
        state
    }

    // A part by its number: those of the state memory, then those of the store. Bad where there is none.
    fn part(&mut self, number: u8) -> Result<&mut Part<'m>, Stop> {
        match number {
            0 => Ok(&mut self.index),
            1 => Ok(&mut self.bodies),
            2 => Ok(&mut self.journal),
            3 => Ok(&mut self.a),
            4 => Ok(&mut self.b),
            5 => Ok(&mut self.c),
            6 => Ok(&mut self.d),
            7 => Ok(&mut self.e),
            _ => Err(Stop::BadItem),
        }
    }

    // The whole is lent again.
    fn lend_whole(&mut self) {
        self.index.missing = 0;
        self.bodies.missing = 0;
        self.journal.missing = 0;
        self.a.missing = 0;
        self.b.missing = 0;
        self.c.missing = 0;
        self.d.missing = 0;
        self.e.missing = 0;
    }

    // The next call lacks so many bytes of a part, and no others. Bad where there is no such part, or no byte missing.
    pub(crate) fn shorten(&mut self, number: u8, missing: usize) -> Result<(), Stop> {
        self.lend_whole();
        if missing == 0 {
            return Err(Stop::BadItem);
        }
        let part = self.part(number)?;
        part.missing = missing;
        Ok(())
    }

    // Changes a byte of a part, lent or not, by exclusive or. Bad where there is none.
    pub(crate) fn change(&mut self, number: u8, at: usize, by: u8) -> Result<(), Stop> {
        let part = self.part(number)?;
        let byte = part.bytes.get_mut(at).ok_or(Stop::BadItem)?;
        *byte ^= by;
        Ok(())
    }

    // Lends the parts of the store with these lengths; the next call lacks what it lacked.
    pub(crate) fn set_lengths(&mut self, lengths: [u32; 5]) {
        let [a, b, c, d, e] = lengths;
        self.a.lent = a as usize;
        self.b.lent = b as usize;
        self.c.lent = c as usize;
        self.d.lent = d as usize;
        self.e.lent = e as usize;
    }

    // How many places are lent.
    fn places(&self) -> usize {
        let a = self.a.lend();
        let b = self.b.lend();
        let c = self.c.lend();
        let d = self.d.lend();
        let e = self.e.lend();
        store::places(a, b, c, d, e)
    }

    pub(crate) fn reset(&mut self) -> Reply {
        let lent = self.places();
        let reply = state_calls::reset(
            self.index.lend_mut(),
            self.bodies.lend_mut(),
            lent,
            self.journal.lend_mut(),
        );
        self.lend_whole();
        reply
    }

    pub(crate) fn mark(&mut self) -> Reply {
        let reply = state_calls::checkpoint(
            self.index.lend_mut(),
            self.bodies.lend_mut(),
            self.a.lend_mut(),
            self.b.lend_mut(),
            self.c.lend_mut(),
            self.d.lend_mut(),
            self.e.lend_mut(),
            self.journal.lend_mut(),
        );
        self.lend_whole();
        reply
    }

    pub(crate) fn deliver(&mut self, order: &[u8]) -> Reply {
        let lent = self.places();
        let reply = state_calls::deliver(
            self.index.lend(),
            self.bodies.lend(),
            lent,
            self.journal.lend_mut(),
            order,
        );
        self.lend_whole();
        reply
    }

    pub(crate) fn undo(&mut self, steps: u32) -> Reply {
        let lent = self.places();
        let reply = state_calls::undo(
            self.index.lend(),
            self.bodies.lend(),
            lent,
            self.journal.lend_mut(),
            u64::from(steps),
        );
        self.lend_whole();
        reply
    }

    pub(crate) fn update(&mut self, limit: u32, orders: &[u8]) -> Report {
        let lent = self.places();
        let report = update_call::update(
            self.index.lend(),
            self.bodies.lend(),
            lent,
            self.journal.lend_mut(),
            limit,
            orders,
        );
        self.lend_whole();
        report
    }

    // The session record, written to out.
    pub(crate) fn write_record(&mut self, out: &mut [u8]) -> Reply {
        let lent = self.places();
        let reply = state_calls::records::write(
            self.index.lend(),
            self.bodies.lend(),
            lent,
            self.journal.lend(),
            out,
        );
        self.lend_whole();
        reply
    }

    // A lookup on what is lent, which stays so.
    fn look_lacking(&self, target: LookupTarget, found: &mut [u8]) -> Reply {
        lookups::look(
            self.index.lend(),
            self.bodies.lend(),
            self.a.lend(),
            self.b.lend(),
            self.c.lend(),
            self.d.lend(),
            self.e.lend(),
            self.journal.lend(),
            target,
            found,
        )
    }

    pub(crate) fn look(&mut self, target: LookupTarget, found: &mut [u8]) -> Reply {
        let reply = self.look_lacking(target, found);
        self.lend_whole();
        reply
    }

    // The two lists of ids, as one call: both lookups lack what it lacks.
    pub(crate) fn list(&mut self, windows: &mut [u8], icons: &mut [u8]) -> Reply {
        let reply = self.look_lacking(LookupTarget::Windows, windows);
        let _ = self.look_lacking(LookupTarget::Notifications, icons);
        self.lend_whole();
        reply
    }

    // The parts of the state memory, with nothing missing.
    pub(crate) fn memory(&self) -> [&[u8]; 3] {
        [
            self.index.whole(),
            self.bodies.whole(),
            self.journal.whole(),
        ]
    }

    // Those of the store.
    pub(crate) fn store(&self) -> [&[u8]; 5] {
        [
            self.a.whole(),
            self.b.whole(),
            self.c.whole(),
            self.d.whole(),
            self.e.whole(),
        ]
    }
}
