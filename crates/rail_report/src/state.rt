// The state, and what is visible of it.
ghost use Rattle.std.specs.Prelude.{◌≡◌};

// The parts of the store: room for 64 places in all.
pub(crate) const MANY: usize = 15 * store::PLACE;

pub(crate) const FEW: usize = 4 * store::PLACE;

// The most bytes of a line: three numbers of up to 20 digits, each with a byte after it.
pub(crate) const LINE: usize = 63;

// A part of the memory, which each call is lent whole.
#[derive(Drop)]
struct Part<'m> {
    bytes: &'m mut [u8],
}

impl<'m> Part<'m> {
    fn lend(&self) -> &[u8]
        ensures { result.now ≡ self.now.bytes.now }
    {
        self.bytes
    }

    fn lend_mut(&mut self) -> &mut [u8]
        ensures { result.now ≡ self.old.bytes.now }
    {
        self.bytes
    }
}

// The state memory and the store.
#[derive(Drop)]
pub(crate) struct State<'m> {
    index: Part<'m>,
    bodies: Part<'m>,
    journal: Part<'m>,
    a: Part<'m>,
    b: Part<'m>,
    c: Part<'m>,
    d: Part<'m>,
    e: Part<'m>,
}

// What is visible at a mark: how many windows, and how many of their pixels.
#[derive(Clone, Copy)]
pub(crate) struct Figure {
    windows: u32,
    pixels: u64,
}

// Lays the line of a mark without its end, and answers where it ends.
pub(crate) fn lay(out: &mut [u8], mark: u64, figure: Figure) -> usize {
    let at = print::decimal(out, 0, mark);
    print::pair(
        out,
        at,
        b" ",
        u64::from(figure.windows),
        b' ',
        figure.pixels,
    )
}

impl<'m> State<'m> {
    // An empty one, over memory for each part.
    pub(crate) fn new(
        index: &'m mut [u8; session::INDEX],
        bodies: &'m mut [u8; session::BODIES],
        journal: &'m mut [u8; session::JOURNAL],
        a: &'m mut [u8; MANY],
        b: &'m mut [u8; MANY],
        c: &'m mut [u8; MANY],
        d: &'m mut [u8; MANY],
        e: &'m mut [u8; FEW],
    ) -> State<'m> {
        let lent = store::places(a, b, c, d, e);
        let _ = state_calls::reset(index, bodies, lent, journal);
        State {
            index: Part { bytes: index },
            bodies: Part { bytes: bodies },
            journal: Part { bytes: journal },
            a: Part { bytes: a },
            b: Part { bytes: b },
            c: Part { bytes: c },
            d: Part { bytes: d },
            e: Part { bytes: e },
        }
    }

    // How many places are lent.
    fn places(&self) -> usize {
        let a = self.a.lend();
        let b = self.b.lend();
        let c = self.c.lend();
        let d = self.d.lend();
        let e = self.e.lend();
        store::places(a, b, c, d, e)
    }

    // Delivers an order. One that is refused is passed over, whatever its number.
    pub(crate) fn deliver(&mut self, order: &[u8]) {
        let lent = self.places();
        let _ = state_calls::deliver(
            self.index.lend(),
            self.bodies.lend(),
            lent,
            self.journal.lend_mut(),
            order,
        );
    }

    // Sets a mark.
    pub(crate) fn mark(&mut self) {
        let _ = state_calls::checkpoint(
            self.index.lend_mut(),
            self.bodies.lend_mut(),
            self.a.lend_mut(),
            self.b.lend_mut(),
            self.c.lend_mut(),
            self.d.lend_mut(),
            self.e.lend_mut(),
            self.journal.lend_mut(),
        );
    }

    // The figure at the mark.
    pub(crate) fn figure(&self) -> Figure {
        let mut figure = [0u8; visible::LENGTH];
        let lent = self.places();
        let _ = visible::at_mark(
            self.index.lend(),
            self.bodies.lend(),
            lent,
            self.journal.lend(),
            &mut figure,
        );
        let low = wire::read_u32(&figure, 4);
        let high = wire::read_u32(&figure, 8);
        Figure {
            windows: wire::read_u32(&figure, 0),
            pixels: u64::from(high) << 32 | u64::from(low),
        }
    }
}
