// The numbers of an icon, as an order carries it, in a cell: whether they are in their sets.
#![tactic(auto)]

ghost use Rattle.std.specs.Prelude.{◌≡◌, ◌-◌};
ghost use Rattle.wire.specs.Numbers.{num_at};
ghost use Rattle.order.specs.Icons.{parts_of};
ghost use Rattle.cache.specs.Cells.{numbers_ok, cell_ok};

fn numbers_ok(bits: u8, width: u16, height: u16, n: usize) -> bool
    ensures { result ≡ numbers_ok bits width height n }
{
    // a branch: the compiler tests the bits by one word
    if !((bits == 1) | (bits == 4) | (bits == 8) | (bits == 16) | (bits == 24) | (bits == 32)) {
        return false;
    }
    ((1 <= width) & (width <= 32)) & ((1 <= height) & (height <= 32)) & (n <= 4224)
}

// The bytes of mask, color table and color of the icon in a cell.
fn runs(cell: &[u8], bits: u8) -> usize
    requires { bits ≡ num_at 1 cell.now 3 }
    ensures { result ≡ (parts_of cell.now 0).end - (parts_of cell.now 0).mask }
{
    let a = wire::read_u16(cell, 8) as usize;
    let b = wire::read_u16(cell, 10) as usize;
    if order_icon::has_table(bits) {
        let c = wire::read_u16(cell, 12) as usize;
        return a + b + c;
    }
    a + b
}

// Whether a cell holds an icon.
pub fn picture_ok(cell: &[u8]) -> bool
    ensures { result ≡ cell_ok cell.now }
{
    let bits = wire::read_u8(cell, 3);
    let width = wire::read_u16(cell, 4);
    let height = wire::read_u16(cell, 6);
    let n = runs(cell, bits);
    numbers_ok(bits, width, height, n)
}
