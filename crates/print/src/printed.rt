// Some of the texts as types whose Display prints them to any writer, with no memory lent.
ghost use Rattle.std.specs.Prelude.{◌≡◌, Some, ◌/◌, length, take};
ghost use Rattle.wire.specs.Parts.{slice};
ghost use Rattle.print.specs.Texts.{hex_text, parting_text, rectangle_text, rectangles_text};

use std::fmt;

// Bytes in hex.
#[derive(Clone, Copy)]
pub struct Hex<'a>(pub &'a [u8]);

impl<'a> Hex<'a> {
    // The len bytes of s from index from on, as many of them as there are.
    #[tactic(auto, using(crate::proofs::Steps::part_lent))]
    pub fn part(s: &'a [u8], from: usize, len: usize) -> Hex<'a>
        ensures { result.0.now ≡ slice s.now from len }
    {
        let start = from.min(s.len());
        let end = start + len.min(s.len() - start);
        Hex(&s[start..end])
    }
}

impl fmt::Display for Hex<'_> {
    ghost output = { λ x. Some (hex_text x.0.now) };

    #[tactic(auto, using(crate::proofs::Steps::hex_none))]
    fn fmt<W: fmt::Write>(&self, f: &mut fmt::Formatter<W>) -> fmt::Result {
        for &b in self.0 {
            write!(f, "{b:02x}")?;
        }
        Ok(())
    }
}

// What parts item i of a list from the one before it: nothing stands before the first.
#[derive(Clone, Copy)]
pub struct Parting(pub char, pub usize);

impl fmt::Display for Parting {
    ghost output = { λ p. Some (parting_text p.0 p.1) };

    fn fmt<W: fmt::Write>(&self, f: &mut fmt::Formatter<W>) -> fmt::Result {
        if self.1 == 0 {
            return Ok(());
        }
        f.write_char(self.0)
    }
}

// The sides of one rectangle.
#[derive(Clone, Copy)]
struct Rectangle {
    left: u16,
    top: u16,
    right: u16,
    bottom: u16,
}

impl fmt::Display for Rectangle {
    ghost output = { λ r. Some (rectangle_text r.left r.top r.right r.bottom) };

    #[tactic(auto, unfolding(crate::specs::Texts::rectangle_text))]
    fn fmt<W: fmt::Write>(&self, f: &mut fmt::Formatter<W>) -> fmt::Result {
        write!(
            f,
            "{},{},{},{}",
            self.left, self.top, self.right, self.bottom
        )
    }
}

// Rectangles, four numbers each.
#[derive(Clone, Copy)]
pub struct Rectangles<'a>(pub &'a [u16]);

impl<'a> Rectangles<'a> {
    // Those of the first n of the numbers, as many of them as there are.
    #[tactic(auto, using(crate::proofs::Steps::first_lent))]
    pub fn first(sides: &'a [u16], n: usize) -> Rectangles<'a>
        ensures { result.0.now ≡ take n sides.now }
    {
        Rectangles(&sides[..n.min(sides.len())])
    }
}

impl fmt::Display for Rectangles<'_> {
    ghost output = { λ r. Some (rectangles_text r.0.now (length r.0.now / 4)) };

    #[tactic(auto, using(crate::proofs::Steps::rectangles_none, crate::proofs::Steps::rectangles_more))]
    fn fmt<W: fmt::Write>(&self, f: &mut fmt::Formatter<W>) -> fmt::Result {
        let sides = self.0;
        for i in 0..sides.len() / 4 {
            let rectangle = Rectangle {
                left: sides[4 * i],
                top: sides[4 * i + 1],
                right: sides[4 * i + 2],
                bottom: sides[4 * i + 3],
            };
            write!(f, "{}{rectangle}", Parting(';', i))?;
        }
        Ok(())
    }
}

#[cfg(test)]
mod tests {
    use super::*;
    use std::io::Write;
    use std::test::Fail;

    // A failure where another text is printed than wanted.
    fn prints<D: fmt::Display + Drop>(printed: D, want: &str) -> Result<(), Fail> {
        let mut memory = [b'.'; 32];
        write!(memory.as_mut_slice(), "{printed}")?;
        let text = std::str::from_utf8(&memory)?.trim_end_matches('.');
        if text == want {
            return Ok(());
        }
        Err(Fail::new(format_args!("{text} in place of {want}")))
    }

    #[test]
    fn parts_in_hex() -> Result<(), Fail> {
        let bytes = [0x00, 0x1f, 0xa0, 0xff];
        prints(Hex(&bytes), "001fa0ff")?;
        prints(Hex::part(&bytes, 0, 4), "001fa0ff")?;
        prints(Hex::part(&bytes, 1, 2), "1fa0")?;
        prints(Hex::part(&bytes, 2, 9), "a0ff")?;
        prints(Hex::part(&bytes, 4, 1), "")?;
        prints(Hex::part(&bytes, 9, 9), "")
    }

    #[test]
    fn first_rectangles() -> Result<(), Fail> {
        let sides = [1, 2, 30, 40, 5, 6, 70, 65535, 9];
        prints(Rectangles(&sides), "1,2,30,40;5,6,70,65535")?;
        prints(Rectangles::first(&sides, 0), "")?;
        prints(Rectangles::first(&sides, 3), "")?;
        prints(Rectangles::first(&sides, 7), "1,2,30,40")?;
        prints(Rectangles::first(&sides, 8), "1,2,30,40;5,6,70,65535")?;
        prints(Rectangles::first(&sides, 99), "1,2,30,40;5,6,70,65535")
    }

    #[test]
    fn partings() -> Result<(), Fail> {
        prints(Parting(',', 0), "")?;
        prints(Parting(',', 1), ",")?;
        prints(Parting('é', 2), "é")
    }
}
