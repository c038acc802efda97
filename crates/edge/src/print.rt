// Lines on a writer, and numbers on a line.
ghost use Rattle.std.specs.Prelude.{◌++◌, ◌∷◌, [], OnOk, IfSome, Some};
ghost use Rattle.std.specs.Fmt.{decimal};
ghost use Rattle.std.specs.List.{flat_map};
ghost use Rattle.std.specs.Io.KnownBytes.{Appends};

use arrayvec::ArrayVec;
use std::io::Write;
use std::{fmt, io};

/// What is said, and a line feed: handed to the writer at once where the line has at most 64 bytes, else piece by piece.
// At once, so that the lines of several programs on one pipe aren't torn; no program here prints a longer one.
pub fn line<W: Write, T: fmt::Display + Drop>(out: &mut W, said: T) -> io::Result<()>
    ensures { OnOk result (IfSome (T.output said) (λ text. Appends (W.contents out.old) (W.contents out.new) (text ++ 10 ∷ []))) }
{
    let mut text: ArrayVec<u8, 64> = ArrayVec::new();
    match writeln!(text, "{said}") {
        Ok(()) => out.write_all(text.as_slice()),
        Err(_) => writeln!(out, "{said}"),
    }
}

/// Numbers on a line, a blank before each.
#[derive(Clone, Copy, Debug)]
pub struct Fields<'a>(pub &'a [u8]);

impl fmt::Display for Fields<'_> {
    ghost output = { λ fields. Some (flat_map (λ n. 32 ∷ decimal n) fields.0.now) };

    fn fmt<W: fmt::Write>(&self, f: &mut fmt::Formatter<W>) -> fmt::Result {
        for n in self.0 {
            write!(f, " {n}")?;
        }
        Ok(())
    }
}
