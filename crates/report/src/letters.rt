// The letters of records, as they are written.
ghost use Rattle.std.specs.Prelude.{◌+◌, ◌<◌, [], ◌∷◌, Some, map};
ghost use Rattle.std.specs.Fmt.{WritesOnOk};
ghost use Rattle.report.specs.Spelled.{Known, letter_sign, letters_text};

use std::fmt;
use verdict::Record;

// Records of a slip, with letters that a chart may have: each has a sign of its own.
#[derive(Clone, Copy)]
pub struct Letters<'a> {
    pub records: &'a [Record],
    ghost known: { Known records.now },
}

impl fmt::Display for Letters<'_> {
    ghost output = { λ s. Some (letters_text s.records.now) };

    fn fmt<W: fmt::Write>(&self, f: &mut fmt::Formatter<W>) -> fmt::Result {
        if self.records.is_empty() {
            return f.write_str("-");
        }
        write_letters(f, self.records)
    }
}

fn write_letters<W: fmt::Write>(f: &mut fmt::Formatter<W>, records: &[Record]) -> fmt::Result
    requires { Known records.now }
    ensures { WritesOnOk W.write_str_gives f.old result (map letter_sign records.now) f.new }
{
    for record in records {
        write_letter(f, record.letter)?;
    }
    Ok(())
}

fn write_letter<W: fmt::Write>(f: &mut fmt::Formatter<W>, letter: u8) -> fmt::Result
    requires { letter < 16 }
    ensures { WritesOnOk W.write_str_gives f.old result ((97 + letter) ∷ []) f.new }
{
    f.write_char(char::from(b'a' + letter))
}
