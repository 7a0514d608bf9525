// Write: the stores as a sheet.
ghost use Rattle.std.specs.Prelude.{◌≡◌};
ghost use Rattle.schema.specs.Store.{stores};
ghost use Rattle.keeper.specs.Write.{written, write};

use crate::check::check_shape;
use schema::answer::Answer;
use sheet_write::{sheet_length, write_sheet};

// Writes the sheet of the stores to the front of out: 0 with its length, 31 with the length needed where out is too short.
pub fn write(attributes: &[u8], classes: &[u8], closure: &[u8], out: &mut [u8]) -> Answer
    ensures { written result out.new ≡ write (stores attributes.now classes.now closure.now)
        out.old }
{
    if let Err(refusal) = check_shape(attributes, classes, closure) {
        return Answer::refused(refusal.number());
    }
    let needed = sheet_length(attributes, classes);
    if out.len() < needed {
        return Answer::short_output(needed);
    }
    write_sheet(attributes, classes, out);
    Answer::done(needed)
}
