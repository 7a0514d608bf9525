// Lists the classes of a sheet. Document 01: "The program lists a sheet's classes, defunct too, from standard input (at most 32,768 bytes, else `too long`)."
// What it prints is proved of `list_text::list::list`; here the sheet is read and the text is written.
#![tactic(auto)]

use input::read_full;
use list_text::list::{SHEET_LIMIT, TEXT_LENGTH, list};
use std::io;

fn main(rt: HostRuntime) -> io::Result<()> {
    // One byte more than may be listed, so that a longer sheet is told from a whole one.
    let mut sheet = [0u8; SHEET_LIMIT + 1];
    let mut text = [0u8; TEXT_LENGTH];
    let n = read_full(&mut rt.reader(), &mut sheet)?;
    let length = list(&sheet[..n], &mut text);
    rt.write_all(&text[..length])
}
