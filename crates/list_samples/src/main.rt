// Lists the samples of the repository, as `list` lists its standard input: a forest owners' schema, a sheet that is refused, and one that is too long; then
// the longest that is listed, one of no rows, and three that are refused: by a rule, in a table and a row whose numbers differ; by the first of three rules in
// the order of judging, which is neither the smallest number nor broken by the lowest row; and where reading stops.
#![tactic(auto)]

use input::read_full;
use list_text::list::{SHEET_LIMIT, TEXT_LENGTH, list};
use std::rt::Files;
use std::{fs, io};

// Lists the sheet in a file.
fn show(rt: &(impl Files + Print), path: &str) -> io::Result<()> {
    let mut file = fs::open(rt, path)?;
    let mut sheet = [0u8; SHEET_LIMIT + 1];
    let mut text = [0u8; TEXT_LENGTH];
    let n = read_full(&mut file, &mut sheet)?;
    let length = list(&sheet[..n], &mut text);
    rt.write_all(&text[..length])
}

fn main(rt: HostRuntime) -> io::Result<()> {
    show(&rt, "forest.sheet")?;
    show(&rt, "refused.sheet")?;
    show(&rt, "long.sheet")?;
    show(&rt, "edge.sheet")?;
    show(&rt, "none.sheet")?;
    show(&rt, "range.sheet")?;
    show(&rt, "kind.sheet")?;
    show(&rt, "unreadable.sheet")
}
