// The open lists of a class.
ghost use Rattle.std.specs.Prelude.{◌≡◌, ◌≤◌, length};
ghost use Rattle.rows_format.specs.Formats.{entry_width};
ghost use Rattle.change_rows.specs.Lists.{list_table, open_at, fixed_at, list_width, entry_read};

use change_read::carried::{OpenList, entry_of, list_of};
use schema::layout::{
    ATTRIBUTE_SET, CLASS_SET, FIXED_AUXILIARY, FIXED_OPTIONAL, FIXED_SUPERIOR, OPEN_AUXILIARY,
    OPEN_OPTIONAL, OPEN_SUPERIOR,
};
use schema::number::{RowId, TableId, number_read};

// The table whose rows a list names.
pub fn list_table(list: OpenList) -> TableId
    ensures { result ≡ list_table list }
{
    match list {
        OpenList::Optional => TableId::Attributes,
        OpenList::Auxiliary | OpenList::Superior => TableId::Classes,
    }
}

// Where it stands in a class row.
pub fn open_at(list: OpenList) -> usize
    ensures { result ≡ open_at list }
{
    match list {
        OpenList::Optional => OPEN_OPTIONAL,
        OpenList::Auxiliary => OPEN_AUXILIARY,
        OpenList::Superior => OPEN_SUPERIOR,
    }
}

// Where the fixed list of the same kind stands. One function of both places would be as long, and ask one argument more.
pub fn fixed_at(list: OpenList) -> usize
    ensures { result ≡ fixed_at list }
{
    match list {
        OpenList::Optional => FIXED_OPTIONAL,
        OpenList::Auxiliary => FIXED_AUXILIARY,
        OpenList::Superior => FIXED_SUPERIOR,
    }
}

// How wide both are.
pub fn list_width(list: OpenList) -> usize
    ensures { result ≡ list_width list }
{
    match list {
        OpenList::Optional => ATTRIBUTE_SET,
        OpenList::Auxiliary | OpenList::Superior => CLASS_SET,
    }
}

// The entry that a list change names, as a row of the list's table, there or not.
pub fn entry_read(scratch: &[u8]) -> Option<RowId>
    requires { entry_width ≤ length scratch.now }
    ensures { result ≡ entry_read scratch.now }
{
    number_read(list_table(list_of(scratch)), entry_of(scratch) as usize)
}
