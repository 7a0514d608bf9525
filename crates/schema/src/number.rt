// Class numbers and attribute numbers. Document 01: "Class numbers and attribute numbers both count from 0, and installers confuse them." Each has
// a type of its own, so that a class row cannot be looked up by an attribute's number. What serves both tables takes a number that says which table
// it is of.
// Two types, none over a const limit: definitions and laws name each, and a Number<128> would say less.
// No invariant below the limit: what a class reaches is stated and proved for every number, also one beyond it.
// Functions of TableId and RowId, no methods: they are public and have the names of the definitions, by which docs/DECISIONS.md 74 speaks of rows.
ghost use Rattle.std.specs.Prelude.{◌≡◌, ◌+◌, ◌<◌, ◌≤◌, ltb};
ghost use Rattle.schema.specs.Numbers.{class_limit, attribute_limit, limit, class_read, attribute_read, number_read};
ghost use Rattle.schema.specs.Numbers.{place_id, row_id, table_of, number_of, same_table, same_row};

#[derive(Clone, Copy, PartialEq, Eq)]
pub struct ClassNumber(pub usize);

#[derive(Clone, Copy, PartialEq, Eq)]
pub struct AttributeNumber(pub usize);

// The two tables.
#[derive(Clone, Copy, PartialEq, Eq)]
pub enum TableId {
    Attributes,
    Classes,
}

// A row of either table.
#[derive(Clone, Copy, PartialEq, Eq)]
pub enum RowId {
    Attribute(AttributeNumber),
    Class(ClassNumber),
}

impl ClassNumber {
    // "at most 128 classes"
    pub const LIMIT: usize = 128;

    // The class that a number from outside stands for, below the limit.
    pub fn new(n: usize) -> Option<ClassNumber>
        ensures { result ≡ class_read n }
    {
        if n < ClassNumber::LIMIT {
            Some(ClassNumber(n))
        } else {
            None
        }
    }
}

impl AttributeNumber {
    // "and 256 attributes"
    pub const LIMIT: usize = 256;

    // The attribute that a number from outside stands for, below the limit.
    pub fn new(n: usize) -> Option<AttributeNumber>
        ensures { result ≡ attribute_read n }
    {
        if n < AttributeNumber::LIMIT {
            Some(AttributeNumber(n))
        } else {
            None
        }
    }
}

// How many rows a table can hold.
pub fn row_limit(table: TableId) -> usize
    ensures { result ≡ limit table }
{
    match table {
        TableId::Attributes => AttributeNumber::LIMIT,
        TableId::Classes => ClassNumber::LIMIT,
    }
}

// A number from outside as a row of a table, there or not.
pub fn number_read(table: TableId, n: usize) -> Option<RowId>
    ensures { result ≡ number_read table n }
{
    match table {
        TableId::Attributes => AttributeNumber::new(n).map(RowId::Attribute),
        TableId::Classes => ClassNumber::new(n).map(RowId::Class),
    }
}

// Whether a number from outside is one that a row of a table can have.
pub fn is_number(table: TableId, n: usize) -> bool
    ensures { result ≡ ltb n (limit table) }
{
    number_read(table, n).is_some()
}

// The number k of a class, and of an attribute, where something has checked k. What comes from outside passes through `new`.
pub fn class_at(k: usize) -> ClassNumber
    requires { k < class_limit }
    ensures { result.0 ≡ k }
{
    ClassNumber(k)
}

pub fn attribute_at(k: usize) -> AttributeNumber
    requires { k < attribute_limit }
    ensures { result.0 ≡ k }
{
    AttributeNumber(k)
}

// Row k of a table, where something has checked k. What comes from outside passes through `number_read`.
pub fn row_id(table: TableId, k: usize) -> RowId
    requires { k < limit table }
    ensures { result ≡ row_id table k }
{
    match table {
        TableId::Attributes => RowId::Attribute(AttributeNumber(k)),
        TableId::Classes => RowId::Class(ClassNumber(k)),
    }
}

// Place p of the rows of both tables, the attributes first.
pub fn place_id(attributes: usize, p: usize) -> RowId
    requires { (attributes ≤ attribute_limit) × (p < attributes + class_limit) }
    ensures { result ≡ place_id attributes p }
{
    if p < attributes {
        return row_id(TableId::Attributes, p);
    }
    row_id(TableId::Classes, p - attributes)
}

// The table of a row, and its number there.
pub fn table_of(id: RowId) -> TableId
    ensures { result ≡ table_of id }
{
    match id {
        RowId::Attribute(_) => TableId::Attributes,
        RowId::Class(_) => TableId::Classes,
    }
}

pub fn number_of(id: RowId) -> usize
    ensures { result ≡ number_of id }
{
    match id {
        RowId::Attribute(a) => a.0,
        RowId::Class(c) => c.0,
    }
}

// Whether two tables are one. This and same_row stay beside `==`: public functions, whose contracts name the definitions that laws speak of.
pub fn same_table(a: TableId, b: TableId) -> bool
    ensures { result ≡ same_table a b }
{
    a == b
}

// Whether two rows are one.
pub fn same_row(a: RowId, b: RowId) -> bool
    ensures { result ≡ same_row (table_of a) (number_of a) (table_of b) (number_of b) }
{
    a == b
}
