// Why a call refuses, by name, with the numbers that it gives back. Document 01, "Numbers given back" and "Schema rules", and document 02.
// specs/Refusals.antt and include/keeper.h have the same names, each in its spelling.
ghost use Rattle.std.specs.Prelude.{◌≡◌};
ghost use Rattle.schema.specs.Refused.{refusal_number};

// The number of a call that was not refused.
pub const DONE: u8 = 0;

#[derive(Clone, Copy, Debug, PartialEq, Eq)]
pub enum Refusal {
    // What is wrong with the stores or the bytes lent.
    ShortStore = 1,
    BrokenShape = 2,
    NotInOrder = 3,
    Unreadable = 4,

    // What is wrong with the row that is asked for.
    NoSuchRow = 5,
    NoFreeRow = 6,
    WrongState = 7,
    BaseRow = 8,
    AddedBaseRow = 9,
    EntryConflict = 10,
    StillNeeded = 11,

    // The schema rules. 22 was a chain of superclasses that does not end. Where 18 is met each does; the number is not used again.
    NameInvalid = 12,
    NameTaken = 13,
    IdentifierInvalid = 14,
    IdentifierTaken = 15,
    GuidTaken = 16,
    AttributeNotLive = 17,
    ClassNotLive = 18,
    NotAnAuxiliary = 19,
    NotASuperior = 20,
    RootNotAbstract = 21,
    NamingUnfit = 23,
    MapiTaken = 24,
    RangeCrossed = 25,
    SyntaxMisfit = 26,
    ObjectClassWrong = 27,
    LinkTaken = 28,
    LinkAlone = 29,

    // What a change may not do to a class, and what a write needs.
    MandatoryDiffers = 30,
    ShortOutput = 31,

    // Schema rules of document 02. Where they stand in the order of judging, specs/Order.antt says.
    AbstractUnderOther = 38,
    AuxiliaryUnderStructural = 39,
    StructuralUnderAuxiliary = 40,
    LinkSyntaxUnfit = 45,
}

impl Refusal {
    // The papers' number.
    // No From for u8: a contract stands on this function directly, and From would say no more.
    pub fn number(self) -> u8
        ensures { result ≡ refusal_number self }
    {
        self as u8
    }
}
