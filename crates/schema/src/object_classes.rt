// The right values of oMObjectClass, by syntax: what is stored where a row has none, and what a row may have.
ghost use Rattle.std.specs.Prelude.{◌≡◌};
ghost use Rattle.schema.specs.ObjectClasses.{first_object_class, object_class_fits};

use prelude::part::same;

// A syntax, and a right value of it.
const OBJECT_CLASSES: [(u8, &[u8]); 6] = [
    (1, b"\x2B\x0C\x02\x87\x73\x1C\x00\x85\x4A"),
    (7, b"\x56\x06\x01\x02\x05\x0B\x1D"),
    (7, b"\x2A\x86\x48\x86\xF7\x14\x01\x01\x01\x0B"),
    (13, b"\x2B\x0C\x02\x87\x73\x1C\x00\x85\x5C"),
    (14, b"\x2B\x0C\x02\x87\x73\x1C\x00\x85\x3E"),
    (14, b"\x2A\x86\x48\x86\xF7\x14\x01\x01\x01\x0C"),
];

// Whether a value is a right one of a syntax.
pub fn object_class_fits(syntax: u8, value: &[u8]) -> bool
    ensures { result ≡ object_class_fits syntax value.now }
{
    OBJECT_CLASSES
        .iter()
        .any(|(s, right)| *s == syntax && same(value, right))
}

// The first right value of a syntax, or no bytes where it has none.
pub fn first_object_class(syntax: u8) -> &'static [u8]
    ensures { result.now ≡ first_object_class syntax }
{
    match OBJECT_CLASSES.iter().find(|(s, _)| *s == syntax) {
        Some((_, first)) => first,
        None => b"",
    }
}
