// A reader. Document 01: "One reader carries the lent sheet and its place."
// It holds the lent bytes and a place in them. `step_at` alone makes a reader: it has plain parameters and serves every other caller. `ends_at` and
// `field_within` are parts of what it gives.
#![tactic(auto)]

ghost use Rattle.std.specs.Prelude.{◌≡◌, ◌≤◌, eqb, get_or, length};
ghost use Rattle.wire.specs.Wire.{field_at};
ghost use Rattle.reader.specs.Reader.{past_field, step_at};

use wire::{BadField, Field, field_at, value_of};

#[derive(Clone, Copy)]
pub struct Reader<'a> {
    pub bytes: &'a [u8],
    pub at: usize,
}

// What a reader meets at its place: whether it has come to the end, the tag and the field that stand next, the place past the field, and whether the bytes
// end there. Neither test says whether another part is there: the tag may be read where no whole field stands, and each part has its law (ReaderLaws).
#[derive(Clone, Copy)]
pub struct Step {
    pub ended: bool,
    pub tag: u8,
    pub field: Result<Option<Field>, BadField>,
    pub next: usize,
    pub last: bool,
}

impl<'a> Reader<'a> {
    // Whether it has come to the end.
    fn at_end(self) -> bool
        ensures { result ≡ eqb self.entry.at (length self.entry.bytes.now) }
    {
        self.at == self.bytes.len()
    }

    // The byte that stands next: a field's tag, whether the field is whole or not. Behind the bytes it is 0.
    fn next_tag(self) -> u8
        ensures { result ≡ get_or self.entry.bytes.now self.entry.at 0 }
    {
        self.bytes.get(self.at).copied().unwrap_or(0)
    }

    // The field that stands next.
    fn next_field(self) -> Result<Option<Field>, BadField>
        requires { self.at ≤ length self.bytes.now }
        ensures { result ≡ field_at self.entry.bytes.now self.entry.at (length self.entry.bytes.now) }
    {
        field_at(self.bytes, self.at, self.bytes.len())
    }

    // The reader past that field, and where it is if no whole field stands there.
    #[tactic(auto, unfolding(crate::specs::Reader::past_field, crate::specs::Reader::past_read))]
    fn past(self) -> Reader<'a>
        requires { self.at ≤ length self.bytes.now }
        ensures { (result.bytes ≡ self.entry.bytes) × (result.at ≡ past_field self.entry.bytes.now self.entry.at) }
    {
        match self.next_field() {
            Ok(Some(field)) => Reader {
                bytes: self.bytes,
                at: field.end,
            },
            _ => self,
        }
    }
}

// What a reader at a place of the bytes meets.
pub fn step_at(s: &[u8], at: usize) -> Step
    requires { at ≤ length s.now }
    ensures { result ≡ step_at s.now at }
{
    let reader = Reader { bytes: s, at };
    let behind = reader.past();
    Step {
        ended: reader.at_end(),
        tag: reader.next_tag(),
        field: reader.next_field(),
        next: behind.at,
        last: behind.at_end(),
    }
}

// Whether a reader at a place has come to the end.
pub fn ends_at(s: &[u8], at: usize) -> bool
    requires { at ≤ length s.now }
    ensures { result ≡ eqb at (length s.now) }
{
    step_at(s, at).ended
}

// The field that a reader of the bytes up to end meets at a place.
pub fn field_within(s: &[u8], at: usize, end: usize) -> Result<Option<Field>, BadField>
    requires { (at ≤ end) × (end ≤ length s.now) }
    ensures { result ≡ field_at s.now at end }
{
    step_at(value_of(s, 0, end), at).field
}
