// A set of classes by value: those that a walk has visited.
ghost use Rattle.std.specs.Prelude.{◌≡◌, ◌<◌};
ghost use Rattle.prelude.specs.Part.{zeros};
ghost use Rattle.sets.specs.Sets.{member, with_member};
ghost use Rattle.schema.specs.Layout.{class_set};
ghost use Rattle.schema.specs.Numbers.{class_limit};

use schema::layout::CLASS_SET;
use schema::number::ClassNumber;

#[derive(Clone, Copy)]
pub struct Visited {
    pub bits: [u8; CLASS_SET],
}

impl Visited {
    // No class visited. No Default: the name says what the set holds, and other crates call it.
    pub fn none() -> Visited
        ensures { result.bits ≡ zeros class_set }
    {
        Visited {
            bits: [0u8; CLASS_SET],
        }
    }

    // Whether c is visited.
    pub fn has(self, c: ClassNumber) -> bool
        ensures { result ≡ member self.bits c.0 }
    {
        sets::has(&self.bits, c.0)
    }

    // The same set with c visited.
    pub fn with(mut self, c: ClassNumber) -> Visited
        requires { c.0 < class_limit }
        ensures { result.bits ≡ with_member c.0 self.bits }
    {
        sets::insert(&mut self.bits, c.0);
        self
    }
}
