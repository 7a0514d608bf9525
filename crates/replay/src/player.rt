// A player of scripts: the stores and the output that its steps are lent, and what each step answers and leaves there.
ghost use Rattle.std.specs.Prelude.{◌≡◌, ◌+◌, ◌-◌, ◌≤◌, ◌++◌, length, replicate};
ghost use Rattle.schema.specs.Store.{result_of};
ghost use Rattle.keeper.specs.Audit.{audit as audited};
ghost use Rattle.keeper.specs.Depth.{depth as depth_from};
ghost use Rattle.keeper.specs.Write.{written, write as written_from};
ghost use Rattle.replay.specs.Size.{longest};
ghost use Rattle.replay.specs.Steps.{said};
ghost use Rattle.replay.specs.Playing.{spare, past_bytes, first_bytes, resized, poked, held, first_stores, called, with_store, played, play_step};

use crate::step::{Call, LONGEST, Size, Step, StoreId};
use arrayvec::ArrayVec;
use keeper::audit::audit;
use keeper::depth::depth;
use keeper::load::load;
use keeper::write::write;
use keeper_change::plain::plain_change;
use keeper_change::quick::quick_change;
use schema::answer::Answer;
use schema::layout::{ATTRIBUTES_LENGTH, CLASSES_LENGTH, CLOSURE_LENGTH};

// A byte that no call has written.
const PAST: u8 = 0xA5;

// So many bytes are lent past each store's length at first.
const SPARE: usize = 16;

// What is lent of a store or of the output, at the front of a room of fixed size.
pub type Bytes = ArrayVec<u8, LONGEST>;

// Appends a byte until there are n.
fn fill_up(bytes: &mut Bytes, n: usize, byte: u8)
    requires { n ≤ longest }
    ensures { bytes.new.items ≡ bytes.old.items ++ replicate (n - length bytes.old.items) byte }
{
    // No count: the vector's own length is what grows.
    while bytes.len() < n {
        bytes.push(byte);
    }
}

// A store at first, "with its length and 16 bytes A5 past it, all else zero".
fn first(length: usize) -> Bytes
    requires { length + spare ≤ longest }
    ensures { result.items ≡ first_bytes length }
{
    let mut bytes = Bytes::new();
    fill_up(&mut bytes, length, 0);
    fill_up(&mut bytes, length + SPARE, PAST);
    bytes
}

// "cut, or lengthened by A5 bytes"
fn resize(bytes: &mut Bytes, length: Size)
    ensures { bytes.new.items ≡ resized length bytes.old.items }
{
    let n = length.bytes();
    bytes.truncate(n);
    fill_up(bytes, n, PAST);
}

// A byte is poked; past what is lent nothing is.
fn poke(bytes: &mut Bytes, offset: usize, byte: u8)
    ensures { bytes.new.items ≡ poked offset byte bytes.old.items }
{
    if let Some(place) = bytes.get_mut(offset) {
        *place = byte;
    }
}

#[derive(Drop)]
pub struct Player {
    pub attributes: Bytes,
    pub classes: Bytes,
    pub closure: Bytes,
    pub output: Bytes,
}

impl Player {
    pub fn new() -> Player
        ensures { held result ≡ first_stores }
    {
        Player {
            attributes: first(ATTRIBUTES_LENGTH),
            classes: first(CLASSES_LENGTH),
            closure: first(CLOSURE_LENGTH),
            output: Bytes::new(),
        }
    }

    // A call that is lent bytes of the script.
    fn call(&mut self, call: Call, bytes: &[u8]) -> Answer
        ensures stores { result_of result (held self.new) ≡ called call bytes.now (held self.old) }
        ensures output { self.new.output ≡ self.old.output }
    {
        let attributes = self.attributes.as_mut_slice();
        let classes = self.classes.as_mut_slice();
        let closure = self.closure.as_mut_slice();
        match call {
            Call::Load => load(bytes, attributes, classes, closure),
            Call::PlainChange => plain_change(attributes, classes, closure, bytes),
            Call::QuickChange => quick_change(attributes, classes, closure, bytes),
        }
    }

    // An audit of what is lent.
    fn audit(&self) -> Answer
        ensures { result ≡ audited (held self.now) }
    {
        audit(
            self.attributes.as_slice(),
            self.classes.as_slice(),
            self.closure.as_slice(),
        )
    }

    // The depth of a class in what is lent.
    fn depth(&self, class: u16) -> Answer
        ensures { result ≡ depth_from (held self.now) class }
    {
        depth(
            self.attributes.as_slice(),
            self.classes.as_slice(),
            self.closure.as_slice(),
            class,
        )
    }

    // "write adds the hash of the whole output lent, whose bytes start as A5"
    fn write(&mut self, length: Size) -> Answer
        ensures output { written result self.new.output.items ≡ written_from (held self.old) (past_bytes length) }
        ensures stores { held self.new ≡ held self.old }
    {
        self.output.clear();
        fill_up(&mut self.output, length.bytes(), PAST);
        write(
            self.attributes.as_slice(),
            self.classes.as_slice(),
            self.closure.as_slice(),
            self.output.as_mut_slice(),
        )
    }

    // A byte of a store is poked.
    fn poke(&mut self, store: StoreId, offset: usize, byte: u8)
        ensures stores { held self.new ≡ with_store store (poked offset byte) (held self.old) }
        ensures output { self.new.output ≡ self.old.output }
    {
        match store {
            StoreId::Attributes => poke(&mut self.attributes, offset, byte),
            StoreId::Classes => poke(&mut self.classes, offset, byte),
            StoreId::Closure => poke(&mut self.closure, offset, byte),
        }
    }

    // So much of a store is lent from then on.
    fn resize(&mut self, store: StoreId, length: Size)
        ensures stores { held self.new ≡ with_store store (resized length) (held self.old) }
        ensures output { self.new.output ≡ self.old.output }
    {
        match store {
            StoreId::Attributes => resize(&mut self.attributes, length),
            StoreId::Classes => resize(&mut self.classes, length),
            StoreId::Closure => resize(&mut self.closure, length),
        }
    }

    // Takes a step: its answer, and what it leaves in stores and output.
    pub fn take(&mut self, step: &Step<'_>) -> Answer
        ensures { played result (held self.new) self.new.output.items
            ≡ play_step (said step.now) (held self.old) self.old.output.items }
    {
        match *step {
            Step::Called { call, bytes } => self.call(call, bytes),
            Step::Audit => self.audit(),
            Step::Write { length } => self.write(length),
            Step::Depth { class } => self.depth(class),
            Step::Poke {
                store,
                offset,
                byte,
            } => {
                self.poke(store, offset, byte);
                Answer::passed()
            }
            Step::Resize { store, length } => {
                self.resize(store, length);
                Answer::passed()
            }
        }
    }
}
