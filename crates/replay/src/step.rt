// The steps of a script. Each begins with its code; "numbers most significant byte first".
ghost use Rattle.std.specs.Prelude.{◌≡◌, ◌<◌, ◌≤◌, length, IfSome};
ghost use Rattle.replay.specs.Size.{longest, size_of};
ghost use Rattle.replay.specs.Steps.{store_id, seen, called_in, write_in, depth_in, poke_in, resize_in, step_in};

use prelude::number::{read_u16, read_u32};
use std::fmt;
use std::marker::Model;

// A call that is lent bytes of the script, and may write the stores.
#[derive(Clone, Copy)]
pub enum Call {
    Load,
    PlainChange,
    QuickChange,
}

// One of the three stores.
#[derive(Clone, Copy)]
pub enum StoreId {
    Attributes,
    Classes,
    Closure,
}

// No output and no store is longer; the format allows 1 MiB, but here there is no heap.
pub const LONGEST: usize = 65536;

// So many bytes, as many as a store or the output can have.
#[derive(Clone, Copy)]
pub struct Size(usize);

impl Model for Size {
    ghost use Rattle.std.specs.Prelude.{ℕ, ◌≤◌};
    ghost use Rattle.replay.specs.Size.{longest};

    ghost Value = { ℕ };

    ghost view = { λ s. s.0 };

    ghost invariant = { λ s. s.0 ≤ longest };

    ghost inverse = { λ n. record { 0 = n } };
}

// One step.
#[derive(Clone, Copy)]
pub enum Step<'a> {
    // Such a call, with its sheet or change.
    Called {
        call: Call,
        bytes: &'a [u8],
    },
    Audit,
    // The length of the output lent.
    Write {
        length: Size,
    },
    Depth {
        class: u16,
    },
    Poke {
        store: StoreId,
        offset: usize,
        byte: u8,
    },
    Resize {
        store: StoreId,
        length: Size,
    },
}

const LOAD: u8 = 0x01;

const PLAIN_CHANGE: u8 = 0x02;

const QUICK_CHANGE: u8 = 0x03;

const AUDIT: u8 = 0x04;

const WRITE: u8 = 0x05;

const DEPTH: u8 = 0x06;

const POKE: u8 = 0x07;

const RESIZE: u8 = 0x08;

impl StoreId {
    // "u8 store 0..2"
    fn new(byte: u8) -> Option<StoreId>
        ensures { result ≡ store_id byte }
    {
        match byte {
            0 => Some(StoreId::Attributes),
            1 => Some(StoreId::Classes),
            2 => Some(StoreId::Closure),
            _ => None,
        }
    }
}

impl Size {
    // The size, unless it is past the longest.
    fn new(bytes: u32) -> Option<Size>
        ensures { result ≡ size_of bytes }
    {
        let bytes = bytes as usize;
        if bytes > LONGEST {
            return None;
        }
        Some(Size(bytes))
    }

    pub fn bytes(self) -> usize
        ensures value { result ≡ self }
        ensures bound { result ≤ longest }
    {
        self.0
    }
}

// The name of a step in its line.
impl fmt::Display for Step<'_> {
    fn fmt<W: fmt::Write>(&self, f: &mut fmt::Formatter<W>) -> fmt::Result {
        f.write_str(match self {
            Step::Called {
                call: Call::Load,
                ..
            } => "load",
            Step::Called {
                call: Call::PlainChange,
                ..
            } => "plain",
            Step::Called {
                call: Call::QuickChange,
                ..
            } => "quick",
            Step::Audit => "audit",
            Step::Write { .. } => "write",
            Step::Depth { .. } => "depth",
            Step::Poke { .. } => "poke",
            Step::Resize { .. } => "resize",
        })
    }
}

// Each of the following reads a step behind its code, and gives the script behind the step too.

// "01 load (u32 length, sheet), 02 plain change (u32 length, change), 03 quick change (the same)"
fn read_called(call: Call, s: &[u8]) -> Option<(Step<'_>, &[u8])>
    ensures step { seen result ≡ called_in call s.now }
    ensures rest { IfSome result (λ r. length r.1.now ≤ length s.now) }
{
    let (_, behind) = s.split_at_checked(4)?;
    let (bytes, rest) = behind.split_at_checked(read_u32(s, 0) as usize)?;
    Some((Step::Called { call, bytes }, rest))
}

// "05 write (u32 length of the output lent ..)"
fn read_write(s: &[u8]) -> Option<(Step<'_>, &[u8])>
    ensures step { seen result ≡ write_in s.now }
    ensures rest { IfSome result (λ r. length r.1.now ≤ length s.now) }
{
    let (_, rest) = s.split_at_checked(4)?;
    let length = Size::new(read_u32(s, 0))?;
    Some((Step::Write { length }, rest))
}

// "06 depth (u16)"
fn read_depth(s: &[u8]) -> Option<(Step<'_>, &[u8])>
    ensures step { seen result ≡ depth_in s.now }
    ensures rest { IfSome result (λ r. length r.1.now ≤ length s.now) }
{
    let (_, rest) = s.split_at_checked(2)?;
    let class = read_u16(s, 0);
    Some((Step::Depth { class }, rest))
}

// "07 poke (u8 store 0..2, u32 offset, u8 byte)"
fn read_poke(s: &[u8]) -> Option<(Step<'_>, &[u8])>
    ensures step { seen result ≡ poke_in s.now }
    ensures rest { IfSome result (λ r. length r.1.now ≤ length s.now) }
{
    let (_, rest) = s.split_at_checked(6)?;
    let store = StoreId::new(s[0])?;
    let offset = read_u32(s, 1) as usize;
    let byte = s[5];
    Some((
        Step::Poke {
            store,
            offset,
            byte,
        },
        rest,
    ))
}

// "08 resize (u8 store, u32 length; ..)"
fn read_resize(s: &[u8]) -> Option<(Step<'_>, &[u8])>
    ensures step { seen result ≡ resize_in s.now }
    ensures rest { IfSome result (λ r. length r.1.now ≤ length s.now) }
{
    let (_, rest) = s.split_at_checked(5)?;
    let store = StoreId::new(s[0])?;
    let length = Size::new(read_u32(s, 1))?;
    Some((Step::Resize { store, length }, rest))
}

// The step that a script begins with, and the script behind it. There is none at the end, nor where it is cut, unknown or asks for more than the longest.
pub fn read_step(script: &[u8]) -> Option<(Step<'_>, &[u8])>
    ensures step { seen result ≡ step_in script.now }
    ensures rest { IfSome result (λ r. length r.1.now < length script.now) }
{
    let (code, s) = script.split_first()?;
    match *code {
        LOAD => read_called(Call::Load, s),
        PLAIN_CHANGE => read_called(Call::PlainChange, s),
        QUICK_CHANGE => read_called(Call::QuickChange, s),
        AUDIT => Some((Step::Audit, s)),
        WRITE => read_write(s),
        DEPTH => read_depth(s),
        POKE => read_poke(s),
        RESIZE => read_resize(s),
        _ => None,
    }
}
