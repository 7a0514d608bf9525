// Plays replay scripts, from standard input and from files: loads, plain and quick changes, audits, writes, depths, pokes and resizes. Each step prints a
// line. A script, every store and every output has at most 64 KiB, since there is no heap; a step that is cut, unknown or asks for more ends the script,
// with no line of its own.
#![tactic(auto)]

ghost use Rattle.std.specs.Prelude.{◌≡◌};
ghost use Rattle.replay.specs.Steps.{said};
ghost use Rattle.replay.specs.Playing.{held, play_step};

mod hash;
mod player;
mod step;

use crate::hash::fnv1a;
use crate::player::Player;
use crate::step::{LONGEST, Step, read_step};
use input::read_full;
use std::io::Read;
use std::rt::Files;
use std::{fs, io};

// The line of a step: "name, number, table, place (poke, resize: 0 0 0), then an FNV-1a 64 hash of all bytes of each store in 16 hex digits; write
// adds the hash of the whole output lent". No contract can say which bytes the system is given, so the other functions that print have none; the gate
// compares what is printed.

fn say_hash(rt: &impl Print, s: &[u8]) -> io::Result<()> {
    let hash = fnv1a(s);
    print!(rt; " {hash:016x}")
}

// Takes a step and prints its line.
fn play_step(rt: &impl Print, step: &Step<'_>, player: &mut Player) -> io::Result<()>
    ensures stores { held player.new ≡ (play_step (said step.now) (held player.old) player.old.output.items).left }
    ensures output { player.new.output.items ≡ (play_step (said step.now) (held player.old) player.old.output.items).output }
{
    let answer = player.take(step);
    print!(rt;
        "{step} {} {} {}",
        answer.number, answer.table, answer.place
    )?;
    say_hash(rt, player.attributes.as_slice())?;
    say_hash(rt, player.classes.as_slice())?;
    say_hash(rt, player.closure.as_slice())?;
    if let Step::Write { .. } = step {
        say_hash(rt, player.output.as_slice())?;
    }
    println!(rt)
}

// Plays all steps, each on what the one before has left.
fn play_all(rt: &impl Print, script: &[u8]) -> io::Result<()> {
    let mut player = Player::new();
    let mut rest = script;
    // No count: how far a step reaches stands in the step.
    while let Some((step, behind)) = read_step(rest) {
        play_step(rt, &step, &mut player)?;
        rest = behind;
    }
    Ok(())
}

// Plays the script that a file holds.
fn play_from(rt: &impl Print, file: &mut impl Read) -> io::Result<()> {
    let mut script = [0u8; LONGEST];
    let n = read_full(file, &mut script)?;
    play_all(rt, &script[..n])
}

// Opens a file and plays its script.
fn play_named(rt: &(impl Files + Print), path: &str) -> io::Result<()> {
    let mut file = fs::open(rt, path)?;
    play_from(rt, &mut file)
}

// A script made at random, then those made by hand from documents 01 and 02.
fn main(rt: HostRuntime) -> io::Result<()> {
    play_from(&rt, &mut rt.reader())?;
    play_named(&rt, "places.script")?;
    play_named(&rt, "rules.script")?;
    play_named(&rt, "changes.script")?;
    play_named(&rt, "attributes.script")?;
    play_named(&rt, "overfull.script")?;
    play_named(&rt, "classes.script")?;
    play_named(&rt, "quick.script")
}
