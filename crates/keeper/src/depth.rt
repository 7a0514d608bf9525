// Depth: how many superclasses a class has above it.
ghost use Rattle.std.specs.Prelude.{◌≡◌};
ghost use Rattle.schema.specs.Store.{stores};
ghost use Rattle.keeper.specs.Depth.{depth};

use crate::check::check_shape;
use graph::depth::depth_of;
use schema::answer::Answer;
use schema::number::{ClassNumber, TableId};
use schema::refusal::Refusal;
use schema::store::row_count;

// The steps from a class up to row 0 as the place; 5 where there is no such class, 18 where a superclass met is not earlier.
pub fn depth(attributes: &[u8], classes: &[u8], closure: &[u8], class: u16) -> Answer
    ensures { result ≡ depth (stores attributes.now classes.now closure.now) class }
{
    if let Err(refusal) = check_shape(attributes, classes, closure) {
        return Answer::refused(refusal.number());
    }
    let Some(c) = ClassNumber::new(class as usize) else {
        return Answer::refused(Refusal::NoSuchRow.number());
    };
    if c.0 >= row_count(TableId::Classes, classes) {
        return Answer::refused(Refusal::NoSuchRow.number());
    }
    match depth_of(classes, c) {
        Some(steps) => Answer::done(steps),
        None => Answer::refused(Refusal::ClassNotLive.number()),
    }
}
