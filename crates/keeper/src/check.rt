// What every call but load asks of its stores before it looks at anything else.
ghost use Rattle.std.specs.Prelude.{◌≡◌};
ghost use Rattle.schema.specs.Answers.{passed};
ghost use Rattle.schema.specs.Refused.{outcome_answer};
ghost use Rattle.schema.specs.Store.{stores};
ghost use Rattle.schema.specs.Answering.{first_answer};
ghost use Rattle.keeper.specs.InShape.{shape_answers};
ghost use Rattle.keeper.specs.Order.{order_answers};

use graph::closure::is_fresh;
use rules::judge::judge;
use rules::row::Added;
use schema::refusal::Refusal;
use schema::store::any_short;
use tables_shape::stores_formed;

// Refused by 1 where a store is short, by 2 where the shape is broken.
pub fn check_shape(attributes: &[u8], classes: &[u8], closure: &[u8]) -> Result<(), Refusal>
    ensures { outcome_answer result ≡ first_answer (shape_answers (stores attributes.now classes.now closure.now)) passed }
{
    if any_short(attributes, classes, closure) {
        return Err(Refusal::ShortStore);
    }
    if stores_formed(attributes, classes) {
        Ok(())
    } else {
        Err(Refusal::BrokenShape)
    }
}

// Refused by 1 and 2 as above, by 3 where a row breaks a rule or the closure is not that of the rows.
pub fn check_order<'a>(
    attributes: &'a [u8],
    classes: &'a [u8],
    closure: &[u8],
) -> Result<(), Refusal>
    ensures { outcome_answer result ≡ first_answer (order_answers (stores attributes.now classes.now closure.now)) passed }
{
    check_shape(attributes, classes, closure)?;
    if judge(Added::Nothing, attributes, classes).is_err() {
        return Err(Refusal::NotInOrder);
    }
    if is_fresh(classes, closure) {
        Ok(())
    } else {
        Err(Refusal::NotInOrder)
    }
}
