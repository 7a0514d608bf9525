// Audit: whether stores that came from anywhere are in order.
ghost use Rattle.std.specs.Prelude.{◌≡◌};
ghost use Rattle.schema.specs.Store.{stores};
ghost use Rattle.keeper.specs.Audit.{audit};

use crate::check::check_shape;
use graph::closure::is_fresh;
use rules::judge::judge;
use rules::row::Added;
use schema::answer::Answer;
use schema::refusal::Refusal;

// 1, 2, the first rule from 12 to 29 that some row breaks with its table and lowest row, 3 where only the closure is wrong, else 0.
#[tactic(auto, using(crate::proofs::Auditing::audit_ends))]
pub fn audit<'a>(attributes: &'a [u8], classes: &'a [u8], closure: &[u8]) -> Answer
    ensures { result ≡ audit (stores attributes.now classes.now closure.now) }
{
    if let Err(refusal) = check_shape(attributes, classes, closure) {
        return Answer::refused(refusal.number());
    }
    if let Err(broken) = judge(Added::Nothing, attributes, classes) {
        return Answer::broken_by(broken.rule.number(), broken.row);
    }
    if is_fresh(classes, closure) {
        Answer::passed()
    } else {
        Answer::refused(Refusal::NotInOrder.number())
    }
}
