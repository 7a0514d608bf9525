// Load: a sheet into the stores. Document 01: "Load never looks at what stood in the stores; it reads left to right and gives 4 or 6, whichever comes
// first, then judges 12 to 29; refused by 4 or more, it leaves every store byte zero."
ghost use Rattle.std.specs.Prelude.{◌≡◌, IfErr};
ghost use Rattle.schema.specs.Refused.{given_answer};
ghost use Rattle.schema.specs.Store.{LongEnough, stores, result_of};
ghost use Rattle.sheet_read.specs.Held.{Lent};
ghost use Rattle.sheet_read.specs.Reading.{read_sheet};
ghost use Rattle.keeper.specs.Load.{emptied, load, ReadAndJudged};

use graph::closure::refresh_all;
use rules::judge::judge;
use rules::row::Added;
use schema::answer::Answer;
use schema::layout::{CLOSURE_LENGTH, store_length};
use schema::number::TableId;
use schema::refusal::Refusal;
use schema::store::any_short;
use sheet_read::read::{SheetError, read_sheet};
use tables::store::empty;

// Every byte of the stores becomes zero; those past their lengths stay.
fn empty_all(attributes: &mut [u8], classes: &mut [u8], closure: &mut [u8])
    requires { LongEnough (stores attributes.old classes.old closure.old) }
    ensures { stores attributes.new classes.new closure.new
        ≡ emptied (stores attributes.old classes.old closure.old) }
{
    empty(attributes, store_length(TableId::Attributes));
    empty(classes, store_length(TableId::Classes));
    empty(closure, CLOSURE_LENGTH);
}

// Reads a sheet into the tables, and judges the rows that it gave; refused with the answer that tells why.
fn read_and_judge(sheet: &[u8], attributes: &mut [u8], classes: &mut [u8]) -> Result<(), Answer>
    requires { Lent attributes.old classes.old }
    ensures left { ReadAndJudged (read_sheet sheet.now) attributes.old classes.old (given_answer result) attributes.new
        classes.new }
    ensures refused { IfErr result (λ a. ¬ (a.number ≡ 0)) }
{
    match read_sheet(sheet, attributes, classes) {
        Ok(()) => match judge(Added::Nothing, attributes, classes) {
            Ok(()) => Ok(()),
            Err(broken) => Err(Answer::broken_by(broken.rule.number(), broken.row)),
        },
        Err(SheetError::Bad { at }) => Err(Answer::unreadable(at)),
        Err(SheetError::Full { table }) => Err(Answer::full(table)),
    }
}

// Loads a sheet: done, the stores hold its rows and their closure.
#[tactic(auto, using(crate::proofs::Loading::load_ends), unfolding(schema::specs::Store::any_short))]
pub fn load(sheet: &[u8], attributes: &mut [u8], classes: &mut [u8], closure: &mut [u8]) -> Answer
    ensures { result_of result (stores attributes.new classes.new closure.new)
        ≡ load sheet.now (stores attributes.old classes.old closure.old) }
{
    if any_short(attributes, classes, closure) {
        return Answer::refused(Refusal::ShortStore.number());
    }
    match read_and_judge(sheet, attributes, classes) {
        Ok(()) => {
            refresh_all(classes, closure);
            Answer::passed()
        }
        Err(refused) => {
            empty_all(attributes, classes, closure);
            refused
        }
    }
}
