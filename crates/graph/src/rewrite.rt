// The rows of a closure store, each rewritten in turn.
ghost use Rattle.std.specs.Prelude.{ℕ, List, ◌≡◌, ◌≤◌, ◌<◌, length};
ghost use Rattle.prelude.specs.Concat.{concat_below};
ghost use Rattle.prelude.specs.Part.{splice};
ghost use Rattle.schema.specs.Numbers.{class_limit};
ghost use Rattle.schema.specs.Layout.{closure_length};
ghost use Rattle.graph.specs.Rewrite.{AreRows, LeavesRows, TakesRows};

use schema::layout::CLOSURE_WIDTH;
use schema::number::{ClassNumber, class_at};
use schema::store::closure_start;

// The rows of the first n classes become what a function makes of each. What stands behind them is not touched.
pub fn rewrite_rows<F: Fn(ClassNumber, &mut [u8])>(closure: &mut [u8], n: usize, rewrite: F)
    requires long { (closure_length ≤ length closure.old) × (n ≤ class_limit) }
    requires callable { TakesRows (F.pre rewrite) n }
    ensures { (f : ℕ → List ℕ) → AreRows f → LeavesRows (F.post rewrite) closure.old n f
        → closure.new ≡ splice 0 (concat_below n f) closure.old }
{
    // By number, not by chunks_exact_mut: closure_start alone knows where the row of a class stands.
    for c in 0..n {
        let class = class_at(c);
        let at = closure_start(class);
        let end = at + CLOSURE_WIDTH;
        rewrite(class, &mut closure[at..end]);
    }
}
