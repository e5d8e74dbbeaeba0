// A customer of the sheet room: of two sheets fitted to one matrix, which tree is shorter, and its third record as it lies in
// the sheet. It is proved from the contracts of the rooms below and from the laws that they keep for customers.
#![tactic(auto)]

ghost use Rattle.std.specs.Prelude.{◌≡◌, length};
ghost use Rattle.verdict.specs.Answer.{pass};
ghost use Rattle.records.specs.Form.{start_of};
ghost use Rattle.reading.specs.Tests.{sheet_tests};
ghost use Rattle.planner.specs.Compared.{Chosen};
ghost use Rattle.planner.specs.Part.{Part, Handed, Shorter};

use verdict::{Place, Reason, Refusal, Rule};

// Which of two sheets has the shorter tree.
#[derive(Clone, Copy)]
pub enum Winner {
    First,
    Second,
}

// The sheet of the shorter tree, the first on a tie; the first sheet's refusal, then the second's, then 27.
pub fn choose(s: &[u8], t: &[u8]) -> Result<Winner, Refusal>
    ensures { Chosen s.now t.now result }
{
    let a = comparison::tree_length(s)?;
    let b = comparison::tree_length(t)?;
    if !comparison::same_matrix(s, t) {
        return Err(Refusal {
            reason: Reason::Matrices,
            place: Place::Nowhere,
        });
    }
    if comparison::less(b.numerator, b.denominator, a.numerator, a.denominator) {
        return Ok(Winner::Second);
    }
    Ok(Winner::First)
}

// The third record of an accepted sheet, head included, where it lies; of a sheet without its form the whole of it.
fn third(s: &[u8]) -> &[u8]
    ensures { sheet_tests Rule.Plain s.now ≡ pass → Part s.entry result (start_of s.now 2) (length s.now) }
{
    match records::records(s, 3) {
        Ok(laid) => &s[laid.starts[2]..],
        Err(_) => s,
    }
}

// The third record of the sheet that was chosen, where it lies; an empty part where the choice is a refusal.
pub fn record_of<'a>(s: &'a [u8], t: &'a [u8], choice: Result<Winner, Refusal>) -> &'a [u8]
    ensures { Chosen s.now t.now choice → Handed choice s.entry t.entry result }
{
    match choice {
        Err(_) => &s[0..0],
        Ok(Winner::First) => third(s),
        Ok(Winner::Second) => third(t),
    }
}

// Both in one call: the shorter tree's third record, and in `won` which sheet it lies in, 0 or 1. A refusal leaves `won` as it
// was and hands back an empty part; `choose` tells which refusal.
pub fn shorter<'a>(s: &'a [u8], t: &'a [u8], won: &mut u32) -> &'a [u8]
    ensures { Shorter s.entry t.entry won.old won.new result }
{
    let choice = choose(s, t);
    match choice {
        Err(_) => {}
        Ok(Winner::First) => {
            *won = 0;
        }
        Ok(Winner::Second) => {
            *won = 1;
        }
    }
    record_of(s, t, choice)
}
