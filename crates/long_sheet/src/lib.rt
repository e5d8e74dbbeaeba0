// A long sheet of bytes, judged: its records are read once, the digits of its lengths decoded, and all is lent to the verdict. Any bytes
// whatever get an answer.
#![tactic(auto)]

ghost use Rattle.std.specs.Prelude.{◌≡◌};
ghost use Rattle.verdict.specs.Answer.{answer_of, number};
ghost use Rattle.long_sheet.specs.LongSheets.{long_sheet_tests};

use verdict::{Rule, Verdict};

// The answer to a long sheet: 1 to 14, 16, 22, 23, 26, the first that applies.
pub fn long_judge(rule: Rule, s: &[u8]) -> Verdict
    ensures { answer_of result ≡ long_sheet_tests rule s.now }
{
    let sheet = long_reading::read_long(s)?;
    let pairs = sheet.pairs;
    let parents = sheet.parents;
    let end = sheet.end;
    let levels = sheet.levels;
    let count = levels * sheet.edges;
    let distances = sheet.distances;
    let d = long_decoding::denominator_digits(s, sheet.denominator, levels);
    let mut digits: [i64; long_decoding::MAX_DIGITS] = arrays::filled(0);
    long_decoding::digits_into(s, sheet.numerators, count, &mut digits[..count]);
    long_judging::judge_long_proposal(
        rule,
        sheet.strains,
        &distances[..pairs],
        &s[parents..end],
        &d[..levels],
        &digits[..count],
    )
}

// The number that a long sheet gets by a rule. The two verdicts share it.
fn long_number(rule: Rule, s: &[u8]) -> u32
    ensures { result ≡ number (long_sheet_tests rule s.now) }
{
    verdict::number(&long_judge(rule, s))
}

// The number that a long sheet gets, 0 where it is accepted. The crate long_sheet_c exports both verdicts to C.
pub fn long_verdict(s: &[u8]) -> u32
    ensures { result ≡ number (long_sheet_tests Rule.Plain s.now) }
{
    long_number(Rule::Plain, s)
}

// The same where no length may be negative.
pub fn long_verdict0(s: &[u8]) -> u32
    ensures { result ≡ number (long_sheet_tests Rule.Drawable s.now) }
{
    long_number(Rule::Drawable, s)
}
