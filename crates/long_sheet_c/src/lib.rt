// A long sheet's verdict, for programs in C: each function is the library's of the same name.
#![tactic(auto)]

ghost use Rattle.std.specs.Prelude.{◌≡◌};
ghost use Rattle.verdict.specs.Answer.{number};
ghost use Rattle.long_sheet.specs.LongSheets.{long_sheet_tests};

use verdict::Rule;

// The number that a long sheet gets, 0 where it is accepted.
#[unsafe(no_mangle)]
pub extern "C" fn long_verdict(s: &[u8]) -> u32
    ensures { result ≡ number (long_sheet_tests Rule.Plain s.now) }
{
    long_sheet::long_verdict(s)
}

// The same where no length may be negative.
#[unsafe(no_mangle)]
pub extern "C" fn long_verdict0(s: &[u8]) -> u32
    ensures { result ≡ number (long_sheet_tests Rule.Drawable s.now) }
{
    long_sheet::long_verdict0(s)
}
