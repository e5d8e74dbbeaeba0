// What strains are called where they have no names: their numbers, one behind the other with a length byte before each, as names stand.
#![tactic(auto)]

ghost use Rattle.std.specs.Prelude.{◌≡◌};
ghost use Rattle.labels.specs.Labels.{number_names};

// The bytes of the numbers 0 to 63 as names.
pub const NUMBERS: usize = 182;

// The numbers of 64 strains as names.
pub fn numbers() -> [u8; NUMBERS]
    ensures { result ≡ number_names }
{
    [
        1, 48, 1, 49, 1, 50, 1, 51, 1, 52, 1, 53, 1, 54, 1, 55, 1, 56, 1, 57, 2, 49, 48, 2, 49, 49,
        2, 49, 50, 2, 49, 51, 2, 49, 52, 2, 49, 53, 2, 49, 54, 2, 49, 55, 2, 49, 56, 2, 49, 57, 2,
        50, 48, 2, 50, 49, 2, 50, 50, 2, 50, 51, 2, 50, 52, 2, 50, 53, 2, 50, 54, 2, 50, 55, 2, 50,
        56, 2, 50, 57, 2, 51, 48, 2, 51, 49, 2, 51, 50, 2, 51, 51, 2, 51, 52, 2, 51, 53, 2, 51, 54,
        2, 51, 55, 2, 51, 56, 2, 51, 57, 2, 52, 48, 2, 52, 49, 2, 52, 50, 2, 52, 51, 2, 52, 52, 2,
        52, 53, 2, 52, 54, 2, 52, 55, 2, 52, 56, 2, 52, 57, 2, 53, 48, 2, 53, 49, 2, 53, 50, 2, 53,
        51, 2, 53, 52, 2, 53, 53, 2, 53, 54, 2, 53, 55, 2, 53, 56, 2, 53, 57, 2, 54, 48, 2, 54, 49,
        2, 54, 50, 2, 54, 51,
    ]
}
