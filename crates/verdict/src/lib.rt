// The answer that every test of a sheet, a table or a buffer gives. `answer_of`, in specs/Answer.antt, says which
// number and place of RULES, Numbers of refusal, each case stands for; contracts speak of answers through it.
#![tactic(auto)]

ghost use Rattle.std.specs.Prelude.{◌≡◌};
ghost use Rattle.verdict.specs.Answer.{number_of, reason_number, answer_of, ◌or_else◌};

// Why something is refused: a case for each number of RULES, Numbers of refusal, in the order of the numbers.
#[derive(Clone, Copy, PartialEq, Eq)]
pub enum Reason {
    SheetTooLong,
    RecordCut,
    WrongKind,
    WrongCounts,
    BytesLeft,
    Strains,
    Distance,
    Vertices,
    Parent,
    Children,
    Edges,
    Denominator,
    Numerator,
    Remainders,
    Buffer,
    PastRoot,
    Text,
    Decimal,
    Halves,
    Bench,
    Nothing,
    Negative,
    ZeroEdge,
    Pair,
    Unresolved,
    Unmeasured,
    Matrices,
    Newick,
    Names,
}

// Where the fault is: the lowest byte, vertex or edge at fault, an edge with its sum, or no place of its own.
#[derive(Clone, Copy)]
pub enum Place {
    Nowhere,
    Byte(usize),
    Vertex(usize),
    Edge(usize),
    EdgeSum(usize, i64),
}

#[derive(Clone, Copy)]
pub struct Refusal {
    pub reason: Reason,
    pub place: Place,
}

// The rule of a verdict: which lengths may be proposed, and so with which tables a fit is compared. All, or, for those
// who draw the tree, only such without a negative length.
#[derive(Clone, Copy)]
pub enum Rule {
    Plain,
    Drawable,
}

// The answer of a test: it passes, or it is refused.
pub type Verdict = Result<(), Refusal>;

// The number of a refusal.
impl From<Reason> for u32 {
    ghost from_gives = { λ reason result. result ≡ reason_number reason };

    fn from(reason: Reason) -> u32 {
        match reason {
            Reason::SheetTooLong => 1,
            Reason::RecordCut => 2,
            Reason::WrongKind => 3,
            Reason::WrongCounts => 4,
            Reason::BytesLeft => 5,
            Reason::Strains => 6,
            Reason::Distance => 7,
            Reason::Vertices => 8,
            Reason::Parent => 9,
            Reason::Children => 10,
            Reason::Edges => 11,
            Reason::Denominator => 12,
            Reason::Numerator => 13,
            Reason::Remainders => 14,
            Reason::Buffer => 15,
            Reason::PastRoot => 16,
            Reason::Text => 17,
            Reason::Decimal => 18,
            Reason::Halves => 19,
            Reason::Bench => 20,
            Reason::Nothing => 21,
            Reason::Negative => 22,
            Reason::ZeroEdge => 23,
            Reason::Pair => 24,
            Reason::Unresolved => 25,
            Reason::Unmeasured => 26,
            Reason::Matrices => 27,
            Reason::Newick => 28,
            Reason::Names => 29,
        }
    }
}

// The number that a customer reads: 0 for what is accepted, otherwise the number of refusal.
pub fn number<T>(answer: &Result<T, Refusal>) -> u32
    ensures { result ≡ number_of answer.now }
{
    match answer {
        Ok(_) => 0,
        Err(refusal) => u32::from(refusal.reason),
    }
}

// The first of two answers that is a refusal.
pub fn or_else(a: Verdict, b: Verdict) -> Verdict
    ensures { answer_of result ≡ (answer_of a or_else answer_of b) }
{
    a.and(b)
}
