// The lines that a desk is spoken to in (RULES, The desk's lines): specs/ says what they mean. Of the code only this stands here: what a
// bench may ask to be shown of its table, its report or its pairs.
#![tactic(auto)]

#[derive(Clone, Copy, PartialEq, Eq)]
pub enum View {
    Report,
    Pairs,
}
