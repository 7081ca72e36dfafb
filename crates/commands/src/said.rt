// What a program says. Not a `Result`: a refusal is said like an answer, and the error beside both is want of memory.
#[derive(Drop)]
pub enum Said {
    // the answer, for standard output
    Answer(String),
    // a refusal in plain words, for standard error
    Refusal(String),
}
