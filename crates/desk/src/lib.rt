// Programs: what an order on a board is answered, and what the desk promises of it.
#![tactic(auto)]

use network::Refusal;

#[derive(Clone, Copy)]
pub enum Reply {
    // Harmless, and so is each pair with any other exchange that is accepted.
    Open,
    // Harmless on the board as it is.
    Alone,
    Harmful { pattern: usize, output: usize },
    PairRefused { refusal: Refusal, pair: usize },
    FileRefused(Refusal),
}
