//! The code of a method, with the numbers of a unit in place of tokens, and its clauses. What the tokens mean is told
//! by who asks.
#![tactic(auto)]

mod call;
mod callees;
mod clause_numbers;
mod code_reader;
mod code_spelling;
mod numbers;
mod tokens;

pub use call::Call;
pub use code_reader::{MethodCode, read_code};
pub use code_spelling::spell_code;
pub use tokens::Tokens;
