//! Last-writer-wins registers (RR-7506): a register keeps the value that was written under the greatest
//! stamp, and a dot's fields are four registers that are joined one by one. No function here takes
//! memory.
#![tactic(auto)]

mod field_value;
mod fields;
pub mod laws;
mod register;

pub use field_value::FieldValue;
pub use fields::Fields;
pub use register::Register;
