use ctw_ops::Label;
use ctw_stack::Stack;

/// The open blocks of a pass with their operands, and for each whether it is a then arm that may still get its `else`;
/// the innermost one stands last.
#[derive(Drop)]
pub struct Levels {
    pub stack: Stack<Label>,
    pub arms: Vec<bool>,
}
