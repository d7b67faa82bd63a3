/// A site's name: the place of a plain module that gets a label.
///
/// Functions and globals are numbered with imported ones first, locals with parameters first. `at` is the number of an
/// opcode in its function's body, counted from 0, `else` and `end` among them.
#[derive(Clone, Copy, Debug, PartialEq, Eq)]
pub enum SiteName {
    /// A parameter of a function.
    Param {
        /// The function.
        f: u32,
        /// The parameter's number.
        i: u32,
    },
    /// The result of a function.
    Result {
        /// The function.
        f: u32,
    },
    /// A global.
    GlobalOf {
        /// The global.
        g: u32,
    },
    /// The memory.
    Memory,
    /// A declared local of a function.
    Local {
        /// The function.
        f: u32,
        /// The local's number.
        i: u32,
    },
    /// The result of a block.
    Block {
        /// The function.
        f: u32,
        /// The opcode that opens the block.
        at: u32,
    },
    /// The own label of a numeric operation or a select.
    Op {
        /// The function.
        f: u32,
        /// The opcode.
        at: u32,
    },
    /// What an instruction pushes.
    Push {
        /// The function.
        f: u32,
        /// The opcode.
        at: u32,
    },
    /// A parameter of an indirect call.
    IParam {
        /// The function.
        f: u32,
        /// The opcode.
        at: u32,
        /// The parameter's number.
        i: u32,
    },
    /// The result of an indirect call.
    IResult {
        /// The function.
        f: u32,
        /// The opcode.
        at: u32,
    },
}
