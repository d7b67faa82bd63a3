use ctw_ops::ValType;

/// A constant expression: the initial value of a global, or the offset of a segment
/// (W3C WebAssembly Core 1.0, section 3.3.7.2).
#[derive(Clone, Copy, Debug, PartialEq, Eq)]
pub enum ConstExpr {
    /// A number.
    Const {
        /// Its type.
        value: ValType,
        /// Its bits; those of width 32 are below 2^32.
        bits: u64,
    },
    /// The value of a global.
    Get {
        /// The global's index.
        global: u32,
    },
}
