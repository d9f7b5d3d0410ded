/// A comparison of two integers of one type, or of two truth values (The Rust Reference, "Comparison operators").
#[derive(Clone, Copy)]
pub enum Cmp {
    Eq,
    Ne,
    Lt,
    Le,
    Gt,
    Ge,
}

/// A checked operation on two integers of one type (The Rust Reference, "Arithmetic and logical binary
/// operators"). A result outside the type, and a division by zero, are panics.
#[derive(Clone, Copy)]
pub enum Math {
    Add,
    Sub,
    Mul,
    /// The quotient, rounded toward zero.
    Div,
    /// The remainder, with the sign of the dividend.
    Rem,
}
