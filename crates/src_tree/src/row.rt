/// A row of the grammar: what a node is. The forms are those of The Rust Reference, "Items", "Statements and
/// expressions", "Patterns" and "Type system", as far as the language has them.
#[derive(Clone, Copy)]
pub enum GrammarRow {
    /// item*
    File,
    /// derive? `struct` NAME, then `;`, or `(` types `)` `;`, or `{` fields `}`
    Struct,
    /// derive? `enum` NAME `{` variants `}`
    Enum,
    /// `trait` NAME `{` heads `}`
    Trait,
    /// `impl` NAME `{` methods `}`, or `impl` NAME `for` NAME `{` methods `}`
    Impl,
    /// `fn` NAME `(` parameters `)`, with `->` type or not, and a block: an item
    Fn,
    /// The same in an `impl`, where `self` may be the first parameter.
    Method,
    /// The same in a trait, with `;` for the block.
    Head,
    /// NAME `:` type
    Field,
    /// NAME, NAME `(` types `)`, or NAME `{` fields `}`
    Variant,
    /// A name that stands for itself, with its place.
    Ident,
    /// NAME
    NamedType,
    /// NAME `<` type `>`
    GenericType,
    /// NAME `<` `dyn` NAME `>`
    DynType,
    /// `Self`
    SelfType,
    /// `(` types `)`: parentheses where it is one type without a comma
    TupleType,
    /// `[` type `;` NUMBER `]`
    ArrayType,
    /// `!`
    NeverType,
    /// `&` type, `&` `mut` type
    RefType,
    /// `_`
    WildPattern,
    /// NAME, `mut` NAME
    BindPattern,
    /// NUMBER, `-` NUMBER
    NumberPattern,
    /// `true`, `false`
    BoolPattern,
    /// `Self`, or a path of two names
    PathPattern,
    /// path `(` patterns `)`
    CallPattern,
    /// path `{` field patterns `}`
    StructPattern,
    /// `(` patterns `)`: parentheses where it is one pattern without a comma
    TuplePattern,
    /// `[` patterns `]`
    ArrayPattern,
    /// pattern `|` pattern, and so on
    OrPattern,
    /// NAME `:` pattern, NAME, `mut` NAME
    FieldPattern,
    /// pattern `:` type
    Param,
    /// `self`, `mut self`, `&self`, `&mut self`
    SelfParam,
    /// `let` pattern, with `:` type or not, with `=` expression or not, `;`
    Let,
    /// `;`
    Empty,
    /// expression `;`
    Semi,
    /// `{` statements `}`. A statement without `;` is an expression: it is the value where it stands last.
    Block,
    /// `if` condition block, with `else` and a block or `if`, or without. The condition is an expression, or `let` pattern `=` expression.
    If,
    /// `match` expression `{` arms `}`
    Match,
    /// pattern, with `if` expression or not, `=>` body, and a comma, which may be absent behind a block
    Arm,
    /// An arm whose body is no block, without a comma: the last one.
    LastArm,
    /// `loop` block, with a label and `:` before it or not
    Loop,
    /// `while` condition block, with a label and `:` before it or not
    While,
    /// `return`, `return` expression
    Return,
    /// `break`, with a label or not, with an expression or not
    Break,
    /// `continue`, `continue` label
    Continue,
    /// A label that is gone to.
    LabelName,
    /// `move` `[` names `]`, then `||` or `|` parameters `|`, with `->` type or not, and a block
    Closure,
    /// `panic` `!` `(` `)`, with a text or not
    Panic,
    /// place `=` expression
    Assign,
    /// `||`
    Or,
    /// `&&`
    And,
    /// `==`, `!=`, `<`, `<=`, `>`, `>=`
    Compare,
    /// `+`, `-`
    Sum,
    /// `*`, `/`, `%`
    Product,
    /// `-`, `!`, `*`, `&`, `&` `mut` with an operand
    Prefix,
    /// expression `.` NAME
    FieldAccess,
    /// expression `.` NAME `(` expressions `)`
    MethodCall,
    /// expression `.` NUMBER
    TupleField,
    /// expression `(` expressions `)`
    Call,
    /// expression `[` expression `]`
    Index,
    /// NUMBER
    Number,
    /// `true`, `false`
    Truth,
    /// `self`
    SelfValue,
    /// NAME or `Self`, with `::` NAME or not
    Path,
    /// path `{` field initialisers `}`
    StructExpr,
    /// NAME `:` expression, NAME
    FieldInit,
    /// `(` expressions `)`: parentheses where it is one expression without a comma
    Round,
    /// `[` expressions `]`
    Square,
}

/// What kind of node a row is.
#[derive(Clone, Copy)]
pub enum Sort {
    File,
    Item,
    Method,
    Head,
    Field,
    Variant,
    Name,
    Type_,
    /// Patterns, parameters and arms, which begin with one.
    Pattern,
    FieldPattern,
    /// Expressions and statements.
    Expr,
    FieldInit,
    Label,
}
