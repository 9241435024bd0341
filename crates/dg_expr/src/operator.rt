//! The operators of expressions.
ghost use Rattle.std.specs.Prelude.{◌≡◌};
ghost use Rattle.dg_expr.specs.Grammar.{level_of};

/// An operator between two operands, in the order of expr(n), but that `eq` and `ne`, and `in` and `ni`,
/// bind looser than `==` and `!=`, each pair on a level of its own.
#[derive(Clone, Copy, Debug, PartialEq, Eq)]
pub enum Infix {
    /// `*`
    Times,
    /// `/`, rounding down.
    Over,
    /// `%`, with the divisor's sign.
    Remainder,
    /// `+`
    Plus,
    /// `-`
    Minus,
    /// `<<`
    ShiftLeft,
    /// `>>`, rounding down.
    ShiftRight,
    /// `<`: numbers where both are, else bytes in order. So are the five below.
    Less,
    /// `>`
    Greater,
    /// `<=`
    LessOrEqual,
    /// `>=`
    GreaterOrEqual,
    /// `==`
    Equal,
    /// `!=`
    NotEqual,
    /// `eq`: the same bytes.
    SameText,
    /// `ne`
    OtherText,
    /// `in`: an equal element of a list.
    In,
    /// `ni`
    NotIn,
    /// `&`
    BitAnd,
    /// `^`
    BitXor,
    /// `|`
    BitOr,
    /// `&&`: the right operand is looked at where the left is true.
    And,
    /// `||`: the right operand is looked at where the left is false.
    Or,
}

impl Infix {
    /// How tightly it binds: 1 is the loosest.
    pub fn level(self) -> u8
        ensures { result ≡ level_of self }
    {
        match self {
            Infix::Times | Infix::Over | Infix::Remainder => 12,
            Infix::Plus | Infix::Minus => 11,
            Infix::ShiftLeft | Infix::ShiftRight => 10,
            Infix::Less | Infix::Greater | Infix::LessOrEqual | Infix::GreaterOrEqual => 9,
            Infix::Equal | Infix::NotEqual => 8,
            Infix::SameText | Infix::OtherText => 7,
            Infix::In | Infix::NotIn => 6,
            Infix::BitAnd => 5,
            Infix::BitXor => 4,
            Infix::BitOr => 3,
            Infix::And => 2,
            Infix::Or => 1,
        }
    }
}

/// An operator before its operand.
#[derive(Clone, Copy, Debug, PartialEq, Eq)]
pub enum Prefix {
    /// `-`
    Negate,
    /// `+`
    Keep,
    /// `~`
    Complement,
    /// `!`
    Not,
}
