use uni_base::Rows;

/// What a token is: a parenthesis, or an atom by its form.
#[derive(Clone, Copy, Debug, PartialEq, Eq)]
pub enum TokenKind {
    Left,
    Right,
    /// `friend`
    Name,
    /// `friend:1`
    Term,
    /// `friend:1*`, in format 2
    Stem,
    /// `friend:`
    Prefix,
    /// `:limit`
    Option,
    /// `10`
    Number,
    /// `1/2`
    Fraction,
}

/// A token: the text's bytes from one place up to another, counted from 0.
#[derive(Clone, Copy, Debug, PartialEq, Eq)]
pub struct Token {
    pub from: u32,
    pub to: u32,
    pub kind: TokenKind,
}

/// Tokens in their order.
pub type TokenList = Rows<Token>;
